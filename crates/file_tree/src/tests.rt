// A file that is written out here, and what stands where in it.
use crate::*;
use std::test::Fail;

// A file of format 1.
const FIRST: &str = "format = 1\n\
    name = \"first\"\n\
    months = 12\n\
    den = 1\n\
    start = \"a\"\n\
    states = [\"a\", \"b\"]\n\
    interest = [{ from = 0, c = [0] }]\n\
    lump = [{ month = 12, state = \"a\", amount = 5 }]\n\
    \n\
    [[transition]]\n\
    from = \"a\"\n\
    to = \"b\"\n\
    rate = [{ from = 0, c = [1] }, { from = 6, c = [2, 3] }]\n\
    sum = [{ from = 0, amount = 7 }]\n\
    \n\
    [[sojourn]]\n\
    state = \"b\"\n\
    steps = [{ from = 0, amount = 9 }]\n\
    \n\
    [premium]\n\
    payers = [\"a\"]\n\
    until = 11\n\
    every = 1\n";

#[test]
fn looks_up_by_type(rt: HostRuntime) -> Result<(), Fail> {
    let tree = toml::table_from_str(rt.alloc(), FIRST)?;
    assert!(rt; is_format_1(&tree) && !is_absent(&tree, "lump"));
    assert_eq!(rt;
        (whole_of(&tree, "months"), text_of(&tree, "name")),
        (12, "first")
    );
    assert_eq!(rt;
        (states(&tree).len(), items_of(&tree, "none").len()),
        (2, 0)
    );
    let transition = transitions(&tree).first().ok_or("no transition")?;
    let ends = (
        state_index(&tree, "from", transition),
        state_at(&tree, "to", transition),
    );
    assert_eq!(rt; ends, (0, Some(1)));
    assert_eq!(rt; state_of(&tree, "c"), None);
    let piece = curve(&tree, 1).last().ok_or("no piece")?;
    assert_eq!(rt; (start_of(piece), natural_within(piece, "from")), (6, 6));
    assert_eq!(rt; piece_coefficients(piece), [2, 3, 0, 0, 0, 0]);
    let step = sum_of(transition).first().ok_or("no step")?;
    assert_eq!(rt; amount_of(&tree, step), [7, 0, 0, 0]);
    let sojourn = sojourns(&tree).first().ok_or("no sojourn")?;
    assert_eq!(rt;
        (steps_of(sojourn).len(), is_absent_within(sojourn, "sum")),
        (1, true)
    );
    let lump = lumps(&tree).first().ok_or("no lump")?;
    assert_eq!(rt; (whole_within(lump, "amount"), natural_part(-5)), (5, 0));
    let payer = payers(&tree).first().ok_or("no payer")?;
    assert_eq!(rt; (text_in(payer), payer_index(&tree, payer)), ("a", 0));
    assert_eq!(rt; premium_whole(&tree, "until"), 11);
    assert_eq!(rt; curve(&tree, 0).len(), 1);
    Ok(())
}

#[test]
fn keys_hold_by_kind(rt: HostRuntime) -> Result<(), Fail> {
    let tree = toml::table_from_str(rt.alloc(), FIRST)?;
    assert!(rt; has_keys(&tree, &top_keys()));
    assert!(rt; !has_keys(&tree, &lump_keys()));
    let transition = transitions(&tree).first().ok_or("no transition")?;
    assert!(rt; is_table_of(transition, &transition_keys()));
    let piece = curve(&tree, 1).last().ok_or("no piece")?;
    assert!(rt; is_table_of(piece, &piece_keys(2)) && !is_table_of(piece, &piece_keys(1)));
    let step = sum_of(transition).first().ok_or("no step")?;
    assert!(rt; is_table_of(step, &constant_step_keys()) && !is_table_of(step, &piece_keys(4)));
    let name = states(&tree).first().ok_or("no state")?;
    assert!(rt; !is_table_of(name, &sojourn_keys()));
    let price = Key {
        name: "price",
        kind: Kind::Whole,
        is_needed: false,
    };
    assert!(rt; has_key(&tree, &price) && has_premium(&tree));
    Ok(())
}
