// Files that are written out here, and the trees that they have in format 2.

use crate::upgrade;
use product_reader::read_product;
use rate_bounds::admit;
use std::alloc::Global;
use std::test::Fail;
use toml::Value;

/// A product of format 1 that has every part.
const WHOLE: &str = "format = 1\n\
    name = \"whole\"\n\
    months = 24\n\
    den = 1000\n\
    start = \"ill\"\n\
    states = [\"well\", \"ill\", \"dead\"]\n\
    interest = [{ from = 0, c = [30] }, { from = 12, c = [25, -1] }]\n\
    lump = [\n\
    { month = 24, state = \"well\", amount = 500 },\n\
    { month = 12, state = \"ill\", amount = -20 },\n\
    ]\n\
    \n\
    [[transition]]\n\
    from = \"well\"\n\
    to = \"ill\"\n\
    rate = [{ from = 0, c = [1, 2, 3, 4] }]\n\
    \n\
    [[transition]]\n\
    from = \"ill\"\n\
    to = \"dead\"\n\
    rate = [{ from = 0, c = [5] }, { from = 6, c = [7, 8] }]\n\
    sum = [{ from = 0, amount = 900 }, { from = 18, amount = 800 }]\n\
    \n\
    [[sojourn]]\n\
    state = \"ill\"\n\
    steps = [{ from = 0, amount = 70 }, { from = 3, amount = -60 }]\n\
    \n\
    [premium]\n\
    payers = [\"ill\", \"well\"]\n\
    until = 20\n\
    every = 3\n";

/// A product of one state that pays nothing.
const BARE: &str = "format = 2\n\
    name = \"bare\"\n\
    months = 1\n\
    den = 1\n\
    start = \"on\"\n\
    states = [\"on\"]\n\
    interest = [{ from = 0, c = [0] }]\n";

// The text of a file's product in format 2.
fn upgraded(alloc: Global, file: &[u8]) -> Result<Vec<u8>, Fail> {
    Ok(upgrade(alloc, &admit(alloc, read_product(alloc, file)?)?)?)
}

// What stands in an array of tables at a place: the value at a key.
fn at<'a>(items: &'a Value, place: usize, key: &str) -> Option<&'a Value> {
    items.get(place)?.get(key)
}

// The whole number at a place of an array.
fn whole(numbers: &Value, place: usize) -> Option<i64> {
    numbers.get(place)?.as_integer()
}

#[test]
fn steps_become_coefficients(rt: HostRuntime) -> Result<(), Fail> {
    let tree = toml::table_from_slice(rt.alloc(), &upgraded(rt.alloc(), WHOLE.as_bytes())?)?;
    assert_eq!(rt; tree.get("format").and_then(Value::as_integer), Some(2));
    let sojourns = tree.get("sojourn").ok_or("no sojourn")?;
    let steps = at(sojourns, 0, "steps").ok_or("no steps")?;
    let second = at(steps, 1, "c").ok_or("no coefficients")?;
    for (i, wanted) in [(0, -60), (1, 0), (2, 0), (3, 0)] {
        assert_eq!(rt; whole(second, i), Some(wanted));
    }
    assert_eq!(rt; at(steps, 1, "from").and_then(Value::as_integer), Some(3));
    Ok(())
}

#[test]
fn every_part_is_written(rt: HostRuntime) -> Result<(), Fail> {
    let tree = toml::table_from_slice(rt.alloc(), &upgraded(rt.alloc(), WHOLE.as_bytes())?)?;
    let lumps = tree.get("lump").ok_or("no lump")?;
    assert_eq!(rt;
        at(lumps, 1, "amount").and_then(Value::as_integer),
        Some(-20)
    );
    let transitions = tree.get("transition").ok_or("no transition")?;
    assert_eq!(rt; at(transitions, 0, "sum").is_none(), true);
    assert_eq!(rt;
        at(transitions, 1, "to").and_then(Value::as_str),
        Some("dead")
    );
    let premium = tree.get("premium").ok_or("no premium")?;
    assert_eq!(rt; premium.get("every").and_then(Value::as_integer), Some(3));
    Ok(())
}

#[test]
fn an_upgraded_text_is_upgraded_to_itself(rt: HostRuntime) -> Result<(), Fail> {
    for file in [WHOLE, BARE] {
        let text = upgraded(rt.alloc(), file.as_bytes())?;
        assert_eq!(rt; upgraded(rt.alloc(), &text)?, text);
    }
    Ok(())
}
