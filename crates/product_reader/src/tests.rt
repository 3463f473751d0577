// Files that are written out here. What they hold and where they break a rule is worked out by hand.
use crate::{ReadError, read_product};
use curve_pieces::Piece;
use payment_plan::{Lump, StepAmount};
use product_model::Product;
use rule_breaks::RuleBreak;
use std::alloc::Global;
use std::test::Fail;

/// A file of format 1 that has every key.
const FIRST: &str = "format = 1\n\
    name = \"first\"\n\
    months = 24\n\
    den = 1000\n\
    start = \"ill\"\n\
    states = [\"well\", \"ill\", \"dead\"]\n\
    interest = [{ from = 0, c = [30] }, { from = 12, c = [25, -1] }]\n\
    lump = [\n\
    { month = 24, state = \"well\", amount = 500 },\n\
    { month = 12, state = \"ill\", amount = -20 },\n\
    ]\n\
    \n\
    [[transition]]\n\
    from = \"well\"\n\
    to = \"ill\"\n\
    rate = [{ from = 0, c = [1, 2, 3, 4] }]\n\
    \n\
    [[transition]]\n\
    from = \"ill\"\n\
    to = \"dead\"\n\
    rate = [{ from = 0, c = [5] }, { from = 6, c = [7, 8] }]\n\
    sum = [{ from = 0, amount = 900 }, { from = 18, amount = 800 }]\n\
    \n\
    [[sojourn]]\n\
    state = \"ill\"\n\
    steps = [{ from = 0, amount = 70 }, { from = 3, amount = -60 }]\n\
    \n\
    [premium]\n\
    payers = [\"ill\", \"well\"]\n\
    until = 20\n\
    every = 3\n";

/// A file of format 2 with no lump and no premium.
const SECOND: &str = "format = 2\n\
    name = \"second\"\n\
    months = 24\n\
    den = 1_000\n\
    start = \"a\"\n\
    states = [\"a\", \"b\"]\n\
    interest = [{ from = 0, c = [1, 2, 3, 4, 5, 6] }]\n\
    \n\
    [[transition]]\n\
    from = \"b\"\n\
    to = \"a\"\n\
    rate = [{ from = 0, c = [0, 1] }]\n\
    sum = [{ from = 0, c = [10, 20, 30, 40] }, { from = 12, c = [50] }]\n\
    \n\
    [[sojourn]]\n\
    state = \"b\"\n\
    steps = [{ from = 0, c = [1, 2] }]\n";

/// The product of a text.
fn product_in(alloc: Global, text: &str) -> Result<Product, Fail> {
    Ok(read_product(alloc, text.as_bytes())?)
}

/// The pieces of the rate of a transition.
fn rate(product: &Product, transition: usize) -> &[Piece] {
    if transition < product.transitions() {
        product.rate(transition).pieces()
    } else {
        &[]
    }
}

/// The states that a transition leads from and to.
fn pair(product: &Product, transition: usize) -> Option<(usize, usize)> {
    if transition < product.graph().transitions() {
        Some(product.graph().pair(transition))
    } else {
        None
    }
}

/// The steps of the sum of a transition.
fn sum(product: &Product, transition: usize) -> &[StepAmount] {
    if transition < product.transitions() {
        product.plan().sums(transition)
    } else {
        &[]
    }
}

const fn piece(from: u32, c: [i64; 6]) -> Piece {
    Piece { from, c }
}

const fn step(from: u32, c: [i64; 4]) -> StepAmount {
    StepAmount { from, c }
}

const LUMPS: [Lump; 2] = [
    Lump {
        month: 24,
        state: 0,
        amount: 500,
    },
    Lump {
        month: 12,
        state: 1,
        amount: -20,
    },
];

#[test]
fn reads_format_1(rt: HostRuntime) -> Result<(), Fail> {
    let product = product_in(rt.alloc(), FIRST)?;
    assert_eq!(rt; product.name(), b"first".as_slice());
    assert_eq!(rt; product.start(), 1);
    assert_eq!(rt; product.months(), 24);
    assert_eq!(rt; product.den(), 1000);
    assert_eq!(rt; product.graph().state_of(b"dead"), Some(2));
    assert_eq!(rt; product.graph().states(), 3);
    let interest = [
        piece(0, [30, 0, 0, 0, 0, 0]),
        piece(12, [25, -1, 0, 0, 0, 0]),
    ];
    assert_eq!(rt; product.interest().pieces(), interest.as_slice());
    assert_eq!(rt; product.transitions(), 2);
    assert_eq!(rt; pair(&product, 0), Some((0, 1)));
    assert_eq!(rt; pair(&product, 1), Some((1, 2)));
    let first = [piece(0, [1, 2, 3, 4, 0, 0])];
    assert_eq!(rt; rate(&product, 0), first.as_slice());
    let second = [piece(0, [5, 0, 0, 0, 0, 0]), piece(6, [7, 8, 0, 0, 0, 0])];
    assert_eq!(rt; rate(&product, 1), second.as_slice());
    Ok(())
}

#[test]
fn reads_payments_of_format_1(rt: HostRuntime) -> Result<(), Fail> {
    let product = product_in(rt.alloc(), FIRST)?;
    assert_eq!(rt; sum(&product, 0), [].as_slice());
    let steps = [step(0, [900, 0, 0, 0]), step(18, [800, 0, 0, 0])];
    assert_eq!(rt; sum(&product, 1), steps.as_slice());
    let (state, rate) = product.plan().sojourns().first().ok_or("no sojourn")?;
    assert_eq!(rt; *state, 1);
    let steps = [step(0, [70, 0, 0, 0]), step(3, [-60, 0, 0, 0])];
    assert_eq!(rt; rate.as_slice(), steps.as_slice());
    assert_eq!(rt; product.plan().lumps(), LUMPS.as_slice());
    let pattern = product.plan().pattern();
    assert_eq!(rt; pattern.payers.as_slice(), [1, 0].as_slice());
    assert_eq!(rt; pattern.until, 20);
    assert_eq!(rt; pattern.every, 3);
    Ok(())
}

#[test]
fn reads_format_2(rt: HostRuntime) -> Result<(), Fail> {
    let product = product_in(rt.alloc(), SECOND)?;
    let interest = [piece(0, [1, 2, 3, 4, 5, 6])];
    assert_eq!(rt; product.interest().pieces(), interest.as_slice());
    assert_eq!(rt; pair(&product, 0), Some((1, 0)));
    let steps = [step(0, [10, 20, 30, 40]), step(12, [50, 0, 0, 0])];
    assert_eq!(rt; sum(&product, 0), steps.as_slice());
    let (state, rate) = product.plan().sojourns().first().ok_or("no sojourn")?;
    assert_eq!(rt; *state, 1);
    assert_eq!(rt; rate.as_slice(), [step(0, [1, 2, 0, 0])].as_slice());
    assert_eq!(rt; product.plan().lumps(), [].as_slice());
    assert_eq!(rt; product.plan().pattern().payers.len(), 0);
    Ok(())
}

/// Why a file is refused whose first `old` is replaced.
fn refused(alloc: Global, file: &str, old: &str, new: &str) -> Result<Option<ReadError>, Fail> {
    let (before, after) = file.split_once(old).ok_or("no such text in the file")?;
    let text = format!(in alloc; "{before}{new}{after}")?;
    Ok(read_product(alloc, text.as_bytes()).err())
}

#[test]
fn breaks_a_rule_of_format_1(rt: HostRuntime) -> Result<(), Fail> {
    let cases = [
        ("format = 1", "format = 3", 2, 0),
        // the third state has the name of the second
        ("\"dead\"", "\"ill\"", 3, 4),
        // the second piece of the second transition's rate
        ("from = 6", "from = 0", 8, 8193),
        // the second transition's sum
        (
            "[{ from = 0, amount = 900",
            "[{ from = 1, amount = 900",
            10,
            4096,
        ),
        ("12, state = \"ill\"", "24, state = \"well\"", 12, 1),
        ("\"ill\", \"well\"]", "\"ill\", \"ill\"]", 13, 2),
        ("every = 3", "every = 1201", 14, 1),
    ];
    for (old, new, rule, place) in cases {
        assert_eq!(rt;
            refused(rt.alloc(), FIRST, old, new)?,
            Some(ReadError::Rule(RuleBreak { rule, place })),
            "{new}"
        );
    }
    Ok(())
}

#[test]
fn breaks_a_rule_of_format_2(rt: HostRuntime) -> Result<(), Fail> {
    let cases = [
        ("start = \"a\"\n", "", 1, 4),
        // 24 ^ 5 is 7962624, and 2 * 10 ^ 15 times that is above 10 ^ 22
        ("5, 6]", "5, 2000000000000000]", 9, 0),
        // after the list of the one transition comes that of the sojourn
        ("[1, 2] }", "[1, 2, 3, 4, 5] }", 10, 4096),
        ("c = [50]", "c = [1000000000001]", 11, 1),
    ];
    for (old, new, rule, place) in cases {
        assert_eq!(rt;
            refused(rt.alloc(), SECOND, old, new)?,
            Some(ReadError::Rule(RuleBreak { rule, place })),
            "{new}"
        );
    }
    // a key that comes twice is no TOML
    assert_eq!(rt;
        refused(rt.alloc(), SECOND, "months", "months = 1\nmonths")?,
        Some(ReadError::NotToml)
    );
    Ok(())
}
