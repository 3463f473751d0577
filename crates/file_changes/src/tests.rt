// Files that are written out here. The changed numbers are worked by hand.

use crate::{ChangeBreak, ChangeError, charge, multiply, shift};
use product_model::Product;
use product_reader::read_product;
use std::alloc::Global;
use std::test::Fail;

/// Two states that lead to each other, over hundredths.
const ILLNESS: &str = "format = 1\n\
    name = \"illness\"\n\
    months = 120\n\
    den = 100\n\
    start = \"well\"\n\
    states = [\"well\", \"ill\"]\n\
    interest = [{ from = 0, c = [3, 1] }, { from = 60, c = [4] }]\n\
    \n\
    [[transition]]\n\
    from = \"well\"\n\
    to = \"ill\"\n\
    rate = [{ from = 0, c = [5, 2] }]\n\
    \n\
    [[transition]]\n\
    from = \"ill\"\n\
    to = \"well\"\n\
    rate = [{ from = 0, c = [7] }]\n";

/// A coefficient near the largest of 64 bits.
const LARGE: &str = "format = 1\n\
    name = \"large\"\n\
    months = 12\n\
    den = 1\n\
    start = \"well\"\n\
    states = [\"well\"]\n\
    interest = [{ from = 0, c = [1000000000000000000] }]\n";

/// A premium at the start of each of two years, while well; lumps after one and two years.
const YEARLY: &str = "format = 1\n\
    name = \"yearly\"\n\
    months = 36\n\
    den = 1\n\
    start = \"well\"\n\
    states = [\"well\", \"ill\"]\n\
    interest = [{ from = 0, c = [0] }]\n\
    lump = [\n\
    { month = 12, state = \"well\", amount = 100 },\n\
    { month = 12, state = \"ill\", amount = 70 },\n\
    { month = 24, state = \"well\", amount = 500 },\n\
    ]\n\
    premium = { payers = [\"well\"], until = 24, every = 12 }\n";

/// A premium that is paid continuously for six months, while well or ill: a payment while well that varies, and none
/// while ill.
const HALF_YEAR: &str = "format = 2\n\
    name = \"half_year\"\n\
    months = 12\n\
    den = 1\n\
    start = \"well\"\n\
    states = [\"well\", \"ill\", \"dead\"]\n\
    interest = [{ from = 0, c = [0] }]\n\
    premium = { payers = [\"ill\", \"well\"], until = 6, every = 0 }\n\
    [[sojourn]]\n\
    state = \"dead\"\n\
    steps = [{ from = 0, c = [5] }]\n\
    [[sojourn]]\n\
    state = \"well\"\n\
    steps = [{ from = 0, c = [1200, 120] }, { from = 9, c = [7] }]\n";

/// One that is paid up to the term, beside a constant payment and one that varies.
const TO_THE_TERM: &str = "format = 2\n\
    name = \"to_the_term\"\n\
    months = 12\n\
    den = 1\n\
    start = \"well\"\n\
    states = [\"well\"]\n\
    interest = [{ from = 0, c = [0] }]\n\
    premium = { payers = [\"well\"], until = 12, every = 0 }\n\
    [[sojourn]]\n\
    state = \"well\"\n\
    steps = [{ from = 0, c = [24] }, { from = 6, c = [0, 1] }]\n";

/// One that ends where 0 + 1 t is 1/2.
const HALVES: &str = "format = 2\n\
    name = \"halves\"\n\
    months = 12\n\
    den = 1\n\
    start = \"well\"\n\
    states = [\"well\"]\n\
    interest = [{ from = 0, c = [0] }]\n\
    premium = { payers = [\"well\"], until = 6, every = 0 }\n\
    [[sojourn]]\n\
    state = \"well\"\n\
    steps = [{ from = 0, c = [0, 1] }]\n";

// The first two coefficients of each piece: those of the interest, and then those of the transitions.
fn numbers(alloc: Global, product: &Product) -> Result<Vec<(i64, i64)>, Fail> {
    let mut numbers = Vec::new(alloc);
    for piece in product.interest().pieces() {
        numbers.push((piece.c[0], piece.c[1]))?;
    }
    for transition in 0..product.transitions() {
        for piece in product.rate(transition).pieces() {
            numbers.push((piece.c[0], piece.c[1]))?;
        }
    }
    Ok(numbers)
}

// A file's product, with more interest.
fn shifted(alloc: Global, file: &str, units: i128, places: u32) -> Result<Product, Fail> {
    let product = read_product(alloc, file.as_bytes())?;
    Ok(shift(alloc, &product, units, places)?)
}

// With one intensity multiplied.
fn multiplied(
    alloc: Global,
    file: &str,
    to: &str,
    units: i128,
    places: u32,
) -> Result<Product, Fail> {
    let product = read_product(alloc, file.as_bytes())?;
    Ok(multiply(alloc, &product, "well", to, units, places)?)
}

// With a premium charged.
fn charged(alloc: Global, file: &str, amount: i64) -> Result<Product, Fail> {
    let product = read_product(alloc, file.as_bytes())?;
    Ok(charge(alloc, &product, amount)?)
}

#[test]
fn half_a_percent_more_interest(rt: HostRuntime) -> Result<(), Fail> {
    let changed = shifted(rt.alloc(), ILLNESS, 5, 3)?;
    let wanted = [(3500, 1000), (4500, 0), (5000, 2000), (7000, 0)];
    assert_eq!(rt; changed.den(), 100_000);
    assert_eq!(rt;
        numbers(rt.alloc(), &changed)?.as_slice(),
        wanted.as_slice()
    );
    Ok(())
}

#[test]
fn a_tenth_more_illness(rt: HostRuntime) -> Result<(), Fail> {
    let changed = multiplied(rt.alloc(), ILLNESS, "ill", 110, 2)?;
    let wanted = [(300, 100), (400, 0), (550, 220), (700, 0)];
    assert_eq!(rt; changed.den(), 10_000);
    assert_eq!(rt;
        numbers(rt.alloc(), &changed)?.as_slice(),
        wanted.as_slice()
    );
    Ok(())
}

// The months, states and amounts of the lumps.
fn amounts(alloc: Global, product: &Product) -> Result<Vec<(u32, usize, i64)>, Fail> {
    let mut amounts = Vec::new(alloc);
    for lump in product.plan().lumps() {
        amounts.push((lump.month, lump.state, lump.amount))?;
    }
    Ok(amounts)
}

#[test]
fn a_premium_is_taken_off_the_lumps(rt: HostRuntime) -> Result<(), Fail> {
    let changed = charged(rt.alloc(), YEARLY, 9)?;
    let wanted = [(12, 0, 91), (12, 1, 70), (24, 0, 500), (0, 0, -9)];
    assert_eq!(rt;
        amounts(rt.alloc(), &changed)?.as_slice(),
        wanted.as_slice()
    );
    Ok(())
}

// The states, starts and first two coefficients of the steps of the sojourns.
fn sojourn_numbers(alloc: Global, product: &Product) -> Result<Vec<(usize, u32, i64, i64)>, Fail> {
    let mut numbers = Vec::new(alloc);
    for (state, steps) in product.plan().sojourns() {
        for step in steps {
            numbers.push((*state, step.from, step.c[0], step.c[1]))?;
        }
    }
    Ok(numbers)
}

#[test]
fn a_premium_is_taken_off_the_sojourns(rt: HostRuntime) -> Result<(), Fail> {
    let half = [
        (2, 0, 5, 0),
        (0, 0, 1191, 120),
        (0, 6, 1260, 120),
        (0, 9, 7, 0),
        (1, 0, -9, 0),
        (1, 6, 0, 0),
    ];
    let changed = charged(rt.alloc(), HALF_YEAR, 9)?;
    assert_eq!(rt;
        sojourn_numbers(rt.alloc(), &changed)?.as_slice(),
        half.as_slice()
    );
    let whole = [(0, 0, 15, 0), (0, 6, -9, 1)];
    let changed = charged(rt.alloc(), TO_THE_TERM, 9)?;
    assert_eq!(rt;
        sojourn_numbers(rt.alloc(), &changed)?.as_slice(),
        whole.as_slice()
    );
    Ok(())
}

// The part by which a change is refused, and 0 where it is not.
fn part_of(changed: Result<Product, ChangeError>) -> u8 {
    match changed {
        Ok(_) => 0,
        Err(ChangeError::Change(ChangeBreak { part })) => part,
        Err(ChangeError::Memory) => 255,
    }
}

fn shift_part(alloc: Global, file: &str, units: i128, places: u32) -> Result<u8, Fail> {
    let product = read_product(alloc, file.as_bytes())?;
    Ok(part_of(shift(alloc, &product, units, places)))
}

fn multiply_part(alloc: Global, file: &str, to: &str) -> Result<u8, Fail> {
    let product = read_product(alloc, file.as_bytes())?;
    Ok(part_of(multiply(alloc, &product, "well", to, 1, 1)))
}

fn charge_part(alloc: Global, file: &str, amount: i64) -> Result<u8, Fail> {
    let product = read_product(alloc, file.as_bytes())?;
    Ok(part_of(charge(alloc, &product, amount)))
}

// 100 * 10^10 is the largest denominator, and 2^63 - 1 the largest coefficient.
#[test]
fn parts_of_a_shift(rt: HostRuntime) -> Result<(), Fail> {
    for (file, units, places, part) in [
        (ILLNESS, 0, 10, 0),
        (ILLNESS, 0, 11, 1),
        (ILLNESS, 0, 40, 1),
        (LARGE, 8_223_372_036_854_775_807, 0, 0),
        (LARGE, 8_223_372_036_854_775_808, 0, 2),
    ] {
        assert_eq!(rt; shift_part(rt.alloc(), file, units, places)?, part);
    }
    Ok(())
}

#[test]
fn parts_of_the_others(rt: HostRuntime) -> Result<(), Fail> {
    for (file, to, part) in [(ILLNESS, "ill", 0), (LARGE, "ill", 2), (ILLNESS, "dead", 3)] {
        assert_eq!(rt; multiply_part(rt.alloc(), file, to)?, part);
    }
    for (file, amount, part) in [
        (ILLNESS, 1, 4),
        (YEARLY, 1_000_000_000_000, 0),
        (YEARLY, 1_000_000_000_001, 5),
        (HALVES, 1, 6),
        (HALVES, 1_000_000_000_001, 5),
        (TO_THE_TERM, -1_000_000_000_000, 5),
        (TO_THE_TERM, 1_000_000_000_000, 0),
    ] {
        assert_eq!(rt; charge_part(rt.alloc(), file, amount)?, part);
    }
    Ok(())
}
