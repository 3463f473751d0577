// Files that are written out here. The chain of pairs is worked by hand.

use crate::{JoinBreak, JoinError, join};
use product_model::Product;
use product_reader::read_product;
use rate_bounds::{Admitted, admit};
use std::alloc::Global;
use std::test::Fail;

/// An annuity of 1200 a year for ten years, or until death.
const ANNUITY: &str = "format = 1\n\
    name = \"annuity\"\n\
    months = 120\n\
    den = 100\n\
    start = \"active\"\n\
    states = [\"active\", \"dead\"]\n\
    interest = [{ from = 0, c = [3] }]\n\
    \n\
    [[transition]]\n\
    from = \"active\"\n\
    to = \"dead\"\n\
    rate = [{ from = 0, c = [2] }]\n\
    \n\
    [[sojourn]]\n\
    state = \"active\"\n\
    steps = [{ from = 0, amount = 1200 }]\n";

/// A life of twenty years, whose intensity changes at the end of the annuity.
const LIFE: &str = "format = 1\n\
    name = \"life\"\n\
    months = 240\n\
    den = 100\n\
    start = \"active\"\n\
    states = [\"active\", \"dead\"]\n\
    interest = [{ from = 0, c = [0] }]\n\
    \n\
    [[transition]]\n\
    from = \"active\"\n\
    to = \"dead\"\n\
    rate = [{ from = 0, c = [5] }, { from = 120, c = [9] }]\n";

/// Two states for a year, over another denominator.
const SHORT: &str = "format = 1\n\
    name = \"short\"\n\
    months = 12\n\
    den = 1\n\
    start = \"a\"\n\
    states = [\"a\", \"b\"]\n\
    interest = [{ from = 0, c = [0] }]\n";

/// Four states for ten years.
const WIDE: &str = "format = 1\n\
    name = \"wide\"\n\
    months = 120\n\
    den = 100\n\
    start = \"a\"\n\
    states = [\"a\", \"b\", \"c\", \"d\"]\n\
    interest = [{ from = 0, c = [0] }]\n";

fn admitted(alloc: Global, file: &str) -> Result<Admitted, Fail> {
    Ok(admit(alloc, read_product(alloc, file.as_bytes())?)?)
}

// The part that is broken, with both numbers.
fn part_of(alloc: Global, a: &str, b: &str) -> Result<Option<JoinBreak>, Fail> {
    match join(alloc, &admitted(alloc, a)?, &admitted(alloc, b)?) {
        Ok(_) => Ok(None),
        Err(JoinError::Join(broken)) => Ok(Some(broken)),
        Err(error) => Err(error.into()),
    }
}

// The joint record of two files.
fn joined(alloc: Global, a: &str, b: &str) -> Result<Product, Fail> {
    Ok(join(alloc, &admitted(alloc, a)?, &admitted(alloc, b)?)?)
}

#[test]
fn two_lives_are_a_chain_of_four_pairs(rt: HostRuntime) -> Result<(), Fail> {
    let joint = joined(rt.alloc(), ANNUITY, LIFE)?;
    assert_eq!(rt; joint.graph().states(), 4);
    assert_eq!(rt; joint.months(), 120);
    assert_eq!(rt; joint.transitions(), 4);
    Ok(())
}

#[test]
fn parts_are_looked_at_in_their_order(rt: HostRuntime) -> Result<(), Fail> {
    for (a, b, part, first, second) in [
        (ANNUITY, SHORT, 1, 120, 12),
        (SHORT, ANNUITY, 2, 1, 100),
        (WIDE, WIDE, 3, 4, 4),
    ] {
        let broken = part_of(rt.alloc(), a, b)?.ok_or("joined")?;
        assert_eq!(rt; (broken.part, broken.a, broken.b), (part, first, second));
    }
    Ok(())
}
