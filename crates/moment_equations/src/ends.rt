//! The printed ends of a state's moments.

ghost use Rattle.std.specs.Prelude.{◌≡◌, ◌+◌, ◌*◌, ◌^◌, ◌≤◌, pos, ◌+ℤ◌, ◌-ℤ◌, ◌≤ℤ◌, unsigned_abs};
ghost use Rattle.frac_laws.specs.Fraction.{Fraction, over, whole, size, ◌*ℚ◌, ◌-ℚ◌, ◌≤ℚ◌};
ghost use Rattle.fixed_interval.specs.Intervals.{LiesIn, HasEndsUpTo};
ghost use Rattle.fixed_interval.specs.Printing.{LiesBetweenIn, AreEndsUpTo};
ghost use Rattle.moment_equations.specs.Kinds.{form_of, width_by, number_of};

use fixed_interval::{Interval, Printed};

// 1, in units of 2^-64.
const ONE: i128 = 1 << 64;

// What a table of moments holds.
#[derive(Clone, Copy, Debug, PartialEq, Eq)]
pub(crate) enum Moment {
    First,
    Second,
    Variance,
}

// A state's numbers at a date, in units of 2^-64, with their radii: the first moment at the scale 2^g, and the second
// one at 4^g.
#[derive(Clone, Copy)]
pub(crate) struct Middle {
    pub(crate) first: i128,
    pub(crate) second: i128,
    pub(crate) radius: u128,
    pub(crate) radius_second: u128,
    pub(crate) g: u32,
}

// The numbers within a radius of a number.
fn within(number: i128, radius: u128) -> Interval
    requires number { unsigned_abs number ≤ 2 ^ 65 }
    requires radius { radius ≤ 2 ^ 45 }
    ensures lo { result.lo ≡ number -ℤ pos radius }
    ensures hi { result.hi ≡ number +ℤ pos radius }
    ensures holds { (x : Fraction) → size (x -ℚ over number (2 ^ 64)) ≤ℚ over (pos radius) (2 ^ 64)
        → LiesIn x result }
{
    Interval::around(number, radius, 0)
}

// The squares of the numbers of size 1 at most that are within a radius of a number.
fn square_within(number: i128, radius: u128) -> Interval
    requires number { unsigned_abs number ≤ 2 ^ 64 + radius }
    requires radius { radius ≤ 2 ^ 45 }
    ensures narrow { result.hi ≤ℤ (result.lo +ℤ pos (4 * radius + 2)) }
    ensures small { HasEndsUpTo (2 ^ 66) result }
    ensures holds { (x : Fraction) → size x ≤ℚ whole (pos 1)
        → size (x -ℚ over number (2 ^ 64)) ≤ℚ over (pos radius) (2 ^ 64) → LiesIn (x *ℚ x) result }
{
    let near = within(number, radius);
    let met = Interval {
        lo: near.lo.max(-ONE),
        hi: near.hi.min(ONE),
    };
    met.mul(&met)
}

// The variance at the scale 4^g: the second moment's interval less that of the first one's square.
fn variance_within(middle: Middle) -> Interval
    requires first { unsigned_abs middle.first ≤ 2 ^ 64 + middle.radius }
    requires second { unsigned_abs middle.second ≤ 2 ^ 65 }
    requires radius { middle.radius ≤ 2 ^ 45 }
    requires radius_second { middle.radius_second ≤ 2 ^ 45 }
    ensures narrow { result.hi ≤ℤ (result.lo +ℤ pos (2 * middle.radius_second + 4 * middle.radius + 1024)) }
    ensures small { HasEndsUpTo (2 ^ 67) result }
    ensures holds { (y z : Fraction) → size y ≤ℚ whole (pos 1)
        → size (y -ℚ over middle.first (2 ^ 64)) ≤ℚ over (pos middle.radius) (2 ^ 64)
        → size (z -ℚ over middle.second (2 ^ 64)) ≤ℚ over (pos middle.radius_second) (2 ^ 64)
        → LiesIn (z -ℚ y *ℚ y) result }
{
    let square = square_within(middle.first, middle.radius);
    let second = within(middle.second, middle.radius_second);
    Interval {
        lo: second.lo - square.hi,
        hi: second.hi - square.lo,
    }
}

// The printed ends of a kind.
pub(crate) fn ends_of(kind: Moment, middle: Middle) -> Printed
    requires first { unsigned_abs middle.first ≤ 2 ^ 64 + middle.radius }
    requires second { unsigned_abs middle.second ≤ 2 ^ 65 }
    requires radius { middle.radius ≤ 2 ^ 45 }
    requires radius_second { middle.radius_second ≤ 2 ^ 45 }
    requires scale { middle.g ≤ 56 }
    ensures ordered { result.lo ≤ℤ result.hi }
    ensures narrow { result.hi ≤ℤ (result.lo +ℤ pos (width_by kind middle.radius middle.radius_second middle.g)) }
    ensures small { AreEndsUpTo (form_of kind).most result }
    ensures holds { (y z : Fraction) → size y ≤ℚ whole (pos 1)
        → size (y -ℚ over middle.first (2 ^ 64)) ≤ℚ over (pos middle.radius) (2 ^ 64)
        → size (z -ℚ over middle.second (2 ^ 64)) ≤ℚ over (pos middle.radius_second) (2 ^ 64)
        → LiesBetweenIn (form_of kind).unit result (number_of kind middle.g y z) }
{
    match kind {
        Moment::First => Interval::around(middle.first, middle.radius, middle.g).printed(),
        Moment::Second => within(middle.second, middle.radius_second).printed_whole(middle.g),
        Moment::Variance => variance_within(middle).printed_whole(middle.g),
    }
}
