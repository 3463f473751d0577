//! From units of 2^-64 to printed ends.

ghost use Rattle.std.specs.Prelude.{◌≡◌, ℕ, ◌^◌, pos, ◌+ℤ◌, ◌*ℤ◌, ◌≤ℤ◌};
ghost use Rattle.frac_laws.specs.Fraction.{Fraction};
ghost use Rattle.frac_laws.specs.Rounding.{floor_of, ceiling_of};
ghost use Rattle.fixed_interval.specs.Intervals.{LiesIn, HasEndsUpTo};
ghost use Rattle.fixed_interval.specs.Printing.{LiesBetween, AreSmallEnds, most_end, printed_width};

use crate::interval::Interval;
use crate::products::{ceil_product, floor_product};

/// The ends of an interval in printed units.
#[derive(Clone, Copy, Debug, PartialEq, Eq)]
pub struct Printed {
    /// Rounded down.
    pub lo: i128,
    /// Rounded up.
    pub hi: i128,
}

const MILLION: i128 = 1_000_000;

impl Interval {
    /// The ends in millionths, rounded outward.
    pub fn printed(&self) -> Printed
        requires { HasEndsUpTo most_end self.now }
        ensures lo { result.lo ≡ floor_of (self.now.lo *ℤ pos (10 ^ 6)) (pos (2 ^ 64)) }
        ensures hi { result.hi ≡ ceiling_of (self.now.hi *ℤ pos (10 ^ 6)) (pos (2 ^ 64)) }
        ensures ordered { result.lo ≤ℤ result.hi }
        ensures small { AreSmallEnds result }
        ensures encloses { (x : Fraction) → LiesIn x self.now → LiesBetween result x }
        ensures narrow { (width : ℕ) → self.now.hi ≤ℤ (self.now.lo +ℤ pos width)
            → result.hi ≤ℤ (result.lo +ℤ pos (printed_width width)) }
    {
        Printed {
            lo: floor_product(self.lo, MILLION),
            hi: ceil_product(self.hi, MILLION),
        }
    }
}
