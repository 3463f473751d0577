//! From units of 2^-64 at the scale of second moments to whole ends.

ghost use Rattle.std.specs.Prelude.{◌≡◌, ℕ, ◌^◌, ◌≤◌, pos, ◌+ℤ◌, ◌*ℤ◌, ◌≤ℤ◌, unsigned_abs};
ghost use Rattle.frac_laws.specs.Fraction.{Fraction, whole, ◌*ℚ◌};
ghost use Rattle.frac_laws.specs.Rounding.{floor_of, ceiling_of};
ghost use Rattle.fixed_interval.specs.Intervals.{LiesIn, HasEndsUpTo};
ghost use Rattle.fixed_interval.specs.Printing.{LiesBetweenIn, AreEndsUpTo, whole_width};

use crate::interval::Interval;
use crate::printed::Printed;

/// The floor of `v * 4^g / 2^64`: v units of 2^-64 at the scale 4^g, as a whole number, rounded down.
pub fn whole_floor(v: i128, g: u32) -> i128
    requires number { unsigned_abs v ≤ 2 ^ 70 }
    requires scale { g ≤ 56 }
    ensures value { result ≡ floor_of (v *ℤ pos (4 ^ g)) (pos (2 ^ 64)) }
    ensures size { unsigned_abs result ≤ 2 ^ 118 }
{
    if g < 32 {
        v >> (64 - 2 * g)
    } else {
        v * 2i128.pow(2 * g - 64)
    }
}

/// The ceiling of `v * 4^g / 2^64`: v units of 2^-64 at the scale 4^g, as a whole number, rounded up.
pub fn whole_ceil(v: i128, g: u32) -> i128
    requires number { unsigned_abs v ≤ 2 ^ 70 }
    requires scale { g ≤ 56 }
    ensures value { result ≡ ceiling_of (v *ℤ pos (4 ^ g)) (pos (2 ^ 64)) }
    ensures size { unsigned_abs result ≤ 2 ^ 118 }
{
    -whole_floor(-v, g)
}

impl Interval {
    /// The ends times 4^g as whole numbers, rounded outward.
    pub fn printed_whole(&self, g: u32) -> Printed
        requires ends { HasEndsUpTo (2 ^ 70) self.now }
        requires scale { g ≤ 56 }
        ensures lo { result.lo ≡ floor_of (self.now.lo *ℤ pos (4 ^ g)) (pos (2 ^ 64)) }
        ensures hi { result.hi ≡ ceiling_of (self.now.hi *ℤ pos (4 ^ g)) (pos (2 ^ 64)) }
        ensures ordered { result.lo ≤ℤ result.hi }
        ensures small { AreEndsUpTo (2 ^ 120) result }
        ensures encloses { (x : Fraction) → LiesIn x self.now
            → LiesBetweenIn 1 result (whole (pos (4 ^ g)) *ℚ x) }
        ensures narrow { (width : ℕ) → self.now.hi ≤ℤ (self.now.lo +ℤ pos width)
            → result.hi ≤ℤ (result.lo +ℤ pos (whole_width width g)) }
    {
        Printed {
            lo: whole_floor(self.lo, g),
            hi: whole_ceil(self.hi, g),
        }
    }
}
