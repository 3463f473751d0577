//! From a midpoint and a radius to an interval.

ghost use Rattle.std.specs.Prelude.{◌≡◌, ℕ, ◌-◌, ◌*◌, ◌^◌, ◌≤◌, ◌+ℤ◌, ◌-ℤ◌, ◌*ℤ◌, pos, unsigned_abs};
ghost use Rattle.frac_laws.specs.Fraction.{Fraction, whole, over, size, ◌-ℚ◌, ◌*ℚ◌, ◌≤ℚ◌};
ghost use Rattle.fixed_interval.specs.Intervals.{LiesIn, LiesInside, HasEndsUpTo};

use crate::interval::Interval;

// A number times 2^g.
fn scaled(number: i128, g: u32) -> i128
    requires number { unsigned_abs number ≤ 2 ^ 66 }
    requires scale { g ≤ 56 }
    ensures value { result ≡ number *ℤ pos (2 ^ g) }
    ensures size { unsigned_abs result ≤ 2 ^ 122 }
{
    number * (2u128.pow(g) as i128)
}

impl Interval {
    /// The numbers that are at most a radius away from a midpoint, both in units of 2^-64, times 2^g. Exact.
    pub fn around(mid: i128, radius: u128, g: u32) -> Interval
        requires mid { unsigned_abs mid ≤ 2 ^ 65 }
        requires radius { radius ≤ 2 ^ 45 }
        requires scale { g ≤ 56 }
        ensures lo { result.lo ≡ (mid -ℤ pos radius) *ℤ pos (2 ^ g) }
        ensures hi { result.hi ≡ (mid +ℤ pos radius) *ℤ pos (2 ^ g) }
        ensures width { result.hi ≡ result.lo +ℤ pos (2 * radius * 2 ^ g) }
        ensures size { HasEndsUpTo (2 ^ 122) result }

        // A number that is nearer to the midpoint by some units lies as many times 2^g units inside both ends.
        ensures encloses { (x : Fraction) → size (x -ℚ over mid (2 ^ 64)) ≤ℚ over (pos radius) (2 ^ 64)
            → LiesIn (whole (pos (2 ^ g)) *ℚ x) result }
        ensures spares { (x : Fraction) (near : ℕ) → near ≤ radius
            → size (x -ℚ over mid (2 ^ 64)) ≤ℚ over (pos near) (2 ^ 64)
            → LiesInside ((radius - near) * 2 ^ g) (whole (pos (2 ^ g)) *ℚ x) result }
    {
        Interval {
            lo: scaled(mid - radius as i128, g),
            hi: scaled(mid + radius as i128, g),
        }
    }
}
