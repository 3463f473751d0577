//! Intervals, their sums, products and meetings.

ghost use Rattle.std.specs.Prelude.{◌≤ℤ◌};

use crate::products::{ceil_product, floor_product};

/// The numbers from `lo` to `hi`, both included, in units of 2^-64.
#[derive(Clone, Copy, Debug, PartialEq, Eq)]
pub struct Interval {
    pub lo: i128,
    pub hi: i128,
    pub ghost ordered: { lo ≤ℤ hi },
}

impl Interval {
    ghost use Rattle.std.specs.Prelude.{◌≡◌, ◌↔◌, ◌^◌, ◌≤◌, ◌+ℤ◌, pos, unsigned_abs, IsNone, IfSome};
    ghost use Rattle.frac_laws.specs.Fraction.{Fraction, ◌+ℚ◌, ◌*ℚ◌};
    ghost use Rattle.frac_laws.specs.Rounding.{floor_of, ceiling_of};
    ghost use Rattle.fixed_interval.specs.Intervals.{LiesIn, HasEndsUpTo};
    ghost use Rattle.fixed_interval.specs.Products.{least_product, greatest_product, low_end, high_end};

    /// The sums of a number of each. Exact.
    pub fn add(&self, o: &Interval) -> Interval
        requires first { HasEndsUpTo (2 ^ 125) self.now }
        requires second { HasEndsUpTo (2 ^ 125) o.now }
        ensures lo { result.lo ≡ self.now.lo +ℤ o.now.lo }
        ensures hi { result.hi ≡ self.now.hi +ℤ o.now.hi }
        ensures encloses { (x y : Fraction) → LiesIn x self.now → LiesIn y o.now → LiesIn (x +ℚ y) result }
    {
        Interval {
            lo: self.lo + o.lo,
            hi: self.hi + o.hi,
        }
    }

    // The products of its numbers by one number, rounded outward once.
    pub(crate) fn times(&self, number: i128) -> Interval
        requires first { HasEndsUpTo (2 ^ 66) self.now }
        requires second { unsigned_abs number ≤ 2 ^ 66 }
        ensures lo { result.lo ≡ low_end number self.now }
        ensures hi { result.hi ≡ high_end number self.now }
        ensures size { HasEndsUpTo (2 ^ 68) result }
    {
        Interval {
            lo: floor_product(number, self.lo).min(floor_product(number, self.hi)),
            hi: ceil_product(number, self.lo).max(ceil_product(number, self.hi)),
        }
    }

    /// The products of a number of each: the least one rounded down, and the greatest one rounded up, once.
    pub fn mul(&self, o: &Interval) -> Interval
        requires first { HasEndsUpTo (2 ^ 66) self.now }
        requires second { HasEndsUpTo (2 ^ 66) o.now }
        ensures lo { result.lo ≡ floor_of (least_product self.now o.now) (pos (2 ^ 64)) }
        ensures hi { result.hi ≡ ceiling_of (greatest_product self.now o.now) (pos (2 ^ 64)) }
        ensures size { HasEndsUpTo (2 ^ 68) result }
        ensures encloses { (x y : Fraction) → LiesIn x self.now → LiesIn y o.now → LiesIn (x *ℚ y) result }
    {
        let of_lo = o.times(self.lo);
        let of_hi = o.times(self.hi);
        Interval {
            lo: of_lo.lo.min(of_hi.lo),
            hi: of_lo.hi.max(of_hi.hi),
        }
    }

    /// Exactly the numbers that lie in both, or `None` where there are none.
    pub fn meet(&self, o: &Interval) -> Option<Interval>
        ensures none { IsNone result ↔ ((x : Fraction) → ¬ (LiesIn x self.now × LiesIn x o.now)) }
        ensures some { IfSome result (λ both. (x : Fraction)
            → LiesIn x both ↔ (LiesIn x self.now × LiesIn x o.now)) }
    {
        let lo = self.lo.max(o.lo);
        let hi = self.hi.min(o.hi);
        if lo <= hi {
            Some(Interval { lo, hi })
        } else {
            None
        }
    }
}
