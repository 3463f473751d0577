//! Rows of intervals at exact numbers.

ghost use Rattle.std.specs.Prelude.{◌≡◌, ◌^◌, ◌≤◌, ◌+ℤ◌, length, unsigned_abs, All};
ghost use Rattle.frac_laws.specs.Fraction.{Fraction, ◌+ℚ◌};
ghost use Rattle.frac_laws.specs.Lists.{Vector, dot};
ghost use Rattle.fixed_interval.specs.Intervals.{LiesIn, HasEndsUpTo};
ghost use Rattle.fixed_interval.specs.Rows.{LiesInRow, low_ends, high_ends, fractions_of};

use crate::interval::Interval;

/// The row's value at `mid` plus `free`: each product is rounded outward once, and the sum is exact. So each end is at
/// most one unit a number of the row away from the exact one.
pub fn affine_apply(row: &[Interval], free: &Interval, mid: &[i128]) -> Interval
    requires lengths { length mid.now ≡ length row.now }
    requires few { length row.now ≤ 24 }
    requires row { All (λ i. HasEndsUpTo (2 ^ 66) i) row.now }
    requires free { HasEndsUpTo (2 ^ 66) free.now }
    requires mid { All (λ number. unsigned_abs number ≤ 2 ^ 66) mid.now }
    ensures lo { result.lo ≡ free.now.lo +ℤ low_ends row.now mid.now }
    ensures hi { result.hi ≡ free.now.hi +ℤ high_ends row.now mid.now }
    ensures size { HasEndsUpTo (2 ^ 73) result }
    ensures encloses { (xs : Vector) (f : Fraction) → LiesInRow xs row.now → LiesIn f free.now
        → LiesIn (f +ℚ dot xs (fractions_of mid.now)) result }
{
    let mut sum = *free;
    for (i, number) in row.iter().zip(mid) {
        sum = sum.add(&i.times(*number));
    }
    sum
}
