//! A map's value at exact numbers.

ghost use Rattle.std.specs.Prelude.{◌≡◌, ℕ, ◌*◌, ◌^◌, ◌<◌, ◌≤◌, ◌+ℤ◌, pos, length, unsigned_abs, slice_index_or, All};
ghost use Rattle.frac_laws.specs.Rounding.{floor_of};
ghost use Rattle.fixed_interval.specs.Intervals.{HasEndsUpTo};
ghost use Rattle.fixed_interval.specs.Rows.{low_ends, high_ends};
ghost use Rattle.map_laws.specs.Applied.{lo_at, hi_at};
ghost use Rattle.month_maps.specs.StoredMap.{HaveEndsUpTo, interval_map};

use fixed_interval::{Interval, affine_apply};

/// The floor of the middle of a row's value.
fn row_middle(row: &[Interval], free: &Interval, mid: &[i128]) -> i128
    requires lengths { length mid.now ≡ length row.now }
    requires few { length row.now ≤ 24 }
    requires row { All (λ a. HasEndsUpTo (2 ^ 66) a) row.now }
    requires free { HasEndsUpTo (2 ^ 66) free.now }
    requires mid { All (λ number. unsigned_abs number ≤ 2 ^ 66) mid.now }
    ensures { result ≡ floor_of ((free.now.lo +ℤ low_ends row.now mid.now)
        +ℤ (free.now.hi +ℤ high_ends row.now mid.now)) (pos 2) }
{
    let value = affine_apply(row, free, mid);
    (value.lo + value.hi) >> 1
}

/// Writes the middles of all rows.
pub(crate) fn apply_rows(
    numbers: &[Interval],
    dim: usize,
    free: &[Interval],
    old: &[i128],
    new: &mut [i128],
)
    requires dim { dim ≤ 12 }
    requires numbers { length numbers.now ≡ dim * dim }
    requires free { length free.now ≡ dim }
    requires old { length old.now ≡ dim }
    requires new { length new.old ≡ dim }
    requires small { HaveEndsUpTo (2 ^ 65) numbers.now }
    requires free_small { HaveEndsUpTo (2 ^ 65) free.now }
    requires old_small { (i : ℕ) → unsigned_abs (slice_index_or old.now i (pos 0)) ≤ 2 ^ 65 }
    ensures { (row : ℕ) → row < dim → slice_index_or new.new row (pos 0) ≡ floor_of
        (lo_at dim (interval_map dim numbers.now free.now) (λ col. slice_index_or old.now col (pos 0)) row
        +ℤ hi_at dim (interval_map dim numbers.now free.now) (λ col. slice_index_or old.now col (pos 0)) row) (pos 2) }
{
    for row in 0..dim {
        let from = row * dim;
        new[row] = row_middle(&numbers[from..from + dim], &free[row], old);
    }
}
