//! Writing the numbers of second moments into a stored system.

ghost use Rattle.std.specs.Prelude.{ℕ, ◌*◌, ◌^◌, ◌<◌, ◌≤◌, pos, ◌*ℤ◌, unsigned_abs, slice_index_or};
ghost use Rattle.linear_system.specs.StoredSystem.{dim_of};
ghost use Rattle.linear_system.specs.Setting.{HasPlace};
ghost use Rattle.cell_coeffs.specs.Cut.{cut_of};
ghost use Rattle.cell_coeffs.specs.Writing.{WritesNumbers};

use crate::twice::cut;
use linear_system::CellSystem;

// Stores twice nine numbers at a row and a column, cut.
pub(crate) fn put_twice(out: &mut CellSystem, row: usize, col: usize, numbers: &[i128; 9])
    requires place { HasPlace out.old row col }
    requires powers { 8 ≤ out.old.degree }
    requires small { (m : ℕ) → m < 9 → unsigned_abs (slice_index_or numbers.now m (pos 0)) ≤ 2 ^ 64 }
    ensures { WritesNumbers out.old out.new row col 9
        (λ m. cut_of (pos 2 *ℤ slice_index_or numbers.now m (pos 0))) }
{
    for m in 0..9 {
        out.set(row, col, m, cut(2 * numbers[m]));
    }
}

// Stores twelve free numbers of a row, cut.
pub(crate) fn put_second_free(out: &mut CellSystem, row: usize, numbers: &[i128; 12])
    requires row { row < dim_of out.old }
    requires powers { 11 ≤ out.old.degree }
    requires small { (m : ℕ) → m < 12 → unsigned_abs (slice_index_or numbers.now m (pos 0)) ≤ 2 ^ 65 }
    ensures { WritesNumbers out.old out.new row (dim_of out.old) 12
        (λ m. cut_of (slice_index_or numbers.now m (pos 0))) }
{
    for m in 0..12 {
        out.set_free(row, m, cut(numbers[m]));
    }
}
