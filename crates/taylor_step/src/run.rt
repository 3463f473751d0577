//! The run on whole numbers, power by power.

ghost use Rattle.std.specs.Prelude.{◌≡◌, ℕ, ◌^◌, ◌+◌, ◌-◌, ◌*◌, ◌<◌, ◌≤◌, ◌+ℤ◌, pos, length, take, drop};
ghost use Rattle.std.specs.Prelude.{unsigned_abs, slice_index_or};
ghost use Rattle.frac_laws.specs.Rounding.{floor_of};
ghost use Rattle.fixed_num.specs.Products.{sum_of_products, sum_of_sizes};
ghost use Rattle.linear_system.specs.StoredSystem.{row_of, dim_of};
ghost use Rattle.taylor_step.specs.WholeRun.{ProductsFit, value_to};
ghost use Rattle.taylor_step.specs.Strips.{contents, HasRoom};
ghost use Rattle.taylor_step.specs.Strips.{start_products, start_sizes, products_of, sizes_of};
ghost use Rattle.taylor_step.specs.Stops.{IsStop};

use crate::degree::{greatest_size, may_stop, top_power};
use crate::strips::{begin, write_blocks};
use fixed_num::{dot_words, products_at};
use linear_system::CellSystem;

/// What the start gives a row at power k: its products with the numbers of power k, if the row has any.
fn from_start(sys: &CellSystem, row: usize, k: usize, start: &[i128]) -> i128
    requires row { row < dim_of sys.now }
    requires power { k < 24 }
    requires start { length start.now ≡ dim_of sys.now + 1 }
    requires fits { start_sizes (row_of sys.now row) start.now k < 2 ^ 126 }
    ensures { result ≡ start_products (row_of sys.now row) start.now k }
{
    if k <= sys.degree() {
        let columns = sys.columns(row);
        let at = k * columns.len();
        products_at(&sys.numbers(row)[at..at + columns.len()], columns, start)
    } else {
        0
    }
}

/// The new number of a row, whose history stands in a strip from a place on: one exact sum, with what the start
/// gives, rounded once.
fn new_number(numbers: &[i64], strip: &[i64], at: usize, from_start: i128, div: u32) -> i64
    requires room { at + length numbers.now ≤ length strip.now }
    requires positive { 1 ≤ div }
    requires fits { unsigned_abs from_start
        + sum_of_sizes numbers.now (take (length numbers.now) (drop at strip.now)) < 2 ^ 126 }
    ensures { result ≡ floor_of (from_start
        +ℤ sum_of_products numbers.now (take (length numbers.now) (drop at strip.now))) (pos (2 ^ 64 * div)) }
{
    dot_words(numbers, &strip[at..at + numbers.len()], from_start, div)
}

/// The new numbers of all rows at power k + 1.
fn new_numbers(sys: &CellSystem, k: usize, start: &[i128], strips: &[Vec<i64>], newest: &mut [i64])
    requires power { k < 24 }
    requires start { length start.now ≡ dim_of sys.now + 1 }
    requires newest { length newest.old ≡ dim_of sys.now + 1 }
    requires room { HasRoom sys.now (contents strips.now) }
    requires fit { (row : ℕ) → row < dim_of sys.now
        → sizes_of sys.now start.now (contents strips.now) k row < 2 ^ 126 }
    ensures done { (row : ℕ) → row < dim_of sys.now
        → slice_index_or newest.new row (pos 0) ≡ floor_of
        (products_of sys.now start.now (contents strips.now) k row) (pos (2 ^ 64 * (k + 1))) }
    ensures free { slice_index_or newest.new (dim_of sys.now) (pos 0) ≡ slice_index_or newest.old
        (dim_of sys.now) (pos 0) }
{
    let _degree = sys.degree();
    for i in 0..sys.dim() {
        let at = (24 - k) * sys.columns(i).len();
        let given = from_start(sys, i, k, start);
        newest[i] = new_number(sys.numbers(i), &strips[i], at, given, k as u32 + 1);
    }
}

/// Adds the new numbers to the sums.
fn add_all(newest: &[i64], sums: &mut [i128])
    requires lengths { length sums.old ≤ length newest.now }
    requires sums { (i : ℕ) → unsigned_abs (slice_index_or sums.old i (pos 0)) ≤ 2 ^ 90 }
    requires newest { (i : ℕ) → unsigned_abs (slice_index_or newest.now i (pos 0)) ≤ 2 ^ 62 }
    ensures { (i : ℕ) → i < length sums.old → slice_index_or sums.new i (pos 0) ≡ slice_index_or sums.old i
        (pos 0) +ℤ slice_index_or newest.now i (pos 0) }
{
    for i in 0..sums.len() {
        sums[i] += i128::from(newest[i]);
    }
}

/// Replaces the start by the sum of the coefficients up to the degree at which the run stops.
pub(crate) fn run(
    sys: &CellSystem,
    mid: &mut [i128],
    start: &mut [i128],
    newest: &mut [i64],
    strips: &mut [Vec<i64>],
) -> u8
    requires mid { length mid.old ≡ dim_of sys.now }
    requires start { length start.old ≡ dim_of sys.now + 1 }
    requires newest { length newest.old ≡ dim_of sys.now + 1 }
    requires room { HasRoom sys.now (contents strips.old) }
    requires fit { ProductsFit sys.now mid.old }
    ensures room { HasRoom sys.now (contents strips.new) }
    ensures sums { (row : ℕ) → row < dim_of sys.now
        → slice_index_or mid.new row (pos 0) ≡ value_to sys.now mid.old result row }
    ensures stop { IsStop sys.now mid.old result }
{
    let _degree = sys.degree();
    let top = top_power(sys);
    let mut sizes = [0; 25];
    begin(sys, mid, start, newest, strips);
    for k in 0..24 {
        new_numbers(sys, k, start, strips, newest);
        add_all(newest, mid);
        sizes[k + 1] = greatest_size(newest);
        if may_stop(&sizes, k + 1, top) {
            return k as u8 + 1;
        }
        write_blocks(sys, 23 - k, newest, strips);
    }
    24
}
