//! Where a step may stop: after as many small coefficients as powers are stored.

ghost use Rattle.std.specs.Prelude.{◌≡◌, ◌↔◌, ℕ, ◌+◌, ◌-◌, ◌*◌, ◌^◌, ◌<◌, ◌≤◌, pos, length, IsTrue};
ghost use Rattle.std.specs.Prelude.{unsigned_abs, slice_index_or};
ghost use Rattle.linear_system.specs.DegreeLimit.{greatest_power, least_degree};
ghost use Rattle.taylor_step.specs.Stops.{IsZeroFrom};

use linear_system::CellSystem;

/// The greatest power at which a row holds a number other than 0, where each power has as many numbers as there
/// are columns.
fn top_of_row(numbers: &[i64], columns: usize) -> usize
    requires { 1 ≤ columns }
    ensures above { IsZeroFrom numbers.now ((result + 1) * columns) }
    ensures least { (m : ℕ) → IsZeroFrom numbers.now ((m + 1) * columns) → result ≤ m }
{
    let count = numbers.len();
    for k in 0..count {
        if numbers[count - 1 - k] != 0 {
            return (count - 1 - k) / columns;
        }
    }
    0
}

/// The greatest power at which a number other than 0 is stored.
pub(crate) fn top_power(sys: &CellSystem) -> usize
    ensures { result ≡ greatest_power sys.now }
{
    let _degree = sys.degree();
    let mut top: usize = 0;
    for i in 0..sys.dim() {
        top = top.max(top_of_row(sys.numbers(i), sys.columns(i).len()));
    }
    top
}

/// The least degree at which a step may stop.
fn first_degree(top: usize) -> usize
    requires { top ≤ 11 }
    ensures { result ≡ least_degree top }
{
    (top + 1).max(8)
}

/// The greatest size of the numbers.
pub(crate) fn greatest_size(numbers: &[i64]) -> u64
    requires { (i : ℕ) → unsigned_abs (slice_index_or numbers.now i (pos 0)) ≤ 2 ^ 62 }
    ensures all { (i : ℕ) → unsigned_abs (slice_index_or numbers.now i (pos 0)) ≤ result }
    ensures least { (most : ℕ) → ((i : ℕ) → unsigned_abs (slice_index_or numbers.now i (pos 0)) ≤ most)
        → result ≤ most }
{
    let mut greatest: u64 = 0;
    for i in 0..numbers.len() {
        greatest = greatest.max(numbers[i].unsigned_abs());
    }
    greatest
}

/// The size m powers back from power k is at most 64 * 8^m, for each m from 0 to the top.
fn is_small_back(sizes: &[u64], k: usize, top: usize) -> bool
    requires power { k < length sizes.now }
    requires top { top < k }
    requires few { top ≤ 11 }
    ensures { IsTrue result ↔ ((m : ℕ) → m ≤ top → slice_index_or sizes.now (k - m) 0 ≤ 64 * 8 ^ m) }
{
    let mut bound = 64;
    for m in 0..top + 1 {
        if sizes[k - m] > bound {
            return false;
        }
        bound *= 8;
    }
    true
}

/// A step may stop at power k: it is not below the least degree, and the sizes before it are small.
pub(crate) fn may_stop(sizes: &[u64], k: usize, top: usize) -> bool
    requires power { k < length sizes.now }
    requires few { top ≤ 11 }
    ensures { IsTrue result ↔ ((least_degree top ≤ k)
        × ((m : ℕ) → m ≤ top → slice_index_or sizes.now (k - m) 0 ≤ 64 * 8 ^ m)) }
{
    first_degree(top) <= k && is_small_back(sizes, k, top)
}
