//! The numbers of a map that is applied twice.

ghost use Rattle.std.specs.Prelude.{◌≡◌, ℕ, ◌+◌, ◌*◌, ◌^◌, ◌<◌, ◌≤◌, ◌+ℤ◌, length};
ghost use Rattle.fixed_interval.specs.Intervals.{HasEndsUpTo};
ghost use Rattle.map_laws.specs.Maps.{total, product_lo, product_hi};
ghost use Rattle.month_maps.specs.StoredMap.{interval_at, HaveEndsUpTo, IsProduct, IsFreeProduct};

use fixed_interval::Interval;

/// A start plus the products of a row of the matrix with other numbers, which stand some places apart.
fn row_product(
    numbers: &[Interval],
    from: usize,
    dim: usize,
    others: &[Interval],
    first: usize,
    apart: usize,
    start: &Interval,
) -> Interval
    requires dim { dim ≤ 12 }
    requires apart { apart ≤ 12 }
    requires row { from + dim ≤ length numbers.now }
    requires column { (l : ℕ) → l < dim → l * apart + first < length others.now }
    requires numbers { HaveEndsUpTo (2 ^ 65) numbers.now }
    requires others { HaveEndsUpTo (2 ^ 65) others.now }
    requires start { HasEndsUpTo (2 ^ 65) start.now }
    ensures lo { result.lo ≡ start.now.lo +ℤ total dim (λ l. product_lo (interval_at numbers.now (from + l))
        (interval_at others.now (l * apart + first))) }
    ensures hi { result.hi ≡ start.now.hi +ℤ total dim (λ l. product_hi (interval_at numbers.now (from + l))
        (interval_at others.now (l * apart + first))) }
{
    let mut sum = *start;
    for l in 0..dim {
        let product = numbers[from + l].mul(&others[l * apart + first]);
        sum = sum.add(&product);
    }
    sum
}

/// Writes a row of the squared matrix.
fn write_row(numbers: &[Interval], dim: usize, row: usize, next: &mut [Interval])
    requires dim { dim ≤ 12 }
    requires row { row < dim }
    requires numbers { length numbers.now ≡ dim * dim }
    requires next { length next.old ≡ dim * dim }
    requires small { HaveEndsUpTo (2 ^ 65) numbers.now }
    ensures done { (col : ℕ) → col < dim
        → IsProduct dim numbers.now row col (interval_at next.new (row * dim + col)) }
    ensures before { (k : ℕ) → k < row * dim → interval_at next.new k ≡ interval_at next.old k }
{
    let zero = Interval { lo: 0, hi: 0 };
    for col in 0..dim {
        next[row * dim + col] = row_product(numbers, row * dim, dim, numbers, col, dim, &zero);
    }
}

/// Writes the squared matrix.
pub(crate) fn write_rows(numbers: &[Interval], dim: usize, next: &mut [Interval])
    requires dim { dim ≤ 12 }
    requires numbers { length numbers.now ≡ dim * dim }
    requires next { length next.old ≡ dim * dim }
    requires small { HaveEndsUpTo (2 ^ 65) numbers.now }
    ensures { (row col : ℕ) → row < dim → col < dim
        → IsProduct dim numbers.now row col (interval_at next.new (row * dim + col)) }
{
    for row in 0..dim {
        write_row(numbers, dim, row, next);
    }
}

/// Writes the free numbers of the map applied twice.
pub(crate) fn write_free(numbers: &[Interval], dim: usize, free: &[Interval], next: &mut [Interval])
    requires dim { dim ≤ 12 }
    requires numbers { length numbers.now ≡ dim * dim }
    requires free { length free.now ≡ dim }
    requires next { length next.old ≡ dim }
    requires small { HaveEndsUpTo (2 ^ 65) numbers.now }
    requires free_small { HaveEndsUpTo (2 ^ 65) free.now }
    ensures { (row : ℕ) → row < dim → IsFreeProduct dim numbers.now free.now row (interval_at next.new row) }
{
    for row in 0..dim {
        next[row] = row_product(numbers, row * dim, dim, free, 0, 1, &free[row]);
    }
}
