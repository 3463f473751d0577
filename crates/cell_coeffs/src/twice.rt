//! What a transition pays times its sum once more, up to the eleventh power, and fine numbers that are cut.

ghost use Rattle.std.specs.Prelude.{◌≡◌, ℕ, ◌+◌, ◌^◌, ◌<◌, ◌≤◌, pos, ◌+ℤ◌, unsigned_abs, slice_index_or};
ghost use Rattle.frac_laws.specs.Rounding.{floor_of};
ghost use Rattle.cell_coeffs.specs.Products.{products_to, sizes_to};
ghost use Rattle.cell_coeffs.specs.Cut.{cut_of};

// The number of a power, and 0 past the eighth.
fn number_of(numbers: &[i128; 9], power: usize) -> i128
    ensures { result ≡ slice_index_or numbers.now power (pos 0) }
{
    if power < 9 { numbers[power] } else { 0 }
}

// The number of power m of the product, in units of 2^-70, where the payments are in those and the sums in units of
// 2^-64.
fn paid_twice(paid: &[i128; 9], sum: &[i128; 9], m: usize) -> i128
    requires power { m < 12 }
    requires payments { sizes_to paid.now 12 < 2 ^ 63 }
    requires sums { (b : ℕ) → unsigned_abs (slice_index_or sum.now b (pos 0)) ≤ 2 ^ 64 }
    ensures value { result ≡ floor_of (products_to paid.now sum.now m (m + 1)) (pos (2 ^ 64)) }
    ensures size { unsigned_abs result ≤ 2 ^ 63 }
{
    let mut total: i128 = 0;
    for a in 0..m + 1 {
        total += number_of(paid, a) * number_of(sum, m - a);
    }
    total >> 64
}

// All of them.
pub(crate) fn paid_twice_all(paid: &[i128; 9], sum: &[i128; 9]) -> [i128; 12]
    requires payments { sizes_to paid.now 12 < 2 ^ 63 }
    requires sums { (b : ℕ) → unsigned_abs (slice_index_or sum.now b (pos 0)) ≤ 2 ^ 64 }
    ensures value { (m : ℕ) → m < 12 → slice_index_or result m (pos 0)
        ≡ floor_of (products_to paid.now sum.now m (m + 1)) (pos (2 ^ 64)) }
    ensures size { (m : ℕ) → unsigned_abs (slice_index_or result m (pos 0)) ≤ 2 ^ 63 }
{
    let mut numbers = [0; 12];
    for m in 0..12 {
        numbers[m] = paid_twice(paid, sum, m);
    }
    numbers
}

// No numbers yet.
pub(crate) fn zeros() -> [i128; 12]
    ensures { (m : ℕ) → slice_index_or result m (pos 0) ≡ pos 0 }
{
    [0; 12]
}

// Adds numbers to others, up to the eleventh power.
pub(crate) fn add_twice(numbers: &mut [i128; 12], more: &[i128; 12])
    requires small { (m : ℕ) → unsigned_abs (slice_index_or numbers.old m (pos 0)) ≤ 2 ^ 70 }
    requires small_more { (m : ℕ) → unsigned_abs (slice_index_or more.now m (pos 0)) ≤ 2 ^ 64 }
    ensures { (m : ℕ) → m < 12 → slice_index_or numbers.new m (pos 0)
        ≡ slice_index_or numbers.old m (pos 0) +ℤ slice_index_or more.now m (pos 0) }
{
    for m in 0..12 {
        numbers[m] += more[m];
    }
}

// A fine number in units of 2^-64, rounded towards 0.
pub(crate) fn cut(number: i128) -> i128
    requires { unsigned_abs number ≤ 2 ^ 65 }
    ensures value { result ≡ cut_of number }
    ensures size { unsigned_abs result ≤ 2 ^ 59 }
{
    if number < 0 {
        -(-number >> 6)
    } else {
        number >> 6
    }
}
