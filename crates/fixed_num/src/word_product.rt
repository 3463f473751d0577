// Sums of products of 64-bit numbers: each product is one multiplication of the machine, and exact in 128 bits.

ghost use Rattle.std.specs.Prelude.{◌≡◌, ℕ, ◌+◌, ◌*◌, ◌^◌, ◌<◌, ◌≤◌, pos, ◌+ℤ◌, length, slice_index, unsigned_abs};
ghost use Rattle.frac_laws.specs.Rounding.{floor_of};
ghost use Rattle.fixed_num.specs.Products.{sum_of_products, sum_of_sizes, items_at};

#[inline]
fn exact_sum_of_words(a: &[i64], v: &[i64]) -> i128
    requires lengths { length v.now ≡ length a.now }
    requires fits { sum_of_sizes a.now v.now < 2 ^ 126 }
    ensures value { result ≡ sum_of_products a.now v.now }
    ensures size { unsigned_abs result ≤ sum_of_sizes a.now v.now }
{
    let mut sum: i128 = 0;
    for i in 0..a.len() {
        let product = i128::from(a[i]) * i128::from(v[i]);
        sum += product;
    }
    sum
}

// One part in `div`, rounded down. A division by a constant costs the machine a multiplication.
#[inline]
fn part_of(whole: i64, div: u32) -> i64
    requires positive { 1 ≤ div }
    ensures { result ≡ floor_of whole (pos div) }
{
    match div {
        1 => whole.div_euclid(1),
        2 => whole.div_euclid(2),
        3 => whole.div_euclid(3),
        4 => whole.div_euclid(4),
        5 => whole.div_euclid(5),
        6 => whole.div_euclid(6),
        7 => whole.div_euclid(7),
        8 => whole.div_euclid(8),
        9 => whole.div_euclid(9),
        10 => whole.div_euclid(10),
        11 => whole.div_euclid(11),
        12 => whole.div_euclid(12),
        13 => whole.div_euclid(13),
        14 => whole.div_euclid(14),
        15 => whole.div_euclid(15),
        16 => whole.div_euclid(16),
        17 => whole.div_euclid(17),
        18 => whole.div_euclid(18),
        19 => whole.div_euclid(19),
        20 => whole.div_euclid(20),
        21 => whole.div_euclid(21),
        22 => whole.div_euclid(22),
        23 => whole.div_euclid(23),
        24 => whole.div_euclid(24),
        _ => whole.div_euclid(i64::from(div)),
    }
}

/// The floor of an exact sum, divided by `2^64 * div`: the sum is that of the products `a[i] * v[i]`, and of `more`,
/// an exact sum that the caller has of products of larger numbers.
pub fn dot_words(a: &[i64], v: &[i64], more: i128, div: u32) -> i64
    requires lengths { length v.now ≡ length a.now }
    requires positive { 1 ≤ div }
    requires fits { unsigned_abs more + sum_of_sizes a.now v.now < 2 ^ 126 }
    ensures value { result ≡ floor_of (more +ℤ sum_of_products a.now v.now) (pos (2 ^ 64 * div)) }
    ensures size { unsigned_abs result ≤ 2 ^ 62 }
{
    let sum = more + exact_sum_of_words(a, v);
    part_of((sum >> 64) as i64, div)
}

/// The exact sum of the products of the numbers `a[i]` and the items of `v` at their places.
pub fn products_at(a: &[i64], places: &[usize], v: &[i128]) -> i128
    requires lengths { length places.now ≡ length a.now }
    requires in_range { (i : ℕ) → i < length places.now → slice_index places.now i < length v.now }
    requires fits { sum_of_sizes a.now (items_at v.now places.now) < 2 ^ 126 }
    ensures value { result ≡ sum_of_products a.now (items_at v.now places.now) }
{
    let mut sum: i128 = 0;
    for i in 0..a.len() {
        let product = i128::from(a[i]) * v[places[i]];
        sum += product;
    }
    sum
}

#[cfg(test)]
mod tests {
    use super::*;

    const MOST: i64 = 1 << 62;

    const ONE: i128 = 1 << 64;

    #[test]
    fn sums_of_products_of_words(rt: HostRuntime) {
        let cases = [
            (dot_words(&[], &[], 0, 1), 0),
            (dot_words(&[], &[], -1, 24), -1),
            // 2^62 * 4 is one in units of 2^-64
            (dot_words(&[MOST], &[4], 0, 1), 1),
            (dot_words(&[MOST, MOST], &[2, 1], 1 << 62, 1), 1),
            (dot_words(&[MOST, MOST], &[2, 1], (1 << 62) - 1, 1), 0),
            (dot_words(&[-1], &[1], 0, 1), -1),
            (dot_words(&[MOST], &[28], 0, 3), 2),
            (dot_words(&[MOST], &[-28], 0, 3), -3),
            (dot_words(&[MOST, 5], &[-4, 0], 130 * ONE, 64), 2),
            (
                dot_words(&[1 << 59], &[1 << 62], ONE - 1, 23),
                6_265_877_742_428_516,
            ),
        ];
        for (found, wanted) in cases {
            assert_eq!(rt; found, wanted);
        }
        assert_eq!(rt; products_at(&[3, -2], &[2, 0], &[ONE, 7, 5]), 15 - 2 * ONE);
    }
}
