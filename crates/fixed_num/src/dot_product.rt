// Sums of products, rounded once.

ghost use Rattle.std.specs.Prelude.{◌≡◌, ◌*◌, ◌^◌, ◌<◌, ◌≤◌, pos, length, unsigned_abs};
ghost use Rattle.frac_laws.specs.Rounding.{floor_of};
ghost use Rattle.fixed_num.specs.Products.{sum_of_products, sum_of_sizes};

#[inline]
fn exact_sum(a: &[i128], v: &[i128]) -> i128
    requires lengths { length v.now ≡ length a.now }
    requires fits { sum_of_sizes a.now v.now < 2 ^ 126 }
    ensures value { result ≡ sum_of_products a.now v.now }
    ensures size { unsigned_abs result < 2 ^ 126 }
{
    let mut sum: i128 = 0;
    for i in 0..a.len() {
        let product = a[i] * v[i];
        sum += product;
    }
    sum
}

/// The floor of the exact sum of the products `a[i] * v[i]`, divided by `2^64 * div`: where both lists are in
/// units of 2^-64, one part in `div` of their dot product in units of 2^-64, rounded once, downwards.
pub fn dot(a: &[i128], v: &[i128], div: u32) -> i128
    requires lengths { length v.now ≡ length a.now }
    requires positive { 1 ≤ div }
    requires small { div ≤ 64 }
    requires fits { sum_of_sizes a.now v.now < 2 ^ 126 }
    ensures value { result ≡ floor_of (sum_of_products a.now v.now) (pos (2 ^ 64 * div)) }
    ensures size { unsigned_abs result ≤ 2 ^ 62 }
{
    // The floor by 2^64 fits 64 bits, where a division costs much less than at 128.
    let whole = (exact_sum(a, v) >> 64) as i64;
    i128::from(whole.div_euclid(i64::from(div)))
}

#[cfg(test)]
mod tests {
    use super::*;

    const HALF: i128 = 1 << 63;

    const ONE: i128 = 1 << 64;

    #[test]
    fn sums_of_products(rt: HostRuntime) {
        let cases = [
            (dot(&[], &[], 1), 0),
            (dot(&[ONE], &[1 << 61], 1), 1 << 61),
            // one rounding of the whole sum, and none of the terms
            (dot(&[HALF, HALF], &[1, 1], 1), 1),
            (dot(&[ONE, -3], &[5, 1], 1), 4),
            (dot(&[-1], &[1], 1), -1),
            (dot(&[-ONE, 0, 2], &[7, 9, ONE], 2), -3),
            (dot(&[ONE], &[129], 64), 2),
            (dot(&[ONE], &[-65], 64), -2),
            (dot(&[HALF - 1], &[HALF], 1), (1 << 62) - 1),
            (dot(&[HALF - 1], &[-HALF], 1), -(1 << 62)),
        ];
        for (found, wanted) in cases {
            assert_eq!(rt; found, wanted);
        }
    }
}
