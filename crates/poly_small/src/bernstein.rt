//! Bernstein coefficients of a polynomial over a month.

ghost use Rattle.std.specs.Prelude.{◌≡◌, ℕ, ◌*◌, ◌^◌, ◌<◌, ◌≤◌, pos, max, unsigned_abs, slice_index_or};
ghost use Rattle.frac_laws.specs.Fraction.{over};
ghost use Rattle.frac_laws.specs.Polynomials.{all_over, shifted, stretched};
ghost use Rattle.frac_laws.specs.Bernstein.{bernstein_coefficients};
ghost use Rattle.poly_small.specs.WholePolynomials.{value_of_sizes, in_units_of};

use crate::poly::Poly;
use crate::value::weighted_value;

impl Poly {
    /// The six Bernstein coefficients over month `k` since the start, where the polynomial counts years over `den`: as
    /// numerators over `2488320 * den`, which is `12^5 * 10 * den`. At u, from 0 to 1, month k has run for `k + u`
    /// months. Each is `sum over i of C(j, i) a_i / C(5, i)`, with a the polynomial of u.
    pub fn month_bernstein(&self, k: u32) -> [i128; 6]
        requires { 320 * value_of_sizes (in_units_of 12 self.now.c) (max k 1) < 2 ^ 126 }
        ensures polynomial { (den : ℕ) → 1 ≤ den → all_over (2488320 * den) result
            ≡ bernstein_coefficients
            (stretched (over (pos 1) 12) (shifted (over (pos k) 12) (all_over den self.now.c))) }
        ensures size { (j : ℕ) → unsigned_abs (slice_index_or result j (pos 0))
            ≤ 320 * value_of_sizes (in_units_of 12 self.now.c) (max k 1) }
    {
        self.in_units(12).shift(k).bernstein()
    }

    // Ten times the Bernstein coefficients on [0, 1].
    fn bernstein(&self) -> [i128; 6]
        requires { 10 * value_of_sizes self.now.c 1 < 2 ^ 126 }
        ensures polynomial { (den : ℕ) → 1 ≤ den → all_over (den * 10) result
            ≡ bernstein_coefficients (all_over den self.now.c) }
        ensures size { (j : ℕ) → unsigned_abs (slice_index_or result j (pos 0)) ≤ 10 * value_of_sizes self.now.c 1 }
    {
        let c = &self.c;
        // each row of weights is ten times C(j, i) / C(5, i)
        [
            weighted_value(&c[..1], &[10], 1),
            weighted_value(&c[..2], &[10, 2], 1),
            weighted_value(&c[..3], &[10, 4, 1], 1),
            weighted_value(&c[..4], &[10, 6, 3, 1], 1),
            weighted_value(&c[..5], &[10, 8, 6, 4, 2], 1),
            weighted_value(c, &[10, 10, 10, 10, 10, 10], 1),
        ]
    }
}

#[cfg(test)]
mod tests {
    use super::*;

    #[test]
    fn months(rt: HostRuntime) {
        // from exact fractions outside the program
        let cases = [
            (
                [1, -1, 0, 0, 0, 0],
                11,
                [207_360, 165_888, 124_416, 82_944, 41_472, 0],
            ),
            (
                [3, -1, 4, -1, 5, -9],
                7,
                [
                    8_834_370, 8_892_648, 8_941_584, 8_978_304, 8_999_424, 9_000_960,
                ],
            ),
            ([0, 0, 0, 0, 0, 1], 0, [0, 0, 0, 0, 0, 10]),
        ];
        for (c, month, wanted) in cases {
            assert_eq!(rt; Poly { c }.month_bernstein(month), wanted);
        }
    }
}
