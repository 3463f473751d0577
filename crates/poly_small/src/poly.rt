//! Polynomials of degree at most five.

ghost use Rattle.std.specs.Prelude.{◌≡◌, ℕ, ◌*◌, ◌^◌, ◌<◌, ◌≤◌, pos, max, ◌*ℤ◌, unsigned_abs};
ghost use Rattle.frac_laws.specs.Fraction.{over, whole};
ghost use Rattle.frac_laws.specs.Polynomials.{all_over, shifted, stretched, reflected};
ghost use Rattle.poly_small.specs.WholePolynomials.{value_of_sizes, in_units_of};

use crate::value::weighted_value;

/// `c[0] + c[1] x + .. + c[5] x^5`: whole numbers over a denominator that the caller keeps.
#[derive(Clone, Copy, Debug, PartialEq, Eq)]
pub struct Poly {
    pub c: [i128; 6],
}

// c * unit^power
fn times_power(c: i128, unit: u32, power: u32) -> i128
    requires factor { unit ^ power < 2 ^ 126 }
    requires product { unsigned_abs c * unit ^ power < 2 ^ 126 }
    ensures { result ≡ c *ℤ pos (unit ^ power) }
{
    c * (u128::from(unit).pow(power) as i128)
}

impl Poly {
    /// The coefficients `c[i] * unit^(5 - i)`: if `c` counts years over `den`, the answer counts time in 1/unit years
    /// over `den * unit^5`.
    pub fn in_units(&self, unit: u32) -> Poly
        requires factor { unit ^ 5 < 2 ^ 126 }
        requires fits { value_of_sizes (in_units_of unit self.now.c) 1 < 2 ^ 126 }
        ensures coefficients { result.c ≡ in_units_of unit self.now.c }
        ensures polynomial { (den : ℕ) → 1 ≤ den → 1 ≤ unit
            → all_over (den * unit ^ 5) result.c ≡ stretched (over (pos 1) unit) (all_over den self.now.c) }
    {
        let c = &self.c;
        Poly {
            c: [
                times_power(c[0], unit, 5),
                times_power(c[1], unit, 4),
                times_power(c[2], unit, 3),
                times_power(c[3], unit, 2),
                times_power(c[4], unit, 1),
                c[5],
            ],
        }
    }

    /// The polynomial at `-x`.
    pub fn reflect(&self) -> Poly
        requires { value_of_sizes self.now.c 1 < 2 ^ 126 }
        ensures polynomial { (den : ℕ) → all_over den result.c ≡ reflected (all_over den self.now.c) }
        ensures size { (x : ℕ) → value_of_sizes result.c x ≡ value_of_sizes self.now.c x }
    {
        let c = &self.c;
        Poly {
            c: [c[0], -c[1], c[2], -c[3], c[4], -c[5]],
        }
    }

    /// The polynomial at `x + k`. Ten is the greatest binomial coefficient: no number on the way is greater than ten
    /// times the value at k, or at 1, of the polynomial of the coefficients' sizes.
    pub fn shift(&self, k: u32) -> Poly
        requires { 10 * value_of_sizes self.now.c (max k 1) < 2 ^ 126 }
        ensures polynomial { (den : ℕ) → all_over den result.c ≡ shifted (whole (pos k)) (all_over den self.now.c) }
        ensures size { value_of_sizes result.c 1 ≤ 32 * value_of_sizes self.now.c (max k 1) }
    {
        let c = &self.c;
        // each row of weights is a column of Pascal's triangle
        Poly {
            c: [
                weighted_value(&c[0..], &[1, 1, 1, 1, 1, 1], k),
                weighted_value(&c[1..], &[1, 2, 3, 4, 5], k),
                weighted_value(&c[2..], &[1, 3, 6, 10], k),
                weighted_value(&c[3..], &[1, 4, 10], k),
                weighted_value(&c[4..], &[1, 5], k),
                c[5],
            ],
        }
    }
}

#[cfg(test)]
mod tests {
    use super::*;

    const SAMPLE: Poly = Poly {
        c: [1, -1, 2, 0, 0, 1],
    };

    #[test]
    fn expansions(rt: HostRuntime) {
        // from expansions outside the program
        let cases = [
            (SAMPLE.shift(2), [39, 87, 82, 40, 10, 1]),
            (SAMPLE.shift(0), [1, -1, 2, 0, 0, 1]),
            (SAMPLE.reflect(), [1, 1, 2, 0, 0, -1]),
            (SAMPLE.in_units(12), [248_832, -20_736, 3456, 0, 0, 1]),
        ];
        for (found, c) in cases {
            assert_eq!(rt; found, Poly { c });
        }
    }
}
