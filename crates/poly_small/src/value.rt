//! Values of polynomials with whole coefficients.

ghost use Rattle.std.specs.Prelude.{◌≡◌, ◌^◌, ◌<◌, length, max};
ghost use Rattle.poly_small.specs.WholePolynomials.{whole_value_at, value_of_sizes, weighted};

/// `w[0] p[0] + w[1] p[1] x + .. + w[n] p[n] x^n` with the weights w, by Horner's rule.
pub(crate) fn weighted_value(p: &[i128], weights: &[i128], x: u32) -> i128
    requires lengths { length weights.now ≡ length p.now }
    requires fits { value_of_sizes (weighted p.now weights.now) (max x 1) < 2 ^ 126 }
    ensures { result ≡ whole_value_at (weighted p.now weights.now) x }
{
    let mut sum: i128 = 0;
    for i in (0..p.len()).rev() {
        let term = weights[i] * p[i];
        let product = sum * i128::from(x);
        sum = term + product;
    }
    sum
}
