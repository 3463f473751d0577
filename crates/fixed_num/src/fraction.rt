// From a fraction of whole numbers to units of 2^-64.

ghost use Rattle.std.specs.Prelude.{◌≡◌, ◌^◌, ◌≤◌, ℤ, pos, ◌+ℤ◌, ◌*ℤ◌, ◌≤ℤ◌, ◌<ℤ◌, unsigned_abs};
ghost use Rattle.frac_laws.specs.Rounding.{floor_of};

/// A number in units of 2^-64.
#[derive(Clone, Copy, Debug, PartialEq, Eq)]
pub struct Fix(pub i128);

const HALF_WORD: i128 = 1 << 32;

// A number as a multiple of a positive one, and what is left.
#[derive(Clone, Copy)]
struct Divided {
    quotient: i128,
    left: i128,
}

fn divide(num: i128, den: i128) -> Divided
    requires { pos 0 <ℤ den }
    ensures whole { num ≡ (result.quotient *ℤ den) +ℤ result.left }
    ensures low { pos 0 ≤ℤ result.left }
    ensures high { result.left <ℤ den }
{
    Divided {
        quotient: num.div_euclid(den),
        left: num.rem_euclid(den),
    }
}

// The next 32 bits of the quotient.
fn next_bits(num: i128, den: i128) -> Divided
    requires positive { pos 0 <ℤ den }
    requires small { den <ℤ pos (2 ^ 95) }
    requires within { pos (unsigned_abs num) ≤ℤ den }
    ensures whole { num *ℤ pos (2 ^ 32) ≡ (result.quotient *ℤ den) +ℤ result.left }
    ensures low { pos 0 ≤ℤ result.left }
    ensures high { result.left <ℤ den }
    ensures size { unsigned_abs result.quotient ≤ 2 ^ 32 }
{
    divide(num * HALF_WORD, den)
}

/// The floor of `num * 2^64 / den`: a fraction from -1 to 1, rounded down to units of 2^-64.
pub fn from_fraction(num: i128, den: i128) -> Fix
    requires positive { pos 0 <ℤ den }
    requires small { den <ℤ pos (2 ^ 95) }
    requires within { pos (unsigned_abs num) ≤ℤ den }
    ensures value { result.0 ≡ floor_of (num *ℤ pos (2 ^ 64)) den }
    ensures size { unsigned_abs result.0 ≤ 2 ^ 64 }
{
    // num * 2^64 does not fit 128 bits: two division steps of 32 bits each do
    let high = next_bits(num, den);
    let low = next_bits(high.left, den);
    Fix(high.quotient * HALF_WORD + low.quotient)
}

#[cfg(test)]
mod tests {
    use super::*;

    const BELOW_2_95: i128 = (1 << 95) - 1;

    const ONE: i128 = 1 << 64;

    #[test]
    fn fractions(rt: HostRuntime) {
        let cases = [
            (from_fraction(1, 3), 6_148_914_691_236_517_205),
            (from_fraction(-1, 3), -6_148_914_691_236_517_206),
            (from_fraction(0, 7), 0),
            (from_fraction(5, 5), ONE),
            (from_fraction(-5, 5), -ONE),
            (from_fraction(BELOW_2_95, BELOW_2_95), ONE),
            (from_fraction(BELOW_2_95 - 1, BELOW_2_95), ONE - 1),
            (from_fraction(1 - BELOW_2_95, BELOW_2_95), -ONE),
            (from_fraction(-1, BELOW_2_95), -1),
        ];
        for (found, units) in cases {
            assert_eq!(rt; found, Fix(units));
        }
    }
}
