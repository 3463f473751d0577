//! Products of two numbers in units of 2^-64, rounded once to a unit.

ghost use Rattle.std.specs.Prelude.{◌≡◌, ◌*◌, ◌^◌, ◌≤◌, pos, ◌*ℤ◌, unsigned_abs};
ghost use Rattle.frac_laws.specs.Rounding.{floor_of, ceiling_of};
ghost use Rattle.fixed_interval.specs.Halves.{AreHalves};

const HALF_WORD: i128 = 1 << 32;

// A number as a multiple of 2^32, and what is left.
#[derive(Clone, Copy)]
struct Halves {
    high: i128,
    low: i128,
}

fn halves_of(a: i128) -> Halves
    ensures { AreHalves a result.high result.low }
{
    Halves {
        high: a.div_euclid(HALF_WORD),
        low: a.rem_euclid(HALF_WORD),
    }
}

fn half_word_floor(a: i128) -> i128
    ensures { result ≡ floor_of a (pos (2 ^ 32)) }
{
    a >> 32
}

/// The floor of `a * b / 2^64`. The product itself need not fit 128 bits, so it is divided in two floors.
pub(crate) fn floor_product(a: i128, b: i128) -> i128
    requires factor { unsigned_abs b ≤ 2 ^ 66 }
    requires product { unsigned_abs a * unsigned_abs b ≤ 2 ^ 143 }
    ensures value { result ≡ floor_of (a *ℤ b) (pos (2 ^ 64)) }
    ensures size { unsigned_abs result ≤ 2 ^ 79 }
{
    let halves = halves_of(a);
    let carry = half_word_floor(halves.low * b);
    half_word_floor(halves.high * b + carry)
}

/// The ceiling of `a * b / 2^64`.
pub(crate) fn ceil_product(a: i128, b: i128) -> i128
    requires first { unsigned_abs a ≤ 2 ^ 123 }
    requires factor { unsigned_abs b ≤ 2 ^ 66 }
    requires product { unsigned_abs a * unsigned_abs b ≤ 2 ^ 143 }
    ensures value { result ≡ ceiling_of (a *ℤ b) (pos (2 ^ 64)) }
    ensures size { unsigned_abs result ≤ 2 ^ 79 }
{
    -floor_product(-a, b)
}
