// The widths that the rows of a report promise.

ghost use Rattle.std.specs.Prelude.{◌≡◌, ◌*◌, ◌^◌, ◌≤◌};
ghost use Rattle.std.specs.Int.{div_ceil};
ghost use Rattle.frac_laws.specs.Ledger as formula;

// A ledger counts units of 2^-64.
const ONE: u128 = 1 << 64;

/// The tolerance of a first moment in millionths of a minor unit: `ceil(2 w 2^g 10^6 / 2^64) + 2`.
pub fn tolerance_first(w: u128, g: u32) -> u128
    requires ledger { w ≤ 2 ^ 45 }
    requires scale { g ≤ 56 }
    ensures value { result ≡ formula.tolerance_first w g }
    ensures size { result ≤ 2 ^ 58 }
{
    (2 * w * 2u128.pow(g) * 1_000_000).div_ceil(ONE) + 2
}

// ceil(units * 4^g / 2^64); the product may outgrow 128 bits, but from g = 32 on the quotient is whole.
fn in_squared_units(units: u128, g: u32) -> u128
    requires number { units ≤ 2 ^ 48 }
    requires scale { g ≤ 56 }
    ensures value { result ≡ div_ceil (units * 4 ^ g) (2 ^ 64) }
    ensures size { result ≤ 2 ^ 96 }
{
    if g < 32 {
        (units * 4u128.pow(g)).div_ceil(ONE)
    } else {
        units * 4u128.pow(g - 32)
    }
}

/// The tolerance of a second moment in squared minor units: `ceil(2 w2 4^g / 2^64) + 2`.
pub fn tolerance_second(w2: u128, g: u32) -> u128
    requires ledger { w2 ≤ 2 ^ 45 }
    requires scale { g ≤ 56 }
    ensures value { result ≡ formula.tolerance_second w2 g }
    ensures size { result ≤ 2 ^ 97 }
{
    in_squared_units(2 * w2, g) + 2
}

/// The tolerance of a variance in squared minor units: `ceil((2 w2 + 4 w + 1024) 4^g / 2^64) + 2`.
pub fn tolerance_variance(w2: u128, w: u128, g: u32) -> u128
    requires second { w2 ≤ 2 ^ 45 }
    requires first { w ≤ 2 ^ 45 }
    requires scale { g ≤ 56 }
    ensures value { result ≡ formula.tolerance_variance w2 w g }
    ensures size { result ≤ 2 ^ 97 }
{
    in_squared_units(2 * w2 + 4 * w + 1024, g) + 2
}

#[cfg(test)]
mod tests {
    use super::*;

    const MOST: u128 = 1 << 45;

    #[test]
    fn tolerances(rt: HostRuntime) {
        // from exact whole-number arithmetic outside the program
        let cases = [
            (tolerance_first(0, 0), 2),
            (tolerance_first(393_216, 10), 3),
            (tolerance_first(39_321_600, 48), 1_200_000_002),
            (tolerance_first(MOST, 56), 274_877_906_944_000_002),
            (tolerance_second(0, 56), 2),
            (tolerance_second(1, 31), 3),
            (tolerance_second(1, 32), 4),
            (tolerance_second(1 << 33, 15), 3),
            (tolerance_second((1 << 33) + 1, 15), 4),
            (
                tolerance_second(MOST, 56),
                19_807_040_628_566_084_398_385_987_586,
            ),
            (tolerance_variance(0, 0, 27), 3),
            (tolerance_variance(0, 0, 32), 1026),
            (tolerance_variance(1, 1, 32), 1032),
            (
                tolerance_variance(MOST, MOST, 56),
                59_421_121_885_986_483_571_309_674_498,
            ),
        ];
        for (found, wanted) in cases {
            assert_eq!(rt; found, wanted);
        }
    }
}
