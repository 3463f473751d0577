// From scaled units of 2^-64 to whole millionths of a minor unit.

ghost use Rattle.std.specs.Prelude.{◌≡◌, ◌*◌, ◌^◌, ◌≤◌, pos, ◌*ℤ◌, unsigned_abs};
ghost use Rattle.frac_laws.specs.Rounding.{floor_of, ceiling_of};

// 10^6 is 2^6 * 15625, so v * 2^g * 10^6 / 2^64 is v * 15625 / 2^(58 - g), and nothing outgrows 128 bits.
const ODD_PART: i128 = 15_625;

const SHIFT: u32 = 58;

/// The floor of `v * 2^g * 10^6 / 2^64`: v units of 2^-64 at the scale 2^g, as millionths, rounded down.
pub fn scale_floor(v: i128, g: u32) -> i128
    requires number { unsigned_abs v ≤ 2 ^ 100 }
    requires scale { g ≤ 56 }
    ensures value { result ≡ floor_of (v *ℤ pos (2 ^ g * 10 ^ 6)) (pos (2 ^ 64)) }
    ensures size { unsigned_abs result ≤ 2 ^ 112 }
{
    (v * ODD_PART) >> (SHIFT - g)
}

/// The ceiling of `v * 2^g * 10^6 / 2^64`: v units of 2^-64 at the scale 2^g, as millionths, rounded up.
pub fn scale_ceil(v: i128, g: u32) -> i128
    requires number { unsigned_abs v ≤ 2 ^ 100 }
    requires scale { g ≤ 56 }
    ensures value { result ≡ ceiling_of (v *ℤ pos (2 ^ g * 10 ^ 6)) (pos (2 ^ 64)) }
    ensures size { unsigned_abs result ≤ 2 ^ 112 }
{
    -scale_floor(-v, g)
}

#[cfg(test)]
mod tests {
    use super::*;

    const MOST: i128 = 1 << 100;

    const ONE: i128 = 1 << 64;

    #[test]
    fn millionths(rt: HostRuntime) {
        // from exact whole-number arithmetic outside the program
        let most_at_56 = 4_951_760_157_141_521_099_596_496_896_000_000;
        let cases = [
            (scale_floor(0, 0), scale_ceil(0, 0), (0, 0)),
            (scale_floor(1, 0), scale_ceil(1, 0), (0, 1)),
            (scale_floor(-1, 0), scale_ceil(-1, 0), (-1, 0)),
            (scale_floor(-1, 56), scale_ceil(-1, 56), (-3907, -3906)),
            (
                scale_floor(ONE + 1, 10),
                scale_ceil(ONE + 1, 10),
                (1_024_000_000, 1_024_000_001),
            ),
            (
                scale_floor(-ONE - 1, 10),
                scale_ceil(-ONE - 1, 10),
                (-1_024_000_001, -1_024_000_000),
            ),
            (
                scale_floor(MOST, 56),
                scale_ceil(MOST, 56),
                (most_at_56, most_at_56),
            ),
            (
                scale_floor(-MOST, 56),
                scale_ceil(-MOST, 56),
                (-most_at_56, -most_at_56),
            ),
            (
                scale_floor(1 - MOST, 3),
                scale_ceil(1 - MOST, 3),
                (-549_755_813_888_000_000, -549_755_813_887_999_999),
            ),
        ];
        for (floor, ceiling, wanted) in cases {
            assert_eq!(rt; (floor, ceiling), wanted);
        }
    }
}
