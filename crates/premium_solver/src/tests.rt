// Expected values are from exact whole-number arithmetic outside the program.

ghost use Rattle.std.specs.Prelude.{◌≡◌, ◌≤ℤ◌};

use super::*;
use fixed_interval::{Interval, Printed};

const ONE: i128 = 1 << 64;

// The least lower end of a divisor, and its greatest end.
const LEAST: i128 = 1 << 59;

const MOST: i128 = 1 << 100;

// The greatest end of a number.
const END: i128 = 1 << 123;

fn of(lo: i128, hi: i128) -> Interval
    requires { lo ≤ℤ hi }
    ensures lo { result.lo ≡ lo }
    ensures hi { result.hi ≡ hi }
{
    Interval { lo, hi }
}

#[test]
fn quotients_are_rounded_outward_once(rt: HostRuntime) {
    let number = of(2000 * ONE, 2000 * ONE);
    let cases = [
        (
            quotient(number, of(ONE, ONE)),
            (2_000_000_000, 2_000_000_000),
        ),
        (
            quotient(number, of(LEAST, LEAST)),
            (64_000_000_000, 64_000_000_000),
        ),
        (
            quotient(of(ONE, 2 * ONE), of(3 * ONE, 7 * ONE)),
            (142_857, 666_667),
        ),
        (
            quotient(of(-2 * ONE, -ONE), of(3 * ONE, 7 * ONE)),
            (-666_667, -142_857),
        ),
        (
            quotient(of(-7 * ONE, 5 * ONE), of(ONE / 2, 3 * ONE)),
            (-14_000_000, 10_000_000),
        ),
        (quotient(of(0, 1), of(LEAST, 2 * LEAST)), (0, 1)),
        (
            quotient(of(-END, END), of(LEAST, MOST)),
            (
                -18_446_744_073_709_551_616_000_000,
                18_446_744_073_709_551_616_000_000,
            ),
        ),
        (
            quotient(of(END - 1, END), of(MOST - 1, MOST)),
            (8_388_607_999_999, 8_388_608_000_001),
        ),
    ];
    for (found, wanted) in cases {
        let ends = Printed {
            lo: wanted.0,
            hi: wanted.1,
        };
        assert_eq!(rt; found, Ok(ends));
    }
}

#[test]
fn small_divisors_are_refused_with_their_lower_end(rt: HostRuntime) {
    for low in [LEAST - 1, 0, -ONE] {
        assert_eq!(rt; quotient(of(ONE, ONE), of(low, ONE)), Err(TooSmall { low }));
    }
}
