// Expected values are from exact whole-number arithmetic outside the program.

ghost use Rattle.std.specs.Prelude.{◌≡◌, ◌≤ℤ◌};

use super::*;

const ONE: i128 = 1 << 64;

// The greatest end of a product.
const FACTOR: i128 = 1 << 66;

// The greatest end that is printed.
const END: i128 = 1 << 123;

fn of(lo: i128, hi: i128) -> Interval
    requires { lo ≤ℤ hi }
    ensures lo { result.lo ≡ lo }
    ensures hi { result.hi ≡ hi }
{
    Interval { lo, hi }
}

#[test]
fn ends_stand_around_a_midpoint(rt: HostRuntime) {
    let cases = [
        (Interval::around(5, 2, 3), (24, 56)),
        (Interval::around(7, 9, 1), (-4, 32)),
        (
            Interval::around(-(1 << 65), 1 << 45, 56),
            (
                -2_658_458_526_871_032_202_266_417_113_967_099_904,
                -2_658_453_456_268_631_289_348_811_127_154_278_400,
            ),
        ),
    ];
    for (found, wanted) in cases {
        assert_eq!(rt; (found.lo, found.hi), wanted);
    }
}

#[test]
fn products_are_rounded_outward_once(rt: HostRuntime) {
    let third = ONE / 3;
    let cases = [
        (of(1, 3).mul(&of(-1, 1)), (-1, 1)),
        (of(-ONE - 1, 1 - ONE).mul(&of(3, 3)), (-4, -2)),
        (
            of(third, third).mul(&of(third, third)),
            (2_049_638_230_412_172_401, 2_049_638_230_412_172_402),
        ),
        (
            of(-FACTOR, 27_670_116_110_564_327_424).mul(&of(-6_148_914_691_236_517_206, FACTOR)),
            (-295_147_905_179_352_825_856, 110_680_464_442_257_309_696),
        ),
    ];
    for (found, wanted) in cases {
        assert_eq!(rt; (found.lo, found.hi), wanted);
    }
}

#[test]
fn rows_are_rounded_once_a_number(rt: HostRuntime) {
    let third = of(6_148_914_691_236_517_205, 6_148_914_691_236_517_206);
    let wide = of(-4_611_686_018_427_387_904, 2_635_249_153_387_078_802);
    let cases = [
        (affine_apply(&[], &of(-3, 5), &[]), (-3, 5)),
        (
            affine_apply(
                &[third, wide],
                &of(-16, 16),
                &[3_689_348_814_741_910_323, -2_049_638_230_412_172_402],
            ),
            (936_977_476_759_850_223, 1_742_192_495_850_346_559),
        ),
        (
            affine_apply(
                &[of(FACTOR - 1, FACTOR), of(-FACTOR, FACTOR)],
                &of(FACTOR, FACTOR),
                &[-FACTOR, FACTOR],
            ),
            (-516_508_834_063_867_445_248, 73_786_976_294_838_206_468),
        ),
    ];
    for (found, wanted) in cases {
        assert_eq!(rt; (found.lo, found.hi), wanted);
    }
}

#[test]
fn sums_and_meetings_are_exact(rt: HostRuntime) {
    assert_eq!(rt; of(-1, 3).add(&of(2, 5)), of(1, 8));
    assert_eq!(rt; of(1, 3).meet(&of(2, 5)), Some(of(2, 3)));
    assert_eq!(rt; of(1, 3).meet(&of(3, 5)), Some(of(3, 3)));
    assert_eq!(rt; of(1, 3).meet(&of(4, 5)), None);
}

#[test]
fn ends_are_printed_in_millionths(rt: HostRuntime) {
    let cases = [
        (of(0, 0), (0, 0)),
        (of(-1, 1), (-1, 1)),
        (of(-ONE - 1, ONE + 1), (-1_000_001, 1_000_001)),
        (
            of(12_345_678_901_234_567_890, 98_765_432_109_876_543_210),
            (669_260, 5_354_085),
        ),
        (
            of(1 - END, END),
            (
                -576_460_752_303_423_488_000_000,
                576_460_752_303_423_488_000_000,
            ),
        ),
    ];
    for (interval, wanted) in cases {
        let found = interval.printed();
        assert_eq!(rt; (found.lo, found.hi), wanted);
    }
}

#[test]
fn second_moments_are_printed_whole(rt: HostRuntime) {
    let most = 1 << 70;
    let cases = [
        (of(0, 0).printed_whole(0), (0, 0)),
        (of(-1, 1).printed_whole(0), (-1, 1)),
        (of(-1, 1).printed_whole(31), (-1, 1)),
        (of(-3, 5).printed_whole(32), (-3, 5)),
        (of(-3, 5).printed_whole(33), (-12, 20)),
        (
            of(-ONE - 1, ONE + 1).printed_whole(10),
            (-1_048_577, 1_048_577),
        ),
        (
            of(1 - most, most).printed_whole(56),
            (
                -332_306_998_946_228_968_225_670_290_093_375_488,
                332_306_998_946_228_968_225_951_765_070_086_144,
            ),
        ),
    ];
    for (found, wanted) in cases {
        assert_eq!(rt; (found.lo, found.hi), wanted);
    }
}
