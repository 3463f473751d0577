use crate::{
    Decimal, decimal, millionths, signed_whole, unsigned_decimal, unsigned_millionths, whole,
};
use std::test::Fail;

#[test]
fn decimals_are_read(rt: HostRuntime) -> Result<(), Fail> {
    for (text, wanted) in [
        ("0", Some(0)),
        ("-0.0", Some(0)),
        ("9443.264167", Some(9_443_264_167)),
        ("-1.5", Some(-1_500_000)),
        ("0.000001", Some(1)),
        (
            "999999999999999999.999999",
            Some(999_999_999_999_999_999_999_999),
        ),
        ("1000000000000000000", None),
        ("007", None),
        ("1.", None),
        (".5", None),
        ("+1", None),
        ("1e3", None),
        ("1.1234567", None),
        ("1.2.3", None),
        ("--1", None),
        ("-", None),
        ("", None),
    ] {
        assert_eq!(rt; millionths(text.as_bytes()), wanted);
    }
    Ok(())
}

#[test]
fn numbers_without_a_sign_are_read(rt: HostRuntime) -> Result<(), Fail> {
    for (text, wanted) in [
        ("0.00001", Some(10)),
        ("0", Some(0)),
        ("12.5", Some(12_500_000)),
        ("-0", None),
        ("01", None),
        ("", None),
    ] {
        assert_eq!(rt; unsigned_millionths(text.as_bytes()), wanted);
    }
    assert_eq!(rt; whole(b"1200", 4), Some(1200));
    assert_eq!(rt; whole(b"12000", 4), None);
    Ok(())
}

#[test]
fn decimals_keep_their_places(rt: HostRuntime) -> Result<(), Fail> {
    for (text, wanted) in [
        ("-0.010", Some((-10, 3))),
        ("0.00", Some((0, 2))),
        ("-0", Some((0, 0))),
        ("12", Some((12, 0))),
        (
            "-999999999999999999.999999",
            Some((-999_999_999_999_999_999_999_999, 6)),
        ),
        ("1.1234567", None),
        ("1.", None),
        (".5", None),
        ("01.5", None),
        ("+1", None),
        ("-", None),
    ] {
        let wanted = wanted.map(|(units, places)| Decimal { units, places });
        assert_eq!(rt; decimal(text.as_bytes()), wanted);
    }
    let wanted = Decimal {
        units: 110,
        places: 2,
    };
    assert_eq!(rt; unsigned_decimal(b"1.10"), Some(wanted));
    assert_eq!(rt; unsigned_decimal(b"-1.10"), None);
    Ok(())
}

#[test]
fn whole_numbers_have_a_sign(rt: HostRuntime) -> Result<(), Fail> {
    for (text, wanted) in [
        ("409", Some(409)),
        ("-409", Some(-409)),
        ("-0", Some(0)),
        ("-999999999999999999", Some(-999_999_999_999_999_999)),
        ("1000000000000000000", None),
        ("-01", None),
        ("--1", None),
        ("+1", None),
        ("1.0", None),
        ("", None),
    ] {
        assert_eq!(rt; signed_whole(text.as_bytes(), 18), wanted);
    }
    assert_eq!(rt; signed_whole(b"-1200", 4), Some(-1200));
    assert_eq!(rt; signed_whole(b"-12000", 4), None);
    Ok(())
}
