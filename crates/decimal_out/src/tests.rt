use super::*;
use std::test::Fail;

#[test]
fn numbers_are_appended(rt: HostRuntime) -> Result<(), Fail> {
    for (number, wanted) in [
        (0, "at 0.000000"),
        (1, "at 0.000001"),
        (-1, "at -0.000001"),
        (999_999, "at 0.999999"),
        (-1_000_000, "at -1.000000"),
        (384_000_000, "at 384.000000"),
        (12_345_678_901_234_567_890, "at 12345678901234.567890"),
        (i128::MAX, "at 170141183460469231731687303715884.105727"),
        (i128::MIN, "at -170141183460469231731687303715884.105728"),
    ] {
        let mut text = b"at ".to_vec(rt.alloc())?;
        push_millionths(&mut text, number)?;
        assert!(rt; text.as_slice() == wanted.as_bytes(), "{wanted}");
    }
    Ok(())
}

#[test]
fn the_largest_size_is_appended(rt: HostRuntime) -> Result<(), Fail> {
    let mut text = Vec::new(rt.alloc());
    push_size(&mut text, u128::MAX)?;
    assert_eq!(rt;
        text.as_slice(),
        b"340282366920938463463374607431768.211455".as_slice()
    );
    Ok(())
}

#[test]
fn whole_numbers_are_appended(rt: HostRuntime) -> Result<(), Fail> {
    let mut text = b"end ".to_vec(rt.alloc())?;
    push_whole(&mut text, 1200u32)?;
    push_whole(&mut text, -7i128)?;
    push_whole(&mut text, 0u8)?;
    push_whole(&mut text, u128::MAX)?;
    let wanted = b"end 1200-70340282366920938463463374607431768211455";
    assert!(rt; text.as_slice() == wanted.as_slice());
    Ok(())
}
