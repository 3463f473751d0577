use crate::{CellPoly, Curve, CurveError, Dir, Piece};
use std::test::Fail;

const QUINTIC: Piece = Piece {
    from: 0,
    c: [7, -3, 2, 5, -1, 4],
};

const LATER: Piece = Piece {
    from: 40,
    c: [1, 0, 0, 0, 0, 0],
};

fn constant(from: u32) -> Piece {
    Piece {
        from,
        c: [1, 0, 0, 0, 0, 0],
    }
}

// c4 t^4, of which 10 months allow 10^18.
fn quartic(c4: i64) -> Piece {
    Piece {
        from: 0,
        c: [0, 0, 0, 0, c4, 0],
    }
}

#[test]
fn causes(rt: HostRuntime) -> Result<(), Fail> {
    let alloc = rt.alloc();
    let largest = 1_000_000_000_000_000_000;
    let cubic = Piece {
        from: 0,
        c: [0, 0, 0, 9_000_000_000_000_000_000, 0, 0],
    };
    let cases = [
        ([].to_vec(alloc)?, 12, Some(CurveError::Rule(8, 0))),
        (
            [constant(1)].to_vec(alloc)?,
            12,
            Some(CurveError::Rule(8, 0)),
        ),
        (
            [constant(0), constant(0)].to_vec(alloc)?,
            12,
            Some(CurveError::Rule(8, 1)),
        ),
        (
            [constant(0), constant(12)].to_vec(alloc)?,
            12,
            Some(CurveError::Rule(8, 1)),
        ),
        (
            [cubic, constant(0)].to_vec(alloc)?,
            1200,
            Some(CurveError::Rule(8, 1)),
        ),
        ([cubic].to_vec(alloc)?, 1200, Some(CurveError::Rule(9, 0))),
        (
            [quartic(largest + 1)].to_vec(alloc)?,
            10,
            Some(CurveError::Rule(9, 0)),
        ),
        ([quartic(largest), constant(10)].to_vec(alloc)?, 20, None),
    ];
    for (pieces, months, wanted) in cases {
        assert_eq!(rt; Curve::new(alloc, pieces, months).err(), wanted);
    }
    Ok(())
}

#[test]
fn cells_and_months(rt: HostRuntime) -> Result<(), Fail> {
    let alloc = rt.alloc();
    let made = Curve::new(alloc, [QUINTIC, LATER].to_vec(alloc)?, 60);
    assert!(rt; made.is_ok());
    if let Ok(curve) = made {
        assert_eq!(rt; curve.months(), 60);
        assert_eq!(rt; curve.pieces(), [QUINTIC, LATER].as_slice());
        assert_eq!(rt; *curve.at(39), QUINTIC);
        assert_eq!(rt; *curve.at(40), LATER);
        // from expansions outside the program
        let n = [
            180_807_387_855_444,
            1_190_689_332_948,
            4_360_795_272,
            8_249_832,
            8676,
            4,
        ];
        assert_eq!(rt; curve.cell_of(14, 5, Dir::Forward), CellPoly { n });
        let n = [
            182_002_446_242_176,
            -1_199_435_707_712,
            4_385_596_864,
            -8_284_576,
            8696,
            -4,
        ];
        assert_eq!(rt; curve.cell_of(14, 5, Dir::Backward), CellPoly { n });
        let wanted = [
            52_142_720, 54_331_776, 56_650_176, 59_105_808, 61_707_096, 64_463_040,
        ];
        assert_eq!(rt; curve.month_bernstein(14), wanted);
    }
    Ok(())
}
