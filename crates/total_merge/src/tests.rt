use crate::{MergeError, merge};
use rule_breaks::RowBreak;
use std::test::Fail;

#[test]
fn tables_are_merged(rt: HostRuntime) -> Result<(), Fail> {
    let alloc = rt.alloc();
    let plain = "group,lo,hi,tolerance\nmen,1.5,2.000001,0.500001\nwomen,-3,-2.999999,0.000002\n\
        group,lo,hi,tolerance\nmen,-0.25,-0.25,0\nold,0,0,0.000001\n";
    let sheet =
        "\u{feff}group,\"lo\",hi,tolerance\r\nmen,1.5,2.000001,0.500001\r\n\r\nwomen,-3,-2.999999,0.000002\r\n\
        group,lo,hi,tolerance\r\nmen,-0.25,-0.25,0\r\n\"old\",0,0,0.000001";
    // by hand
    let wanted = [
        ("men", 1_250_000, 1_750_001, 500_001),
        ("women", -3_000_000, -2_999_999, 2),
        ("old", 0, 0, 1),
    ];
    for text in [plain, sheet] {
        let totals = merge(alloc, text.as_bytes())?;
        assert_eq!(rt; totals.degree, 24);
        assert_eq!(rt; totals.policies, 4);
        assert_eq!(rt; totals.groups.len(), 3);
        for (group, (name, lo, hi, tol)) in totals.groups.iter().zip(wanted) {
            assert_eq!(rt; group.name.as_slice(), name.as_bytes());
            assert_eq!(rt; (group.lo, group.hi, group.tol), (lo, hi, tol));
        }
    }
    assert_eq!(rt; merge(alloc, b"group,lo,hi,tolerance\n")?.groups.len(), 0);
    Ok(())
}

#[test]
fn the_largest_decimals_are_added_up(rt: HostRuntime) -> Result<(), Fail> {
    let low = "x,-999999999999999999.999999,0,999999999999999999.999999\n";
    let high = "y,0,999999999999999999.999999,999999999999999999.999999\n";
    let text = format!(in rt.alloc(); "group,lo,hi,tolerance\n{low}{high}{low}{high}")?;
    if text.len() > 1000 {
        return Err("too long".into());
    }
    let totals = merge(rt.alloc(), text.as_bytes())?;
    assert_eq!(rt; totals.groups.len(), 2);
    let double = 1_999_999_999_999_999_999_999_998;
    for (group, (lo, hi)) in totals.groups.iter().zip([(-double, 0), (0, double)]) {
        assert_eq!(rt; (group.lo, group.hi), (lo, hi));
        assert_eq!(rt; group.tol, 1_999_999_999_999_999_999_999_998);
    }
    Ok(())
}

#[test]
fn wrong_rows_are_told(rt: HostRuntime) -> Result<(), Fail> {
    let alloc = rt.alloc();
    for (text, row, part) in [
        ("", 0, 0),
        ("group,lo,hi,Tolerance\nx,1,2,3\n", 0, 0),
        ("x,1,2,3\ngroup,lo,hi,tolerance\n", 0, 0),
        ("group,lo,hi,tolerance\nx,1,2\n,,,\n", 1, 1),
        ("group,lo,hi,tolerance\nx,1,2,3,4\n", 1, 1),
        ("group,lo,hi,tolerance\na b,+1,,-1\n", 1, 2),
        (
            "group,lo,hi,tolerance\na-group.of_25_characters.,1,2,3\n",
            1,
            2,
        ),
        ("group,lo,hi,tolerance\nx,+1,,-1\n", 1, 3),
        ("group,lo,hi,tolerance\nx,2,1.999999,-1\n", 1, 4),
        ("group,lo,hi,tolerance\nx,2,,-1\n", 1, 4),
        ("group,lo,hi,tolerance\nx,2,2,-1\n", 1, 5),
        ("group,lo,hi,tolerance\nx,0,5,0\n", 1, 5),
        ("group,lo,hi,tolerance\nx,-3,2,4.999999\n", 1, 5),
        (
            "group,lo,hi,tolerance\n\
             x,-999999999999999999.999999,999999999999999999.999999,999999999999999999.999999\n",
            1,
            5,
        ),
        (
            "group,lo,hi,tolerance\nx,1,1,0\ngroup,lo,hi,tolerance\ny,1,1,1e3\n",
            3,
            5,
        ),
    ] {
        let Err(why) = merge(alloc, text.as_bytes()) else {
            assert!(rt; false);
            return Ok(());
        };
        assert_eq!(rt; why, MergeError::Row(RowBreak { row, part }));
    }
    Ok(())
}
