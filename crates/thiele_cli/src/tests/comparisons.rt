use super::{shelf, sink, words};
use crate::end::{End, Extra, Finish};
use crate::file_break::FileBreak;
use crate::run::run;
use basis_compare::{Change, CompareBreak, Part, Turn};
use rule_breaks::RuleBreak;
use std::test::Fail;

// The row of a date, state and part.
fn row_of(rows: &[Change], month: u32, state: u32, part: Part) -> Option<Change> {
    for row in rows {
        if row.month == month && row.state == state && row.part == part {
            return Some(*row);
        }
    }
    None
}

#[test]
fn a_raised_intensity_lowers_the_reserve(rt: HostRuntime) -> Result<(), Fail> {
    let alloc = rt.alloc();
    let mut sink = sink(alloc, &[])?;
    let Finish {
        status,
        end: _,
        report,
        extra,
    } = run(
        alloc,
        &words(alloc, &["compare", "life", "frail", "120"])?,
        &mut shelf(alloc, &[])?,
        &mut sink,
        Vec::new(alloc),
    );
    assert_eq!(rt; status, 0);
    assert!(rt; report.is_none());
    let Extra::Compare(changes) = extra else {
        return Err("no changes".into());
    };
    // two dates, two states and three parts
    assert_eq!(rt; changes.rows.len(), 12);
    // 15000 (1 - exp(-4/5)) - 24000 (1 - exp(-1/2)) = -1183.198628655..
    for (month, state, part, below, above, turn) in [
        (0, 0, Part::Interest, 0, 0, Turn::Open),
        (
            0,
            0,
            Part::Rest,
            -1_183_198_629,
            -1_183_198_628,
            Turn::Below,
        ),
        (
            0,
            0,
            Part::Total,
            -1_183_198_629,
            -1_183_198_628,
            Turn::Below,
        ),
        (0, 1, Part::Total, 0, 0, Turn::Open),
        (120, 0, Part::Total, 0, 0, Turn::Open),
    ] {
        let row = row_of(&changes.rows, month, state, part).ok_or("no row")?;
        assert!(rt; row.lo <= below && above <= row.hi, "{month} {state}");
        assert_eq!(rt; row.turn, turn, "{month} {state}");
    }
    assert!(rt; sink.bytes().starts_with(b"compare life frail\ndegree "));
    assert!(rt; sink.bytes().ends_with(b"\nend 12\n"));
    Ok(())
}

#[test]
fn the_second_file_and_the_pair_are_refused_by_their_own_ends(rt: HostRuntime) -> Result<(), Fail> {
    let alloc = rt.alloc();
    let mut shelf = shelf(alloc, &[])?;
    let seen = 1_048_577;
    let found = RuleBreak { rule: 1, place: 0 };
    for (first, second, end, status, text) in [
        ("cut", "long", End::NotToml, 5, "refused toml\n"),
        (
            "life",
            "cut",
            End::Second(FileBreak::NotToml),
            11,
            "refused second toml\n",
        ),
        (
            "life",
            "empty",
            End::Second(FileBreak::Rule(found)),
            11,
            "refused second rule 1 place 0\n",
        ),
        (
            "life",
            "long",
            End::Second(FileBreak::TooLong { seen }),
            11,
            "refused second length 1048577\n",
        ),
        ("life", "missing", End::FetchFault, 3, ""),
        (
            "life",
            "lump",
            End::Compare(CompareBreak {
                part: 1,
                a: 120,
                b: 12,
            }),
            16,
            "refused compare part 1\n",
        ),
    ] {
        let mut sink = sink(alloc, &[])?;
        let finish = run(
            alloc,
            &words(alloc, &["compare", first, second, "1"])?,
            &mut shelf,
            &mut sink,
            Vec::new(alloc),
        );
        assert!(rt; finish.end == end, "{first} {second}");
        assert_eq!(rt; finish.status, status, "{first} {second}");
        assert!(rt; sink.bytes() == text.as_bytes(), "{first} {second}");
    }
    Ok(())
}
