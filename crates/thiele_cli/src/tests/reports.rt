use super::{shelf, sink, words};
use crate::run::run;
use report_columns::What;
use std::test::Fail;

#[test]
fn values_are_enclosed_within_their_tolerances(rt: HostRuntime) -> Result<(), Fail> {
    let alloc = rt.alloc();
    // name, scale, the whole numbers of millionths around the exact value, and the tolerance
    for (name, scale, below, above, tolerance) in [
        // 100 years of 10^12 minor units a year, which are paid by the insured
        (
            "large",
            48,
            -100_000_000_000_000_000_000,
            -100_000_000_000_000_000_000,
            1_200_000_002,
        ),
        // 240000 (1 - exp(-1/20)) = 11704.938119828..
        ("interest", 15, 11_704_938_119, 11_704_938_120, 3),
        // 10000 exp(-1/20) = 9512.294245007..
        ("lump", 14, 9_512_294_245, 9_512_294_246, 3),
    ] {
        let mut sink = sink(alloc, &[])?;
        let finish = run(
            alloc,
            &words(alloc, &["value", name])?,
            &mut shelf(alloc, &[])?,
            &mut sink,
            Vec::new(alloc),
        );
        let report = finish.report.ok_or("no report")?;
        assert_eq!(rt; report.rows.len(), 1, "{name}");
        assert_eq!(rt; report.scale, scale, "{name}");
        let row = &report.rows[0];
        assert!(rt; row.lo <= below && above <= row.hi, "{name}");
        assert!(rt;
            report.tolerance.as_slice() == [tolerance].as_slice(),
            "{name}"
        );
    }
    Ok(())
}

#[test]
fn reserves_stand_by_date_and_then_by_state(rt: HostRuntime) -> Result<(), Fail> {
    let alloc = rt.alloc();
    let mut sink = sink(alloc, &[])?;
    let finish = run(
        alloc,
        &words(alloc, &["reserves", "life", "50"])?,
        &mut shelf(alloc, &[])?,
        &mut sink,
        Vec::new(alloc),
    );
    let report = finish.report.ok_or("no report")?;
    assert_eq!(rt; report.rows.len(), 6);
    // 24000 (1 - exp(-t / 20)) for the t years that are left, 10, 35/6 and 5/3, between whole millionths; and nothing
    // in the state of death
    let wanted = [
        (0, 0, 9_443_264_166, 9_443_264_167),
        (0, 1, 0, 0),
        (50, 0, 6_071_579_992, 6_071_579_993),
        (50, 1, 0, 0),
        (100, 0, 1_918_934_048, 1_918_934_049),
        (100, 1, 0, 0),
    ];
    for i in 0..report.rows.len().min(wanted.len()) {
        let row = &report.rows[i];
        let (month, state, below, above) = wanted[i];
        assert_eq!(rt; (row.month, row.state), (month, state));
        assert!(rt; row.lo <= below && above <= row.hi, "{month} {state}");
    }
    Ok(())
}

#[test]
fn probabilities_stand_by_date_and_then_by_state(rt: HostRuntime) -> Result<(), Fail> {
    let alloc = rt.alloc();
    let mut sink = sink(alloc, &[])?;
    let finish = run(
        alloc,
        &words(alloc, &["occupancy", "life", "120"])?,
        &mut shelf(alloc, &[])?,
        &mut sink,
        Vec::new(alloc),
    );
    let report = finish.report.ok_or("no report")?;
    assert_eq!(rt; report.rows.len(), 4);
    // 1 at issue, and exp(-1/5) = 0.818730753.. after ten years
    let wanted = [
        (0, 0, 1_000_000, 1_000_000),
        (0, 1, 0, 0),
        (120, 0, 818_730, 818_731),
        (120, 1, 181_269, 181_270),
    ];
    for i in 0..report.rows.len().min(wanted.len()) {
        let row = &report.rows[i];
        let (month, state, below, above) = wanted[i];
        assert_eq!(rt; (row.month, row.state), (month, state));
        assert!(rt; row.lo <= below && above <= row.hi, "{month} {state}");
    }
    Ok(())
}

#[test]
fn the_moments_of_a_sum_at_death_are_enclosed(rt: HostRuntime) -> Result<(), Fail> {
    let alloc = rt.alloc();
    let mut sink = sink(alloc, &[])?;
    let finish = run(
        alloc,
        &words(alloc, &["moments", "term", "120"])?,
        &mut shelf(alloc, &[])?,
        &mut sink,
        Vec::new(alloc),
    );
    let report = finish.report.ok_or("no report")?;
    // two dates and two states
    assert_eq!(rt; report.rows.len(), 12);
    // 40000 (1 - exp(-1/2)), 2500000000 (1 - exp(-4/5)), and that less the square of the first
    let wanted = [
        (What::First, 15_738_773_611, 15_738_773_612, 3),
        (What::Second, 1_376_677_589, 1_376_677_590, 3),
        (What::Variance, 1_128_968_594, 1_128_968_595, 3),
    ];
    for i in 0..report.rows.len().min(wanted.len()) {
        let row = &report.rows[i];
        let (what, below, above, tolerance) = wanted[i];
        assert_eq!(rt; (row.month, row.state), (0, 0));
        assert!(rt; row.what == what, "{i}");
        assert!(rt; row.lo <= below && above <= row.hi, "{i}");
        assert_eq!(rt; report.tolerance.get(i).copied(), Some(tolerance), "{i}");
    }
    Ok(())
}

#[test]
fn a_sure_lump_has_no_variance(rt: HostRuntime) -> Result<(), Fail> {
    let alloc = rt.alloc();
    let mut sink = sink(alloc, &[])?;
    let finish = run(
        alloc,
        &words(alloc, &["moments", "sure", "1"])?,
        &mut shelf(alloc, &[])?,
        &mut sink,
        Vec::new(alloc),
    );
    let report = finish.report.ok_or("no report")?;
    assert_eq!(rt; report.rows.len(), 6);
    // a month before it is paid, and after that
    let wanted = [
        (0, 100_000_000),
        (0, 10_000),
        (0, 0),
        (1, 0),
        (1, 0),
        (1, 0),
    ];
    for i in 0..report.rows.len().min(wanted.len()) {
        let row = &report.rows[i];
        let (month, exact) = wanted[i];
        assert_eq!(rt; row.month, month, "{i}");
        assert!(rt; row.lo <= exact && exact <= row.hi, "{i}");
    }
    Ok(())
}

#[test]
fn the_premium_of_a_constant_intensity_is_enclosed(rt: HostRuntime) -> Result<(), Fail> {
    let alloc = rt.alloc();
    let mut sink = sink(alloc, &[])?;
    let finish = run(
        alloc,
        &words(alloc, &["premium", "term"])?,
        &mut shelf(alloc, &[])?,
        &mut sink,
        Vec::new(alloc),
    );
    let report = finish.report.ok_or("no report")?;
    assert_eq!(rt; report.rows.len(), 3);
    // 40000 (1 - exp(-1/2)) and 20 (1 - exp(-1/2)), whose quotient is 2000
    let wanted = [
        (15_738_773_611, 15_738_773_612),
        (7_869_386, 7_869_387),
        (2_000_000_000, 2_000_000_000),
    ];
    for i in 0..report.rows.len().min(wanted.len()) {
        let row = &report.rows[i];
        let (below, above) = wanted[i];
        assert!(rt; row.lo <= below && above <= row.hi, "{i}");
    }
    Ok(())
}
