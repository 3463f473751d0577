use super::{LIFE, shelf, sink, words};
use crate::end::{End, Extra, Finish};
use crate::file_break::FileBreak;
use crate::run::run;
use claim_audit::Finding;
use io_ports::MemoryShelf;
use rule_breaks::RowBreak;
use std::alloc::{AllocError, Global};
use std::test::Fail;

// The annuity and claims about it.
fn claims_shelf(alloc: Global, claims: &str) -> Result<MemoryShelf, AllocError> {
    let life = (b"life".to_vec(alloc)?, LIFE.to_vec(alloc)?);
    let table = (b"claims".to_vec(alloc)?, claims.as_bytes().to_vec(alloc)?);
    Ok(MemoryShelf::new(alloc, vec![in alloc; life, table]?, Vec::new(alloc)))
}

// As a spreadsheet writes it: with carriage returns, quotes, and no end of the last line. The reserve at issue is
// 24000 (1 - exp(-1/2)) = 9443.264166886..
#[test]
fn claims_about_an_annuity_are_marked(rt: HostRuntime) -> Result<(), Fail> {
    let alloc = rt.alloc();
    let table =
        "month,state,reserve\r\n0,\"active\",9443.264167\r\n0,active,9443.3\r\n120,\"dead\",0";
    let mut sink = sink(alloc, &[])?;
    let Finish {
        status,
        end: _,
        report,
        extra,
    } = run(
        alloc,
        &words(alloc, &["audit", "life", "claims", "0.00001"])?,
        &mut claims_shelf(alloc, table)?,
        &mut sink,
        Vec::new(alloc),
    );
    assert_eq!(rt; status, 0);
    assert!(rt; report.is_none());
    let Extra::Audit(audited) = extra else {
        return Err("no audit".into());
    };
    assert_eq!(rt; audited.claims.len(), 3);
    assert_eq!(rt; audited.claims[0].mark, Finding::Yes);
    assert_eq!(rt; audited.claims[1].mark, Finding::No);
    assert_eq!(rt; audited.claims[2].mark, Finding::Yes);
    assert_eq!(rt; audited.claims[2].month, 120);
    assert!(rt; sink.bytes().starts_with(b"audit life\ndegree "));
    assert!(rt;
        sink.bytes()
            .ends_with(b" yes\nend yes 2 no 1 undecided 0\n")
    );
    Ok(())
}

#[test]
fn a_claim_past_the_term_is_refused(rt: HostRuntime) -> Result<(), Fail> {
    let alloc = rt.alloc();
    let mut sink = sink(alloc, &[])?;
    let finish = run(
        alloc,
        &words(alloc, &["audit", "life", "claims", "0.00001"])?,
        &mut claims_shelf(alloc, "month,state,reserve\n121,dead,0\n")?,
        &mut sink,
        Vec::new(alloc),
    );
    assert!(rt; finish.end == End::Row(RowBreak { row: 1, part: 2 }));
    assert_eq!(rt; finish.status, 14);
    assert!(rt; sink.bytes() == b"refused row 1 part 2\n".as_slice());
    Ok(())
}

#[test]
fn the_product_file_is_looked_at_before_the_claims(rt: HostRuntime) -> Result<(), Fail> {
    let alloc = rt.alloc();
    let mut shelf = shelf(alloc, &[])?;
    let seen = 1_048_577;
    for (product, claims, end, status, text) in [
        ("cut", "missing", End::NotToml, 5, "refused toml\n"),
        (
            "flat",
            "long",
            End::Second(FileBreak::TooLong { seen }),
            11,
            "refused second length 1048577\n",
        ),
        ("flat", "missing", End::FetchFault, 3, ""),
        // the first record is no header
        (
            "flat",
            "cut",
            End::Row(RowBreak { row: 0, part: 0 }),
            14,
            "refused row 0 part 0\n",
        ),
    ] {
        let mut sink = sink(alloc, &[])?;
        let finish = run(
            alloc,
            &words(alloc, &["audit", product, claims, "0"])?,
            &mut shelf,
            &mut sink,
            Vec::new(alloc),
        );
        assert!(rt; finish.end == end, "{product} {claims}");
        assert_eq!(rt; finish.status, status, "{product} {claims}");
        assert!(rt; sink.bytes() == text.as_bytes(), "{product} {claims}");
    }
    Ok(())
}
