use super::{FLAT, sink, words};
use crate::end::{End, Extra};
use crate::file_break::FileBreak;
use crate::policy_break::PolicyBreak;
use crate::run::run;
use io_ports::MemoryShelf;
use rule_breaks::{RowBreak, RuleBreak};
use std::alloc::{AllocError, Global};
use std::test::Fail;

// A shelf with these holdings and some product files, one of them cut.
fn shelf_with(alloc: Global, holdings: &str) -> Result<MemoryShelf, AllocError> {
    let mut csv = b"file,group,month,state,count\n".to_vec(alloc)?;
    csv.extend_from_slice(holdings.as_bytes())?;
    let mut files = Vec::new(alloc);
    files.push((b"csv".to_vec(alloc)?, csv))?;
    for (name, bytes) in [
        ("flat", FLAT),
        ("cut", &FLAT[..22]),
        ("empty", b"".as_slice()),
    ] {
        files.push((name.as_bytes().to_vec(alloc)?, bytes.to_vec(alloc)?))?;
    }
    Ok(MemoryShelf::new(alloc, files, Vec::new(alloc)))
}

#[test]
fn each_portfolio_writes_its_text(rt: HostRuntime) -> Result<(), Fail> {
    let alloc = rt.alloc();
    let rule = FileBreak::Rule(RuleBreak { rule: 1, place: 0 });
    for (holdings, end, status, text) in [
        // twice 383.999999 and 384.000001, with twice 0.000003; and 0 at the term, each time with 0.000002
        (
            "flat,z,0,on,2\nflat,a,12,on,1\nflat,z,12,on,5\n",
            End::Done,
            0,
            "portfolio\ndegree 8 policies 3 groups 2\nz 767.999998 768.000002 0.000016\n\
            a 0.000000 0.000000 0.000002\nend 2\n",
        ),
        (
            "",
            End::Done,
            0,
            "portfolio\ndegree 8 policies 0 groups 0\nend 0\n",
        ),
        (
            "empty,x,0,on,1\nflat,x,0,on,0\n",
            End::Row(RowBreak { row: 2, part: 5 }),
            14,
            "refused row 2 part 5\n",
        ),
        (
            "flat,x,13,off,1\nempty,x,0,on,1\ncut,x,0,on,1\nmissing,x,0,on,1\n",
            End::Policy(PolicyBreak {
                file: 1,
                cause: rule,
            }),
            15,
            "refused policy file 1 rule 1 place 0\n",
        ),
        (
            "cut,x,0,on,1\n",
            End::Policy(PolicyBreak {
                file: 0,
                cause: FileBreak::NotToml,
            }),
            15,
            "refused policy file 0 toml\n",
        ),
        (
            "flat,x,13,off,1\nmissing,x,0,on,1\n",
            End::FetchFault,
            3,
            "",
        ),
        (
            "flat,x,12,on,1\nflat,x,13,off,1\nflat,x,0,off,1\n",
            End::Row(RowBreak { row: 2, part: 6 }),
            14,
            "refused row 2 part 6\n",
        ),
        (
            "flat,x,0,off,1\n",
            End::Row(RowBreak { row: 1, part: 7 }),
            14,
            "refused row 1 part 7\n",
        ),
    ] {
        let mut sink = sink(alloc, &[])?;
        let finish = run(
            alloc,
            &words(alloc, &["portfolio", "csv"])?,
            &mut shelf_with(alloc, holdings)?,
            &mut sink,
            Vec::new(alloc),
        );
        assert!(rt; finish.end == end, "{holdings}");
        assert_eq!(rt; finish.status, status, "{holdings}");
        assert!(rt; sink.bytes() == text.as_bytes(), "{holdings}");
        assert_eq!(rt; matches!(&finish.extra, Extra::Portfolio(_)), status == 0);
    }
    Ok(())
}
