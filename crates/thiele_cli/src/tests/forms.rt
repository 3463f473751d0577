use super::{LIFE, shelf, sink, words};
use crate::run::run;
use io_ports::MemoryShelf;
use std::alloc::{AllocError, Global};
use std::test::Fail;

// The SHA-256 is from outside, of the bytes of the flat file.
const JSON: &str =
    "{\"command\":[\"value\",\"flat\"],\"degree\":8,\"files\":[{\"bytes\":172,\"name\":\"flat\",\
\"sha256\":\"ebe0f0f58bc4e99ab05a2c7db82291d5ec5d18c32fcdb710541ff8e2e6f118ec\"}],\
\"rows\":[{\"hi\":\"384.000001\",\"lo\":\"383.999999\",\"month\":0,\"state\":\"on\",\
\"tolerance\":\"0.000003\",\"what\":\"value\"}],\"scale\":10,\"tool\":\"thiele_cli 1.0\"}\n";

const CSV: &str = "month,state,what,lo,hi,tolerance\n0,on,value,383.999999,384.000001,0.000003\n";

#[test]
fn forms_of_an_answer(rt: HostRuntime) -> Result<(), Fail> {
    let alloc = rt.alloc();
    let mut shelf = shelf(alloc, &[])?;
    for (line, status, text) in [
        ("json value flat", 0, JSON),
        ("csv value flat", 0, CSV),
        ("csv value cut", 5, "refused toml\n"),
        ("csv check flat", 2, "refused words\n"),
        ("charge flat 1", 17, "refused change part 4\n"),
        ("multiply life active gone 2", 17, "refused change part 3\n"),
        ("version", 0, "thiele_cli 1.0 rattle-kit-13f\n"),
    ] {
        let mut sink = sink(alloc, &[])?;
        let mut texts = Vec::new(alloc);
        for word in line.split(' ') {
            texts.push(word)?;
        }
        let finish = run(
            alloc,
            &words(alloc, &texts)?,
            &mut shelf,
            &mut sink,
            Vec::new(alloc),
        );
        assert_eq!(rt; finish.status, status, "{line}");
        assert!(rt; sink.bytes() == text.as_bytes(), "{line}");
    }
    Ok(())
}

#[test]
fn a_refused_file_is_explained_by_its_names(rt: HostRuntime) -> Result<(), Fail> {
    let alloc = rt.alloc();
    let mut sink = sink(alloc, &[])?;
    let finish = run(
        alloc,
        &words(alloc, &["explain", "check", "empty"])?,
        &mut shelf(alloc, &[])?,
        &mut sink,
        Vec::new(alloc),
    );
    assert_eq!(rt; finish.status, 6);
    assert!(rt; sink.bytes().starts_with(b"refused rule 1 place 0\nrule: "));
    let found = b"at: format\nfound: no such key\nwanted: format = a whole number\n";
    assert!(rt; sink.bytes().ends_with(found));
    Ok(())
}

// The annuity and a table.
fn shelf_with(alloc: Global, table: &str) -> Result<MemoryShelf, AllocError> {
    let life = (b"life".to_vec(alloc)?, LIFE.to_vec(alloc)?);
    let table = (b"table".to_vec(alloc)?, table.as_bytes().to_vec(alloc)?);
    Ok(MemoryShelf::new(alloc, vec![in alloc; life, table]?, Vec::new(alloc)))
}

#[test]
fn a_wrong_row_is_explained_by_what_was_found(rt: HostRuntime) -> Result<(), Fail> {
    let alloc = rt.alloc();
    for (line, table, text) in [
        (
            "explain audit life table 0.01",
            "month,state,reserve\n0,active,9443.26\n12,active,9443,26\n",
            "refused row 2 part 1\nrule: a claim has three fields\nat: record 2\nfound: 4 fields\n",
        ),
        (
            "explain audit life table 0.01",
            "month,state,reserve\n0,asleep,9443.26\n",
            "refused row 1 part 3\nrule: state is the name of a state of the product\n\
            at: record 1, state\nfound: asleep\n",
        ),
        // wrong by itself
        (
            "explain portfolio table",
            "file,group,month,state,count\nlife,x,0,active,0\n",
            "refused row 1 part 5\n\
            rule: count is 1 to 7 digits without a leading zero, from 1 to 1000000\n\
            at: record 1, count\nfound: 0\n",
        ),
        // wrong for its product
        (
            "explain portfolio table",
            "file,group,month,state,count\nlife,x,120,active,1\nlife,x,121,active,1\n",
            "refused row 2 part 6\nrule: month is at most the term of the product\n\
            at: record 2, month\nfound: 121\n",
        ),
        (
            "explain merge table",
            "group,lo,hi,tolerance\nx,2,1,0\n",
            "refused row 1 part 4\nrule: hi is such a number too, and not below lo\n\
            at: record 1, hi\nfound: 1\n",
        ),
    ] {
        let mut sink = sink(alloc, &[])?;
        let mut texts = Vec::new(alloc);
        for word in line.split(' ') {
            texts.push(word)?;
        }
        let finish = run(
            alloc,
            &words(alloc, &texts)?,
            &mut shelf_with(alloc, table)?,
            &mut sink,
            Vec::new(alloc),
        );
        assert_eq!(rt; finish.status, 14, "{line}");
        assert!(rt; sink.bytes() == text.as_bytes(), "{line}");
    }
    Ok(())
}
