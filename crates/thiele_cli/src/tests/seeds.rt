use super::{shelf, sink, words};
use crate::run::run;
use io_ports::MemorySink;
use std::test::Fail;
use toml::Value;
use workload_gen::make;

#[test]
fn a_seed_has_a_product_file(rt: HostRuntime) -> Result<(), Fail> {
    let alloc = rt.alloc();
    let mut sink = MemorySink::new(alloc, 200_000, Vec::new(alloc))?;
    // a fetch would fail
    let finish = run(
        alloc,
        &words(alloc, &["generate", "0"])?,
        &mut shelf(alloc, &[1])?,
        &mut sink,
        Vec::new(alloc),
    );
    assert_eq!(rt; finish.status, 0);
    assert!(rt; finish.report.is_none());
    let tree = toml::table_from_slice(alloc, sink.bytes())?;
    assert_eq!(rt;
        tree.get("name").and_then(Value::as_str),
        Some("generated-0")
    );
    let lump = tree
        .get("lump")
        .and_then(|lumps| lumps.get(0))
        .ok_or("no lump")?;
    assert_eq!(rt; lump.get("month").and_then(Value::as_integer), Some(1));
    assert_eq!(rt; lump.get("state").and_then(Value::as_str), Some("disabled"));
    assert_eq!(rt;
        lump.get("amount").and_then(Value::as_integer),
        Some(148_449)
    );
    Ok(())
}

#[test]
fn a_second_piece_that_fails_leaves_the_first(rt: HostRuntime) -> Result<(), Fail> {
    let alloc = rt.alloc();
    let mut sink = sink(alloc, &[2])?;
    let finish = run(
        alloc,
        &words(alloc, &["generate", "0"])?,
        &mut shelf(alloc, &[])?,
        &mut sink,
        Vec::new(alloc),
    );
    assert_eq!(rt; finish.status, 8);
    assert_eq!(rt; sink.bytes().len(), 4096);
    let text = make(alloc, 0)?;
    assert!(rt; text.starts_with(sink.bytes()));
    Ok(())
}

#[test]
fn a_seed_is_loaded_in_three_lines(rt: HostRuntime) -> Result<(), Fail> {
    let alloc = rt.alloc();
    let mut sink = sink(alloc, &[])?;
    let finish = run(
        alloc,
        &words(alloc, &["load", "7"])?,
        &mut shelf(alloc, &[1])?,
        &mut sink,
        Vec::new(alloc),
    );
    assert_eq!(rt; finish.status, 0);
    let report = finish.report.ok_or("no report")?;
    assert_eq!(rt; report.rows.len(), 198);
    assert!(rt; sink.bytes().starts_with(b"load generated-7\ndegree "));
    Ok(())
}
