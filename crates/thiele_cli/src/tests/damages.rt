use super::{FLAT, TERM, sink, words};
use crate::run::run;
use io_ports::MemoryShelf;
use std::alloc::{AllocError, Global};
use std::test::Fail;

// What `check` writes about a file.
fn said_of(alloc: Global, bytes: Vec<u8>) -> Result<Vec<u8>, AllocError> {
    let files = vec![in alloc; (b"file".to_vec(alloc)?, bytes)]?;
    let mut shelf = MemoryShelf::new(alloc, files, Vec::new(alloc));
    let mut sink = sink(alloc, &[])?;
    run(
        alloc,
        &words(alloc, &["check", "file"])?,
        &mut shelf,
        &mut sink,
        Vec::new(alloc),
    );
    sink.bytes().to_vec(alloc)
}

// The flat file with another text in the place of one of its own.
fn flat_but(alloc: Global, own: &str, other: &str) -> Result<Vec<u8>, Fail> {
    let text = str::from_utf8(FLAT)?;
    let (before, after) = text.split_once(own).ok_or("no such text")?;
    let mut bytes = before.as_bytes().to_vec(alloc)?;
    bytes.extend_from_slice(other.as_bytes())?;
    bytes.extend_from_slice(after.as_bytes())?;
    Ok(bytes)
}

#[test]
fn a_damaged_file_is_refused_by_its_rule(rt: HostRuntime) -> Result<(), Fail> {
    let alloc = rt.alloc();
    let nested = "x = [[[[[[[[[[[[[[[[[[[[[[[[[[[[[[[[[[[[[[[[[[[[[[[[[[[[[[[[[[[[\
                  ]]]]]]]]]]]]]]]]]]]]]]]]]]]]]]]]]]]]]]]]]]]]]]]]]]]]]]]]]]]]\n[[sojourn]]";
    for (own, other, line) in [
        (
            "months = 12",
            "months = 9223372036854775807",
            "refused rule 4 place 0\n",
        ),
        ("from = 0, c", "from = -1, c", "refused rule 8 place 0\n"),
        (
            "c = [0]",
            "c = [-9223372036854775808]",
            "refused rule 15 place 0\n",
        ),
        (
            "amount = 384",
            "amount = -9223372036854775808",
            "refused rule 11 place 0\n",
        ),
        (
            "[[sojourn]]",
            "x = 1\n[[sojourn]]",
            "refused rule 1 place 11\n",
        ),
        ("[[sojourn]]", nested, "refused rule 1 place 11\n"),
    ] {
        assert!(rt;
            said_of(alloc, flat_but(alloc, own, other)?)?.as_slice() == line.as_bytes(),
            "{other}"
        );
    }
    Ok(())
}

#[test]
fn a_file_is_cut_after_each_of_its_first_bytes(rt: HostRuntime) -> Result<(), Fail> {
    let alloc = rt.alloc();
    // from a count of bytes to another: what is said of the file that ends there; of each other one that it is no TOML
    let lines = [
        (10, 11, "refused rule 1 place 1\n"),
        (24, 25, "refused rule 1 place 2\n"),
        (35, 38, "refused rule 1 place 3\n"),
        (45, 48, "refused rule 1 place 4\n"),
        (64, 65, "refused rule 1 place 5\n"),
        (92, 93, "refused rule 1 place 6\n"),
        (127, 129, "check term\n"),
        (143, 144, "refused rule 7 place 0\n"),
        (159, 160, "refused rule 7 place 0\n"),
        (171, 172, "refused rule 7 place 0\n"),
    ];
    for count in 1..201 {
        let told = lines
            .iter()
            .find(|(first, last, _)| *first <= count && count <= *last);
        let wanted = told.map_or("refused toml\n", |(_, _, line)| *line);
        let found = said_of(alloc, TERM[..count].to_vec(alloc)?)?;
        assert!(rt; found.starts_with(wanted.as_bytes()), "{count} bytes");
    }
    Ok(())
}
