use crate::{
    FetchError, FileShelf, Given, MemoryShelf, MemorySink, Shelf, Sink, SinkFault, StdSink,
};
use std::alloc::{AllocError, Global};
use std::io::Write;
use std::test::Fail;
use std::{fs, io};

/// Two pairs of one name, and one of another.
fn pairs(alloc: Global) -> Result<Vec<(Vec<u8>, Vec<u8>)>, AllocError> {
    let mut files = Vec::new(alloc);
    files.push((b"a".to_vec(alloc)?, b"first".to_vec(alloc)?))?;
    files.push((b"a".to_vec(alloc)?, b"second".to_vec(alloc)?))?;
    files.push((b"b".to_vec(alloc)?, b"".to_vec(alloc)?))?;
    Ok(files)
}

#[test]
fn memory_shelf_answers(rt: HostRuntime) -> Result<(), Fail> {
    let alloc = rt.alloc();
    let mut shelf = MemoryShelf::new(alloc, pairs(alloc)?, [2, 5].to_vec(alloc)?);
    let calls = [
        ("a", 5, Ok("first")),
        ("a", 5, Err(FetchError::Failed)),
        ("c", 5, Err(FetchError::Failed)),
        ("a", 4, Err(FetchError::TooLong(5))),
        ("b", 0, Err(FetchError::Failed)),
        ("b", 0, Ok("")),
    ];
    for (name, most, want) in calls {
        let answer = shelf.fetch(alloc, name, most);
        match want {
            Ok(text) => assert_eq!(rt; answer?.as_slice(), text.as_bytes(), "{name} {most}"),
            Err(error) => assert_eq!(rt; answer.err(), Some(error), "{name} {most}"),
        }
    }
    Ok(())
}

// The digests of FIPS 180-4's example "abc" and of the empty file.
const OF_ABC: &str = "ba7816bf8f01cfea414140de5dae2223b00361a396177a9cb410ff61f20015ad";

const OF_NOTHING: &str = "e3b0c44298fc1c149afbf4c8996fb92427ae41e4649b934ca495991b7852b855";

fn hex(alloc: Global, digest: &[u8]) -> Result<String, AllocError> {
    let mut text = String::new(alloc);
    for byte in digest {
        text.push_str(&format!(in alloc; "{byte:02x}")?)?;
    }
    Ok(text)
}

fn is_kept(
    alloc: Global,
    kept: &[Given],
    wanted: &[(&str, u64, &str)],
) -> Result<bool, AllocError> {
    let mut alike = kept.len() == wanted.len();
    for (given, file) in kept.iter().zip(wanted) {
        alike = alike && given.name.as_slice() == file.0.as_bytes() && given.bytes == file.1;
        alike = alike && hex(alloc, &given.sha256)?.as_str() == file.2;
    }
    Ok(alike)
}

#[test]
fn given_files_leave_evidence(rt: HostRuntime) -> Result<(), Fail> {
    let alloc = rt.alloc();
    let mut files = Vec::new(alloc);
    files.push((b"x".to_vec(alloc)?, b"abc".to_vec(alloc)?))?;
    files.push((b"y".to_vec(alloc)?, b"".to_vec(alloc)?))?;
    let mut shelf = MemoryShelf::new(alloc, files, Vec::new(alloc));
    for (name, most) in [("x", 3), ("z", 3), ("x", 2), ("y", 0)] {
        let _ = shelf.fetch(alloc, name, most);
    }
    let wanted = [("x", 3, OF_ABC), ("y", 0, OF_NOTHING)];
    assert!(rt; is_kept(alloc, shelf.given(), &wanted)?);
    let name = "given_files.test";
    fs::write(&rt, name, b"abc".as_slice())?;
    let mut real = FileShelf::new(&rt, alloc);
    let _ = real.fetch(alloc, "no such file.test", 3);
    let _ = real.fetch(alloc, name, 2);
    let _ = real.fetch(alloc, name, 3)?;
    assert!(rt; is_kept(alloc, real.given(), &[(name, 3, OF_ABC)])?);
    fs::remove_file(&rt, name)?;
    Ok(())
}

#[test]
fn memory_sink_takes_what_fits(rt: HostRuntime) -> Result<(), Fail> {
    let alloc = rt.alloc();
    let mut sink = MemorySink::new(alloc, 6, [2].to_vec(alloc)?)?;
    let calls = [
        ("abc", Ok(())),
        ("de", Err(SinkFault)),
        ("defg", Err(SinkFault)),
        ("def", Ok(())),
        ("g", Err(SinkFault)),
    ];
    for (piece, want) in calls {
        assert_eq!(rt; sink.put(piece.as_bytes()), want, "{piece}");
    }
    assert_eq!(rt; sink.bytes(), b"abcdef".as_slice());
    Ok(())
}

#[test]
fn file_shelf_reads_a_whole_file(rt: HostRuntime) -> Result<(), Fail> {
    let alloc = rt.alloc();
    let name = "file_shelf.test";
    let text = vec![in alloc; b'x'; 5000]?;
    fs::write(&rt, name, text.as_slice())?;
    let mut shelf = FileShelf::new(&rt, alloc);
    assert!(rt; shelf.fetch(alloc, name, 5000)?.as_slice() == text.as_slice());
    assert_eq!(rt;
        shelf.fetch(alloc, name, 4999).err(),
        Some(FetchError::TooLong(5000))
    );
    fs::remove_file(&rt, name)?;
    assert_eq!(rt;
        shelf.fetch(alloc, name, 5000).err(),
        Some(FetchError::Failed)
    );
    Ok(())
}

/// A writer that takes one byte in a write, and nothing once it is full.
#[derive(Drop)]
struct Slow {
    bytes: [u8; 8],
    len: usize,
}

impl Write for Slow {
    fn write(&mut self, buf: &[u8]) -> io::Result<usize> {
        if buf.is_empty() || self.len >= 8 {
            return Ok(0);
        }
        self.bytes[self.len] = buf[0];
        self.len += 1;
        Ok(1)
    }

    fn flush(&mut self) -> io::Result<()> {
        Ok(())
    }
}

#[test]
fn std_sink_writes_in_turns(rt: HostRuntime) -> Result<(), Fail> {
    let mut slow = Slow {
        bytes: [0; 8],
        len: 0,
    };
    let mut sink = StdSink::new(&mut slow);
    assert_eq!(rt; sink.put(b"abcdefg"), Ok(()));
    assert_eq!(rt; sink.put(b"hij"), Err(SinkFault));
    assert_eq!(rt; slow.bytes, *b"abcdefgh");
    Ok(())
}
