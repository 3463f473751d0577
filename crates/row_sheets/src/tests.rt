use crate::{About, Field, Sheet, csv_bytes, json_bytes};
use io_ports::Given;
use std::alloc::{AllocError, Global};
use std::test::Fail;

const HEAD: &[&str] = &["month", "state", "lo"];

// The SHA-256 of the three bytes of "abc", from FIPS 180-4.
const DIGEST: [u8; 32] = [
    0xba, 0x78, 0x16, 0xbf, 0x8f, 0x01, 0xcf, 0xea, 0x41, 0x41, 0x40, 0xde, 0x5d, 0xae, 0x22, 0x23,
    0xb0, 0x03, 0x61, 0xa3, 0x96, 0x17, 0x7a, 0x9c, 0xb4, 0x10, 0xff, 0x61, 0xf2, 0x00, 0x15, 0xad,
];

fn text(alloc: Global, words: &str) -> Result<Field, AllocError> {
    Ok(Field::Text(String::from_str(alloc, words)?))
}

// A row, and one with a comma, quotes and an empty field.
fn two_rows(alloc: Global) -> Result<Sheet, AllocError> {
    let mut sheet = Sheet::new(alloc, HEAD);
    sheet.push(vec![in alloc;
        Field::Whole(12),
        text(alloc, "on")?,
        text(alloc, "-0.500000")?,
    ]?)?;
    sheet.push(vec![in alloc; Field::Whole(0), text(alloc, "a,\"b\"")?, text(alloc, "")?]?)?;
    Ok(sheet)
}

fn words(alloc: Global) -> Result<Vec<String>, AllocError> {
    let mut words = Vec::new(alloc);
    words.push(String::from_str(alloc, "reserves")?)?;
    words.push(String::from_str(alloc, "abc.toml")?)?;
    Ok(words)
}

fn given(alloc: Global) -> Result<Vec<Given>, AllocError> {
    let mut files = Vec::new(alloc);
    files.push(Given {
        name: b"abc.toml".to_vec(alloc)?,
        bytes: 3,
        sha256: DIGEST,
    })?;
    Ok(files)
}

#[test]
fn a_sheet_as_csv(rt: HostRuntime) -> Result<(), Fail> {
    let sheet = two_rows(rt.alloc())?;
    let bytes = csv_bytes(rt.alloc(), &sheet)?;
    let wanted = b"month,state,lo\n12,on,-0.500000\n0,\"a,\"\"b\"\"\",\n";
    assert!(rt; bytes.as_slice() == wanted.as_slice());
    Ok(())
}

#[test]
fn a_sheet_as_json(rt: HostRuntime) -> Result<(), Fail> {
    let sheet = two_rows(rt.alloc())?;
    let words = words(rt.alloc())?;
    let files = given(rt.alloc())?;
    let about = About {
        words: &words,
        files: &files,
        degree: Some(9),
        scale: Some(19),
    };
    let bytes = json_bytes(rt.alloc(), &about, &sheet)?;
    let wanted = "{\"command\":[\"reserves\",\"abc.toml\"],\"degree\":9,\
        \"files\":[{\"bytes\":3,\"name\":\"abc.toml\",\
        \"sha256\":\"ba7816bf8f01cfea414140de5dae2223b00361a396177a9cb410ff61f20015ad\"}],\
        \"rows\":[{\"lo\":\"-0.500000\",\"month\":12,\"state\":\"on\"},\
        {\"lo\":\"\",\"month\":0,\"state\":\"a,\\\"b\\\"\"}],\
        \"scale\":19,\"tool\":\"thiele_cli 1.0\"}\n";
    assert!(rt; bytes.as_slice() == wanted.as_bytes());
    Ok(())
}

#[test]
fn an_answer_without_degree_and_files(rt: HostRuntime) -> Result<(), Fail> {
    let sheet = Sheet::new(rt.alloc(), HEAD);
    let about = About {
        words: &[],
        files: &[],
        degree: None,
        scale: None,
    };
    let bytes = json_bytes(rt.alloc(), &about, &sheet)?;
    let wanted = "{\"command\":[],\"files\":[],\"rows\":[],\"tool\":\"thiele_cli 1.0\"}\n";
    assert!(rt; bytes.as_slice() == wanted.as_bytes());
    Ok(())
}
