mod totals;

use crate::{PolicyError, read_policies};
use rule_breaks::RowBreak;
use std::test::Fail;

#[test]
fn holdings_are_read(rt: HostRuntime) -> Result<(), Fail> {
    let alloc = rt.alloc();
    let plain =
        "file,group,month,state,count\nf1.toml,x,0,on,2\nf5.toml,y,0,active,1\nf1.toml,x,12,on,5\n";
    let sheet = "\u{feff}\"file\",group,month,state,count\r\nf1.toml,x,0,on,2\r\n\r\n\
        f5.toml,\"y\",0,active,1\r\nf1.toml,x,12,on,5";
    for text in [plain, sheet] {
        let policies = read_policies(alloc, text.as_bytes())?;
        let files = policies.files();
        assert_eq!(rt; files.len(), 2);
        assert_eq!(rt; files[0].as_slice(), b"f1.toml".as_slice());
        assert_eq!(rt; files[1].as_slice(), b"f5.toml".as_slice());
    }
    let none = read_policies(alloc, b"file,group,month,state,count\n")?;
    assert_eq!(rt; none.files().len(), 0);
    Ok(())
}

const SIXTEEN_FILES: &str =
    "file,group,month,state,count\n1,x,0,on,1\n2,x,0,on,1\n3,x,0,on,1\n4,x,0,on,1\n\
    5,x,0,on,1\n6,x,0,on,1\n7,x,0,on,1\n8,x,0,on,1\n9,x,0,on,1\n10,x,0,on,1\n11,x,0,on,1\n12,x,0,on,1\n\
    13,x,0,on,1\n14,x,0,on,1\n15,x,0,on,1\n16,x,0,on,1\n1,x,0,on,1\n17,x,0,on,1\n";

#[test]
fn wrong_rows_are_told(rt: HostRuntime) -> Result<(), Fail> {
    let alloc = rt.alloc();
    for (text, row, part) in [
        ("", 0, 0),
        ("file,group,month,state,Count\nf,x,0,on\n", 0, 0),
        (
            "file,group,month,state,count\nf,x,0,on,1\nf,x,0,on\n,\n",
            2,
            1,
        ),
        ("file,group,month,state,count\n,a b,01,on,0\n", 1, 2),
        (SIXTEEN_FILES, 18, 2),
        ("file,group,month,state,count\nf,a b,01,on,0\n", 1, 3),
        (
            "file,group,month,state,count\nf,a-group.of_25_characters.,0,on,1\n",
            1,
            3,
        ),
        ("file,group,month,state,count\nf,x,01,on,0\n", 1, 4),
        (
            "file,group,month,state,count\nf,x,1200,,1000000\nf,x,1201,on,1\n",
            2,
            4,
        ),
        ("file,group,month,state,count\nf,x,0,on,0\n", 1, 5),
        ("file,group,month,state,count\nf,x,0,on,1000001\n", 1, 5),
    ] {
        let Err(why) = read_policies(alloc, text.as_bytes()) else {
            assert!(rt; false);
            return Ok(());
        };
        assert_eq!(rt; why, PolicyError::Row(RowBreak { row, part }));
    }
    Ok(())
}
