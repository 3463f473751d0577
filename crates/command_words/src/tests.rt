use super::*;
use decimal_in::Decimal;
use std::alloc::{AllocError, Global};

fn split(alloc: Global, line: &str) -> Result<Vec<String>, AllocError> {
    let mut words = Vec::new(alloc);
    for word in line.split(' ') {
        words.push(String::from_str(alloc, word)?)?;
    }
    Ok(words)
}

fn decimal_by(units: i128, places: u32) -> Decimal {
    Decimal { units, places }
}

#[test]
fn words_and_their_readings(rt: HostRuntime) {
    let cases = [
        ("check a.toml", Some(Command::Check("a.toml"))),
        ("value a.toml", Some(Command::Value("a.toml"))),
        ("reserves a 12", Some(Command::Reserves("a", 12))),
        ("occupancy a 1200", Some(Command::Occupancy("a", 1200))),
        ("moments a 1", Some(Command::Moments("a", 1))),
        ("premium a", Some(Command::Premium("a"))),
        ("upgrade a", Some(Command::Upgrade("a"))),
        ("join a b", Some(Command::Join("a", "b"))),
        ("compare a b 12", Some(Command::Compare("a", "b", 12))),
        (
            "audit a b.csv 0.00001",
            Some(Command::Audit("a", "b.csv", 10)),
        ),
        ("audit a b 0", Some(Command::Audit("a", "b", 0))),
        ("portfolio a.csv", Some(Command::Portfolio("a.csv"))),
        ("generate 0", Some(Command::Generate(0))),
        ("load 7", Some(Command::Load(7))),
        ("load 07", None),
        ("help", Some(Command::Help)),
        ("version", Some(Command::Version)),
        ("help a", None),
        (
            "shift a -0.010",
            Some(Command::Shift("a", decimal_by(-10, 3))),
        ),
        ("shift a 0.00", Some(Command::Shift("a", decimal_by(0, 2)))),
        ("shift a +1", None),
        ("shift  1", None),
        (
            "multiply a b c 1.10",
            Some(Command::Multiply("a", "b", "c", decimal_by(110, 2))),
        ),
        ("multiply a b c -1", None),
        ("multiply a b c -0", None),
        ("multiply a  c 1", None),
        ("multiply a b c", None),
        ("charge a 409", Some(Command::Charge("a", 409))),
        ("charge a -1", Some(Command::Charge("a", -1))),
        ("charge a 1.0", None),
        ("charge a 1000000000000000000", None),
        ("merge a.csv", Some(Command::Merge("a.csv"))),
        ("merge ", None),
        (
            "generate 18446744073709551615",
            Some(Command::Generate(18_446_744_073_709_551_615)),
        ),
        ("generate 18446744073709551616", None),
        ("generate 00", None),
        ("generate +1", None),
        ("generate -0", None),
        ("reserves a 0", None),
        ("reserves a 1201", None),
        ("reserves a 012", None),
        ("reserves a 1x", None),
        ("moments  1", None),
        ("upgrade ", None),
        ("join a ", None),
        ("join a", None),
        ("portfolio ", None),
        ("portfolio a 12", None),
        ("compare a  1", None),
        ("compare a b 1201", None),
        ("compare a b", None),
        ("audit a b -0.1", None),
        ("audit a b 01", None),
        ("audit a b 1000000000000000000", None),
        ("audit a  0.1", None),
        ("audit a b", None),
        ("reserves a b 12", None),
        ("value ", None),
        ("value", None),
        ("value a b", None),
        ("Value a", None),
        ("--help", None),
    ];
    for (line, wanted) in cases {
        let Ok(words) = split(rt.alloc(), line) else {
            assert!(rt; false);
            return;
        };
        let wanted = wanted.map(|command| Reading {
            form: Form::Report,
            command,
        });
        assert_eq!(rt; read_words(&words), wanted);
    }
}

#[test]
fn forms_stand_before_commands(rt: HostRuntime) {
    let value = Command::Value("a");
    let cases = [
        ("value a", Some((Form::Report, value))),
        ("csv value a", Some((Form::Csv, value))),
        ("json value a", Some((Form::Json, value))),
        ("explain value a", Some((Form::Explained, value))),
        ("csv merge a", Some((Form::Csv, Command::Merge("a")))),
        (
            "json audit a b 1",
            Some((Form::Json, Command::Audit("a", "b", 1_000_000))),
        ),
        (
            "explain check a",
            Some((Form::Explained, Command::Check("a"))),
        ),
        (
            "explain charge a 1",
            Some((Form::Explained, Command::Charge("a", 1))),
        ),
        ("json check a", None),
        ("csv shift a 1", None),
        ("csv load 7", None),
        ("csv help", None),
        ("explain help", None),
        ("explain version", None),
        ("csv csv value a", None),
        ("explain csv value a", None),
        ("value csv a", None),
        ("csv", None),
        ("explain", None),
    ];
    for (line, wanted) in cases {
        let Ok(words) = split(rt.alloc(), line) else {
            assert!(rt; false);
            return;
        };
        let wanted = wanted.map(|(form, command)| Reading { form, command });
        assert_eq!(rt; read_words(&words), wanted);
    }
}

#[test]
fn no_words_have_no_reading(rt: HostRuntime) {
    let words: Vec<String> = Vec::new(rt.alloc());
    assert_eq!(rt; read_words(&words), None);
}
