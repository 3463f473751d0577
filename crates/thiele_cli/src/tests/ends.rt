ghost use Rattle.std.specs.Prelude.{◌^◌, ◌-◌, ◌≤◌, None};

use super::{shelf, sink, words};
use crate::end::End;
use crate::pieces::write_pieces;
use crate::run::run;
use io_ports::{Sink, SinkFault};
use rule_breaks::RuleBreak;
use std::test::Fail;

#[test]
fn each_end_writes_its_text(rt: HostRuntime) -> Result<(), Fail> {
    let alloc = rt.alloc();
    let mut shelf = shelf(alloc, &[])?;
    for (command, name, end, status, text) in [
        (
            "value",
            "flat",
            End::Done,
            0,
            "report value flat\ndegree 8 scale 10\n0 on value 383.999999 384.000001 0.000003\nend 1\n",
        ),
        (
            "value",
            "empty",
            End::Rule(RuleBreak { rule: 1, place: 0 }),
            6,
            "refused rule 1 place 0\n",
        ),
        // nobody pays: the pattern's value is 0, and its interval begins the radius of 384 cells below it
        (
            "premium",
            "flat",
            End::NoPremium { low: -393_216 },
            7,
            "refused premium low -0.000001\n",
        ),
        ("check", "cut", End::NotToml, 5, "refused toml\n"),
        ("value", "missing", End::FetchFault, 3, ""),
        (
            "check",
            "long",
            End::TooLong { seen: 1_048_577 },
            4,
            "refused length 1048577\n",
        ),
    ] {
        let mut sink = sink(alloc, &[])?;
        let finish = run(
            alloc,
            &words(alloc, &[command, name])?,
            &mut shelf,
            &mut sink,
            Vec::new(alloc),
        );
        assert!(rt; finish.end == end, "{command} {name}");
        assert_eq!(rt; finish.status, status, "{command} {name}");
        assert!(rt; sink.bytes() == text.as_bytes(), "{command} {name}");
    }
    Ok(())
}

#[test]
fn check_tells_the_limits(rt: HostRuntime) -> Result<(), Fail> {
    let alloc = rt.alloc();
    let mut shelf = shelf(alloc, &[])?;
    // the ledgers by hand
    for (name, text) in [
        (
            "flat",
            "check flat\nstates 1 months 12 transitions 0 lumps 0\nscale 10 bound 786432\n\
             tolerance value 0.000003\ntolerance occupancy 0.000003\ntolerance second 3\n\
             tolerance variance 3\npattern scale 0 tolerance 0.000003\n",
        ),
        (
            "lump",
            "check f4\nstates 1 months 12 transitions 0 lumps 1\nscale 14 bound 10240384\n\
             tolerance value 0.000003\ntolerance occupancy 0.000003\ntolerance second 3\n\
             tolerance variance 3\npattern scale 0 tolerance 0.000003\n",
        ),
    ] {
        let mut sink = sink(alloc, &[])?;
        let finish = run(
            alloc,
            &words(alloc, &["check", name])?,
            &mut shelf,
            &mut sink,
            Vec::new(alloc),
        );
        assert_eq!(rt; finish.status, 0, "{name}");
        assert!(rt; sink.bytes() == text.as_bytes(), "{name}");
    }
    Ok(())
}

#[test]
fn words_that_name_nothing_to_do_are_refused_before_the_fetch(rt: HostRuntime) -> Result<(), Fail> {
    let alloc = rt.alloc();
    // a fetch would fail, and its end would be another one
    let mut shelf = shelf(alloc, &[1])?;
    for (texts, status, text) in [
        (["value", ""].as_slice(), 2, "refused words\n"),
        (&["Value", "flat"], 2, "refused words\n"),
        (&["reserves", "flat", "0"], 2, "refused words\n"),
        (&["generate", "-1"], 2, "refused words\n"),
    ] {
        let mut sink = sink(alloc, &[])?;
        let finish = run(
            alloc,
            &words(alloc, texts)?,
            &mut shelf,
            &mut sink,
            Vec::new(alloc),
        );
        assert_eq!(rt; finish.status, status, "{text}");
        assert!(rt; sink.bytes() == text.as_bytes(), "{text}");
    }
    Ok(())
}

#[test]
fn a_failing_fetch_and_a_failing_write_come_through(rt: HostRuntime) -> Result<(), Fail> {
    let alloc = rt.alloc();
    let asked = words(alloc, &["value", "flat"])?;
    let mut shelf = shelf(alloc, &[1])?;
    let mut sink = sink(alloc, &[1])?;
    let first = run(alloc, &asked, &mut shelf, &mut sink, Vec::new(alloc));
    assert_eq!(rt; first.status, 3);
    assert!(rt; sink.bytes().is_empty());
    // the shelf's second call is not listed, and the sink's first call is
    let second = run(alloc, &asked, &mut shelf, &mut sink, Vec::new(alloc));
    assert_eq!(rt; second.status, 8);
    assert!(rt; sink.bytes().is_empty());
    assert!(rt; second.report.is_some());
    let third = run(alloc, &asked, &mut shelf, &mut sink, Vec::new(alloc));
    assert_eq!(rt; third.status, 0);
    Ok(())
}

/// A sink that keeps the lengths of its first three pieces and takes no more.
#[derive(Drop)]
struct Lengths {
    lengths: [usize; 3],
    calls: usize,
    faults: u64,
    ghost in_range: { faults ≤ 2 ^ 64 - 1 },
}

impl Sink for Lengths {
    ghost written = { λ sink. None };

    ghost faults = { λ sink. sink.faults };

    fn put(&mut self, bytes: &[u8]) -> Result<(), SinkFault> {
        if self.calls < 3 {
            self.lengths[self.calls] = bytes.len();
            self.calls += 1;
            return Ok(());
        }
        self.faults = self.faults.saturating_add(1);
        Err(SinkFault)
    }

    ghost at_most = { λ sink. sink.in_range };
}

#[test]
fn pieces_have_4096_bytes_and_none_follows_a_fault(rt: HostRuntime) -> Result<(), Fail> {
    let alloc = rt.alloc();
    let text = vec![in alloc; b'x'; 10_000]?;
    let mut lengths = Lengths {
        lengths: [0; 3],
        calls: 0,
        faults: 0,
    };
    assert!(rt; write_pieces(&mut lengths, &text).is_ok());
    assert!(rt; lengths.lengths == [4096, 4096, 1808]);
    let mut sink = sink(alloc, &[2])?;
    assert!(rt; write_pieces(&mut sink, &text).is_err());
    assert!(rt; sink.bytes() == &text[..4096]);
    Ok(())
}
