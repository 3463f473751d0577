// A sink over a writer of std. It tells nothing that was written.
ghost use Rattle.std.specs.Prelude.{◌≡◌, ◌-◌, ◌^◌, ◌<◌, ◌≤◌};
ghost use Rattle.std.specs.Prelude.{None, length, take, IfOk, OnOk, OnErr};
ghost use Rattle.std.specs.Io.KnownBytes.{Appends, Keeps};
ghost use Rattle.io_ports.specs.Growth.{AppendsPrefix};

use crate::{Sink, SinkFault};
use std::io::Write;

/// A writer of std. Each failure of the writer is a fault, and so is a write that takes nothing.
#[derive(Drop)]
pub struct StdSink<W: Write + Drop> {
    out: W,
    faults: u64,
    ghost in_range: { faults ≤ 2 ^ 64 - 1 },
}

impl<W: Write + Drop> StdSink<W> {
    pub fn new(out: W) -> StdSink<W>
        ensures told { ⟦<StdSink<W> as Sink>⟧.written result ≡ None }
        ensures no_fault { ⟦<StdSink<W> as Sink>⟧.faults result ≡ 0 }
    {
        StdSink { out, faults: 0 }
    }
}

// One write. One that takes nothing is a failure.
fn write_some<W: Write>(out: &mut W, bytes: &[u8]) -> Result<usize, SinkFault>
    requires { 0 < length bytes.now }
    ensures taken { IfOk result (λ count. (0 < count) × (count ≤ length bytes.now)) }
    ensures ok { IfOk result (λ count.
        Appends (W.contents out.old) (W.contents out.new) (take count bytes.now)) }
    ensures err { OnErr result (Keeps (W.contents out.old) (W.contents out.new)) }
{
    match out.write(bytes) {
        Ok(0) | Err(_) => Err(SinkFault),
        Ok(count) => Ok(count),
    }
}

// Writes the whole piece, in as many writes as the writer takes.
fn write_whole<W: Write>(out: &mut W, bytes: &[u8]) -> Result<(), SinkFault>
    ensures ok { OnOk result (Appends (W.contents out.old) (W.contents out.new) bytes.now) }
    ensures err { OnErr result (AppendsPrefix (W.contents out.old) (W.contents out.new) bytes.now) }
{
    let mut at = 0;
    while at < bytes.len() {
        at += write_some(out, &bytes[at..])?;
    }
    match out.flush() {
        Ok(()) => Ok(()),
        Err(_) => Err(SinkFault),
    }
}

impl<W: Write + Drop> Sink for StdSink<W> {
    ghost use Rattle.io_ports.specs.Counts.{next_count};
    ghost use Rattle.io_ports.specs.StdSink.{faults_of, writer_of};

    ghost written = { λ sink. None };

    ghost faults = { λ sink. sink.faults };

    fn put(&mut self, bytes: &[u8]) -> Result<(), SinkFault>
        requires { 0 < length bytes.now }
        ensures no_fault { OnOk result (faults_of self.new ≡ faults_of self.old) }
        ensures fault { OnErr result (faults_of self.new ≡ next_count (faults_of self.old)) }

        // The writer has the piece, or some first bytes of it.
        ensures passed_on { OnOk result
            (Appends (W.contents (writer_of self.old)) (W.contents (writer_of self.new)) bytes.now) }
        ensures passed_on_at_fault { OnErr result
            (AppendsPrefix (W.contents (writer_of self.old)) (W.contents (writer_of self.new)) bytes.now) }
    {
        match write_whole(&mut self.out, bytes) {
            Ok(()) => Ok(()),
            Err(fault) => {
                self.faults = self.faults.saturating_add(1);
                Err(fault)
            }
        }
    }

    ghost at_most = { λ sink. sink.in_range };
}
