// A sink into memory that is taken when it is made, whose calls of listed numbers fail.
ghost use Rattle.std.specs.Prelude.{◌≡◌, ◌+◌, ◌++◌, ◌-◌, ◌^◌, ◌<◌, ◌≤◌, ◌↔◌};
ghost use Rattle.std.specs.Prelude.{Some, [], length, IfOk, OnOk, OnErr, IsErr, vec_len, vec_capacity};

use crate::calls::Calls;
use crate::{Sink, SinkFault};
use std::alloc::{AllocError, Global};

/// Bytes in memory, of which there is room for a number that is fixed when the sink is made.
#[derive(Drop)]
pub struct MemorySink {
    room: usize,
    calls: Calls,
    faults: u64,
    bytes: Vec<u8>,
    ghost fits: { vec_len bytes ≤ room },
    ghost has_room: { room ≤ vec_capacity bytes },
    ghost in_range: { faults ≤ 2 ^ 64 - 1 },
}

impl MemorySink {
    ghost use Rattle.io_ports.specs.MemorySink.{calls_of, failing_of, room_of};

    /// Takes memory for `room` bytes. `failing` lists the numbers of the calls, from 1, that fail.
    pub fn new(alloc: Global, room: usize, failing: Vec<u64>) -> Result<MemorySink, AllocError>
        ensures nothing_written { IfOk result (λ sink. ⟦<MemorySink as Sink>⟧.written sink ≡ Some []) }
        ensures no_fault { IfOk result (λ sink. ⟦<MemorySink as Sink>⟧.faults sink ≡ 0) }
        ensures room { IfOk result (λ sink. room_of sink ≡ room) }
        ensures failing { IfOk result (λ sink. failing_of sink ≡ failing.items) }
        ensures no_calls { IfOk result (λ sink. calls_of sink ≡ 0) }
    {
        let bytes = Vec::with_capacity(alloc, room)?;
        Ok(MemorySink {
            room,
            calls: Calls::new(failing),
            faults: 0,
            bytes,
        })
    }

    /// What was written.
    pub fn bytes(&self) -> &[u8]
        ensures { ⟦<MemorySink as Sink>⟧.written self.now ≡ Some result.now }
    {
        &self.bytes
    }
}

impl Sink for MemorySink {
    ghost use Rattle.io_ports.specs.Counts.{next_count};
    ghost use Rattle.io_ports.specs.MemorySink.{bytes_in, room_of, calls_of, failing_of, faults_of};
    ghost use Rattle.io_ports.specs.MemorySink.{MeetsFault};

    ghost written = { λ sink. Some sink.bytes.items };

    ghost faults = { λ sink. sink.faults };

    fn put(&mut self, bytes: &[u8]) -> Result<(), SinkFault>
        requires { 0 < length bytes.now }
        ensures written { OnOk result (bytes_in self.new ≡ bytes_in self.old ++ bytes.now) }
        ensures nothing_of_it { OnErr result (bytes_in self.new ≡ bytes_in self.old) }

        // Exactly the calls of a listed number or without room fail.
        ensures fails { IsErr result ↔ MeetsFault self.old bytes.now }
        ensures no_fault { OnOk result (faults_of self.new ≡ faults_of self.old) }
        ensures fault { OnErr result (faults_of self.new ≡ next_count (faults_of self.old)) }

        ensures calls { calls_of self.new ≡ next_count (calls_of self.old) }
        ensures failing { failing_of self.new ≡ failing_of self.old }
        ensures room { room_of self.new ≡ room_of self.old }
    {
        if self.calls.next_fails() || bytes.len() > self.room - self.bytes.len() {
            self.faults = self.faults.saturating_add(1);
            return Err(SinkFault);
        }
        self.bytes.extend_from_slice(bytes).unwrap();
        Ok(())
    }

    ghost at_most = { λ sink. sink.in_range };
}
