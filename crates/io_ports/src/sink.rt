// A sink takes pieces of bytes, and counts its faults.
ghost use Rattle.std.specs.Prelude.{◌≡◌, ℕ, ◌-◌, ◌^◌, ◌<◌, ◌≤◌, List, length, Option, OnOk, OnErr};
ghost use Rattle.std.specs.Io.KnownBytes.{Appends};
ghost use Rattle.io_ports.specs.Counts.{Rose};
ghost use Rattle.io_ports.specs.Growth.{AppendsPrefix};

/// A piece was not taken whole.
#[derive(Clone, Copy, Debug, PartialEq, Eq)]
pub struct SinkFault;

/// Where a program's output goes.
pub trait Sink {
    /// The bytes that were written, where it tells them.
    ghost written: { Self → Option (List ℕ) };

    /// How often a call failed, up to the largest `u64`.
    ghost faults: { Self → ℕ };

    /// Writes the whole piece. At a fault some first bytes of it may have been written.
    fn put(&mut self, bytes: &[u8]) -> Result<(), SinkFault>
        requires { 0 < length bytes.now }
        ensures written { OnOk result (Appends (written self.old) (written self.new) bytes.now) }
        ensures written_at_fault { OnErr result
            (AppendsPrefix (written self.old) (written self.new) bytes.now) }

        ensures no_fault { OnOk result (faults self.new ≡ faults self.old) }
        ensures fault { OnErr result (Rose (faults self.old) (faults self.new)) }
        ensures never_falls { faults self.old ≤ faults self.new };

    ghost at_most: { (sink : Self) → faults sink ≤ 2 ^ 64 - 1 };
}
