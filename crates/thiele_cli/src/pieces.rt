// A text is handed to a sink in pieces.
ghost use Rattle.std.specs.Prelude.{◌≡◌, ◌<◌, length, OnOk, OnErr};
ghost use Rattle.std.specs.Io.KnownBytes.{Appends};
ghost use Rattle.io_ports.specs.Counts.{Rose};
ghost use Rattle.io_ports.specs.Growth.{AppendsPrefix};

use io_ports::{Sink, SinkFault};

/// The most bytes of a piece.
const PIECE: usize = 4096;

/// Hands the text over in pieces of 4,096 bytes, the last one maybe shorter, none empty, and none after a fault.
pub fn write_pieces<K: Sink>(sink: &mut K, text: &[u8]) -> Result<(), SinkFault>
    ensures written { OnOk result (Appends (K.written sink.old) (K.written sink.new) text.now) }
    ensures written_at_fault { OnErr result (AppendsPrefix (K.written sink.old) (K.written sink.new) text.now) }
    ensures some_text { OnErr result (0 < length text.now) }
    ensures no_fault { OnOk result (K.faults sink.new ≡ K.faults sink.old) }
    ensures fault { OnErr result (Rose (K.faults sink.old) (K.faults sink.new)) }
{
    let mut at = 0;
    while at < text.len() {
        let end = at + (text.len() - at).min(PIECE);
        match sink.put(&text[at..end]) {
            Ok(()) => at = end,
            Err(fault) => return Err(fault),
        }
    }
    Ok(())
}
