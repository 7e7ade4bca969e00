ghost use Rattle.std.specs.Prelude.{◌≡◌, ◌≤◌, drop, length, OnOk, OnErr};
ghost use Rattle.gc_io.specs.Pieces.{joined};
ghost use Rattle.std.specs.Io.KnownBytes.{append_known};
ghost use Rattle.gc_base.specs.Faults.{Rose};
ghost use Rattle.gc_base.specs.Sinks.{HasRoom, TookPrefix, room_after};

use crate::sink::{Sink, SinkFault};

/// Writes bytes whole. At a fault, which ends it, the sink took a prefix of them. It takes no memory.
pub fn write_whole<S: Sink>(sink: &mut S, bytes: &[u8]) -> Result<(), SinkFault>
    requires { HasRoom (S.room sink.old) (length bytes.now) }
    ensures taken { OnOk result (S.taken sink.new ≡ append_known (S.taken sink.old) bytes.now) }
    ensures room { OnOk result (S.room sink.new ≡ room_after (S.room sink.old) (length bytes.now)) }
    ensures calm { OnOk result (S.faults sink.new ≡ S.faults sink.old) }
    ensures cause { OnErr result (Rose (S.faults sink.old) (S.faults sink.new)) }
    ensures prefix { OnErr result (TookPrefix (S.taken sink.old) (S.taken sink.new) (S.room sink.old) (S.room sink.new) bytes.now) }
    ensures later { S.faults sink.old ≤ S.faults sink.new }
{
    let mut rest = bytes;
    while !rest.is_empty() {
        let count = sink.write(rest)?;
        rest = &rest[count..];
    }
    Ok(())
}

/// Writes pieces whole, one after another. At a fault, which ends it, the sink took a prefix of
/// them all. It takes no memory.
pub fn write_pieces<S: Sink>(sink: &mut S, pieces: &[&[u8]]) -> Result<(), SinkFault>
    requires { HasRoom (S.room sink.old) (length (joined pieces.now)) }
    ensures taken { OnOk result (S.taken sink.new ≡ append_known (S.taken sink.old) (joined pieces.now)) }
    ensures room { OnOk result (S.room sink.new ≡ room_after (S.room sink.old) (length (joined pieces.now))) }
    ensures calm { OnOk result (S.faults sink.new ≡ S.faults sink.old) }
    ensures cause { OnErr result (Rose (S.faults sink.old) (S.faults sink.new)) }
    ensures prefix { OnErr result (TookPrefix (S.taken sink.old) (S.taken sink.new) (S.room sink.old) (S.room sink.new) (joined pieces.now)) }
    ensures later { S.faults sink.old ≤ S.faults sink.new }
{
    for piece in pieces {
        write_whole(sink, piece)?;
    }
    Ok(())
}
