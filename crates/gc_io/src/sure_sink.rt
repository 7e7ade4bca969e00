ghost use Rattle.std.specs.Prelude.{◌≡◌, ◌<◌, ◌≤◌, ◌-◌, ◌++◌, [], Some, Ok, length, IfOk};
ghost use Rattle.gc_base.specs.Sinks.{HasRoom};

use crate::sink::{Sink, SinkFault};
use gc_base::Memory;
use std::alloc::Global;
use std::marker::Model;

/// A sink in memory whose room is fixed when it is made, and which never fails.
#[derive(Debug, Drop)]
pub struct SureSink {
    bytes: Vec<u8>,
    spare: usize,
}

impl Model for SureSink {
    ghost use Rattle.std.specs.Prelude.{◌+◌, ◌≤◌};
    ghost use Rattle.std.specs.Vec.{vec_capacity, vec_len};
    ghost use Rattle.gc_io.specs.Memory.{RoomState};

    ghost Value = { RoomState };

    ghost view = { λ s. record { bytes = s.bytes.items; spare = s.spare } };

    ghost invariant = { λ s. vec_len s.bytes + s.spare ≤ vec_capacity s.bytes };
}

impl SureSink {
    /// An empty sink with room for so many bytes.
    pub fn new(alloc: Global, room: usize) -> Result<SureSink, Memory>
        ensures { IfOk result (λ sink. sink ≡ record { bytes = []; spare = room }) }
    {
        let bytes = Vec::with_capacity(alloc, room)?;
        Ok(SureSink { bytes, spare: room })
    }

    /// The bytes that it took.
    pub fn bytes(&self) -> &[u8]
        ensures { result.now ≡ self.now.bytes }
    {
        &self.bytes
    }

    // Takes a whole piece for which there is room.
    fn put(&mut self, piece: &[u8]) -> Result<usize, SinkFault>
        requires { length piece.now ≤ self.old.spare }
        ensures whole { result ≡ Ok (length piece.now) }
        ensures state { self.new ≡ record { bytes = self.old.bytes ++ piece.now; spare = self.old.spare - length piece.now } }
    {
        match self.bytes.extend_from_slice(piece) {
            Ok(()) => {
                self.spare -= piece.len();
                Ok(piece.len())
            }
            Err(_) => Err(SinkFault),
        }
    }
}

impl Sink for SureSink {
    ghost taken = { λ s. Some s.bytes };

    ghost faults = { λ s. 0 };

    ghost room = { λ s. Some s.spare };

    fn write(&mut self, piece: &[u8]) -> Result<usize, SinkFault>
        requires { HasRoom (Some self.old.spare) (length piece.now) }
        ensures whole { result ≡ Ok (length piece.now) }
        ensures state { self.new ≡ record { bytes = self.old.bytes ++ piece.now; spare = self.old.spare - length piece.now } }
    {
        self.put(piece)
    }
}
