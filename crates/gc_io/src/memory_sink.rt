ghost use Rattle.std.specs.Prelude.{◌≡◌, ◌<◌, ◌≤◌, ◌+◌, ◌++◌, [], Some, None, Ok, IsErr, length, take, min, true, false, IfOk, OnOk, OnErr, is_ok, if◌then◌else◌};
ghost use Rattle.std.specs.Io.KnownBytes.{append_known};
ghost use Rattle.gc_base.specs.Faults.{Rose, one_more};
ghost use Rattle.gc_io.specs.Memory.{is_failing, IsScripted};

use crate::entry::CallList;
use crate::sink::{Sink, SinkFault};
use std::alloc::Global;
use std::marker::Model;

/// A sink in memory, of whose calls those that are listed fail, and of which each takes at most a
/// number of bytes. It grows where it has to and memory allows.
#[derive(Debug, Drop)]
pub struct MemorySink {
    bytes: Vec<u8>,
    failing: CallList,
    most: usize,
    calls: u64,
    faults: u64,
}

impl Model for MemorySink {
    ghost use Rattle.std.specs.Prelude.{◌-◌, ◌<◌};
    ghost use Rattle.std.specs.Vec.{vec_capacity, vec_len};
    ghost use Rattle.gc_io.specs.Memory.{SinkState};

    ghost Value = { SinkState };

    ghost view = { λ s. record { bytes = s.bytes.items; spare = vec_capacity s.bytes - vec_len s.bytes; failing = s.failing; most = s.most; calls = s.calls; faults = s.faults } };

    ghost invariant = { λ s. 0 < s.most };
}

impl MemorySink {
    /// An empty sink whose calls fail where their number, from 0, is listed, and of which each
    /// takes at most `most` bytes. It takes no memory.
    pub fn new(alloc: Global, failing: CallList, most: usize) -> MemorySink
        requires { 0 < most }
        ensures { result ≡ record { bytes = []; spare = 0; failing = failing; most = most; calls = 0; faults = 0 } }
    {
        MemorySink {
            bytes: Vec::new(alloc),
            failing,
            most,
            calls: 0,
            faults: 0,
        }
    }

    /// How many calls there were so far.
    pub fn calls(&self) -> u64
        ensures { result ≡ self.now.calls }
    {
        self.calls
    }

    /// The bytes that it took.
    pub fn bytes(&self) -> &[u8]
        ensures { result.now ≡ self.now.bytes }
    {
        &self.bytes
    }
}

impl Sink for MemorySink {
    ghost taken = { λ s. Some s.bytes };

    ghost faults = { λ s. s.faults };

    ghost room = { λ s. None };

    fn write(&mut self, piece: &[u8]) -> Result<usize, SinkFault>
        ensures count { IfOk result (λ n. n ≤ length piece.now) }
        ensures some { IfOk result (λ n. 0 < length piece.now → 0 < n) }
        ensures taken { IfOk result (λ n. Some self.new.bytes ≡ append_known (Some self.old.bytes) (take n piece.now)) }
        ensures calm { OnOk result (self.new.faults ≡ self.old.faults) }
        ensures cause { OnErr result (Rose self.old.faults self.new.faults) }
        ensures kept { OnErr result (self.new.bytes ≡ self.old.bytes) }
        ensures later { self.old.faults ≤ self.new.faults }
        ensures exactly { IfOk result (λ n. n ≡ min (length piece.now) self.old.most) }
        ensures listed { is_failing self.old.failing self.old.calls ≡ true → IsErr result }
        ensures full { is_failing self.old.failing self.old.calls ≡ false → OnErr result (self.old.spare < min (length piece.now) self.old.most) }
        ensures fault { OnErr result (self.new.faults ≡ one_more self.old.faults) }
        ensures calls { self.new.calls ≡ one_more self.old.calls }
        ensures spare { IfOk result (λ n. self.old.spare ≤ self.new.spare + n) }
        ensures spare_kept { OnErr result (self.old.spare ≤ self.new.spare) }
        ensures script { IsScripted self.old self.new }
    {
        let call = self.calls;
        self.calls = call.saturating_add(1);
        if self.failing.as_slice().contains(&call) {
            self.faults = self.faults.saturating_add(1);
            return Err(SinkFault);
        }
        let count = piece.len().min(self.most);
        match self.bytes.extend_from_slice(&piece[..count]) {
            Ok(()) => Ok(count),
            Err(_) => {
                self.faults = self.faults.saturating_add(1);
                Err(SinkFault)
            }
        }
    }
}
