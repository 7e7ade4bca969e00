ghost use Rattle.std.specs.Prelude.{◌≡◌, ◌<◌, ◌≤◌, List, ℕ, length, take, IfOk, OnOk, OnErr};
ghost use Rattle.std.specs.declared.option.Option.{Option};
ghost use Rattle.std.specs.Io.KnownBytes.{append_known};
ghost use Rattle.gc_base.specs.Faults.{Rose};
ghost use Rattle.gc_base.specs.Sinks.{HasRoom, room_after};

/// What a sink answers where it took no bytes.
#[derive(Clone, Copy, Debug, PartialEq, Eq)]
pub struct SinkFault;

/// A place that bytes are written to.
pub trait Sink {
    /// The bytes that it took, where it tells them.
    ghost taken: { Self → Option (List ℕ) };

    /// How many of its calls failed.
    ghost faults: { Self → ℕ };

    /// How many bytes it is sure to take, where it tells that.
    ghost room: { Self → Option ℕ };

    /// Takes some of the first bytes of a piece, at least one where there are any, and answers how
    /// many. At a fault it took none.
    fn write(&mut self, piece: &[u8]) -> Result<usize, SinkFault>
        requires { HasRoom (room self.old) (length piece.now) }
        ensures count { IfOk result (λ n. n ≤ length piece.now) }
        ensures some { IfOk result (λ n. 0 < length piece.now → 0 < n) }
        ensures taken { IfOk result (λ n. taken self.new ≡ append_known (taken self.old) (take n piece.now)) }
        ensures room { IfOk result (λ n. room self.new ≡ room_after (room self.old) n) }
        ensures calm { OnOk result (faults self.new ≡ faults self.old) }
        ensures cause { OnErr result (Rose (faults self.old) (faults self.new)) }
        ensures kept { OnErr result (taken self.new ≡ taken self.old) }
        ensures room_kept { OnErr result (room self.new ≡ room self.old) }
        ensures later { faults self.old ≤ faults self.new };
}
