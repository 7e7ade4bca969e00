ghost use Rattle.std.specs.Prelude.{◌≡◌, ◌≤◌, List, ℕ, length, IfSome, IfOk, IfErr, OnOk, OnErr};
ghost use Rattle.std.specs.declared.option.Option.{Option};
ghost use Rattle.gc_base.specs.Faults.{Rose};
ghost use Rattle.gc_base.specs.Files.{Files, IsReadOf};

/// What a folder answers where it gives no bytes.
#[derive(Clone, Copy, Debug, PartialEq, Eq)]
pub enum FolderFault {
    /// No file has the name.
    Missing,
    /// The read failed.
    Failed,
}

/// A place that files are read from.
pub trait Folder {
    ghost use Rattle.gc_io.specs.Causes.{HasCause};

    /// Its files, where it tells them.
    ghost files: { Self → Option Files };

    /// How many of its calls failed.
    ghost faults: { Self → ℕ };

    /// Puts bytes of a file, from a place on, at the front of a buffer, and answers how many. What
    /// the buffer has behind them is left open. After a fault it is as it was where the files are
    /// told, and left open where they are not, as the system says nothing of it.
    fn read_at(&mut self, name: &str, at: u64, into: &mut [u8]) -> Result<usize, FolderFault>
        ensures count { IfOk result (λ n. n ≤ length into.new) }
        ensures bytes { IfOk result (λ n. IsReadOf (files self.old) name.now at n into.new) }
        ensures unread { OnErr result (IfSome (files self.old) (λ _. into.new ≡ into.old)) }
        ensures cause { IfErr result (HasCause (files self.old) name.now (faults self.old) (faults self.new)) }
        ensures calm { OnOk result (faults self.new ≡ faults self.old) }
        ensures later { faults self.old ≤ faults self.new }
        ensures kept { files self.new ≡ files self.old };
}
