ghost use Rattle.std.specs.Prelude.{◌≡◌};
ghost use Rattle.gcore.specs.Lines.{code_of};

/// How a call of the program ends. The number of each is the exit status.
#[derive(Clone, Copy, Debug, PartialEq, Eq)]
pub enum Status {
    /// The input was read to its end, and the whole output was taken.
    Done = 0,
    /// A statement ended in a fault of evaluation.
    Fault = 1,
    /// The words have none of the forms.
    Usage = 2,
    /// The query file is refused.
    Text = 3,
    /// The query file breaks a sort rule.
    Sorts = 4,
    /// A graph file breaks a rule.
    Graph = 5,
    /// A named file can't be read.
    Read = 6,
    /// The output failed.
    Write = 7,
    /// Want of memory.
    Memory = 8,
    /// A document is no certificate, or a search of it breaks a rule.
    Rejected = 9,
    /// A named file is larger than its limit.
    Size = 10,
}

impl Status {
    /// The exit status.
    pub fn code(self) -> u8
        ensures { result ≡ code_of self }
    {
        self as u8
    }
}
