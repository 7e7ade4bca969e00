use gc_base::Memory;
use gc_build_descriptions::Fault;
use gc_ppg::Graph;

/// A graph that was made, and the identity that comes next.
#[derive(Debug, Drop)]
pub struct Built {
    pub graph: Graph,
    pub next: u64,
}

/// Why nothing is made.
#[derive(Clone, Copy, Debug, PartialEq, Eq)]
pub enum Refusal {
    /// An assignment is undefined on a row.
    Fault(Fault),
    /// The identities do not suffice for so many new elements.
    IdsSpent(u64),
    Memory,
}

impl From<Memory> for Refusal {
    ghost use Rattle.std.specs.Prelude.{◌≡◌};
    ghost use Rattle.gc_build.specs.declared.built.Refusal.TheVariants.{Memory};

    ghost from_gives = { λ _ refusal. refusal ≡ Memory };

    fn from(_want: Memory) -> Refusal {
        Refusal::Memory
    }
}
