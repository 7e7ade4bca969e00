use gc_base::Memory;
use gc_values::Why;

/// An assignment that is undefined on a row.
#[derive(Clone, Copy, Debug, PartialEq, Eq)]
pub struct Fault {
    /// The token of its property's word.
    pub at: u32,
    /// The place of the row in the table, from 0.
    pub row: u64,
    pub why: Why,
}

/// Why nothing is described.
#[derive(Clone, Copy, Debug, PartialEq, Eq)]
pub enum Refusal {
    Fault(Fault),
    Memory,
}

impl From<Memory> for Refusal {
    ghost use Rattle.std.specs.Prelude.{◌≡◌};
    ghost use Rattle.gc_build_descriptions.specs.declared.fault.Refusal.TheVariants.{Memory};

    ghost from_gives = { λ _ refusal. refusal ≡ Memory };

    fn from(_want: Memory) -> Refusal {
        Refusal::Memory
    }
}
