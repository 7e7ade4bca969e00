use gc_base::{Memory, Walk};
use gc_values::Why;

/// Why a statement has no graph. Places are numbers of tokens.
#[derive(Debug, Drop)]
pub enum Fault {
    /// An assignment is undefined on a row of the table, which is numbered from 0; `at` is the word of its
    /// property.
    Undefined { at: u32, row: u64, why: Why },
    /// A row of a view has a bad cost, and this walk; `at` is the name of the view at its head.
    BadCost { at: u32, walk: Walk },
    /// A cost is above the greatest number on a row of the table, which is numbered from 0; `at` is its
    /// variable behind COST.
    CostPastRange { at: u32, row: u64 },
    /// So many new identities are needed that they would pass the largest; `at` is the word CONSTRUCT.
    IdsSpent { at: u32, needed: u64 },
}

/// Why a statement is not answered.
#[derive(Debug, Drop)]
pub enum QueryRefusal {
    Fault(Fault),
    Memory,
}

impl From<Memory> for QueryRefusal {
    ghost use Rattle.std.specs.Prelude.{◌≡◌};
    ghost use Rattle.gc_query.specs.declared.fault.QueryRefusal.TheVariants.{Memory};

    ghost from_gives = { λ _ refusal. refusal ≡ Memory };

    fn from(_want: Memory) -> QueryRefusal {
        QueryRefusal::Memory
    }
}
