use gc_base::{Memory, Walk};

/// Why a view has no segments.
#[derive(Drop)]
pub enum ViewFault {
    /// A row of its block has no good cost; the walk is that of the first such row.
    BadCost(Walk),
    Memory,
}

impl From<Memory> for ViewFault {
    ghost use Rattle.std.specs.Prelude.{◌≡◌};
    ghost use Rattle.gc_views.specs.declared.fault.ViewFault.TheVariants.{Memory};

    ghost from_gives = { λ _ fault. fault ≡ Memory };

    fn from(_want: Memory) -> ViewFault {
        ViewFault::Memory
    }
}
