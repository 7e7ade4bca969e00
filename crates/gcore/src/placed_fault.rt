ghost use Rattle.std.specs.Prelude.{◌≡◌, ◌<◌, ◌^◌};
ghost use Rattle.gcore.specs.FaultLines.{IsHeldFault};
ghost use Rattle.gcore.specs.TextLines.{IsHeldPlace};

use gc_base::{Bytes, Place};
use gc_values::Why;

/// Why a statement has no graph, with the place of what is wrong.
#[derive(Debug, Drop)]
pub enum PlacedFault {
    /// An assignment is undefined on a row of this number.
    Undefined(Why, Place, u64),
    /// A row of a view has a walk of these identities, at a bad cost.
    BadCost(Place, Bytes),
    /// A cost is past the greatest number on a row of this number.
    CostPastRange(Place, u64),
    /// So many new identities are needed that they would pass the largest.
    IdsSpent(Place, u64),
}

impl PlacedFault {
    /// That it is as the machine holds it, for a proof.
    pub fn known(&self)
        ensures { IsHeldFault self.now }
    {
        match self {
            PlacedFault::Undefined(_, place, row) => known_number(*place, *row),
            PlacedFault::BadCost(place, _) => known_place(*place),
            PlacedFault::CostPastRange(place, row) => known_number(*place, *row),
            PlacedFault::IdsSpent(place, needed) => known_number(*place, *needed),
        }
    }
}

// That a place and a number are as the machine holds them, for a proof.
fn known_number(place: Place, number: u64)
    ensures place { IsHeldPlace place }
    ensures number { number < 2 ^ 64 }
{
    known_place(place);
}

/// That a place is as the machine holds it, for a proof.
pub fn known_place(place: Place)
    ensures { IsHeldPlace place }
{
    let _line = place.line;
    let _column = place.column;
}
