use crate::duplicate::Duplicate;
use crate::memory::Memory;
use crate::place::Place;
use crate::walk::Walk;

/// The faults with which an evaluation ends, F1 to F6.
#[derive(Debug, Drop)]
pub enum EvalFault {
    /// F1: an assignment overflows, at its property word, on a row.
    Overflow { at: Place, row: u64 },
    /// F2: an assignment divides by zero.
    ZeroDivisor { at: Place, row: u64 },
    /// F3: an assignment has an operand of the wrong kind.
    WrongKind { at: Place, row: u64 },
    /// F4: a segment of the view named at the place has no cost from 1 on.
    BadCost { at: Place, walk: Walk },
    /// F5: a cost variable is past the range of numbers, on a row.
    CostPastRange { at: Place, row: u64 },
    /// F6: the identities don't suffice for the CONSTRUCT at the place.
    IdsSpent { at: Place, needed: u64 },
}

impl Duplicate for EvalFault {
    fn copy(&self) -> Result<EvalFault, Memory> {
        match self {
            EvalFault::Overflow { at, row } => Ok(EvalFault::Overflow { at: *at, row: *row }),
            EvalFault::ZeroDivisor { at, row } => Ok(EvalFault::ZeroDivisor { at: *at, row: *row }),
            EvalFault::WrongKind { at, row } => Ok(EvalFault::WrongKind { at: *at, row: *row }),
            EvalFault::BadCost { at, walk } => Ok(EvalFault::BadCost {
                at: *at,
                walk: walk.copy()?,
            }),
            EvalFault::CostPastRange { at, row } => {
                Ok(EvalFault::CostPastRange { at: *at, row: *row })
            }
            EvalFault::IdsSpent { at, needed } => Ok(EvalFault::IdsSpent {
                at: *at,
                needed: *needed,
            }),
        }
    }
}
