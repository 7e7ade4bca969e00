use crate::breach::SortRule;
use gc_base::Place;

/// Why a file is refused: a rule is broken at a place, or there is no memory to tell.
#[derive(Debug, PartialEq, Eq, Drop)]
pub enum SortRefusal {
    /// This rule is the first that is broken, at this place.
    Broken { rule: SortRule, at: Place },
    /// Want of memory.
    Memory,
}
