ghost use Rattle.std.specs.Prelude.{◌≡◌};
ghost use Rattle.gc_json.specs.GraphFiles.{refusal_at};
ghost use Rattle.gc_json.specs.Located.{failure_at, failure_of};

use crate::refusal::{GraphRefusal, Spot};
use crate::unread::Unread;
use gc_base::{Id, Memory};
use std::alloc::AllocFailed;

/// The rule that an element of a graph file breaks.
#[derive(Clone, Copy, Debug)]
pub(crate) enum Fault {
    /// A key is missing or unknown, or a value is of another kind.
    WrongShape,
    /// The identity is above the largest.
    IdTooLarge,
    /// An earlier element has the identity.
    IdTwice,
    /// An end of an edge is no node.
    NoEnd,
    /// The walk of a path is none of the graph.
    BadWalk,
    /// A label is no text of the form of a word.
    BadLabel,
    /// The name of a property has not the form of a word.
    BadName,
    /// A value of a property is no literal.
    NotLiteral,
    /// An earlier file tells the identity otherwise.
    Incoherent(Id),
}

/// Why a reader gave no value.
#[derive(Debug, Drop)]
pub(crate) enum Failure<F> {
    /// The refusal that is due.
    Refused(F),
    /// Want of memory.
    Memory,
}

impl<F> From<Memory> for Failure<F> {
    ghost use Rattle.gc_json.specs.declared.fault.Failure.TheVariants as failure;

    ghost from_gives = { λ _ made. made ≡ failure.Memory };

    fn from(_want: Memory) -> Failure<F> {
        Failure::Memory
    }
}

impl<F, T: Drop> From<AllocFailed<T>> for Failure<F> {
    ghost use Rattle.gc_json.specs.declared.fault.Failure.TheVariants as failure;

    ghost from_gives = { λ _ made. made ≡ failure.Memory };

    fn from(_failed: AllocFailed<T>) -> Failure<F> {
        Failure::Memory
    }
}

impl From<Fault> for Failure<Fault> {
    ghost use Rattle.gc_json.specs.declared.fault.Failure.TheVariants as failure;

    ghost from_gives = { λ fault made. made ≡ failure.Refused fault };

    fn from(fault: Fault) -> Failure<Fault> {
        Failure::Refused(fault)
    }
}

impl From<Unread> for Failure<GraphRefusal> {
    ghost from_gives = { λ unread made. made ≡ failure_of unread };

    fn from(unread: Unread) -> Failure<GraphRefusal> {
        match unread {
            Unread::NotJson => Failure::Refused(GraphRefusal::NotJson),
            Unread::Memory => Failure::Memory,
        }
    }
}

impl Fault {
    // The refusal of the file for this fault at a spot.
    pub(crate) fn at(self, spot: Spot) -> GraphRefusal
        ensures { result ≡ refusal_at spot self }
    {
        match self {
            Fault::WrongShape => GraphRefusal::WrongShape(spot),
            Fault::IdTooLarge => GraphRefusal::IdTooLarge(spot),
            Fault::IdTwice => GraphRefusal::IdTwice(spot),
            Fault::NoEnd => GraphRefusal::NoEnd(spot),
            Fault::BadWalk => GraphRefusal::BadWalk(spot),
            Fault::BadLabel => GraphRefusal::BadLabel(spot),
            Fault::BadName => GraphRefusal::BadName(spot),
            Fault::NotLiteral => GraphRefusal::NotLiteral(spot),
            Fault::Incoherent(id) => GraphRefusal::Incoherent(spot, id),
        }
    }
}

impl Failure<Fault> {
    // The failure of the file for this one at a spot.
    pub(crate) fn at(self, spot: Spot) -> Failure<GraphRefusal>
        ensures { result ≡ failure_at spot self }
    {
        match self {
            Failure::Refused(fault) => Failure::Refused(fault.at(spot)),
            Failure::Memory => Failure::Memory,
        }
    }
}
