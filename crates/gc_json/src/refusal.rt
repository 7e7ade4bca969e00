use gc_base::{Id, Memory};
use thiserror::Error;

/// A part of a graph file.
#[derive(Clone, Copy, Debug, PartialEq, Eq)]
pub enum Part {
    /// The file as a whole.
    Whole,
    /// The list of nodes.
    Nodes,
    /// The list of edges.
    Edges,
    /// The list of paths.
    Paths,
}

/// Where a graph file breaks a rule: an item of a list, counted from 0, or the file as a whole,
/// with the index 0.
#[derive(Clone, Copy, Debug, PartialEq, Eq)]
pub struct Spot {
    pub part: Part,
    pub index: usize,
}

// The spot of the file as a whole.
pub(crate) const WHOLE: Spot = Spot {
    part: Part::Whole,
    index: 0,
};

/// Why a graph file gave no graph.
#[derive(Clone, Copy, Debug, PartialEq, Eq, Error)]
pub enum GraphRefusal {
    /// G1: the file is no JSON value.
    #[error("no JSON")]
    NotJson,
    /// G2: a key is missing or unknown, or a value is of another kind.
    #[error("wrong shape at {:?}", .0)]
    WrongShape(Spot),
    /// G3: the identity of an element is above the largest.
    #[error("identity too large at {:?}", .0)]
    IdTooLarge(Spot),
    /// G4: an earlier element of the file has the identity.
    #[error("identity twice at {:?}", .0)]
    IdTwice(Spot),
    /// G5: an end of an edge is no node of the file.
    #[error("missing end at {:?}", .0)]
    NoEnd(Spot),
    /// G6: the walk of a path is none of the file's nodes and edges.
    #[error("bad walk at {:?}", .0)]
    BadWalk(Spot),
    /// G7: a label is no text of the form of a word.
    #[error("bad label at {:?}", .0)]
    BadLabel(Spot),
    /// G8: the name of a property has not the form of a word.
    #[error("bad name at {:?}", .0)]
    BadName(Spot),
    /// G9: a value of a property is no literal.
    #[error("no literal at {:?}", .0)]
    NotLiteral(Spot),
    /// G10: an earlier file tells this identity with another kind, other ends or another walk.
    #[error("incoherent identity at {:?}", .0)]
    Incoherent(Spot, Id),
    /// G11: the file has more than 1,000,000 elements.
    #[error("too many elements")]
    TooMany,
    /// Memory is short.
    #[error("out of memory")]
    Memory,
}

impl From<Memory> for GraphRefusal {
    ghost use Rattle.std.specs.Prelude.{◌≡◌};
    ghost use Rattle.gc_json.specs.declared.refusal.GraphRefusal.TheVariants as refusal;

    ghost from_gives = { λ _ made. made ≡ refusal.Memory };

    fn from(_memory: Memory) -> GraphRefusal {
        GraphRefusal::Memory
    }
}
