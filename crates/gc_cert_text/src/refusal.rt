use gc_base::Memory;
use thiserror::Error;

/// Why bytes told no certificate. A number is that of a search, counted from 0.
#[derive(Clone, Copy, Debug, PartialEq, Eq, Error)]
pub enum CertRefusal {
    /// C1: the bytes are no JSON value.
    #[error("no JSON")]
    NotJson,
    /// C2: an object or an array is of another kind, has other keys or has another length.
    #[error("wrong shape")]
    WrongShape,
    /// C3: the graph of a search is refused as a graph file.
    #[error("bad graph in search {0}")]
    BadGraph(u32),
    /// C4: the expression is none, nests too deep, or has more than 1,024 states.
    #[error("bad expression in search {0}")]
    BadExpression(u32),
    /// C5: a segment is no walk of the graph along an edge, its view no name, or its cost past the range.
    #[error("bad segment in search {0}")]
    BadSegment(u32),
    /// C6: a cost, an identity, a state or the number of a segment is not written as one.
    #[error("bad number in search {0}")]
    BadNumber(u32),
    /// Memory is short.
    #[error("out of memory")]
    Memory,
}

impl From<Memory> for CertRefusal {
    ghost use Rattle.std.specs.Prelude.{◌≡◌};
    ghost use Rattle.gc_cert_text.specs.declared.refusal.CertRefusal.TheVariants as refusal;

    ghost from_gives = { λ _ made. made ≡ refusal.Memory };

    fn from(_memory: Memory) -> CertRefusal {
        CertRefusal::Memory
    }
}
