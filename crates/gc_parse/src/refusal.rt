use gc_parse_source::Refusal;
use thiserror::Error;

/// Why a token list has no tree.
#[derive(Clone, Copy, Debug, PartialEq, Eq, Error)]
pub enum ParseRefusal {
    /// The brackets are too deep from the token of this number on.
    #[error("brackets too deep at token {0}")]
    TooDeep(u32),
    /// The token of this number, or the end where it is their number, cannot stand where it does.
    #[error("syntax error at token {0}")]
    Syntax(u32),
    /// Memory is short.
    #[error("out of memory")]
    Memory,
}

impl From<Refusal> for ParseRefusal {
    ghost use Rattle.std.specs.Prelude.{◌≡◌};
    ghost use Rattle.gc_parse.specs.Parses.{as_parse_refusal};

    ghost from_gives = { λ refused made. made ≡ as_parse_refusal refused };

    fn from(refusal: Refusal) -> ParseRefusal {
        match refusal {
            Refusal::Syntax(token) => ParseRefusal::Syntax(token),
            Refusal::Memory => ParseRefusal::Memory,
        }
    }
}
