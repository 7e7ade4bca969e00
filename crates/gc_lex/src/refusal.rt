use gc_base::{Memory, Place};
use thiserror::Error;

/// Why a text has no tokens.
#[derive(Debug, Drop, PartialEq, Eq, Error)]
pub enum LexRefusal {
    /// The bytes are not UTF-8. The place is just after the longest front that is.
    #[error("not UTF-8 after line {}, column {}", .0.line, .0.column)]
    NotUtf8(Place),
    /// A character that begins no token, or a backslash in a text that begins no escape.
    #[error("bad character at line {}, column {}", .0.line, .0.column)]
    BadCharacter(Place),
    /// A text that is never closed. The place is that of its opening quote.
    #[error("open text at line {}, column {}", .0.line, .0.column)]
    OpenText(Place),
    /// A number above the limit. The place is that of its first digit.
    #[error("number too large at line {}, column {}", .0.line, .0.column)]
    NumberTooLarge(Place),
    /// Memory is short.
    #[error("out of memory")]
    Memory,
}

impl From<Memory> for LexRefusal {
    ghost use Rattle.std.specs.Prelude.{◌≡◌};
    ghost use Rattle.gc_lex.specs.declared.refusal.LexRefusal.TheVariants as refusal;

    ghost from_gives = { λ _ made. made ≡ refusal.Memory };

    fn from(_memory: Memory) -> LexRefusal {
        LexRefusal::Memory
    }
}
