ghost use Rattle.std.specs.Prelude.{◌≡◌, ◌++◌, ◌∷◌, [], Some, IfOk, OnOk};

use gc_base::{Duplicate, Memory};
use gc_rows::Datum;
use smallvec::SmallVec;
use std::alloc::Global;
use std::marker::Model;

/// The parts of a key, of which one or two lie in the key itself. Contracts see the list of them.
#[derive(Debug, Drop)]
pub struct KeyParts {
    // Most keys are an element, or the two ends of an edge, and there is one for each row.
    parts: SmallVec<Option<Datum>, 2>,
}

impl Model for KeyParts {
    ghost use Rattle.std.specs.Prelude.{List, Option};
    ghost use Rattle.gc_rows.specs.declared.datum.Datum.{Datum};

    ghost Value = { List (Option Datum) };

    ghost view = { λ p. p.parts.items };
}

impl KeyParts {
    /// No parts, with room for some. Room for one or two takes no memory.
    pub fn with_room(alloc: Global, parts: usize) -> Result<KeyParts, Memory>
        ensures { IfOk result (λ made. made ≡ []) }
    {
        Ok(KeyParts {
            parts: SmallVec::with_capacity(alloc, parts)?,
        })
    }

    /// One part. It takes no memory.
    pub(crate) fn of_one(alloc: Global, part: Datum) -> KeyParts
        ensures { result ≡ Some part ∷ [] }
    {
        KeyParts {
            parts: SmallVec::from_buf_and_len(alloc, [Some(part), None], 1),
        }
    }

    /// Two parts. They take no memory.
    pub(crate) fn of_two(alloc: Global, first: Datum, second: Datum) -> KeyParts
        ensures { result ≡ Some first ∷ Some second ∷ [] }
    {
        KeyParts {
            parts: SmallVec::from_buf(alloc, [Some(first), Some(second)]),
        }
    }

    /// Adds a part at the end.
    pub fn push(&mut self, part: Option<Datum>) -> Result<(), Memory>
        ensures { OnOk result (self.new ≡ self.old ++ part ∷ []) }
    {
        self.parts.push(part)?;
        Ok(())
    }

    /// All parts, in order.
    pub fn as_slice(&self) -> &[Option<Datum>]
        ensures { result.now ≡ self.now }
    {
        self.parts.as_slice()
    }

    /// A copy from the given allocator.
    pub(crate) fn copied(&self, alloc: Global) -> Result<KeyParts, Memory>
        ensures { IfOk result (λ copied. copied ≡ self.now) }
    {
        let parts = self.as_slice();
        let mut copied = KeyParts::with_room(alloc, parts.len())?;
        for part in parts {
            copied.push(copied_part(part)?)?;
        }
        Ok(copied)
    }
}

fn copied_part(part: &Option<Datum>) -> Result<Option<Datum>, Memory>
    ensures { IfOk result (λ copied. copied ≡ part.now) }
{
    match part {
        None => Ok(None),
        Some(datum) => Ok(Some(datum.copy()?)),
    }
}
