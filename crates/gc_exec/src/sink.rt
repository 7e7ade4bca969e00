ghost use Rattle.std.specs.Prelude.{◌≡◌, ◌↔◌, true, OnOk};
ghost use Rattle.gc_exec.specs.Sinks.{IsFull, IsSunk};

use gc_base::Memory;
use gc_rows::{RowArray, RowView};

/// Where the rows go that come out of a pipeline.
#[derive(Drop)]
pub(crate) enum Sink {
    /// Each is put behind those of an array, with its bindings of the variables of the schema alone.
    All(RowArray),
    /// It is only kept whether there is one.
    Any(bool),
}

impl Sink {
    /// Puts a row into it.
    pub(crate) fn put(&mut self, row: &RowView<'_>) -> Result<(), Memory>
        ensures { OnOk result (IsSunk (λ u. row.now ≡ u) self.old self.new) }
    {
        match self {
            Sink::All(array) => array.push(row),
            Sink::Any(has) => {
                *has = true;
                Ok(())
            }
        }
    }

    /// Whether no row that is still to come makes a difference to it.
    pub(crate) fn is_full(&self) -> bool
        ensures { (result ≡ true) ↔ IsFull self.now }
    {
        match self {
            Sink::All(_) => false,
            Sink::Any(has) => *has,
        }
    }
}
