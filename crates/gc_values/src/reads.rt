ghost use Rattle.std.specs.Prelude.{◌≡◌, IfOk};

use gc_base::{Duplicate, LabelSet, Memory, Properties, Sequence, Sym};
use gc_rows::Datum;

/// The graphs, by number, in which a variable is read: one for its own labels, properties and walk,
/// one for the labels and properties of the elements on its walk.
#[derive(Clone, Copy, Debug, PartialEq, Eq)]
pub struct ReadUse {
    pub var: Sym,
    pub own: u32,
    pub walk: u32,
}

/// The graphs of variables. One without an entry is read as if its graphs were empty.
pub type Reads = Sequence<ReadUse>;

/// What was made of a variable of the CONSTRUCT: what it stands for, unless it is nothing, and its
/// finished labels and properties.
#[derive(Debug, Drop)]
pub struct Made {
    pub var: Sym,
    pub datum: Option<Datum>,
    pub labels: LabelSet,
    pub properties: Properties,
}

/// The variables of a CONSTRUCT, as they were made.
pub type MadeList = Sequence<Made>;

impl Duplicate for ReadUse {
    fn copy(&self) -> Result<ReadUse, Memory> {
        Ok(*self)
    }
}

impl Duplicate for Made {
    fn copy(&self) -> Result<Made, Memory> {
        Ok(Made {
            var: self.var,
            datum: copied(&self.datum)?,
            labels: self.labels.copy()?,
            properties: self.properties.copy()?,
        })
    }
}

fn copied(datum: &Option<Datum>) -> Result<Option<Datum>, Memory>
    ensures { IfOk result (λ copied. copied ≡ datum.now) }
{
    match datum {
        None => Ok(None),
        Some(datum) => Ok(Some(datum.copy()?)),
    }
}
