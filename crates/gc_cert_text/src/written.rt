//! Lists of a certificate, each item of which is written as a value of its own.
ghost use Rattle.gc_json.specs.CanonicalText.{array_of};
ghost use Rattle.gc_json.specs.Writing.{Adds, tokens_of};

use gc_base::Memory;
use json::Writer;

// What is written as one value.
pub(crate) trait Written {
    ghost use Rattle.serde_json.specs.Data.{Data};

    ghost data_of: { Self → Data };

    fn write(&self, writer: &mut Writer) -> Result<(), Memory>
        ensures { Adds result writer.old writer.new (tokens_of (data_of self.now)) };
}

// Writes the array of some items.
pub(crate) fn write_array<T: Written>(writer: &mut Writer, items: &[T]) -> Result<(), Memory>
    ensures { Adds result writer.old writer.new (tokens_of (array_of T.data_of items.now)) }
{
    writer.begin_array()?;
    for item in items {
        item.write(writer)?;
    }
    writer.end_array()?;
    Ok(())
}
