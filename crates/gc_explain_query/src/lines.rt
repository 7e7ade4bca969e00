ghost use Rattle.std.specs.Prelude.{◌≡◌, ◌++◌, OnOk};
ghost use Rattle.gc_explain_query.specs.QueryLines.{numbered_line, view_line, view_of};

use crate::views::ExplainedView;
use gc_base::Memory;
use itoa::Buffer;

/// Adds a line of a word and a number.
pub fn push_numbered(text: &mut Vec<u8>, word: &[u8], number: u64) -> Result<(), Memory>
    ensures { OnOk result (text.new.items ≡ text.old.items ++ numbered_line word.now number) }
{
    let mut digits = Buffer::new();
    text.extend_from_slice(word)?;
    text.push(b' ')?;
    text.extend_from_slice(digits.format(number).as_bytes())?;
    text.push(b'\n')?;
    Ok(())
}

/// Adds the line of a view.
pub fn push_view_line(text: &mut Vec<u8>, view: &ExplainedView) -> Result<(), Memory>
    ensures { OnOk result (text.new.items ≡ text.old.items ++ view_line (view_of view.now)) }
{
    text.extend_from_slice(b"view ")?;
    text.extend_from_slice(view.name.bytes())?;
    text.extend_from_slice(b" on ")?;
    text.extend_from_slice(view.graph.bytes())?;
    text.push(b'\n')?;
    Ok(())
}
