//! Writing the expression of a search.
ghost use Rattle.std.specs.Prelude.{◌≡◌, ◌∷◌, codes};
ghost use Rattle.std.specs.Str.{IsUtf8};
ghost use Rattle.gc_json.specs.Writing.{Adds, tokens_of};
ghost use Rattle.gc_print.specs.RegexTexts.{regex_text};
ghost use Rattle.gc_regx.specs.Views.{regex_tree};
ghost use Rattle.json.specs.Token.{key};
ghost use Rattle.serde_json.specs.Data.{string};

use crate::words::know_words;
use gc_base::Memory;
use gc_print::print_regex;
use gc_regx::Regex;
use json::Writer;
use std::alloc::Global;
use std::str;

// The member for an expression. Its text is ASCII, since words are.
pub(crate) fn write_expression(
    alloc: Global,
    writer: &mut Writer,
    expression: &Regex,
) -> Result<(), Memory>
    ensures { Adds result writer.old writer.new (key (codes "expression") ∷ tokens_of (string (regex_text (regex_tree expression.now)))) }
{
    know_words(expression);
    let text = print_regex(alloc, expression)?;
    writer.key("expression")?;
    writer.string(as_text(text.as_slice()))?;
    Ok(())
}

// Bytes that are UTF-8, as text.
fn as_text(bytes: &[u8]) -> &str
    requires { IsUtf8 bytes.now }
    ensures { result.now ≡ bytes.now }
{
    str::from_utf8(bytes).unwrap()
}
