ghost use Rattle.std.specs.Prelude.{◌≡◌, ◌<◌, ◌≤◌, length, drop, slice_index, IfOk};
ghost use Rattle.gc_lex.specs.Characters.{is_quote};
ghost use Rattle.gc_lex.specs.Items.{first_item, item_of, IsItemIn};

use crate::fronts::{is_separator, line_length, separator_length};
use crate::numbers::number_at;
use crate::symbols::symbol;
use crate::texts::quoted;
use crate::token::Token;
use crate::words::word;
use gc_base::Memory;
use std::alloc::Global;

/// What stands first in a text.
#[derive(Debug, Drop)]
pub enum Item {
    /// Nothing is left.
    End,
    /// Separators or a comment of so many bytes.
    Gap(usize),
    /// A token that so many bytes spell.
    Spelled(Token, usize),
    /// A character that begins no token or no escape, so many bytes on.
    BadCharacter(usize),
    /// A text that is never closed.
    OpenText,
    /// A number above the limit.
    NumberTooLarge,
}

/// What stands first in a text from an offset on.
pub fn item_at(alloc: Global, text: &str, at: usize) -> Result<Item, Memory>
    requires { at ≤ length text.now }
    ensures item { IfOk result (λ item. item ≡ first_item (drop at text.now)) }
    ensures within { IfOk result (IsItemIn (drop at text.now)) }
{
    if at == text.len() {
        return Ok(Item::End);
    }
    item_from(alloc, text, at, text.as_bytes()[at])
}

fn item_from(alloc: Global, text: &str, at: usize, first: u8) -> Result<Item, Memory>
    requires within { at < length text.now }
    requires here { slice_index text.now at ≡ first }
    ensures { IfOk result (λ item. item ≡ item_of first (drop at text.now)) }
{
    let (_, rest) = text.as_bytes().split_at(at);
    if is_separator(first) {
        return Ok(Item::Gap(separator_length(rest)));
    }
    if first == b'#' {
        return Ok(Item::Gap(line_length(rest)));
    }
    if first.is_ascii_alphabetic() {
        return word(alloc, rest);
    }
    if first.is_ascii_digit() {
        return Ok(number_at(text, at));
    }
    if is_quote(first) {
        return quoted(alloc, text, at, first);
    }
    Ok(symbol(rest))
}

fn is_quote(byte: u8) -> bool
    ensures { result ≡ is_quote byte }
{
    byte == b'"' || byte == b'\''
}
