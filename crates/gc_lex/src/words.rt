ghost use Rattle.std.specs.Prelude.{◌≡◌, true, slice_index, IfOk, take_while};
ghost use Rattle.std.specs.Char.{is_ascii_alphabetic};
ghost use Rattle.gc_base.specs.Words.{is_word_part};
ghost use Rattle.gc_lex.specs.Items.{word_item};

use crate::fronts::word_length;
use crate::items::Item;
use crate::token::Token;
use gc_base::{Memory, Name};
use std::alloc::Global;

/// The longest word at the front of a text that begins with a letter.
pub fn word(alloc: Global, text: &[u8]) -> Result<Item, Memory>
    requires { is_ascii_alphabetic (slice_index text.now 0) ≡ true }
    ensures { IfOk result (λ item. item ≡ word_item (take_while is_word_part text.now)) }
{
    let length = word_length(text);
    match Name::of(alloc, &text[..length])? {
        Some(name) => Ok(Item::Spelled(Token::Word(name), length)),
        None => unreachable!(),
    }
}
