ghost use Rattle.std.specs.Prelude.{◌≡◌, ◌<◌, true, length, drop, slice_index, take_while};
ghost use Rattle.std.specs.Char.{is_ascii_digit};
ghost use Rattle.std.specs.Str.{all_ascii_digits};
ghost use Rattle.gc_lex.specs.Items.{number_item};

use crate::fronts::number_length;
use crate::items::Item;
use crate::token::Token;

/// The number that decimal digits write, or that it is above the limit. Leading zeros are allowed.
fn number(digits: &str) -> Item
    requires some { 0 < length digits.now }
    requires decimal { all_ascii_digits digits.now ≡ true }
    ensures { result ≡ number_item digits.now }
{
    match digits.parse::<i64>() {
        Ok(number) => Item::Spelled(Token::Number(number), digits.len()),
        Err(_) => Item::NumberTooLarge,
    }
}

/// The longest number at an offset of a text where a digit stands.
pub fn number_at(text: &str, at: usize) -> Item
    requires within { at < length text.now }
    requires digit { is_ascii_digit (slice_index text.now at) ≡ true }
    ensures { result ≡ number_item (take_while is_ascii_digit (drop at text.now)) }
{
    let (_, rest) = text.as_bytes().split_at(at);
    let length = number_length(rest);
    number(&text[at..at + length])
}
