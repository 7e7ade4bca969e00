ghost use Rattle.std.specs.Prelude.{◌≡◌, ◌<◌, length, [], ◌∷◌};
ghost use Rattle.gc_lex.specs.Items.{symbol_item};
ghost use Rattle.gc_lex.specs.Symbols.{symbols, symbols_of_one, symbols_of_two, entry_of, mark_in};

use crate::items::Item;
use crate::token::{Mark, Token};

/// The longest symbol at the front of bytes.
pub fn symbol(rest: &[u8]) -> Item
    requires { 0 < length rest.now }
    ensures { result ≡ symbol_item (entry_of symbols rest.now) }
{
    if rest.len() > 1
        && let Some(mark) = mark_of_two(rest[0], rest[1])
    {
        return Item::Spelled(Token::Symbol(mark), 2);
    }
    match mark_of_one(rest[0]) {
        Some(mark) => Item::Spelled(Token::Symbol(mark), 1),
        None => Item::BadCharacter(0),
    }
}

fn mark_of_two(first: u8, second: u8) -> Option<Mark>
    ensures { result ≡ mark_in symbols_of_two (first ∷ second ∷ []) }
{
    match (first, second) {
        (b':', b'=') => Some(Mark::Assign),
        (b'<', b'=') => Some(Mark::AtMost),
        (b'>', b'=') => Some(Mark::AtLeast),
        (b'<', b'>') => Some(Mark::Differs),
        _ => None,
    }
}

fn mark_of_one(byte: u8) -> Option<Mark>
    ensures { result ≡ mark_in symbols_of_one (byte ∷ []) }
{
    match byte {
        b'(' => Some(Mark::OpenParenthesis),
        b')' => Some(Mark::CloseParenthesis),
        b'[' => Some(Mark::OpenBracket),
        b']' => Some(Mark::CloseBracket),
        b'{' => Some(Mark::OpenBrace),
        b'}' => Some(Mark::CloseBrace),
        b'<' => Some(Mark::Less),
        b'>' => Some(Mark::Greater),
        b',' => Some(Mark::Comma),
        b';' => Some(Mark::Semicolon),
        b':' => Some(Mark::Colon),
        b'.' => Some(Mark::Dot),
        b'=' => Some(Mark::Equals),
        b'+' => Some(Mark::Plus),
        b'-' => Some(Mark::Minus),
        b'*' => Some(Mark::Star),
        b'/' => Some(Mark::Slash),
        b'%' => Some(Mark::Percent),
        b'|' => Some(Mark::Bar),
        b'!' => Some(Mark::Bang),
        b'~' => Some(Mark::Tilde),
        b'@' => Some(Mark::AtSign),
        b'_' => Some(Mark::LowLine),
        _ => None,
    }
}
