ghost use Rattle.std.specs.Prelude.{◌≡◌, ◌+◌, ◌<◌, true, length, drop, slice_index, IfOk, IfSome};
ghost use Rattle.gc_lex.specs.Characters.{is_quote};
ghost use Rattle.gc_lex.specs.Contents.{body_of, escape_of};
ghost use Rattle.gc_lex.specs.Items.{text_item};
ghost use Rattle.gc_lex.specs.Stops.{body_from, IsStopIn};

use crate::fronts::plain_length;
use crate::items::Item;
use crate::token::Token;
use gc_base::{Memory, Str};
use std::alloc::Global;

/// Where a run of plain bytes in a text ends, so many bytes on.
pub enum Stop {
    /// At the closing quote.
    Quote(usize),
    /// At a backslash that begins an escape of this meaning.
    Escape(usize, char),
    /// At a backslash that begins no escape.
    BadEscape(usize),
    /// At the end of the file, or at a backslash that stands last in it.
    End,
}

/// What a character means after a backslash.
fn escape(byte: u8) -> Option<char>
    ensures meaning { result ≡ escape_of byte }
    ensures ascii { IfSome result (λ c. (byte < 128) × (c < 128)) }
{
    match byte {
        b'"' => Some('"'),
        b'\'' => Some('\''),
        b'\\' => Some('\\'),
        b'n' => Some('\n'),
        b't' => Some('\t'),
        _ => None,
    }
}

/// The first stop in the bytes after an opening quote.
pub fn next_stop(rest: &[u8], quote: u8) -> Stop
    requires { is_quote quote ≡ true }
    ensures body { body_of quote rest.now ≡ body_from quote rest.now result }
    ensures within { IsStopIn rest.now result }
{
    let n = plain_length(rest, quote);
    if n == rest.len() {
        return Stop::End;
    }
    if rest[n] == quote {
        return Stop::Quote(n);
    }
    if n + 1 == rest.len() {
        return Stop::End;
    }
    match escape(rest[n + 1]) {
        Some(meaning) => Stop::Escape(n, meaning),
        None => Stop::BadEscape(n),
    }
}

/// The text at an opening quote, or what is wrong with it.
pub fn quoted(alloc: Global, text: &str, opening: usize, quote: u8) -> Result<Item, Memory>
    requires within { opening < length text.now }
    requires here { slice_index text.now opening ≡ quote }
    requires quote { is_quote quote ≡ true }
    ensures { IfOk result (λ item. item ≡ text_item (body_of quote (drop (opening + 1) text.now))) }
{
    let mut contents = String::new(alloc);
    let mut at = opening + 1;
    'pieces: loop {
        let rest = &text[at..];
        match next_stop(rest.as_bytes(), quote) {
            Stop::Quote(n) => {
                contents.push_str(&rest[..n])?;
                let contents = Str::from_string(contents);
                return Ok(Item::Spelled(Token::Text(contents), at + n + 1 - opening));
            }
            Stop::Escape(n, meaning) => {
                contents.push_str(&rest[..n])?;
                contents.push(meaning)?;
                at += n + 2;
            }
            Stop::BadEscape(n) => return Ok(Item::BadCharacter(at + n - opening)),
            Stop::End => return Ok(Item::OpenText),
        }
    }
}
