//! Passes over a value of which nothing is kept, and checks it as far as one that is read.
ghost use Rattle.std.specs.Prelude.{◌≡◌, ◌<◌, ◌≤◌, ◌∷◌, length, Some, None, MatchResult, OnOk};
ghost use Rattle.json.specs.Reads.{token_of};
ghost use Rattle.serde_json.specs.Data.{no_members};
ghost use Rattle.gc_json.specs.Tokens.{value_data, items_data, members_data, rest_of};

use crate::numbers::is_number;
use json::{Invalid, Reader, Token};

// Passes over the next value.
#[cycle(check)]
#[inline(always)]
pub(crate) fn check_value(reader: &mut Reader<'_>, depth: usize) -> Result<(), Invalid>
    ensures value { MatchResult result
        (λ _. rest_of (value_data depth reader.old) ≡ Some reader.new)
        (λ _. value_data depth reader.old ≡ None) }
    ensures shorter { OnOk result (length reader.new < length reader.old) }
{
    let Some(token) = reader.next() else {
        return Err(Invalid);
    };
    check_token(token, reader, depth)
}

// Passes over the rest of a value that begins with a token.
#[cycle(check)]
#[inline(always)]
pub(crate) fn check_token(
    token: Token<'_>,
    reader: &mut Reader<'_>,
    depth: usize,
) -> Result<(), Invalid>
    ensures value { MatchResult result
        (λ _. rest_of (value_data depth (token_of token.entry ∷ reader.old)) ≡ Some reader.new)
        (λ _. value_data depth (token_of token.entry ∷ reader.old) ≡ None) }
    ensures shorter { OnOk result (length reader.new ≤ length reader.old) }
{
    match token {
        Token::String(_) | Token::Bool(_) | Token::Null => Ok(()),
        Token::Number(text) => if is_number(text) {
            Ok(())
        } else {
            Err(Invalid)
        },
        Token::EndObject | Token::EndArray | Token::Key(_) | Token::Bad => Err(Invalid),
        Token::BeginArray => if depth == 0 {
            Err(Invalid)
        } else {
            check_items(reader, depth - 1)
        },
        Token::BeginObject => if depth == 0 {
            Err(Invalid)
        } else {
            check_members(reader, depth - 1)
        },
    }
}

// Passes over the items of an array and its bracket.
#[cycle(check)]
#[inline(never)]
fn check_items(reader: &mut Reader<'_>, depth: usize) -> Result<(), Invalid>
    ensures value { MatchResult result
        (λ _. rest_of (items_data depth reader.old) ≡ Some reader.new)
        (λ _. items_data depth reader.old ≡ None) }
    ensures shorter { OnOk result (length reader.new < length reader.old) }
{
    'items: while !reader.take_end_array() {
        check_value(reader, depth)?;
    }
    Ok(())
}

// Passes over the members of an object and its brace.
#[cycle(check)]
#[inline(never)]
fn check_members(reader: &mut Reader<'_>, depth: usize) -> Result<(), Invalid>
    ensures value { MatchResult result
        (λ _. rest_of (members_data depth no_members reader.old) ≡ Some reader.new)
        (λ _. members_data depth no_members reader.old ≡ None) }
    ensures shorter { OnOk result (length reader.new < length reader.old) }
{
    'members: while let Some(_) = reader.next_key()? {
        check_value(reader, depth)?;
    }
    Ok(())
}
