//! Finds a value of a file again, whose text was checked before.
ghost use Rattle.std.specs.Prelude.{◌≡◌, ◌-◌, ◌∷◌, option_map, if◌then◌else◌, false};
ghost use Rattle.std.specs.Bool.{MatchBool};
ghost use Rattle.std.specs.Str.{bytes_eq};
ghost use Rattle.json.specs.Reads.{token_of};
ghost use Rattle.json.specs.Token.{begin_array, begin_object};
ghost use Rattle.gc_json.specs.Entries.{entries_data, nth_at};
ghost use Rattle.gc_json.specs.Finds.{Finds};
ghost use Rattle.gc_json.specs.Tokens.{value_data, begins_with, opens_array, opens_object};

use crate::checking::check_value;
use crate::frame::opens_array;
use json::{Invalid, Reader, Token};

// Takes the brace that opens an object, or anything else.
pub(crate) fn takes_object(reader: &mut Reader<'_>) -> bool
    ensures { MatchBool result (reader.old ≡ begin_object ∷ reader.new) (begins_with opens_object reader.old ≡ false) }
{
    match reader.next() {
        Some(token) => opens_object(&token),
        None => false,
    }
}

// Whether a token opens an object.
pub(crate) fn opens_object(token: &Token<'_>) -> bool
    ensures { result ≡ opens_object (token_of token.now) }
{
    matches!(token, Token::BeginObject)
}

// Takes the bracket that opens an array, or anything else.
pub(crate) fn takes_array(reader: &mut Reader<'_>) -> bool
    ensures { MatchBool result (reader.old ≡ begin_array ∷ reader.new) (begins_with opens_array reader.old ≡ false) }
{
    match reader.next() {
        Some(token) => opens_array(&token),
        None => false,
    }
}

// Goes to the value of a key where it comes the n-th time. It is not there where the answer is false.
pub(crate) fn find(
    reader: &mut Reader<'_>,
    depth: usize,
    key: &str,
    times: usize,
) -> Result<bool, Invalid>
    ensures { Finds (option_map (λ p. nth_at key.now times p.0) (entries_data depth reader.old)) result
        (option_map (λ p. p.0) (value_data depth reader.new)) }
{
    let mut left = times;
    'members: while let Some(name) = reader.next_key()? {
        let is = is_key(name, key);
        if is && left <= 1 {
            return Ok(true);
        }
        left = left_after(left, is);
        check_value(reader, depth)?;
    }
    Ok(false)
}

// Whether two keys are one.
fn is_key(name: &str, key: &str) -> bool
    ensures { result ≡ bytes_eq name.now key.now }
{
    name == key
}

// How often a key is still to come, after a member that has it or not.
fn left_after(left: usize, is: bool) -> usize
    ensures { result ≡ (if is then left - 1 else left) }
{
    if is { left.saturating_sub(1) } else { left }
}
