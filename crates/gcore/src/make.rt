ghost use Rattle.std.specs.Prelude.{◌≡◌, map, string_bytes};
ghost use Rattle.std.specs.Str.{all_ascii_digits};
ghost use Rattle.gcore.specs.MakeLines.{kind_of, number_within, number_of, within, is_number};

use crate::command::{Command, CommandRefusal};
use gc_base::MakeKind;
use gc_make::{MOST_START, most_size};

// The kind of a word.
fn kind_of(word: &str) -> Option<MakeKind>
    ensures { result ≡ kind_of word.now }
{
    if word == "ring" {
        Some(MakeKind::Ring)
    } else if word == "random" {
        Some(MakeKind::Random)
    } else {
        None
    }
}

ghost use Rattle.gcore.specs.CommandLines.{IsMake, IsMakeOf};

/// The command `make` of the words behind it: the kind, the size and the start.
pub fn make_of(words: &[String]) -> Result<Command, CommandRefusal>
    ensures { IsMake (map string_bytes words.now) result }
{
    if words.len() != 3 {
        return Err(CommandRefusal::Usage);
    }
    make_of_kind(words[0].as_str(), words[1].as_str(), words[2].as_str())
}

fn make_of_kind(kind: &str, size: &str, start: &str) -> Result<Command, CommandRefusal>
    ensures { IsMakeOf kind.now size.now start.now result }
{
    let Some(kind) = kind_of(kind) else {
        return Err(CommandRefusal::Usage);
    };
    let Some(size) = number_within(1, most_size(kind), size) else {
        return Err(CommandRefusal::Usage);
    };
    let Some(start) = number_within(0, MOST_START, start) else {
        return Err(CommandRefusal::Usage);
    };
    Ok(Command::Make { kind, size, start })
}

// The number that one to ten decimal digits write, where it is within its limits.
fn number_within(least: u32, most: u32, word: &str) -> Option<u32>
    ensures { result ≡ number_within least most word.now }
{
    match number_of(word) {
        Some(number) => within(least, most, number),
        None => None,
    }
}

fn within(least: u32, most: u32, number: u64) -> Option<u32>
    ensures { result ≡ within least most number }
{
    if u64::from(least) <= number && number <= u64::from(most) {
        Some(number as u32)
    } else {
        None
    }
}

// The number that one to ten decimal digits write.
fn number_of(word: &str) -> Option<u64>
    ensures { result ≡ number_of word.now }
{
    if !is_number(word) {
        return None;
    }
    match word.parse::<u64>() {
        Ok(number) => Some(number),
        Err(_) => None,
    }
}

fn is_number(word: &str) -> bool
    ensures { result ≡ is_number word.now }
{
    !word.is_empty() && word.len() <= 10 && are_digits(word.as_bytes())
}

fn are_digits(bytes: &[u8]) -> bool
    ensures { result ≡ all_ascii_digits bytes.now }
{
    for byte in bytes {
        if !byte.is_ascii_digit() {
            return false;
        }
    }
    true
}
