//! The numbers of a certificate.
ghost use Rattle.std.specs.Prelude.{◌≡◌};
ghost use Rattle.std.specs.Str.{all_ascii_digits};
ghost use Rattle.serde_json.specs.View.{view};
ghost use Rattle.gc_cert_text.specs.Numbers.{cost_below, cost_in, cost_of_text, id_in, is_unpadded, small_in, small_of, potential_in, by_in, move_in};

use gc_base::{Cost, Id};
use gc_cert::Potential;
use gc_prod::{By, RunMove};
use serde_json::Value;

/// The costs are below this number.
const COSTS: u128 = 170141183460469231731687303715884105728;

// A cost, as the text of its digits.
pub(crate) fn cost_in(value: &Value) -> Option<Cost>
    ensures { result ≡ cost_in (view value.now) }
{
    value.as_str().and_then(cost_of_text)
}

// The cost of a text.
fn cost_of_text(text: &str) -> Option<Cost>
    ensures { result ≡ cost_of_text text.now }
{
    let digits = text.as_bytes();
    if !is_unpadded(digits) || !are_digits(digits) {
        return None;
    }
    match text.parse::<u128>() {
        Ok(cost) => cost_below(cost),
        Err(_) => None,
    }
}

fn cost_below(cost: u128) -> Option<Cost>
    ensures { result ≡ cost_below cost }
{
    if cost < COSTS {
        Some(Cost::of(cost))
    } else {
        None
    }
}

// Whether digits have no zero before others.
fn is_unpadded(digits: &[u8]) -> bool
    ensures { result ≡ is_unpadded digits.now }
{
    match digits.split_first() {
        None => false,
        Some((first, rest)) => rest.is_empty() || *first != b'0',
    }
}

fn are_digits(bytes: &[u8]) -> bool
    ensures { result ≡ all_ascii_digits bytes.now }
{
    for byte in bytes {
        if !byte.is_ascii_digit() {
            return false;
        }
    }
    true
}

// An identity.
pub(crate) fn id_in(value: &Value) -> Option<Id>
    ensures { result ≡ id_in (view value.now) }
{
    value.as_u64().and_then(Id::new)
}

// A state, or the number of a segment.
fn small_in(value: &Value) -> Option<u32>
    ensures { result ≡ small_in (view value.now) }
{
    value.as_u64().and_then(small_of)
}

fn small_of(number: u64) -> Option<u32>
    ensures { result ≡ small_of number }
{
    if number <= 4_294_967_295 {
        Some(number as u32)
    } else {
        None
    }
}

// A potential: a node, a state and a cost.
pub(crate) fn potential_in(value: &Value) -> Option<Potential>
    ensures { result ≡ potential_in (view value.now) }
{
    let node = value.get(0_usize).and_then(id_in)?;
    let state = value.get(1_usize).and_then(small_in)?;
    let cost = value.get(2_usize).and_then(cost_in)?;
    Some(Potential { node, state, cost })
}

// A move: what it goes by, and the state that it goes to.
pub(crate) fn move_in(value: &Value) -> Option<RunMove>
    ensures { result ≡ move_in (view value.now) }
{
    let by = by_in(value)?;
    let to = value.get("to").and_then(small_in)?;
    Some(RunMove { by, to })
}

// What a move goes by: an edge, a segment, or nothing.
fn by_in(value: &Value) -> Option<By>
    ensures { result ≡ by_in (view value.now) }
{
    match value.get("edge") {
        Some(edge) => Some(By::Edge(id_in(edge)?)),
        None => match value.get("segment") {
            Some(segment) => Some(By::Segment(small_in(segment)?)),
            None => Some(By::Nothing),
        },
    }
}
