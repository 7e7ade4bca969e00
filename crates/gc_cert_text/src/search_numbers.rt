//! The numbers of a search.
ghost use Rattle.std.specs.Prelude.{◌≡◌, codes, IfOk};
ghost use Rattle.serde_json.specs.View.{view, items_view};
ghost use Rattle.gc_cert_text.specs.Numbers.{has_segment_numbers, is_id};
ghost use Rattle.gc_cert_text.specs.SearchNumberTexts.{numbers_in, numbers_of};
ghost use Rattle.gc_cert_text.specs.Shapes.{each_is, has_array};

use crate::lists::list_at;
use crate::numbers::{cost_in, id_in};
use crate::shapes::array_at;
use gc_base::{Id, Memory};
use gc_cert::{PotentialList, WalkDocList};
use serde_json::Value;
use std::alloc::Global;

// The numbers of a search, but for those of its graph and its segments.
#[derive(Drop)]
pub(crate) struct SearchNumbers {
    pub(crate) potentials: PotentialList,
    pub(crate) start: Id,
    pub(crate) walks: WalkDocList,
}

// They are there where those of the segments are written as they should, too.
pub(crate) fn numbers_in(alloc: Global, value: &Value) -> Result<Option<SearchNumbers>, Memory>
    ensures { IfOk result (λ numbers. numbers ≡ numbers_in (view value.now)) }
{
    if !have_segments_numbers(value) {
        return Ok(None);
    }
    numbers_of(alloc, value)
}

fn numbers_of(alloc: Global, value: &Value) -> Result<Option<SearchNumbers>, Memory>
    ensures { IfOk result (λ numbers. numbers ≡ numbers_of (view value.now)) }
{
    let Some(potentials) = list_at(alloc, value, "potentials")? else {
        return Ok(None);
    };
    let Some(start) = value.get("start").and_then(id_in) else {
        return Ok(None);
    };
    let Some(walks) = list_at(alloc, value, "walks")? else {
        return Ok(None);
    };
    Ok(Some(SearchNumbers {
        potentials: PotentialList::from_vec(potentials),
        start,
        walks: WalkDocList::from_vec(walks),
    }))
}

// Whether the numbers of each segment are written as they should.
fn have_segments_numbers(value: &Value) -> bool
    ensures { result ≡ has_array (codes "segments") (each_is has_segment_numbers) (view value.now) }
{
    match array_at(value, "segments") {
        None => false,
        Some(items) => have_numbers(items),
    }
}

fn have_numbers(items: &[Value]) -> bool
    ensures { result ≡ each_is has_segment_numbers (items_view items.now) }
{
    for item in items {
        if !has_segment_numbers(item) {
            return false;
        }
    }
    true
}

// Those of a segment: its cost, and the identities of its walk.
fn has_segment_numbers(value: &Value) -> bool
    ensures { result ≡ has_segment_numbers (view value.now) }
{
    value.get("cost").and_then(cost_in).is_some() && has_ids(value)
}

fn has_ids(value: &Value) -> bool
    ensures { result ≡ has_array (codes "walk") (each_is is_id) (view value.now) }
{
    match array_at(value, "walk") {
        None => false,
        Some(items) => are_ids(items),
    }
}

fn are_ids(items: &[Value]) -> bool
    ensures { result ≡ each_is is_id (items_view items.now) }
{
    for item in items {
        if id_in(item).is_none() {
            return false;
        }
    }
    true
}
