//! The shape of the document of a certificate, which is tested as a whole before anything is read of it.
ghost use Rattle.std.specs.Prelude.{◌≡◌, codes, map, option_map};
ghost use Rattle.std.specs.List.{list_all};
ghost use Rattle.std.specs.Option.{is_some};
ghost use Rattle.gc_json.specs.JsonValues.{has_only, is_key_among};
ghost use Rattle.serde_json.specs.Find.{get};
ghost use Rattle.serde_json.specs.View.{view, items_view, members_view};
ghost use Rattle.gc_cert_text.specs.Options.{array_at};
ghost use Rattle.gc_cert_text.specs.Shapes.{has_keys, each_is, has_array, is_odd};
ghost use Rattle.gc_cert_text.specs.Shapes.{has_potential_shape, has_segment_shape, has_move_shape};
ghost use Rattle.gc_cert_text.specs.Shapes.{has_walk_shape, has_search_arrays, has_search_shape, has_document_shape};

use serde_json::{Map, Value};

// Whether a value is a document, of which numbers, texts and graphs are not looked at.
pub(crate) fn has_document_shape(value: &Value) -> bool
    ensures { result ≡ has_document_shape (view value.now) }
{
    has_keys(value, &["gcore_cert", "searches"])
        && value.get("gcore_cert").and_then(Value::as_u64) == Some(1)
        && has_searches(value)
}

// Whether each item of the array at the key of searches is one.
fn has_searches(value: &Value) -> bool
    ensures { result ≡ has_array (codes "searches") (each_is has_search_shape) (view value.now) }
{
    match array_at(value, "searches") {
        None => false,
        Some(items) => are_searches(items),
    }
}

fn are_searches(items: &[Value]) -> bool
    ensures { result ≡ each_is has_search_shape (items_view items.now) }
{
    for item in items {
        if !has_search_shape(item) {
            return false;
        }
    }
    true
}

// Whether a value is a search.
fn has_search_shape(value: &Value) -> bool
    ensures { result ≡ has_search_shape (view value.now) }
{
    has_keys(
        value,
        &[
            "expression",
            "graph",
            "potentials",
            "segments",
            "start",
            "walks",
        ],
    ) && has_potentials(value)
        && has_segments(value)
        && has_walks(value)
}

fn has_potentials(value: &Value) -> bool
    ensures { result ≡ has_array (codes "potentials") (each_is has_potential_shape) (view value.now) }
{
    match array_at(value, "potentials") {
        None => false,
        Some(items) => are_potentials(items),
    }
}

fn are_potentials(items: &[Value]) -> bool
    ensures { result ≡ each_is has_potential_shape (items_view items.now) }
{
    for item in items {
        if !has_potential_shape(item) {
            return false;
        }
    }
    true
}

fn has_segments(value: &Value) -> bool
    ensures { result ≡ has_array (codes "segments") (each_is has_segment_shape) (view value.now) }
{
    match array_at(value, "segments") {
        None => false,
        Some(items) => are_segments(items),
    }
}

fn are_segments(items: &[Value]) -> bool
    ensures { result ≡ each_is has_segment_shape (items_view items.now) }
{
    for item in items {
        if !has_segment_shape(item) {
            return false;
        }
    }
    true
}

fn has_walks(value: &Value) -> bool
    ensures { result ≡ has_array (codes "walks") (each_is has_walk_shape) (view value.now) }
{
    match array_at(value, "walks") {
        None => false,
        Some(items) => are_walks(items),
    }
}

fn are_walks(items: &[Value]) -> bool
    ensures { result ≡ each_is has_walk_shape (items_view items.now) }
{
    for item in items {
        if !has_walk_shape(item) {
            return false;
        }
    }
    true
}

// Whether a value is a list of three.
#[tactic(auto, using(crate::proofs::Items::counted))]
fn has_potential_shape(value: &Value) -> bool
    ensures { result ≡ has_potential_shape (view value.now) }
{
    match value.as_array() {
        None => false,
        Some(items) => items.len() == 3,
    }
}

fn has_segment_shape(value: &Value) -> bool
    ensures { result ≡ has_segment_shape (view value.now) }
{
    has_keys(value, &["cost", "view", "walk"]) && array_at(value, "walk").is_some()
}

fn has_walk_shape(value: &Value) -> bool
    ensures { result ≡ has_walk_shape (view value.now) }
{
    has_keys(value, &["cost", "run", "walk"]) && has_run(value) && has_odd_walk(value)
}

// Whether each item of the array at the key of a run is a move.
fn has_run(value: &Value) -> bool
    ensures { result ≡ has_array (codes "run") (each_is has_move_shape) (view value.now) }
{
    match array_at(value, "run") {
        None => false,
        Some(items) => are_moves(items),
    }
}

fn are_moves(items: &[Value]) -> bool
    ensures { result ≡ each_is has_move_shape (items_view items.now) }
{
    for item in items {
        if !has_move_shape(item) {
            return false;
        }
    }
    true
}

#[tactic(auto, using(crate::proofs::Items::counted))]
fn has_odd_walk(value: &Value) -> bool
    ensures { result ≡ has_array (codes "walk") is_odd (view value.now) }
{
    match array_at(value, "walk") {
        None => false,
        Some(items) => items.len() % 2 == 1,
    }
}

fn has_move_shape(value: &Value) -> bool
    ensures { result ≡ has_move_shape (view value.now) }
{
    has_keys(value, &["to"])
        || has_keys(value, &["edge", "to"])
        || has_keys(value, &["segment", "to"])
}

// The items of the array at a key.
pub(crate) fn array_at<'v>(value: &'v Value, key: &str) -> Option<&'v [Value]>
    ensures { option_map (λ items. items_view items.now) result ≡ array_at key.now (view value.now) }
{
    match value.get(key)?.as_array() {
        None => None,
        Some(items) => Some(items),
    }
}

// Whether a value is an object with exactly these keys.
fn has_keys(value: &Value, keys: &[&str]) -> bool
    ensures { result ≡ has_keys (map (λ k. k.now) keys.now) (view value.now) }
{
    match value.as_object() {
        None => false,
        Some(members) => has_only(members, keys) && has_each(value, keys),
    }
}

// Whether each member has one of these keys.
fn has_only(members: &Map<String, Value>, keys: &[&str]) -> bool
    ensures { result ≡ has_only (map (λ k. k.now) keys.now) (members_view members.now.entries) }
{
    members.keys().all(|key| is_key_among(key, keys))
}

fn is_key_among(key: &str, keys: &[&str]) -> bool
    ensures { result ≡ is_key_among (map (λ k. k.now) keys.now) key.now }
{
    for other in keys {
        if key == *other {
            return true;
        }
    }
    false
}

// Whether there is a member of each of these keys.
fn has_each(value: &Value, keys: &[&str]) -> bool
    ensures { result ≡ list_all (λ key. is_some (get key (view value.now))) (map (λ k. k.now) keys.now) }
{
    for key in keys {
        if value.get(*key).is_none() {
            return false;
        }
    }
    true
}
