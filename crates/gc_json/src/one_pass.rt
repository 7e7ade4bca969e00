//! The graph of a text in one pass, where its lists come in the order in which their elements are
//! added and nothing is wrong. Of any other text nothing is told: which rule it breaks first, if
//! one, is for the passes after this one.
ghost use Rattle.std.specs.Prelude.{◌≡◌, ◌<◌, codes, length, Ok, IfSome, OnSome};
ghost use Rattle.gc_spec.specs.PropertyGraph.{PropertyGraph, empty_graph};
ghost use Rattle.gc_json.specs.Entries.{Entries, entries_data};
ghost use Rattle.gc_json.specs.FileElements.{Seen};
ghost use Rattle.gc_json.specs.GraphFiles.{text_graph};
ghost use Rattle.gc_json.specs.ListWalks.{list_key};
ghost use Rattle.gc_json.specs.OnePass.{may_come, place_with, frame_with, AreOf, ReadsAt, ReadsAll};
ghost use Rattle.gc_json.specs.Tokens.{value_data};

use crate::finding::{takes_array, takes_object};
use crate::frame::{Frame, ListPlace, is_version_1};
use crate::listing::add_elements;
use crate::loading::MOST_ELEMENTS;
use gc_base::NamePool;
use gc_ppg::{Coherence, GraphBuilder, Kind};
use json::{Reader, Scratch};
use std::alloc::Global;

// The graph of a text, if one pass gives it. Where memory is short it gives none.
pub(crate) fn graph_in_one_pass(
    alloc: Global,
    text: &str,
    scratch: &mut Scratch,
    seen: &Coherence,
) -> Option<GraphBuilder>
    ensures { IfSome result (λ builder. text_graph seen.now text.now ≡ Ok builder) }
{
    let Ok(mut names) = NamePool::new(alloc) else {
        return None;
    };
    let Ok(mut reader) = Reader::new(text, scratch) else {
        return None;
    };
    if !takes_object(&mut reader) {
        return None;
    }
    let mut builder = GraphBuilder::new(alloc);
    let frame = add_members(&mut names, &mut reader, &mut builder, seen)?;
    if reader.next().is_some() {
        return None;
    }
    let count = frame.count()?;
    if count > MOST_ELEMENTS {
        return None;
    }
    Some(builder)
}

// Adds the elements of an object after its brace, to a graph without any.
fn add_members(
    names: &mut NamePool,
    reader: &mut Reader<'_>,
    builder: &mut GraphBuilder,
    seen: &Coherence,
) -> Option<Frame>
    requires { builder.old ≡ empty_graph }
    ensures { IfSome result (λ frame. ReadsAll seen.now (entries_data 126 reader.old) frame builder.new reader.new) }
{
    let mut frame = Frame::empty();
    'members: while let Some(key) = reader.next_key().ok()? {
        frame = add_member(names, reader, builder, seen, frame, key)?;
    }
    Some(frame)
}

// Adds the elements of the value at a key, to those of a file so far.
fn add_member(
    names: &mut NamePool,
    reader: &mut Reader<'_>,
    builder: &mut GraphBuilder,
    seen: &Coherence,
    frame: Frame,
    key: &str,
) -> Option<Frame>
    ensures value { (es : Entries) → AreOf seen.now es frame builder.old
        → IfSome result (λ next. ReadsAt seen.now es key.now (value_data 126 reader.old) next builder.new reader.new) }
    ensures shorter { OnSome result (length reader.new < length reader.old) }
{
    match key {
        "gcore" => take_version(names.allocator(), reader, frame),
        "nodes" => add_listed(names, reader, builder, seen, frame, Kind::Node),
        "edges" => add_listed(names, reader, builder, seen, frame, Kind::Edge),
        "paths" => add_listed(names, reader, builder, seen, frame, Kind::Path),
        _ => None,
    }
}

// Takes the version, which changes no graph.
fn take_version(alloc: Global, reader: &mut Reader<'_>, frame: Frame) -> Option<Frame>
    ensures value { (es : Entries) → (seen : Seen) → (g : PropertyGraph) → AreOf seen es frame g
        → IfSome result (λ next. ReadsAt seen es (codes "gcore") (value_data 126 reader.old) next g reader.new) }
    ensures shorter { OnSome result (length reader.new < length reader.old) }
{
    let mut next = frame;
    let Ok(is) = is_version_1(alloc, reader, 126) else {
        return None;
    };
    next.is_version_1 = is;
    Some(next)
}

// Adds the elements of the array at the key of a kind, if the list of the kind may come.
fn add_listed(
    names: &mut NamePool,
    reader: &mut Reader<'_>,
    builder: &mut GraphBuilder,
    seen: &Coherence,
    frame: Frame,
    kind: Kind,
) -> Option<Frame>
    ensures value { (es : Entries) → AreOf seen.now es frame builder.old
        → IfSome result (λ next. ReadsAt seen.now es (list_key kind) (value_data 126 reader.old) next builder.new reader.new) }
    ensures shorter { OnSome result (length reader.new < length reader.old) }
{
    if !may_come(&frame, kind) {
        return None;
    }
    if !takes_array(reader) {
        return None;
    }
    match add_elements(names, reader, 125, builder, seen, kind, MOST_ELEMENTS) {
        Ok(count) => frame_with(frame, kind, count),
        Err(_) => None,
    }
}

// Whether the list of a kind may come: neither it nor a later one has items so far.
fn may_come(frame: &Frame, kind: Kind) -> bool
    ensures { result ≡ may_come frame.now kind }
{
    match kind {
        Kind::Node => frame.nodes.is_empty() && frame.edges.is_empty() && frame.paths.is_empty(),
        Kind::Edge => frame.edges.is_empty() && frame.paths.is_empty(),
        Kind::Path => frame.paths.is_empty(),
    }
}

// The frame after an array of so many items at the key of a kind.
fn frame_with(frame: Frame, kind: Kind, count: usize) -> Option<Frame>
    ensures { IfSome result (λ next. next ≡ frame_with frame kind count) }
{
    let mut next = frame;
    match kind {
        Kind::Node => next.nodes = place_with(frame.nodes, count)?,
        Kind::Edge => next.edges = place_with(frame.edges, count)?,
        Kind::Path => next.paths = place_with(frame.paths, count)?,
    }
    Some(next)
}

// A place after an array of so many items at its key.
fn place_with(place: ListPlace, count: usize) -> Option<ListPlace>
    ensures { IfSome result (λ next. next ≡ place_with place count) }
{
    let times = place.times.checked_add(1)?;
    Some(ListPlace {
        times,
        len: Some(count),
    })
}
