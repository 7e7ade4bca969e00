//! A walk over one list of a file: its elements are added one after another, and none is kept.
ghost use Rattle.std.specs.Prelude.{◌≡◌, ◌<◌, length, Some, IfOk, OnOk, option_map};
ghost use Rattle.json.specs.Json.{parse_map};
ghost use Rattle.json.specs.Lex.{tokens};
ghost use Rattle.serde_json.specs.Events.{items_len};
ghost use Rattle.gc_json.specs.ElementSeen.{element_seen};
ghost use Rattle.gc_json.specs.Entries.{count_of, last_at};
ghost use Rattle.gc_json.specs.FileElements.{add_element_of, add_values_of};
ghost use Rattle.gc_json.specs.Frames.{frame_of, listed};
ghost use Rattle.gc_json.specs.GraphFiles.{add_elements_of, located, part_of};
ghost use Rattle.gc_json.specs.ListWalks.{list_key, OfObject, GivesDue, AddsNext};
ghost use Rattle.gc_json.specs.Reading.{Gives};
ghost use Rattle.gc_json.specs.Tokens.{value_data, items_data};

use crate::edges::add_edge;
use crate::element::{Element, read_element};
use crate::fault::{Failure, Fault};
use crate::finding::{find, takes_array, takes_object};
use crate::frame::Frame;
use crate::nodes::add_node;
use crate::paths::add_path;
use crate::refusal::{GraphRefusal, Part, Spot};
use gc_base::NamePool;
use gc_ppg::{Coherence, GraphBuilder, Kind};
use json::{Reader, Scratch};

// Adds the elements of a kind that a text lists, which has this frame.
pub(crate) fn add_list(
    names: &mut NamePool,
    text: &str,
    scratch: &mut Scratch,
    frame: &Frame,
    builder: &mut GraphBuilder,
    seen: &Coherence,
    kind: Kind,
) -> Result<(), Failure<GraphRefusal>>
    ensures { OfObject (tokens text.now) (λ es. frame.now ≡ frame_of es
        → Gives (λ _. builder.new) (add_elements_of seen.now kind 0 builder.old (listed (last_at (list_key kind) es))) result) }
{
    let place = frame.place(kind);
    if place.is_empty() {
        return Ok(());
    }
    match Reader::new(text, scratch) {
        Ok(mut reader) => add_found(names, &mut reader, place.times, builder, seen, kind),
        Err(_) => Err(Failure::Memory),
    }
}

// Adds the elements of the list of a kind, whose key comes so often.
fn add_found(
    names: &mut NamePool,
    reader: &mut Reader<'_>,
    times: usize,
    builder: &mut GraphBuilder,
    seen: &Coherence,
    kind: Kind,
) -> Result<(), Failure<GraphRefusal>>
    ensures { OfObject reader.old (λ es. times ≡ count_of (list_key kind) es → 0 < times
        → Gives (λ _. builder.new) (add_elements_of seen.now kind 0 builder.old (listed (last_at (list_key kind) es))) result) }
{
    if !takes_object(reader) {
        return Ok(());
    }
    match find(reader, 126, list_key(kind), times) {
        Ok(true) => add_array(names, reader, builder, seen, kind),
        Ok(false) => Ok(()),
        Err(_) => Ok(()),
    }
}

// The key of the list of a kind.
fn list_key(kind: Kind) -> &'static str
    ensures { result.now ≡ list_key kind }
{
    match kind {
        Kind::Node => "nodes",
        Kind::Edge => "edges",
        Kind::Path => "paths",
    }
}

// Adds the elements of the array that the next value is; another value has none.
fn add_array(
    names: &mut NamePool,
    reader: &mut Reader<'_>,
    builder: &mut GraphBuilder,
    seen: &Coherence,
    kind: Kind,
) -> Result<(), Failure<GraphRefusal>>
    ensures { GivesDue (λ _. builder.new)
        (option_map (λ p. add_elements_of seen.now kind 0 builder.old (listed (Some p.0))) (value_data 126 reader.old)) result }
{
    if !takes_array(reader) {
        return Ok(());
    }
    add_elements(names, reader, 125, builder, seen, kind, usize::MAX)?;
    Ok(())
}

// Adds the elements of an array, one after another, and tells how many there are. Where there are
// more than the most that are wanted, it ends as where memory is short.
pub(crate) fn add_elements(
    names: &mut NamePool,
    reader: &mut Reader<'_>,
    depth: usize,
    builder: &mut GraphBuilder,
    seen: &Coherence,
    kind: Kind,
    most: usize,
) -> Result<usize, Failure<GraphRefusal>>
    requires { 0 < depth }
    ensures added { GivesDue (λ _. builder.new)
        (option_map (λ p. add_elements_of seen.now kind 0 builder.old p.0) (items_data depth reader.old)) result }
    ensures read { IfOk result (λ count. parse_map items_len (items_data depth reader.old) ≡ Some (count, reader.new)) }
    ensures shorter { OnOk result (length reader.new < length reader.old) }
{
    let mut index: usize = 0;
    'items: while !reader.take_end_array() {
        if index >= most {
            return Err(Failure::Memory);
        }
        add_next(names, reader, depth, builder, seen, kind, index)?;
        index += 1;
    }
    Ok(index)
}

// Adds the element that the next value is, at an index of its list.
fn add_next(
    names: &mut NamePool,
    reader: &mut Reader<'_>,
    depth: usize,
    builder: &mut GraphBuilder,
    seen: &Coherence,
    kind: Kind,
    index: usize,
) -> Result<(), Failure<GraphRefusal>>
    requires { 0 < depth }
    ensures value { AddsNext (parse_map (λ d. located (record { part = part_of kind; index = index }) (add_element_of seen.now kind builder.old d))
        (value_data depth reader.old)) result builder.new reader.new }
    ensures shorter { OnOk result (length reader.new < length reader.old) }
{
    let element = read_element(names.allocator(), reader, depth, kind)?;
    add_located(names, builder, seen, kind, index, &element)
}

// Adds the element at an index of its list.
fn add_located(
    names: &mut NamePool,
    builder: &mut GraphBuilder,
    seen: &Coherence,
    kind: Kind,
    index: usize,
    element: &Element,
) -> Result<(), Failure<GraphRefusal>>
    ensures { Gives (λ _. builder.new)
        (located (record { part = part_of kind; index = index }) (add_values_of seen.now kind builder.old (element_seen element.now))) result }
{
    let part = part_of(kind);
    match add_element(names, builder, seen, kind, element) {
        Ok(()) => Ok(()),
        Err(failure) => Err(failure.at(Spot { part, index })),
    }
}

// Adds an element of a kind.
fn add_element(
    names: &mut NamePool,
    builder: &mut GraphBuilder,
    seen: &Coherence,
    kind: Kind,
    element: &Element,
) -> Result<(), Failure<Fault>>
    ensures { Gives (λ _. builder.new) (add_values_of seen.now kind builder.old (element_seen element.now)) result }
{
    match kind {
        Kind::Node => add_node(names, builder, seen, element),
        Kind::Edge => add_edge(names, builder, seen, element),
        Kind::Path => add_path(names, builder, seen, element),
    }
}

// The list of a kind.
fn part_of(kind: Kind) -> Part
    ensures { result ≡ part_of kind }
{
    match kind {
        Kind::Node => Part::Nodes,
        Kind::Edge => Part::Edges,
        Kind::Path => Part::Paths,
    }
}
