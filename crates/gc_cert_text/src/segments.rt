//! The segments of a certificate, on the graph of their search.
ghost use Rattle.std.specs.Prelude.{◌≡◌, not, IfOk};
ghost use Rattle.gc_base.specs.Words.{is_reserved};
ghost use Rattle.serde_json.specs.View.{view};
ghost use Rattle.gc_cert_text.specs.Options.{if_so};
ghost use Rattle.gc_cert_text.specs.SegmentsOfGraphs.{are_segments_of, is_name, is_segment_cost, is_segment_of};
ghost use Rattle.gc_cert_text.specs.SegmentsOfGraphs.{name_in, segment_cost_in, segment_in, segments_in, view_in};

use crate::graph_walks::is_walk;
use crate::lists::{Told, list_at};
use crate::numbers::cost_in;
use crate::walks::walk_at;
use gc_base::{Memory, Name, Steps, is_reserved};
use gc_ppg::Graph;
use gc_prod::{Segment, SegmentList};
use serde_json::Value;
use std::alloc::Global;
use std::sync::ledger::Ledger;

/// The greatest cost of a segment.
const MOST_COST: u128 = 9_223_372_036_854_775_807;

// The segments of a search on its graph.
pub(crate) fn segments_in<L: Ledger>(
    alloc: Global,
    graph: &Graph,
    value: &Value,
    steps: &mut Steps<L>,
) -> Result<Option<SegmentList>, Memory>
    ensures { IfOk result (λ segments. segments ≡ segments_in graph.now (view value.now)) }
{
    let Some(segments) = list_at(alloc, value, "segments")? else {
        return Ok(None);
    };
    if !are_segments_of(graph, &segments, steps) {
        return Ok(None);
    }
    Ok(Some(numbered(alloc, segments)?))
}

// Segments by their numbers.
fn numbered(alloc: Global, segments: Vec<Segment>) -> Result<SegmentList, Memory>
    ensures { IfOk result (λ list. list ≡ segments.items) }
{
    let mut list = SegmentList::new(alloc);
    for segment in segments {
        list.push(segment)?;
    }
    Ok(list)
}

fn are_segments_of<L: Ledger>(graph: &Graph, segments: &[Segment], steps: &mut Steps<L>) -> bool
    ensures { result ≡ are_segments_of graph.now segments.now }
{
    for segment in segments {
        if !is_segment_of(graph, segment, steps) {
            return false;
        }
    }
    true
}

// Whether the walk of a segment is one of a graph, along an edge at least.
fn is_segment_of<L: Ledger>(graph: &Graph, segment: &Segment, steps: &mut Steps<L>) -> bool
    ensures { result ≡ is_segment_of graph.now segment.now }
{
    segment.walk.steps.len() > 0 && is_walk(graph, &segment.walk, steps)
}

impl Told for Segment {
    ghost told = { segment_in };

    fn of(alloc: Global, value: &Value) -> Result<Option<Segment>, Memory> {
        segment_in(alloc, value)
    }
}

// A segment: the name of its view, its walk and its cost.
fn segment_in(alloc: Global, value: &Value) -> Result<Option<Segment>, Memory>
    ensures { IfOk result (λ segment. segment ≡ segment_in (view value.now)) }
{
    let Some(view) = view_in(alloc, value)? else {
        return Ok(None);
    };
    let Some(walk) = walk_at(alloc, value, "walk")? else {
        return Ok(None);
    };
    let Some(cost) = value.get("cost").and_then(segment_cost_in) else {
        return Ok(None);
    };
    Ok(Some(Segment { view, walk, cost }))
}

// The name at the key of a view.
fn view_in(alloc: Global, value: &Value) -> Result<Option<Name>, Memory>
    ensures { IfOk result (λ name. name ≡ view_in (view value.now)) }
{
    match value.get("view") {
        None => Ok(None),
        Some(name) => name_in(alloc, name),
    }
}

fn name_in(alloc: Global, value: &Value) -> Result<Option<Name>, Memory>
    ensures { IfOk result (λ name. name ≡ name_in (view value.now)) }
{
    match value.as_str() {
        None => Ok(None),
        Some(text) => name_of(alloc, text.as_bytes()),
    }
}

// The name that a text is, which is no reserved word.
fn name_of(alloc: Global, text: &[u8]) -> Result<Option<Name>, Memory>
    ensures { IfOk result (λ name. name ≡ if_so is_name text.now) }
{
    match Name::of(alloc, text)? {
        None => Ok(None),
        Some(name) => Ok(unless_reserved(name)),
    }
}

fn unless_reserved(name: Name) -> Option<Name>
    ensures { result ≡ if_so (λ text. not (is_reserved text)) name }
{
    if is_reserved(&name) { None } else { Some(name) }
}

// The cost of a segment.
fn segment_cost_in(value: &Value) -> Option<u64>
    ensures { result ≡ segment_cost_in (view value.now) }
{
    let cost = cost_in(value)?.get();
    if 1 <= cost && cost <= MOST_COST {
        Some(cost as u64)
    } else {
        None
    }
}
