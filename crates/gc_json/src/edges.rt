ghost use Rattle.std.specs.Prelude.{◌≡◌, true, false, None, IfOk};
ghost use Rattle.gc_spec.specs.PropertyGraph.{ids_of, node_ids, is_among};
ghost use Rattle.gc_ppg.specs.Built.{missing_end};
ghost use Rattle.gc_json.specs.ElementSeen.{element_seen};
ghost use Rattle.gc_json.specs.FileElements.{end_numbers, ends_of, edge_from, edge_of, add_edge_of};
ghost use Rattle.gc_json.specs.PartsSeen.{parts_seen};
ghost use Rattle.gc_json.specs.Reading.{Gives};

use crate::element::Element;
use crate::fault::{Failure, Fault};
use crate::parts::{Parts, described, end_of, new_id, parts_of};
use crate::values::number_in;
use gc_base::{Id, NamePool};
use gc_ppg::{Coherence, EdgeInfo, GraphBuilder, Shape};

// Adds the edge that a value is.
pub(crate) fn add_edge(
    names: &mut NamePool,
    builder: &mut GraphBuilder,
    seen: &Coherence,
    element: &Element,
) -> Result<(), Failure<Fault>>
    ensures { Gives (λ _. builder.new) (add_edge_of seen.now builder.old (element_seen element.now)) result }
{
    let edge = edge_of(names, builder, element)?;
    if !seen.agrees(edge.id, &Shape::Edge(edge.from, edge.to)) {
        return Err(Failure::Refused(Fault::Incoherent(edge.id)));
    }
    builder.put_edge(edge)?;
    Ok(())
}

// The edge that a value is in the graph so far.
fn edge_of(
    names: &mut NamePool,
    builder: &GraphBuilder,
    element: &Element,
) -> Result<EdgeInfo, Failure<Fault>>
    ensures exact { Gives (λ edge. edge) (edge_of builder.now (element_seen element.now)) result }
    ensures fresh { IfOk result (λ edge. is_among (ids_of builder.now) edge.id ≡ false) }
    ensures ends { IfOk result (λ edge. missing_end builder.now.nodes edge ≡ None) }
{
    let parts = parts_of(element)?;
    let (from, to) = end_numbers(element)?;
    edge_from(names, builder, &parts, from, to)
}

// The edge of its parts, between the nodes of two numbers.
fn edge_from(
    names: &mut NamePool,
    builder: &GraphBuilder,
    parts: &Parts,
    from: u64,
    to: u64,
) -> Result<EdgeInfo, Failure<Fault>>
    ensures exact { Gives (λ edge. edge) (edge_from builder.now (parts_seen parts.now) (from, to)) result }
    ensures fresh { IfOk result (λ edge. is_among (ids_of builder.now) edge.id ≡ false) }
    ensures ends { IfOk result (λ edge. missing_end builder.now.nodes edge ≡ None) }
{
    let id = new_id(builder, parts.id)?;
    let (from, to) = ends_of(builder, from, to)?;
    let (labels, properties) = described(names, parts)?;
    Ok(EdgeInfo {
        id,
        from,
        to,
        labels,
        properties,
    })
}

// The numbers of the source and the target.
fn end_numbers(element: &Element) -> Result<(u64, u64), Failure<Fault>>
    ensures { Gives (λ numbers. numbers) (end_numbers (element_seen element.now)) result }
{
    let from = number_in(&element.from).ok_or(Fault::WrongShape)?;
    let to = number_in(&element.to).ok_or(Fault::WrongShape)?;
    Ok((from, to))
}

// The nodes of two numbers.
fn ends_of(builder: &GraphBuilder, from: u64, to: u64) -> Result<(Id, Id), Failure<Fault>>
    ensures exact { Gives (λ ends. ends) (ends_of builder.now (from, to)) result }
    ensures source { IfOk result (λ ends. is_among (node_ids builder.now.nodes) ends.0 ≡ true) }
    ensures target { IfOk result (λ ends. is_among (node_ids builder.now.nodes) ends.1 ≡ true) }
{
    let from = end_of(builder, from)?;
    let to = end_of(builder, to)?;
    Ok((from, to))
}
