ghost use Rattle.std.specs.Prelude.{◌≡◌, map, IfOk};
ghost use Rattle.std.specs.Ordering.{nat_cmp};
ghost use Rattle.std.specs.Cmp.Lexicographic.{slice_cmp};
ghost use Rattle.gc_base.specs.Ascending.{Ascends};
ghost use Rattle.gc_rows.specs.Data.{found_order};
ghost use Rattle.gc_rows.specs.Tables.{HasExactly};
ghost use Rattle.gc_views.specs.Segments.{segment_order};

use gc_base::{Memory, Step, Walk, edges_cmp};
use gc_prod::{Segment, SegmentList};
use std::alloc::Global;
use std::cmp::Ordering;

/// These segments, ascending, each once.
pub(crate) fn in_order(mut segments: Vec<Segment>) -> Result<Vec<Segment>, Memory>
    ensures ascend { IfOk result (λ sorted. Ascends segment_order sorted.items) }
    ensures exact { IfOk result (λ sorted. HasExactly segments.items sorted.items) }
{
    segments.sort_by(|a, b| segment_cmp(a, b))?;
    segments.dedup_by(|a, b| segment_cmp(a, b).is_eq());
    Ok(segments)
}

/// Segments as a list that names them by number.
pub(crate) fn numbered(alloc: Global, segments: Vec<Segment>) -> Result<SegmentList, Memory>
    ensures { IfOk result (λ list. list ≡ segments.items) }
{
    let mut list = SegmentList::new(alloc);
    for segment in segments {
        list.push(segment)?;
    }
    Ok(list)
}

// Segments by the names of their views, then by their walks, then by their costs.
fn segment_cmp(a: &Segment, b: &Segment) -> Ordering
    ensures { result ≡ segment_order a.now b.now }
{
    a.view
        .cmp(&b.view)
        .then_with(|| walk_cmp(&a.walk, &b.walk))
        .then(a.cost.cmp(&b.cost))
}

// Walks by start, number of edges, edges and nodes.
fn walk_cmp(a: &Walk, b: &Walk) -> Ordering
    ensures { result ≡ found_order a.now b.now }
{
    a.start
        .cmp(&b.start)
        .then(a.steps.len().cmp(&b.steps.len()))
        .then_with(|| edges_cmp(a.steps.as_slice(), b.steps.as_slice()))
        .then_with(|| nodes_cmp(a.steps.as_slice(), b.steps.as_slice()))
}

// The nodes of two lists of steps, one after another.
fn nodes_cmp(steps: &[Step], others: &[Step]) -> Ordering
    ensures { result ≡ slice_cmp nat_cmp (map (λ step. step.node) steps.now) (map (λ step. step.node) others.now) }
{
    steps
        .iter()
        .map(|step| step.node)
        .cmp(others.iter().map(|step| step.node))
}
