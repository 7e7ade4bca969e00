ghost use Rattle.std.specs.Prelude.{◌≡◌, map, IfOk};
ghost use Rattle.std.specs.Ordering.{nat_cmp};
ghost use Rattle.std.specs.Cmp.Lexicographic.{slice_cmp};
ghost use Rattle.gc_base.specs.Ascending.{Ascends};
ghost use Rattle.gc_rows.specs.Data.{found_order};
ghost use Rattle.gc_rows.specs.Tables.{HasExactly};
ghost use Rattle.gc_cert_searches.specs.SegmentOrder.{segment_order};

use gc_base::{Memory, Step, Walk, copies, edges_cmp};
use gc_prod::{Segment, SegmentList};
use std::alloc::Global;
use std::cmp::Ordering;

/// The same segments in order, each once.
pub(crate) fn in_order(alloc: Global, segments: &SegmentList) -> Result<SegmentList, Memory>
    ensures ascend { IfOk result (Ascends segment_order) }
    ensures exact { IfOk result (HasExactly segments.now) }
{
    let sorted = sort(copies(alloc, segments.as_slice())?)?;
    numbered(alloc, sorted)
}

// The same segments in order, each once.
fn sort(mut segments: Vec<Segment>) -> Result<Vec<Segment>, Memory>
    ensures ascend { IfOk result (λ sorted. Ascends segment_order sorted.items) }
    ensures exact { IfOk result (λ sorted. HasExactly segments.items sorted.items) }
{
    segments.sort_by(|a, b| segment_cmp(a, b))?;
    segments.dedup_by(|a, b| segment_cmp(a, b).is_eq());
    Ok(segments)
}

// Segments, which are then named by their numbers.
fn numbered(alloc: Global, segments: Vec<Segment>) -> Result<SegmentList, Memory>
    ensures { IfOk result (λ list. list ≡ segments.items) }
{
    let mut list = SegmentList::new(alloc);
    for one in segments {
        list.push(one)?;
    }
    Ok(list)
}

// By view, then by walk, then by cost.
fn segment_cmp(a: &Segment, b: &Segment) -> Ordering
    ensures { result ≡ segment_order a.now b.now }
{
    a.view
        .cmp(&b.view)
        .then_with(|| walk_cmp(&a.walk, &b.walk))
        .then(a.cost.cmp(&b.cost))
}

// By start, number of edges, edges, nodes.
fn walk_cmp(a: &Walk, b: &Walk) -> Ordering
    ensures { result ≡ found_order a.now b.now }
{
    a.start
        .cmp(&b.start)
        .then(a.steps.len().cmp(&b.steps.len()))
        .then_with(|| edges_cmp(a.steps.as_slice(), b.steps.as_slice()))
        .then_with(|| nodes_cmp(a.steps.as_slice(), b.steps.as_slice()))
}

// The nodes of two lists of steps, one after another.
fn nodes_cmp(steps: &[Step], others: &[Step]) -> Ordering
    ensures { result ≡ slice_cmp nat_cmp (map (λ step. step.node) steps.now) (map (λ step. step.node) others.now) }
{
    steps
        .iter()
        .map(|step| step.node)
        .cmp(others.iter().map(|step| step.node))
}
