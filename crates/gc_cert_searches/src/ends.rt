ghost use Rattle.std.specs.Prelude.{◌≡◌, map, IfOk};
ghost use Rattle.std.specs.Ordering.{nat_cmp};
ghost use Rattle.gc_base.specs.Ascending.{Ascends};
ghost use Rattle.gc_spec.specs.PropertyGraph.{is_among, node_ids};
ghost use Rattle.gc_rows.specs.Rows.{datum_at};
ghost use Rattle.gc_rows.specs.Tables.{HasExactly};
ghost use Rattle.gc_cert_searches.specs.Readings.{ends_if, ends_in, ends_on};

use gc_base::{Id, Memory, Steps, Sym};
use gc_ppg::Graph;
use gc_prod::Keyed;
use gc_rows::{Datum, RowView, Table};
use std::alloc::Global;
use std::sync::ledger::Ledger;

/// The nodes at which a walk starts and ends.
#[derive(Clone, Copy)]
pub(crate) struct WalkEnds {
    pub(crate) start: Id,
    pub(crate) target: Id,
}

impl Keyed for WalkEnds {
    ghost key_of = { λ e. e.start };

    fn key(&self) -> u64 {
        self.start.get()
    }
}

/// The ends of the walks that the rows of a table bind to a variable.
pub(crate) fn ends_in(alloc: Global, table: &Table, path: Sym) -> Result<Vec<WalkEnds>, Memory>
    ensures { IfOk result (λ ends. ends.items ≡ ends_in path table.now.rows) }
{
    let mut ends = Vec::new(alloc);
    for number in 0..table.len() {
        let row = table.row(number);
        if let Some(known) = ends_of(&row, path) {
            ends.push(known)?;
        }
    }
    Ok(ends)
}

// The ends of the walk that a row binds to a variable.
fn ends_of(row: &RowView<'_>, path: Sym) -> Option<WalkEnds>
    ensures { result ≡ ends_if (datum_at row.now path) }
{
    match row.get(path) {
        Some(Datum::Found(walk)) => {
            let walk = walk.get();
            Some(WalkEnds {
                start: walk.start,
                target: walk.end(),
            })
        }
        _ => None,
    }
}

/// Those of some ends that start at a node of a graph.
pub(crate) fn ends_on<L: Ledger>(
    alloc: Global,
    ends: &[WalkEnds],
    graph: &Graph,
    steps: &mut Steps<L>,
) -> Result<Vec<WalkEnds>, Memory>
    ensures { IfOk result (λ kept. kept.items ≡ ends_on graph.now ends.now) }
{
    let mut kept = Vec::new(alloc);
    for one in ends {
        if is_node(graph, one.start, steps) {
            kept.push(*one)?;
        }
    }
    Ok(kept)
}

// Whether a graph has a node of an identity.
fn is_node<L: Ledger>(graph: &Graph, node: Id, steps: &mut Steps<L>) -> bool
    ensures { result ≡ is_among (node_ids graph.now.nodes) node }
{
    match graph.find_node(node, steps) {
        None => false,
        Some(_) => true,
    }
}

/// Where walks start, ascending, each node once.
pub(crate) fn sources_of(alloc: Global, ends: &[WalkEnds]) -> Result<Vec<Id>, Memory>
    ensures ascend { IfOk result (λ nodes. Ascends nat_cmp nodes.items) }
    ensures exact { IfOk result (λ nodes. HasExactly (map (λ e. e.start) ends.now) nodes.items) }
{
    let mut nodes = Vec::with_capacity(alloc, ends.len())?;
    for one in ends {
        nodes.push(one.start)?;
    }
    ascending(nodes)
}

/// Where walks end, ascending, each node once.
pub(crate) fn targets_of(alloc: Global, ends: &[WalkEnds]) -> Result<Vec<Id>, Memory>
    ensures ascend { IfOk result (λ nodes. Ascends nat_cmp nodes.items) }
    ensures exact { IfOk result (λ nodes. HasExactly (map (λ e. e.target) ends.now) nodes.items) }
{
    let mut nodes = Vec::with_capacity(alloc, ends.len())?;
    for one in ends {
        nodes.push(one.target)?;
    }
    ascending(nodes)
}

// The same nodes, ascending, each once.
fn ascending(mut nodes: Vec<Id>) -> Result<Vec<Id>, Memory>
    ensures ascend { IfOk result (λ sorted. Ascends nat_cmp sorted.items) }
    ensures exact { IfOk result (λ sorted. HasExactly nodes.items sorted.items) }
{
    nodes.sort()?;
    nodes.dedup();
    Ok(nodes)
}
