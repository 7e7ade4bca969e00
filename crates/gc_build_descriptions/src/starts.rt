ghost use Rattle.std.specs.Prelude.{◌≡◌, [], slice_get, Some, IfOk};
ghost use Rattle.std.specs.Option.{option_and_then, option_copied, unwrap_or};
ghost use Rattle.gc_build_descriptions.specs.Described.{blank, seen_or_blank, start_of};
ghost use Rattle.gc_rows.specs.Rows.{datum_at};
ghost use Rattle.gc_values.specs.Contexts.{own_among};
ghost use Rattle.gc_values.specs.Descriptions.{node_description, edge_description, path_description, described_in};

use crate::assigned::row_at;
use crate::described::Description;
use gc_base::{Duplicate, Id, LabelSet, Memory, Properties, Steps, Sym};
use gc_build_numbers::{ReadGraphs, Setting};
use gc_ppg::Graph;
use gc_rows::{Datum, RowView};
use std::alloc::Global;
use std::sync::ledger::Ledger;

/// The graph of the variable with which elements start, if they start with one and it has a graph. It is
/// looked up once for all elements.
pub(crate) fn start_graph<'a>(reads: &'a ReadGraphs<'_>, start: Option<Sym>) -> Option<&'a Graph>
    ensures { option_copied result ≡ option_and_then (own_among reads.now.reads reads.now.graphs) start }
{
    match start {
        None => None,
        Some(var) => reads.own_graph(var),
    }
}

/// What an element starts with: the labels and properties of this variable on the first of its rows,
/// as the variable's graph, which is this, has them, or none.
pub(crate) fn start_of<L: Ledger>(
    setting: &Setting<'_>,
    graph: Option<&Graph>,
    start: Option<Sym>,
    places: &[u64],
    steps: &mut Steps<L>,
) -> Result<Description, Memory>
    requires { option_copied graph ≡ option_and_then (own_among setting.now.reads setting.now.graphs) start }
    ensures { IfOk result (λ d. d ≡ start_of setting.now start places.now) }
{
    match start {
        None => Ok(blank(setting.alloc)),
        Some(var) => {
            let row = row_at(setting, first(places));
            let datum = datum_at(&row, var);
            described_in(setting.alloc, graph, datum, steps)
        }
    }
}

/// No labels and no properties.
pub(crate) fn blank(alloc: Global) -> Description
    ensures { result ≡ blank }
{
    Description {
        labels: LabelSet::empty(alloc),
        properties: Properties::empty(alloc),
    }
}

// The first of places.
fn first(places: &[u64]) -> u64
    ensures { result ≡ unwrap_or (slice_get places.now 0) 0 }
{
    match places.first() {
        Some(place) => *place,
        None => 0,
    }
}

// What a variable stands for on a row, if it is there.
fn datum_at<'a>(row: &'a Option<RowView<'_>>, var: Sym) -> Option<&'a Datum>
    ensures { option_copied result ≡ datum_at (unwrap_or row.now []) var }
{
    match row {
        Some(row) => row.get(var),
        None => None,
    }
}

// The description of what a variable stands for, in a graph.
fn described_in<L: Ledger>(
    alloc: Global,
    graph: Option<&Graph>,
    datum: Option<&Datum>,
    steps: &mut Steps<L>,
) -> Result<Description, Memory>
    ensures { IfOk result (λ d. d ≡ seen_or_blank (described_in (option_copied graph.entry) (option_copied datum.entry))) }
{
    match (graph, datum) {
        (Some(graph), Some(Datum::Node(id))) => node_described(alloc, graph, *id, steps),
        (Some(graph), Some(Datum::Edge(id))) => edge_described(alloc, graph, *id, steps),
        (Some(graph), Some(Datum::Stored(id))) => path_described(alloc, graph, *id, steps),
        _ => Ok(blank(alloc)),
    }
}

// The description of a node of a graph.
fn node_described<L: Ledger>(
    alloc: Global,
    graph: &Graph,
    id: Id,
    steps: &mut Steps<L>,
) -> Result<Description, Memory>
    ensures { IfOk result (λ d. d ≡ unwrap_or (node_description (Some graph.now) id) blank) }
{
    match graph.find_node(id, steps) {
        Some(node) => Ok(Description {
            labels: node.labels.copy()?,
            properties: node.properties.copy()?,
        }),
        None => Ok(blank(alloc)),
    }
}

// The description of an edge of a graph.
fn edge_described<L: Ledger>(
    alloc: Global,
    graph: &Graph,
    id: Id,
    steps: &mut Steps<L>,
) -> Result<Description, Memory>
    ensures { IfOk result (λ d. d ≡ unwrap_or (edge_description (Some graph.now) id) blank) }
{
    match graph.find_edge(id, steps) {
        Some(edge) => Ok(Description {
            labels: edge.labels.copy()?,
            properties: edge.properties.copy()?,
        }),
        None => Ok(blank(alloc)),
    }
}

// The description of a stored path of a graph.
fn path_described<L: Ledger>(
    alloc: Global,
    graph: &Graph,
    id: Id,
    steps: &mut Steps<L>,
) -> Result<Description, Memory>
    ensures { IfOk result (λ d. d ≡ unwrap_or (path_description (Some graph.now) id) blank) }
{
    match graph.find_path(id, steps) {
        Some(path) => Ok(Description {
            labels: path.labels.copy()?,
            properties: path.properties.copy()?,
        }),
        None => Ok(blank(alloc)),
    }
}
