ghost use Rattle.std.specs.Prelude.{◌≡◌, ◌<◌, ◌++◌, ◌∷◌, [], ℕ, List, OnOk, Some, length, slice_get};
ghost use Rattle.std.specs.List.{filter, flat_map};
ghost use Rattle.std.specs.Option.{option_copied};
ghost use Rattle.std.specs.Ordering.{nat_cmp};
ghost use Rattle.gc_base.specs.Ascending.{Ascends};
ghost use Rattle.gc_spec.specs.PropertyGraph.{PropertyGraph, is_among};
ghost use Rattle.gc_build.specs.Claimed.{in_graph, in_items};
ghost use Rattle.gc_build.specs.Walks.{along_graph, of_ids, walks_of};

use crate::all_paths::AllParts;
use crate::listed::{ascending, is_listed};
use crate::making::Making;
use crate::standing::Instances;
use crate::walks::{OnWalk, ids_on_walks};
use gc_base::{Duplicate, Id, Memory, Steps};
use gc_ppg::{EdgeInfo, Graph, NodeInfo, PathInfo};
use std::sync::ledger::Ledger;

/// What a graph has: nodes, edges or stored paths.
pub(crate) trait Part: Duplicate {
    /// Those of a graph.
    ghost all: { PropertyGraph → List Self };

    /// Their identities.
    ghost id_of: { Self → ℕ };

    fn id(&self) -> Id
        ensures { result ≡ id_of self.now };

    // How many a graph has.
    fn count(g: &Graph) -> usize
        ensures { result ≡ length (all g.now) };

    // The one at a place below the count.
    fn at<'a, L: Ledger>(g: &'a Graph, i: usize, steps: &mut Steps<L>) -> &'a Self
        requires { i < length (all g.now) }
        ensures { slice_get (all g.now) i ≡ Some result.now };
}

impl Part for NodeInfo {
    ghost all = { λ g. g.nodes };

    ghost id_of = { λ x. x.id };

    fn id(&self) -> Id {
        self.id
    }

    fn count(g: &Graph) -> usize {
        g.node_count()
    }

    fn at<'a, L: Ledger>(g: &'a Graph, i: usize, steps: &mut Steps<L>) -> &'a NodeInfo {
        g.node(i, steps)
    }
}

impl Part for EdgeInfo {
    ghost all = { λ g. g.edges };

    ghost id_of = { λ x. x.id };

    fn id(&self) -> Id {
        self.id
    }

    fn count(g: &Graph) -> usize {
        g.edge_count()
    }

    fn at<'a, L: Ledger>(g: &'a Graph, i: usize, steps: &mut Steps<L>) -> &'a EdgeInfo {
        g.edge(i, steps)
    }
}

impl Part for PathInfo {
    ghost all = { λ g. g.paths };

    ghost id_of = { λ x. x.id };

    fn id(&self) -> Id {
        self.id
    }

    fn count(g: &Graph) -> usize {
        g.path_count()
    }

    fn at<'a, L: Ledger>(g: &'a Graph, i: usize, steps: &mut Steps<L>) -> &'a PathInfo {
        g.path(i, steps)
    }
}

/// Adds copies of all that the graphs of these numbers have.
pub(crate) fn add_graphs<T: Part + Drop, L: Ledger>(
    claimed: &mut Vec<T>,
    making: &Making<'_>,
    numbers: &[u32],
    steps: &mut Steps<L>,
) -> Result<(), Memory>
    ensures { OnOk result (claimed.new.items ≡ claimed.old.items ++ in_items making.now.setting.graphs numbers.now T.all) }
{
    for number in numbers {
        add_numbered(claimed, making.graph(*number), steps)?;
    }
    Ok(())
}

// Adds copies of all that a graph has, if it is there.
fn add_numbered<T: Part + Drop, L: Ledger>(
    claimed: &mut Vec<T>,
    graph: Option<&Graph>,
    steps: &mut Steps<L>,
) -> Result<(), Memory>
    ensures { OnOk result (claimed.new.items ≡ claimed.old.items ++ in_graph T.all (option_copied graph.entry)) }
{
    match graph {
        None => Ok(()),
        Some(graph) => add_graph(claimed, graph, steps),
    }
}

// Adds copies of all that a graph has.
fn add_graph<T: Part + Drop, L: Ledger>(
    claimed: &mut Vec<T>,
    graph: &Graph,
    steps: &mut Steps<L>,
) -> Result<(), Memory>
    ensures { OnOk result (claimed.new.items ≡ claimed.old.items ++ T.all graph.now) }
{
    for i in 0..T::count(graph) {
        add_copy(claimed, T::at(graph, i, steps))?;
    }
    Ok(())
}

// Adds a copy of an element.
fn add_copy<T: Part + Drop>(claimed: &mut Vec<T>, element: &T) -> Result<(), Memory>
    ensures { OnOk result (claimed.new.items ≡ claimed.old.items ++ element.now ∷ []) }
{
    claimed.push(element.copy()?)?;
    Ok(())
}

/// Adds copies of what stands on the walks that a path has in kept instances, or lies on those that it
/// stands for there, as the path's graph has it.
pub(crate) fn add_walks<T: Part + OnWalk + Drop, L: Ledger>(
    claimed: &mut Vec<T>,
    making: &Making<'_>,
    kept: &Instances<'_>,
    parts: &AllParts,
    steps: &mut Steps<L>,
) -> Result<(), Memory>
    ensures { OnOk result (claimed.new.items ≡ claimed.old.items
        ++ of_ids T.id_of T.all (flat_map T.on (walks_of making.now kept.now parts.now.path) ++ T.among parts.now)
        (along_graph making.now.setting parts.now.path)) }
{
    let mut ids = ids_on_walks::<T, L>(making, kept, parts.path, steps)?;
    ids.extend_from_slice(T::among(parts))?;
    match making.along_graph(parts.path) {
        None => Ok(()),
        Some(graph) => add_ids(claimed, graph, ids, steps),
    }
}

// Adds copies of what a graph has of these identities.
fn add_ids<T: Part + Drop, L: Ledger>(
    claimed: &mut Vec<T>,
    graph: &Graph,
    ids: Vec<Id>,
    steps: &mut Steps<L>,
) -> Result<(), Memory>
    ensures { OnOk result (claimed.new.items ≡ claimed.old.items ++ of_ids T.id_of T.all ids.items (Some graph.now)) }
{
    let ascending = ascending(ids)?;
    add_listed(claimed, graph, &ascending, steps)
}

// Adds copies of what a graph has of these identities, which ascend.
fn add_listed<T: Part + Drop, L: Ledger>(
    claimed: &mut Vec<T>,
    graph: &Graph,
    ids: &[Id],
    steps: &mut Steps<L>,
) -> Result<(), Memory>
    requires { Ascends nat_cmp ids.now }
    ensures { OnOk result (claimed.new.items ≡ claimed.old.items ++ filter (λ x. is_among ids.now (T.id_of x)) (T.all graph.now)) }
{
    for i in 0..T::count(graph) {
        add_if_listed(claimed, T::at(graph, i, steps), ids)?;
    }
    Ok(())
}

// Adds a copy of an element if its identity is among these, which ascend.
fn add_if_listed<T: Part + Drop>(
    claimed: &mut Vec<T>,
    element: &T,
    ids: &[Id],
) -> Result<(), Memory>
    requires { Ascends nat_cmp ids.now }
    ensures { OnOk result (claimed.new.items ≡ claimed.old.items ++ filter (λ x. is_among ids.now (T.id_of x)) (element.now ∷ [])) }
{
    if is_listed(ids, element.id()) {
        claimed.push(element.copy()?)?;
    }
    Ok(())
}
