ghost use Rattle.std.specs.Prelude.{◌≡◌, ◌==◌, ◌<◌, ℕ, List, length, slice_get, Some, IfOk};
ghost use Rattle.std.specs.List.{find};
ghost use Rattle.std.specs.Option.{option_copied};
ghost use Rattle.std.specs.Ordering.{nat_cmp, on};
ghost use Rattle.gc_base.specs.Ascending.{Ascends};
ghost use Rattle.gc_spec.specs.PropertyGraph.{PropertyGraph};
ghost use Rattle.gc_sets.specs.Descriptions.{united_node};
ghost use Rattle.gc_sets.specs.Intersections.{common_node, common_edge, common_path};
ghost use Rattle.gc_sets.specs.Unions.{united_edge, united_path};

use crate::common::{common_items, common_properties};
use crate::descriptions::{united_labels, united_properties};
use gc_base::{Duplicate, Id, Memory, Steps};
use gc_ppg::{EdgeInfo, Graph, NodeInfo, PathInfo};
use std::alloc::Global;
use std::sync::ledger::Ledger;

/// What a graph is made of: nodes, edges or stored paths.
pub(crate) trait Part: Duplicate {
    /// Those of a graph.
    ghost all: { PropertyGraph → List Self };

    /// Their identities.
    ghost id_of: { Self → ℕ };

    /// One with the labels and values of another beside its own.
    ghost united: { Self → Self → Self };

    /// One with the labels and values that another has too.
    ghost common: { Self → Self → Self };

    fn id(&self) -> Id
        ensures { result ≡ id_of self.now };

    // How many a graph has.
    fn count(g: &Graph) -> usize
        ensures count { result ≡ length (all g.now) }
        ensures ascends { Ascends (on id_of nat_cmp) (all g.now) };

    // The one at a place below the count, by ascending identity.
    fn at<'a, L: Ledger>(g: &'a Graph, i: usize, steps: &mut Steps<L>) -> &'a Self
        requires { i < length (all g.now) }
        ensures { slice_get (all g.now) i ≡ Some result.now };

    // The one of an identity, or `None` exactly where it is not there.
    fn found<'a, L: Ledger>(g: &'a Graph, id: Id, steps: &mut Steps<L>) -> Option<&'a Self>
        ensures { option_copied result ≡ find (λ x. id_of x == id) (all g.now) };

    // A copy with the labels and values of another beside its own.
    fn united_with(&self, other: &Self) -> Result<Self, Memory>
        ensures { IfOk result (λ both. both ≡ united self.now other.now) };

    // A copy with the labels and values that another has too.
    fn common_with(&self, alloc: Global, other: &Self) -> Result<Self, Memory>
        ensures { IfOk result (λ both. both ≡ common self.now other.now) };
}

impl Part for NodeInfo {
    ghost all = { λ g. g.nodes };

    ghost id_of = { λ n. n.id };

    ghost united = { united_node };

    ghost common = { common_node };

    fn id(&self) -> Id {
        self.id
    }

    fn count(g: &Graph) -> usize {
        g.node_count()
    }

    fn at<'a, L: Ledger>(g: &'a Graph, i: usize, steps: &mut Steps<L>) -> &'a NodeInfo {
        g.node(i, steps)
    }

    fn found<'a, L: Ledger>(g: &'a Graph, id: Id, steps: &mut Steps<L>) -> Option<&'a NodeInfo> {
        g.find_node(id, steps)
    }

    fn united_with(&self, other: &NodeInfo) -> Result<NodeInfo, Memory> {
        Ok(NodeInfo {
            id: self.id,
            labels: united_labels(&self.labels, &other.labels)?,
            properties: united_properties(&self.properties, &other.properties)?,
        })
    }

    fn common_with(&self, alloc: Global, other: &NodeInfo) -> Result<NodeInfo, Memory> {
        Ok(NodeInfo {
            id: self.id,
            labels: common_items(alloc, &self.labels, &other.labels)?,
            properties: common_properties(alloc, &self.properties, &other.properties)?,
        })
    }
}

impl Part for EdgeInfo {
    ghost all = { λ g. g.edges };

    ghost id_of = { λ e. e.id };

    ghost united = { united_edge };

    ghost common = { common_edge };

    fn id(&self) -> Id {
        self.id
    }

    fn count(g: &Graph) -> usize {
        g.edge_count()
    }

    fn at<'a, L: Ledger>(g: &'a Graph, i: usize, steps: &mut Steps<L>) -> &'a EdgeInfo {
        g.edge(i, steps)
    }

    fn found<'a, L: Ledger>(g: &'a Graph, id: Id, steps: &mut Steps<L>) -> Option<&'a EdgeInfo> {
        g.find_edge(id, steps)
    }

    fn united_with(&self, other: &EdgeInfo) -> Result<EdgeInfo, Memory> {
        Ok(EdgeInfo {
            id: self.id,
            from: self.from,
            to: self.to,
            labels: united_labels(&self.labels, &other.labels)?,
            properties: united_properties(&self.properties, &other.properties)?,
        })
    }

    fn common_with(&self, alloc: Global, other: &EdgeInfo) -> Result<EdgeInfo, Memory> {
        Ok(EdgeInfo {
            id: self.id,
            from: self.from,
            to: self.to,
            labels: common_items(alloc, &self.labels, &other.labels)?,
            properties: common_properties(alloc, &self.properties, &other.properties)?,
        })
    }
}

impl Part for PathInfo {
    ghost all = { λ g. g.paths };

    ghost id_of = { λ p. p.id };

    ghost united = { united_path };

    ghost common = { common_path };

    fn id(&self) -> Id {
        self.id
    }

    fn count(g: &Graph) -> usize {
        g.path_count()
    }

    fn at<'a, L: Ledger>(g: &'a Graph, i: usize, steps: &mut Steps<L>) -> &'a PathInfo {
        g.path(i, steps)
    }

    fn found<'a, L: Ledger>(g: &'a Graph, id: Id, steps: &mut Steps<L>) -> Option<&'a PathInfo> {
        g.find_path(id, steps)
    }

    fn united_with(&self, other: &PathInfo) -> Result<PathInfo, Memory> {
        Ok(PathInfo {
            id: self.id,
            walk: self.walk.copy()?,
            labels: united_labels(&self.labels, &other.labels)?,
            properties: united_properties(&self.properties, &other.properties)?,
        })
    }

    fn common_with(&self, alloc: Global, other: &PathInfo) -> Result<PathInfo, Memory> {
        Ok(PathInfo {
            id: self.id,
            walk: self.walk.copy()?,
            labels: common_items(alloc, &self.labels, &other.labels)?,
            properties: common_properties(alloc, &self.properties, &other.properties)?,
        })
    }
}
