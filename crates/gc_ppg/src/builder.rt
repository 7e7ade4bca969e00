ghost use Rattle.std.specs.Prelude.{◌≡◌, false, None, IfOk, IfErr, OnOk, OnErr};
ghost use Rattle.gc_spec.specs.PropertyGraph.{empty_graph, ids_of, is_among, is_joined};
ghost use Rattle.gc_ppg.specs.Built.{with_node, with_edge, with_path, missing_end, bad_step, bad_step_from, has_ends};
ghost use Rattle.gc_ppg.specs.declared.builder.BuildRefusal.TheVariants.{Memory as OutOfMemory};

use crate::by_id::ById;
use crate::element::{EdgeInfo, NodeInfo, PathInfo};
use crate::graph::Graph;
use gc_base::{Id, Memory, Step, Walk};
use std::alloc::Global;
use std::marker::Model;

/// Why an element was not added.
#[derive(Debug, Drop)]
pub enum BuildRefusal {
    /// The identity is in the builder.
    Taken(Id),
    /// An end of an edge is no node; the source is tested first.
    NoEnd(Id),
    /// A walk fails at this step, counted from 0; the number is 0 too where its start is no node.
    BadWalk(u64),
    /// Want of memory.
    Memory,
}

impl From<Memory> for BuildRefusal {
    ghost from_gives = { λ _ refusal. refusal ≡ OutOfMemory };

    fn from(_want: Memory) -> BuildRefusal {
        BuildRefusal::Memory
    }
}

/// A graph under construction. Contracts see it as the graph built so far, which is valid.
#[derive(Drop)]
pub struct GraphBuilder {
    alloc: Global,
    pub(crate) nodes: ById<NodeInfo>,
    pub(crate) edges: ById<EdgeInfo>,
    pub(crate) paths: ById<PathInfo>,
}

impl Model for GraphBuilder {
    ghost use Rattle.gc_spec.specs.PropertyGraph.{PropertyGraph, IsGraph};

    ghost Value = { PropertyGraph };

    ghost view = { λ b. record { nodes = b.nodes; edges = b.edges; paths = b.paths } };

    ghost invariant = { λ b. IsGraph (record { nodes = b.nodes; edges = b.edges; paths = b.paths }) };
}

impl GraphBuilder {
    ghost use Rattle.gc_ppg.specs.Refusals.{IsNodeRefusal, IsEdgeRefusal, IsPathRefusal};

    /// A builder without elements. It takes no memory yet.
    pub fn new(alloc: Global) -> GraphBuilder
        ensures { result ≡ empty_graph }
    {
        GraphBuilder {
            alloc,
            nodes: ById::new(alloc),
            edges: ById::new(alloc),
            paths: ById::new(alloc),
        }
    }

    /// Adds a node. It is refused as `Taken` exactly where its identity is in the builder.
    pub fn add_node(&mut self, node: NodeInfo) -> Result<(), BuildRefusal>
        ensures fresh { OnOk result (is_among (ids_of self.old) node.id ≡ false) }
        ensures added { OnOk result (self.new ≡ with_node self.old node) }
        ensures refused { IfErr result (IsNodeRefusal self.old node) }
        ensures same { OnErr result (self.new ≡ self.old) }
    {
        if self.is_taken(node.id) {
            return Err(BuildRefusal::Taken(node.id));
        }
        self.put_node(node)?;
        Ok(())
    }

    /// Adds an edge. It is refused as `Taken` exactly where its identity is in the builder, and
    /// then as `NoEnd` exactly where an end is no node, with the source tested first.
    pub fn add_edge(&mut self, edge: EdgeInfo) -> Result<(), BuildRefusal>
        ensures fresh { OnOk result (is_among (ids_of self.old) edge.id ≡ false) }
        ensures ends { OnOk result (missing_end self.old.nodes edge ≡ None) }
        ensures added { OnOk result (self.new ≡ with_edge self.old edge) }
        ensures refused { IfErr result (IsEdgeRefusal self.old edge) }
        ensures same { OnErr result (self.new ≡ self.old) }
    {
        if self.is_taken(edge.id) {
            return Err(BuildRefusal::Taken(edge.id));
        }
        if let Some(end) = self.missing_end(&edge) {
            return Err(BuildRefusal::NoEnd(end));
        }
        self.put_edge(edge)?;
        Ok(())
    }

    /// Adds a stored path. It is refused as `Taken` exactly where its identity is in the builder,
    /// and then as `BadWalk` exactly where its walk is none of the graph so far.
    pub fn add_path(&mut self, path: PathInfo) -> Result<(), BuildRefusal>
        ensures fresh { OnOk result (is_among (ids_of self.old) path.id ≡ false) }
        ensures walk { OnOk result (bad_step self.old.nodes self.old.edges path.walk ≡ None) }
        ensures added { OnOk result (self.new ≡ with_path self.old path) }
        ensures refused { IfErr result (IsPathRefusal self.old path) }
        ensures same { OnErr result (self.new ≡ self.old) }
    {
        if self.is_taken(path.id) {
            return Err(BuildRefusal::Taken(path.id));
        }
        if let Some(step) = self.bad_step(&path.walk) {
            return Err(BuildRefusal::BadWalk(step));
        }
        self.put_path(path)?;
        Ok(())
    }

    /// The graph of all that was added, with an index.
    pub fn finish(self) -> Result<Graph, Memory>
        ensures { IfOk result (λ g. g ≡ self) }
    {
        self.finish_plain()?.indexed()
    }

    /// The graph of all that was added, without an index.
    pub fn finish_plain(self) -> Result<Graph, Memory>
        ensures { IfOk result (λ g. g ≡ self) }
    {
        let GraphBuilder {
            alloc,
            nodes,
            edges,
            paths,
        } = self;
        let nodes = nodes.into_vec(alloc)?;
        let edges = edges.into_vec(alloc)?;
        let paths = paths.into_vec(alloc)?;
        Ok(Graph::of_elements(nodes, edges, paths))
    }

    /// Whether an identity is in the builder.
    pub fn is_taken(&self, id: Id) -> bool
        ensures { result ≡ is_among (ids_of self.now) id }
    {
        self.nodes.has(id) || self.edges.has(id) || self.paths.has(id)
    }

    // An end that is no node; the source is tested first.
    fn missing_end(&self, edge: &EdgeInfo) -> Option<Id>
        ensures { result ≡ missing_end self.now.nodes edge.now }
    {
        if !self.nodes.has(edge.from) {
            Some(edge.from)
        } else if !self.nodes.has(edge.to) {
            Some(edge.to)
        } else {
            None
        }
    }

    // The step at which a walk fails.
    pub(crate) fn bad_step(&self, walk: &Walk) -> Option<u64>
        ensures { result ≡ bad_step self.now.nodes self.now.edges walk.now }
    {
        if self.nodes.has(walk.start) {
            self.bad_step_from(walk.start, walk.steps.as_slice())
        } else {
            Some(0)
        }
    }

    // The first of the steps from a node that fails.
    fn bad_step_from(&self, start: Id, steps: &[Step]) -> Option<u64>
        ensures { result ≡ bad_step_from self.now.edges start 0 steps.now }
    {
        let mut node = start;
        for (i, step) in steps.iter().enumerate() {
            if !self.joins(step.edge, node, step.node) {
                return Some(i as u64);
            }
            node = step.node;
        }
        None
    }

    // Whether an edge of this identity joins two nodes, in one direction or the other.
    fn joins(&self, edge: Id, a: Id, b: Id) -> bool
        ensures { result ≡ is_joined self.now.edges edge a b }
    {
        match self.edges.get(edge) {
            None => false,
            Some(found) => has_ends(found, a, b),
        }
    }
}

// Whether an edge joins two nodes, in one direction or the other.
fn has_ends(edge: &EdgeInfo, a: Id, b: Id) -> bool
    ensures { result ≡ has_ends a b edge.now }
{
    (edge.from == a && edge.to == b) || (edge.from == b && edge.to == a)
}
