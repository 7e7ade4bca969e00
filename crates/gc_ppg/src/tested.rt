ghost use Rattle.std.specs.Prelude.{◌≡◌, true, false, None, OnOk, OnErr};
ghost use Rattle.gc_spec.specs.PropertyGraph.{ids_of, node_ids, is_among, is_walk};
ghost use Rattle.gc_ppg.specs.Built.{with_node, with_edge, with_path, missing_end};

use crate::builder::GraphBuilder;
use crate::element::{EdgeInfo, NodeInfo, PathInfo};
use gc_base::{Id, Memory, Walk};

// Elements that the caller has tested, one rule after another.
impl GraphBuilder {
    /// Whether an identity is that of a node.
    pub fn has_node(&self, id: Id) -> bool
        ensures { result ≡ is_among (node_ids self.now.nodes) id }
    {
        self.nodes.has(id)
    }

    /// Whether a walk begins at a node of the graph so far and goes along its edges.
    pub fn has_walk(&self, walk: &Walk) -> bool
        ensures { result ≡ is_walk self.now.nodes self.now.edges walk.now }
    {
        match self.bad_step(walk) {
            None => true,
            Some(_) => false,
        }
    }

    /// Adds a node whose identity is new.
    pub fn put_node(&mut self, node: NodeInfo) -> Result<(), Memory>
        requires fresh { is_among (ids_of self.old) node.id ≡ false }
        ensures added { OnOk result (self.new ≡ with_node self.old node) }
        ensures same { OnErr result (self.new ≡ self.old) }
    {
        node.known();
        self.nodes.add(node)?;
        Ok(())
    }

    /// Adds an edge whose identity is new and whose ends are nodes.
    pub fn put_edge(&mut self, edge: EdgeInfo) -> Result<(), Memory>
        requires fresh { is_among (ids_of self.old) edge.id ≡ false }
        requires ends { missing_end self.old.nodes edge ≡ None }
        ensures added { OnOk result (self.new ≡ with_edge self.old edge) }
        ensures same { OnErr result (self.new ≡ self.old) }
    {
        edge.known();
        self.edges.add(edge)?;
        Ok(())
    }

    /// Adds a stored path whose identity is new and whose walk is one of the graph so far.
    pub fn put_path(&mut self, path: PathInfo) -> Result<(), Memory>
        requires fresh { is_among (ids_of self.old) path.id ≡ false }
        requires walk { is_walk self.old.nodes self.old.edges path.walk ≡ true }
        ensures added { OnOk result (self.new ≡ with_path self.old path) }
        ensures same { OnErr result (self.new ≡ self.old) }
    {
        path.known();
        self.paths.add(path)?;
        Ok(())
    }
}
