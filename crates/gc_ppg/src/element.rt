ghost use Rattle.std.specs.Prelude.{◌≡◌};

use crate::kind::{Element, Labelled};
use crate::node_edges::{FarEnd, Side};
use gc_base::{Duplicate, Id, LabelSet, Memory, Properties, Walk};
use std::marker::Model;

/// A node: its identity, labels and properties.
#[derive(Debug, Drop)]
pub struct NodeInfo {
    pub id: Id,
    pub labels: LabelSet,
    pub properties: Properties,
}

/// An edge: from its source to its target.
#[derive(Debug, Drop)]
pub struct EdgeInfo {
    pub id: Id,
    pub from: Id,
    pub to: Id,
    pub labels: LabelSet,
    pub properties: Properties,
}

/// A stored path: a walk with an identity, labels and properties of its own.
#[derive(Debug, Drop)]
pub struct PathInfo {
    pub id: Id,
    pub walk: Walk,
    pub labels: LabelSet,
    pub properties: Properties,
}

impl Model for NodeInfo {
    ghost use Rattle.gc_spec.specs.PropertyGraph.{Node};

    ghost Value = { Node };

    ghost view = { λ n. record { id = n.id; labels = n.labels; properties = n.properties } };
}

impl Model for EdgeInfo {
    ghost use Rattle.gc_spec.specs.PropertyGraph.{Edge};

    ghost Value = { Edge };

    ghost view = { λ e. record { id = e.id; from = e.from; to = e.to; labels = e.labels; properties = e.properties } };
}

impl Model for PathInfo {
    ghost use Rattle.gc_spec.specs.PropertyGraph.{Path};

    ghost Value = { Path };

    ghost view = { λ p. record { id = p.id; walk = p.walk; labels = p.labels; properties = p.properties } };
}

impl NodeInfo {
    ghost use Rattle.gc_spec.specs.PropertyGraph.{IsNode};

    // That it is a node, for a proof.
    pub(crate) fn known(&self)
        ensures { IsNode self.now }
    {
        let _id = self.id.get();
        let _labels = self.labels.as_slice();
        let _properties = self.properties.as_slice();
    }
}

impl EdgeInfo {
    ghost use Rattle.gc_ppg.specs.Built.{IsEdgeAlone};
    ghost use Rattle.gc_ppg.specs.NodeSides.{far_of};

    // The edge as it is seen from the node at a side of which it is.
    pub(crate) fn far_end(&self, side: Side) -> FarEnd
        ensures { result ≡ far_of side self.now }
    {
        match side {
            Side::Leaving => FarEnd {
                edge: self.id,
                node: self.to,
            },
            Side::Coming => FarEnd {
                edge: self.id,
                node: self.from,
            },
        }
    }

    // What is so of each edge by its type, for a proof.
    pub(crate) fn known(&self)
        ensures { IsEdgeAlone self.now }
    {
        let _id = self.id.get();
        let _labels = self.labels.as_slice();
        let _properties = self.properties.as_slice();
    }
}

impl PathInfo {
    ghost use Rattle.gc_ppg.specs.Built.{IsPathAlone};

    // What is so of each path by its type, for a proof.
    pub(crate) fn known(&self)
        ensures { IsPathAlone self.now }
    {
        let _id = self.id.get();
        let _labels = self.labels.as_slice();
        let _properties = self.properties.as_slice();
    }
}

impl Element for NodeInfo {
    ghost id_of = { λ n. n.id };

    fn id(&self) -> Id {
        self.id
    }
}

impl Element for EdgeInfo {
    ghost id_of = { λ e. e.id };

    fn id(&self) -> Id {
        self.id
    }
}

impl Element for PathInfo {
    ghost id_of = { λ p. p.id };

    fn id(&self) -> Id {
        self.id
    }
}

impl Labelled for NodeInfo {
    ghost labels_of = { λ n. n.labels };

    fn labels(&self) -> &LabelSet {
        &self.labels
    }
}

impl Labelled for EdgeInfo {
    ghost labels_of = { λ e. e.labels };

    fn labels(&self) -> &LabelSet {
        &self.labels
    }
}

impl Labelled for PathInfo {
    ghost labels_of = { λ p. p.labels };

    fn labels(&self) -> &LabelSet {
        &self.labels
    }
}

impl Duplicate for NodeInfo {
    fn copy(&self) -> Result<NodeInfo, Memory> {
        Ok(NodeInfo {
            id: self.id,
            labels: self.labels.copy()?,
            properties: self.properties.copy()?,
        })
    }
}

impl Duplicate for EdgeInfo {
    fn copy(&self) -> Result<EdgeInfo, Memory> {
        Ok(EdgeInfo {
            id: self.id,
            from: self.from,
            to: self.to,
            labels: self.labels.copy()?,
            properties: self.properties.copy()?,
        })
    }
}

impl Duplicate for PathInfo {
    fn copy(&self) -> Result<PathInfo, Memory> {
        Ok(PathInfo {
            id: self.id,
            walk: self.walk.copy()?,
            labels: self.labels.copy()?,
            properties: self.properties.copy()?,
        })
    }
}
