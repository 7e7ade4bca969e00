ghost use Rattle.std.specs.Prelude.{◌≡◌, ℕ, IfOk, refl};
ghost use Rattle.gc_sets.specs.Descriptions.{united_node};
ghost use Rattle.gc_sets.specs.Unions.{united_edge, united_path};

use crate::descriptions::{unite_labels, unite_properties};
use gc_base::{Id, Memory};
use gc_ppg::{EdgeInfo, NodeInfo, PathInfo};

/// What is claimed: a node, an edge or a stored path.
pub(crate) trait Claim {
    /// Its identity.
    ghost id_of: { Self → ℕ };

    /// One with the labels and values of another beside its own.
    ghost united: { Self → Self → Self };

    fn id(&self) -> Id
        ensures { result ≡ id_of self.now };

    // The same with the labels and values of another. It is used up, so none is left half united where
    // memory is wanting.
    fn unite(self, more: &Self) -> Result<Self, Memory>
        ensures { IfOk result (λ all. all ≡ united self more.now) };

    /// What is said beside it leaves its identity.
    ghost same_id: { (a b : Self) → id_of (united a b) ≡ id_of a };
}

impl Claim for NodeInfo {
    ghost id_of = { λ n. n.id };

    ghost united = { united_node };

    ghost same_id = { λ a b. refl };

    fn id(&self) -> Id {
        self.id
    }

    fn unite(self, more: &NodeInfo) -> Result<NodeInfo, Memory> {
        Ok(NodeInfo {
            labels: unite_labels(self.labels, &more.labels)?,
            properties: unite_properties(self.properties, &more.properties)?,
            ..self
        })
    }
}

impl Claim for EdgeInfo {
    ghost id_of = { λ e. e.id };

    ghost united = { united_edge };

    ghost same_id = { λ a b. refl };

    fn id(&self) -> Id {
        self.id
    }

    fn unite(self, more: &EdgeInfo) -> Result<EdgeInfo, Memory> {
        Ok(EdgeInfo {
            labels: unite_labels(self.labels, &more.labels)?,
            properties: unite_properties(self.properties, &more.properties)?,
            ..self
        })
    }
}

impl Claim for PathInfo {
    ghost id_of = { λ p. p.id };

    ghost united = { united_path };

    ghost same_id = { λ a b. refl };

    fn id(&self) -> Id {
        self.id
    }

    fn unite(self, more: &PathInfo) -> Result<PathInfo, Memory> {
        Ok(PathInfo {
            labels: unite_labels(self.labels, &more.labels)?,
            properties: unite_properties(self.properties, &more.properties)?,
            ..self
        })
    }
}
