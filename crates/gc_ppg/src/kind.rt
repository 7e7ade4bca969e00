ghost use Rattle.std.specs.Prelude.{◌≡◌, ℕ, List};

use gc_base::{Id, LabelSet};

/// What has an identity: a node, an edge or a stored path.
pub(crate) trait Element {
    /// Its identity.
    ghost id_of: { Self → ℕ };

    fn id(&self) -> Id
        ensures { result ≡ id_of self.now };
}

impl Element for Id {
    ghost id_of = { λ i. i };

    fn id(&self) -> Id {
        *self
    }
}

/// What has labels: a node, an edge or a stored path.
pub(crate) trait Labelled: Element {
    /// Its labels.
    ghost labels_of: { Self → List (List ℕ) };

    fn labels(&self) -> &LabelSet
        ensures { result.now ≡ labels_of self.now };
}
