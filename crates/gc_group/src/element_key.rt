ghost use Rattle.std.specs.Prelude.{◌≡◌};
ghost use Rattle.gc_group.specs.ElementKeys.{ends_key, first_kind, key_of, node_key};
ghost use Rattle.gc_group.specs.Groups.{key_order};

use crate::key::Key;
use crate::key_parts::KeyParts;
use gc_base::Id;
use gc_rows::Datum;
use std::alloc::Global;
use std::cmp::Ordering;

/// A key of elements alone, as it stands beside the number of a row. It takes no memory.
pub trait OfElements {
    ghost use Rattle.gc_group.specs.declared.key.Key.{Key};

    /// The key that it is.
    ghost key_of: { Self → Key };

    /// The order of keys.
    fn order(&self, other: &Self) -> Ordering
        ensures { result ≡ key_order (key_of self.now) (key_of other.now) };

    /// The same, as a key with its parts. They take no memory.
    fn to_key(&self, alloc: Global) -> Key
        ensures { result ≡ key_of self.now };
}

/// The key that is a node.
#[derive(Debug, Clone, Copy)]
pub struct NodeKey {
    pub node: Id,
}

impl OfElements for NodeKey {
    ghost key_of = { node_key };

    fn order(&self, other: &NodeKey) -> Ordering {
        self.node.cmp(&other.node)
    }

    fn to_key(&self, alloc: Global) -> Key {
        Key {
            parts: KeyParts::of_one(alloc, Datum::Node(self.node)),
        }
    }
}

/// The key that is the two nodes at the ends of an edge.
#[derive(Debug, Clone, Copy)]
pub struct EndsKey {
    pub source: Id,
    pub target: Id,
}

impl OfElements for EndsKey {
    ghost key_of = { ends_key };

    fn order(&self, other: &EndsKey) -> Ordering {
        self.source
            .cmp(&other.source)
            .then(self.target.cmp(&other.target))
    }

    fn to_key(&self, alloc: Global) -> Key {
        let source = Datum::Node(self.source);
        let target = Datum::Node(self.target);
        Key {
            parts: KeyParts::of_two(alloc, source, target),
        }
    }
}

/// The key that is an element.
#[derive(Debug, Clone, Copy)]
pub enum ElementKey {
    Node(Id),
    Edge(Id),
    Stored(Id),
}

impl OfElements for ElementKey {
    ghost key_of = { key_of };

    fn order(&self, other: &ElementKey) -> Ordering {
        element_key_cmp(self, other)
    }

    fn to_key(&self, alloc: Global) -> Key {
        Key {
            parts: match self {
                ElementKey::Node(id) => KeyParts::of_one(alloc, Datum::Node(*id)),
                ElementKey::Edge(id) => KeyParts::of_one(alloc, Datum::Edge(*id)),
                ElementKey::Stored(id) => KeyParts::of_one(alloc, Datum::Stored(*id)),
            },
        }
    }
}

// The order of keys.
fn element_key_cmp(a: &ElementKey, b: &ElementKey) -> Ordering
    ensures { result ≡ key_order (key_of a.now) (key_of b.now) }
{
    match (a, b) {
        (ElementKey::Node(x), ElementKey::Node(y)) => x.cmp(y),
        (ElementKey::Edge(x), ElementKey::Edge(y)) => x.cmp(y),
        (ElementKey::Stored(x), ElementKey::Stored(y)) => x.cmp(y),
        _ => first_kind(a).cmp(&first_kind(b)),
    }
}

// The kind of the element: nodes, edges, stored paths.
fn first_kind(key: &ElementKey) -> u8
    ensures { result ≡ first_kind key.now }
{
    match key {
        ElementKey::Node(_) => 0,
        ElementKey::Edge(_) => 1,
        ElementKey::Stored(_) => 2,
    }
}
