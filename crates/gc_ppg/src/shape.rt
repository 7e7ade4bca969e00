ghost use Rattle.std.specs.Prelude.{◌≡◌, ◌==◌};
ghost use Rattle.gc_ppg.specs.Shapes.{same_walk};

use gc_base::{Duplicate, Id, Memory, Walk};

/// The kinds of elements.
#[derive(Clone, Copy, Debug, PartialEq, Eq)]
pub enum Kind {
    Node,
    Edge,
    Path,
}

/// What an identity stands for: a node, an edge with its ends, a stored path with its walk.
#[derive(Debug, Drop)]
pub enum Shape {
    Node,
    Edge(Id, Id),
    Path(Walk),
}

impl Shape {
    ghost use Rattle.gc_spec.specs.Coherence.{NodeShape, EdgeShape, PathShape};
    ghost use Rattle.gc_ppg.specs.ShapeOf.{element_shape};
    ghost use Rattle.gc_ppg.specs.Shapes.{same_shape};

    // Whether it is that of a node.
    pub(crate) fn is_node(&self) -> bool
        ensures { result ≡ same_shape NodeShape (element_shape self.now) }
    {
        match self {
            Shape::Node => true,
            Shape::Edge(_, _) => false,
            Shape::Path(_) => false,
        }
    }

    // Whether it is that of an edge with these ends.
    pub(crate) fn is_edge(&self, source: Id, target: Id) -> bool
        ensures { result ≡ same_shape (EdgeShape source target) (element_shape self.now) }
    {
        match self {
            Shape::Node => false,
            Shape::Edge(from, to) => source == *from && target == *to,
            Shape::Path(_) => false,
        }
    }

    // Whether it is that of a stored path with this walk.
    pub(crate) fn is_path(&self, walk: &Walk) -> bool
        ensures { result ≡ same_shape (PathShape walk.now) (element_shape self.now) }
    {
        match self {
            Shape::Node => false,
            Shape::Edge(_, _) => false,
            Shape::Path(other) => is_same_walk(walk, other),
        }
    }
}

impl Duplicate for Shape {
    fn copy(&self) -> Result<Shape, Memory> {
        match self {
            Shape::Node => Ok(Shape::Node),
            Shape::Edge(from, to) => Ok(Shape::Edge(*from, *to)),
            Shape::Path(walk) => Ok(Shape::Path(walk.copy()?)),
        }
    }
}

// Whether two walks are one.
fn is_same_walk(walk: &Walk, other: &Walk) -> bool
    ensures { result ≡ same_walk walk.now other.now }
{
    walk.start == other.start && walk.steps.as_slice() == other.steps.as_slice()
}
