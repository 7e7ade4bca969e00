ghost use Rattle.std.specs.Prelude.{◌≡◌, ◌++◌, ◌∷◌, ◌==◌, [], map, IfOk, OnOk, OnErr};
ghost use Rattle.gc_spec.specs.Coherence.{shapes_of};
ghost use Rattle.gc_ppg.specs.Shapes.{agrees, same_if_there, shape_in};
ghost use Rattle.gc_ppg.specs.ShapeOf.{element_shape};

use crate::graph::Graph;
use crate::kind::Element;
use crate::search::find;
use crate::shape::Shape;
use gc_base::{Duplicate, Id, Memory, Walk};
use std::alloc::Global;
use std::marker::Model;

/// What each identity stands for in some graphs. Contracts see a list of shapes for each graph that
/// was added, in the order of adding.
#[derive(Drop)]
pub struct Coherence {
    alloc: Global,
    seen: Vec<Shapes>,
}

impl Model for Coherence {
    ghost use Rattle.std.specs.Prelude.{List, ℕ};
    ghost use Rattle.gc_spec.specs.Coherence.{ElementShape};

    ghost Value = { List (List (ℕ × ElementShape)) };

    ghost view = { λ c. c.seen.items };
}

impl Coherence {
    /// No graphs. It takes no memory yet.
    pub fn new(alloc: Global) -> Coherence
        ensures { result ≡ [] }
    {
        Coherence {
            alloc,
            seen: Vec::new(alloc),
        }
    }

    /// Adds what each identity of a graph stands for.
    pub fn add(&mut self, g: &Graph) -> Result<(), Memory>
        ensures ok { OnOk result (self.new ≡ self.old ++ shapes_of g.now ∷ []) }
        ensures err { OnErr result (self.new ≡ self.old) }
    {
        let shapes = Shapes::of(self.alloc, g)?;
        self.seen.push(shapes)?;
        Ok(())
    }

    /// Whether an identity has this shape in each of the graphs that has it.
    pub fn agrees(&self, id: Id, shape: &Shape) -> bool
        ensures { result ≡ agrees self.now id (element_shape shape.now) }
    {
        self.seen.iter().all(|shapes| shapes.allows(id, shape))
    }
}

// The ends of an edge.
#[derive(Clone, Copy)]
struct EdgeEnds {
    id: Id,
    from: Id,
    to: Id,
}

// The walk of a stored path.
#[derive(Drop)]
struct PathWalk {
    id: Id,
    walk: Walk,
}

impl Element for EdgeEnds {
    ghost id_of = { λ e. e.id };

    fn id(&self) -> Id {
        self.id
    }
}

impl Element for PathWalk {
    ghost id_of = { λ p. p.id };

    fn id(&self) -> Id {
        self.id
    }
}

// The shapes of one graph.
#[derive(Drop)]
struct Shapes {
    nodes: Vec<Id>,
    edges: Vec<EdgeEnds>,
    paths: Vec<PathWalk>,
}

impl Model for Shapes {
    ghost use Rattle.std.specs.Prelude.{List, ℕ, ◌++◌, map};
    ghost use Rattle.std.specs.Ordering.{nat_cmp, on};
    ghost use Rattle.gc_base.specs.Ascending.{Ascends};
    ghost use Rattle.gc_spec.specs.Coherence.{ElementShape, NodeShape, EdgeShape, PathShape};

    ghost Value = { List (ℕ × ElementShape) };

    ghost view = { λ s.
        map (λ i. (i, NodeShape)) s.nodes.items
        ++ map (λ e. (e.id, EdgeShape e.from e.to)) s.edges.items
        ++ map (λ p. (p.id, PathShape p.walk)) s.paths.items };

    ghost invariant = { λ s.
        Ascends nat_cmp s.nodes.items
        × Ascends (on (λ e. e.id) nat_cmp) s.edges.items
        × Ascends (on (λ p. p.id) nat_cmp) s.paths.items };
}

impl Shapes {
    ghost use Rattle.gc_spec.specs.PropertyGraph.{IsGraph};
    ghost use Rattle.gc_ppg.specs.Tables.{ends_of, walk_of};

    fn of(alloc: Global, g: &Graph) -> Result<Shapes, Memory>
        ensures { IfOk result (λ s. s ≡ shapes_of g.now) }
    {
        let nodes = Shapes::nodes_of(alloc, g)?;
        let edges = Shapes::edges_of(alloc, g)?;
        let paths = Shapes::paths_of(alloc, g)?;
        Ok(Shapes {
            nodes,
            edges,
            paths,
        })
    }

    fn nodes_of(alloc: Global, g: &Graph) -> Result<Vec<Id>, Memory>
        ensures ids { IfOk result (λ ids. ids.items ≡ map (λ n. n.id) g.now.nodes) }
        ensures valid { IsGraph g.now }
    {
        let mut ids = Vec::with_capacity(alloc, g.nodes().len())?;
        for node in g.nodes() {
            ids.push(node.id)?;
        }
        Ok(ids)
    }

    fn edges_of(alloc: Global, g: &Graph) -> Result<Vec<EdgeEnds>, Memory>
        ensures ends { IfOk result (λ ends. ends.items ≡ map ends_of g.now.edges) }
    {
        let mut all = Vec::with_capacity(alloc, g.edges().len())?;
        for edge in g.edges() {
            all.push(EdgeEnds {
                id: edge.id,
                from: edge.from,
                to: edge.to,
            })?;
        }
        Ok(all)
    }

    fn paths_of(alloc: Global, g: &Graph) -> Result<Vec<PathWalk>, Memory>
        ensures walks { IfOk result (λ walks. walks.items ≡ map walk_of g.now.paths) }
    {
        let mut all = Vec::with_capacity(alloc, g.paths().len())?;
        for path in g.paths() {
            all.push(PathWalk {
                id: path.id,
                walk: path.walk.copy()?,
            })?;
        }
        Ok(all)
    }

    // Whether an identity has this shape, or is not there.
    fn allows(&self, id: Id, shape: &Shape) -> bool
        ensures { result ≡ same_if_there (shape_in self.now id) (element_shape shape.now) }
    {
        if let Some(_) = find(&self.nodes, id) {
            return shape.is_node();
        }
        if let Some(edge) = find(&self.edges, id) {
            return shape.is_edge(edge.from, edge.to);
        }
        match find(&self.paths, id) {
            Some(path) => shape.is_path(&path.walk),
            None => true,
        }
    }
}
