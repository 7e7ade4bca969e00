ghost use Rattle.std.specs.Prelude.{◌≡◌, Some, refl, map};
ghost use Rattle.std.specs.Ordering.{eq_by_cmp, nat_cmp};
ghost use Rattle.std.specs.Cmp.{eq_by_cmp_equiv, partial_equiv_from_equiv, partial_order_from_total};
ghost use Rattle.std.specs.Cmp.Lexicographic.{slice_cmp};
ghost use Rattle.gc_base.specs.Walks.{edges_of};
ghost use Rattle.gc_base.specs.Literals.{literal_order};
ghost use Rattle.gc_rows.specs.Data.{datum_order, found_order, kind_number, nodes_of};
ghost use Rattle.gc_rows.specs.DataLaws.{datum_order_total};

use crate::counted::Counted;
use gc_base::{Duplicate, Id, Memory, Step, ValueSet, Walk, edges_cmp};
use std::cmp::Ordering;

/// What a variable stands for in a row. Copies share walks and sets of values.
#[derive(Debug, Drop)]
pub enum Datum {
    /// A node.
    Node(Id),
    /// An edge.
    Edge(Id),
    /// A stored path.
    Stored(Id),
    /// A walk that a search found.
    Found(Counted<Walk>),
    /// All walks between two nodes.
    Span { from: Id, to: Id },
    /// The values of a property, or a single value.
    Value(Counted<ValueSet>),
    /// A cost that is above the largest number.
    PastRange,
}

impl Duplicate for Datum {
    fn copy(&self) -> Result<Datum, Memory> {
        match self {
            Datum::Node(id) => Ok(Datum::Node(*id)),
            Datum::Edge(id) => Ok(Datum::Edge(*id)),
            Datum::Stored(id) => Ok(Datum::Stored(*id)),
            Datum::Found(walk) => Ok(Datum::Found(walk.copy()?)),
            Datum::Span { from, to } => Ok(Datum::Span {
                from: *from,
                to: *to,
            }),
            Datum::Value(values) => Ok(Datum::Value(values.copy()?)),
            Datum::PastRange => Ok(Datum::PastRange),
        }
    }
}

impl Datum {
    fn kind_number(&self) -> u8
        ensures { result ≡ kind_number self.now }
    {
        match self {
            Datum::Node(_) => 0,
            Datum::Edge(_) => 1,
            Datum::Stored(_) => 2,
            Datum::Found(_) => 3,
            Datum::Span { from: _, to: _ } => 4,
            Datum::Value(_) => 5,
            Datum::PastRange => 6,
        }
    }
}

impl PartialEq for Datum {
    ghost eq = { eq_by_cmp datum_order };

    ghost laws = { partial_equiv_from_equiv (eq_by_cmp_equiv datum_order_total) };

    fn eq(&self, other: &Datum) -> bool {
        self.cmp(other).is_eq()
    }
}

impl Eq for Datum {
    ghost laws = { eq_by_cmp_equiv datum_order_total };
}

impl PartialOrd for Datum {
    ghost partial_cmp = { λ a b. Some (datum_order a b) };

    ghost laws = { partial_order_from_total datum_order_total };

    fn partial_cmp(&self, other: &Datum) -> Option<Ordering> {
        Some(self.cmp(other))
    }
}

impl Ord for Datum {
    ghost cmp = { datum_order };

    ghost total = { datum_order_total };

    ghost matches_partial_cmp = { λ a b. refl };

    ghost matches_eq = { λ a b. refl };

    fn cmp(&self, other: &Datum) -> Ordering {
        match (self, other) {
            (Datum::Node(a), Datum::Node(b)) => a.cmp(b),
            (Datum::Edge(a), Datum::Edge(b)) => a.cmp(b),
            (Datum::Stored(a), Datum::Stored(b)) => a.cmp(b),
            (Datum::Found(a), Datum::Found(b)) => found_cmp(a.get(), b.get()),
            (Datum::Span { from: a, to: b }, Datum::Span { from: c, to: d }) => {
                a.cmp(c).then(b.cmp(d))
            }
            (Datum::Value(a), Datum::Value(b)) => a.get().as_slice().cmp(b.get().as_slice()),
            _ => self.kind_number().cmp(&other.kind_number()),
        }
    }
}

// Found walks: by start, number of edges, edges, nodes.
fn found_cmp(a: &Walk, b: &Walk) -> Ordering
    ensures { result ≡ found_order a.now b.now }
{
    a.start
        .cmp(&b.start)
        .then(a.steps.len().cmp(&b.steps.len()))
        .then_with(|| edges_cmp(a.steps.as_slice(), b.steps.as_slice()))
        .then_with(|| nodes_cmp(a.steps.as_slice(), b.steps.as_slice()))
}

// The nodes of two lists of steps, one after another.
fn nodes_cmp(steps: &[Step], others: &[Step]) -> Ordering
    ensures { result ≡ slice_cmp nat_cmp (map (λ step. step.node) steps.now) (map (λ step. step.node) others.now) }
{
    steps
        .iter()
        .map(|step| step.node)
        .cmp(others.iter().map(|step| step.node))
}
