ghost use Rattle.std.specs.Prelude.{◌≡◌, map};
ghost use Rattle.std.specs.Ordering.{nat_cmp};
ghost use Rattle.std.specs.Cmp.Lexicographic.{slice_cmp};
ghost use Rattle.gc_base.specs.Walks.{end_of, walk_order};

use crate::duplicate::Duplicate;
use crate::id::Id;
use crate::memory::Memory;
use crate::sequence::Sequence;
use std::cmp::Ordering;
use std::marker::Model;

/// One step of a walk: along an edge, to a node.
#[derive(Clone, Copy, Debug, PartialEq, Eq)]
pub struct Step {
    pub edge: Id,
    pub node: Id,
}

/// The steps of a walk, in order.
pub type StepList = Sequence<Step>;

/// A walk: its first node, and the steps that follow.
#[derive(Debug, Drop)]
pub struct Walk {
    pub start: Id,
    pub steps: StepList,
}

impl Walk {
    /// The node at which it ends.
    pub fn end(&self) -> Id
        ensures { result ≡ end_of self.now }
    {
        match self.steps.as_slice().last() {
            None => self.start,
            Some(step) => step.node,
        }
    }
}

/// The cost of a walk.
#[derive(Clone, Copy, Debug, PartialEq, Eq, PartialOrd, Ord)]
pub struct Cost(u128);

impl Model for Cost {
    ghost use Rattle.std.specs.Prelude.{ℕ};

    ghost Value = { ℕ };

    ghost view = { λ c. c.0 };

    ghost inverse = { λ n. record { 0 = n } };
}

impl Cost {
    /// A cost of this size.
    pub fn of(n: u128) -> Cost
        ensures { result ≡ n }
    {
        Cost(n)
    }

    /// Its size.
    pub fn get(&self) -> u128
        ensures { result ≡ self.now }
    {
        self.0
    }
}

/// The order of walks with one start: by cost, then by the number of edges, then by the identities
/// of the edges, compared one after another.
pub fn walk_cmp(cost: Cost, walk: &Walk, other_cost: Cost, other: &Walk) -> Ordering
    ensures { result ≡ walk_order cost walk.now other_cost other.now }
{
    cost.cmp(&other_cost)
        .then(walk.steps.len().cmp(&other.steps.len()))
        .then_with(|| edges_cmp(walk.steps.as_slice(), other.steps.as_slice()))
}

impl Duplicate for Step {
    fn copy(&self) -> Result<Step, Memory> {
        Ok(*self)
    }
}

impl Duplicate for Walk {
    fn copy(&self) -> Result<Walk, Memory> {
        let steps = self.steps.copy()?;
        Ok(Walk {
            start: self.start,
            steps,
        })
    }
}

impl Duplicate for Cost {
    fn copy(&self) -> Result<Cost, Memory> {
        Ok(*self)
    }
}

/// The order of two lists of steps by their edges, compared one after another; of two where one
/// begins the other, the shorter is first.
pub fn edges_cmp(steps: &[Step], others: &[Step]) -> Ordering
    ensures { result ≡ slice_cmp nat_cmp (map (λ step. step.edge) steps.now) (map (λ step. step.edge) others.now) }
{
    steps
        .iter()
        .map(|step| step.edge)
        .cmp(others.iter().map(|step| step.edge))
}
