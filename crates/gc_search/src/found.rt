ghost use Rattle.std.specs.Prelude.{◌≡◌, ◌<◌, length, slice_get, Some, IfOk};
ghost use Rattle.std.specs.Option.{option_map};
ghost use Rattle.gc_prod.specs.Leading.{pair};
ghost use Rattle.gc_search.specs.Arrivals.{arrivals_at};
ghost use Rattle.gc_search.specs.Finding.{walks_to, runs_to, potential_of};

use crate::settled::Settled;
use crate::way::run_along;
use gc_base::{Cost, Id, Memory, Sequence, Walk};
use gc_prod::{Pair, Run};
use std::marker::Model;

/// The walks that a search finds from a source, by the node to which they lead. Contracts see the
/// source, the number of the last state, and all walks, by the nodes at which they arrive.
#[derive(Drop)]
pub struct Found<'a> {
    pub(crate) source: Id,
    pub(crate) last: u32,
    pub(crate) walks: Settled<'a>,
}

impl<'a> Model for Found<'a> {
    ghost use Rattle.gc_search.specs.Finding.{Finding, AreFew};

    ghost Value = { Finding };

    ghost view = { λ f. record { source = f.source; last = f.last; walks = f.walks.walks } };

    ghost invariant = { λ f. AreFew f.walks.walks };
}

impl<'a> Found<'a> {
    /// How many walks lead to a node.
    pub fn count(&self, target: Id) -> u32
        ensures { result ≡ length (walks_to self.now target) }
    {
        let at = Pair {
            node: target,
            state: self.last,
        };
        self.walks.count_at(&at) as u32
    }

    /// The cost of the i-th walk to a node, for a number below the count.
    pub fn cost(&self, target: Id, i: u32) -> Cost
        requires { i < length (walks_to self.now target) }
        ensures { option_map (λ w. w.cost) (slice_get (walks_to self.now target) i) ≡ Some result }
    {
        Cost::of(self.walks.tree.at(self.place(target, i)).cost)
    }

    /// The i-th walk to a node, for a number below the count.
    pub fn walk(&self, target: Id, i: u32) -> Result<Walk, Memory>
        requires { i < length (walks_to self.now target) }
        ensures { IfOk result (λ walk. option_map (λ w. w.walk) (slice_get (walks_to self.now target) i) ≡ Some walk) }
    {
        let steps = self.walks.tree.steps(self.place(target, i))?;
        Ok(Walk {
            start: self.source,
            steps: Sequence::from_vec(steps),
        })
    }

    /// A run that passes the i-th walk to a node at its cost, for a number below the count.
    pub fn run(&self, target: Id, i: u32) -> Result<Run, Memory>
        requires { i < length (walks_to self.now target) }
        ensures { IfOk result (λ run. slice_get (runs_to self.now target) i ≡ Some run) }
    {
        let run = run_along(self.walks.tree.way(self.place(target, i))?)?;
        Ok(Sequence::from_vec(run))
    }

    /// The least cost at which a run reaches a node and a state, or `None` exactly where none does.
    pub fn potential(&self, node: Id, state: u32) -> Option<Cost>
        ensures { result ≡ potential_of self.now (pair node state) }
    {
        let at = Pair { node, state };
        match self.walks.place(&at, 0) {
            None => None,
            Some(place) => Some(Cost::of(self.walks.tree.at(place).cost)),
        }
    }

    // The place of the i-th walk that arrives at a node in the last state, for a number below how many do.
    fn place(&self, target: Id, i: u32) -> usize
        requires { i < length (arrivals_at self.now.walks (pair target self.now.last)) }
        ensures within { result < length self.now.walks }
        ensures exact { slice_get self.now.walks result ≡ slice_get (arrivals_at self.now.walks (pair target self.now.last)) i }
    {
        let at = Pair {
            node: target,
            state: self.last,
        };
        match self.walks.place(&at, i as usize) {
            None => unreachable!(),
            Some(place) => place,
        }
    }
}
