ghost use Rattle.std.specs.Prelude.{◌≡◌};
ghost use Rattle.gc_search.specs.Links.{starts_at};

use gc_base::Id;
use gc_prod::{By, Pair};
use std::marker::Model;

// A walk from the source, told by a settled one that it extends: where it arrives, its cost, how many
// edges it has, the number of the settled one, counted from 1, and the move by which it extends it. The
// walk that stays at the source extends none, which is the number 0.
#[derive(Clone, Copy)]
pub(crate) struct Link {
    pub(crate) at: Pair,
    pub(crate) cost: u128,
    pub(crate) edges: usize,
    pub(crate) before: usize,
    pub(crate) by: By,
}

impl Model for Link {
    ghost use Rattle.gc_search.specs.Links.{Link as LinkAlone};

    ghost Value = { LinkAlone };

    ghost view = { λ l. record { at = l.at; cost = l.cost; edges = l.edges; before = l.before; by = l.by } };

    ghost inverse = { λ l. record { at = l.at; cost = l.cost; edges = l.edges; before = l.before; by = l.by } };
}

impl Link {
    // The walk that stays at the source.
    pub(crate) fn start(source: Id) -> Link
        ensures { result ≡ starts_at source }
    {
        Link {
            at: Pair {
                node: source,
                state: 0,
            },
            cost: 0,
            edges: 0,
            before: 0,
            by: By::Nothing,
        }
    }
}
