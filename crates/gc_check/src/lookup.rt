ghost use Rattle.std.specs.Prelude.{◌≡◌};
ghost use Rattle.std.specs.Option.{option_map};
ghost use Rattle.gc_base.specs.Ascending.{Ascends};
ghost use Rattle.gc_prod.specs.Leading.{pair};
ghost use Rattle.gc_cert.specs.Potentials.{at_pair, pair_order, potential_order, potential_of};

use gc_base::{Cost, Id};
use gc_cert::Potential;
use std::cmp::Ordering;

// The potential of the pair of a node and a state, found by halving.
pub(crate) fn potential(potentials: &[Potential], node: Id, state: u32) -> Option<Cost>
    requires { Ascends potential_order potentials.now }
    ensures { result ≡ potential_of potentials.now (pair node state) }
{
    match potentials.binary_search_by(|known| pair_cmp(known, node, state)) {
        Ok(place) => Some(potentials[place].cost),
        Err(_) => None,
    }
}

// How the pair of a potential stands to that of a node and a state.
pub(crate) fn pair_cmp(known: &Potential, node: Id, state: u32) -> Ordering
    ensures { result ≡ pair_order (at_pair known.now) (pair node state) }
{
    known.node.cmp(&node).then(known.state.cmp(&state))
}
