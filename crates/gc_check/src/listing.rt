ghost use Rattle.std.specs.Prelude.{◌≡◌, ◌&&◌, nat_lt, true, MatchBool};
ghost use Rattle.std.specs.List.{list_all};
ghost use Rattle.gc_base.specs.Ascending.{Ascends};
ghost use Rattle.gc_spec.specs.PropertyGraph.{is_among, node_ids};
ghost use Rattle.gc_cert.specs.Acceptance.{AreListed};
ghost use Rattle.gc_cert.specs.Potentials.{potential_order};
ghost use Rattle.gc_check.specs.Listings.{is_listed};

use crate::lookup::pair_cmp;
use gc_base::{Id, Steps};
use gc_cert::Potential;
use gc_ppg::Graph;
use gc_prod::Product;
use std::sync::ledger::Ledger;

// Whether potentials strictly ascend, and are of nodes and states that there are.
pub(crate) fn are_listed<L: Ledger>(
    p: &Product,
    graph: &Graph,
    potentials: &[Potential],
    steps: &mut Steps<L>,
) -> bool
    requires { p.now.network.graph ≡ graph.now }
    ensures listed { MatchBool result (AreListed p.now potentials.now) (AreListed p.now potentials.now → ⊥) }
{
    ascend(potentials) && are_pairs(p.states(), graph, potentials, steps)
}

// Whether potentials strictly ascend by node, then by state.
fn ascend(potentials: &[Potential]) -> bool
    ensures { MatchBool result (Ascends potential_order potentials.now) (Ascends potential_order potentials.now → ⊥) }
{
    potentials.is_sorted_by(|known, next| pair_cmp(known, next.node, next.state).is_lt())
}

// Whether each is of a node of a graph and of a state below a number.
fn are_pairs<L: Ledger>(
    states: u32,
    graph: &Graph,
    potentials: &[Potential],
    steps: &mut Steps<L>,
) -> bool
    ensures { result ≡ list_all (is_listed (node_ids graph.now.nodes) states) potentials.now }
{
    for known in potentials {
        if known.state >= states || !is_node(graph, known.node, steps) {
            return false;
        }
    }
    true
}

// Whether a graph has a node of an identity.
pub(crate) fn is_node<L: Ledger>(graph: &Graph, node: Id, steps: &mut Steps<L>) -> bool
    ensures { result ≡ is_among (node_ids graph.now.nodes) node }
{
    match graph.find_node(node, steps) {
        None => false,
        Some(_) => true,
    }
}
