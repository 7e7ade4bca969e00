ghost use Rattle.std.specs.Prelude.{◌≡◌};
ghost use Rattle.std.specs.List.{list_all};
ghost use Rattle.gc_base.specs.Ascending.{Ascends};
ghost use Rattle.gc_prod.specs.Products.{moved, moves, moves_by};
ghost use Rattle.gc_cert.specs.Acceptance.{all_moves, is_covered, is_bounded};
ghost use Rattle.gc_cert.specs.Potentials.{potential_order};

use crate::lookup::potential;
use gc_base::Steps;
use gc_cert::Potential;
use gc_prod::{Bundle, Hop, Product};
use std::sync::ledger::Ledger;

// Whether some moves lead to pairs that have potentials, and whether these are at most those moved from
// and the costs of the moves.
#[derive(Clone, Copy)]
pub(crate) struct Led {
    pub(crate) covered: bool,
    pub(crate) bounded: bool,
}

// All moves from pairs that have potentials.
pub(crate) fn all_led<L: Ledger>(p: &Product, potentials: &[Potential], steps: &mut Steps<L>) -> Led
    requires { Ascends potential_order potentials.now }
    ensures covered { result.covered ≡ all_moves p.now (is_covered potentials.now) potentials.now }
    ensures bounded { result.bounded ≡ all_moves p.now (is_bounded potentials.now) potentials.now }
{
    let mut covered = true;
    let mut bounded = true;
    for from in potentials {
        let led = led_from(p, potentials, from, steps);
        covered &= led.covered;
        bounded &= led.bounded;
    }
    Led { covered, bounded }
}

// The moves from one pair.
fn led_from<L: Ledger>(
    p: &Product,
    potentials: &[Potential],
    from: &Potential,
    steps: &mut Steps<L>,
) -> Led
    requires { Ascends potential_order potentials.now }
    ensures covered { result.covered ≡ list_all (is_covered potentials.now from.now) (moves p.now from.now.node from.now.state) }
    ensures bounded { result.bounded ≡ list_all (is_bounded potentials.now from.now) (moves p.now from.now.node from.now.state) }
{
    let mut covered = true;
    let mut bounded = true;
    for j in 0..p.bundle_count(from.state) {
        let bundle = p.bundle(from.node, from.state, j, steps);
        let led = led_by(potentials, from, &bundle);
        covered &= led.covered;
        bounded &= led.bounded;
    }
    Led { covered, bounded }
}

// The moves by one bundle.
fn led_by(potentials: &[Potential], from: &Potential, bundle: &Bundle) -> Led
    requires { Ascends potential_order potentials.now }
    ensures covered { result.covered ≡ list_all (is_covered potentials.now from.now) (moves_by bundle.now) }
    ensures bounded { result.bounded ≡ list_all (is_bounded potentials.now from.now) (moves_by bundle.now) }
{
    let mut covered = true;
    let mut bounded = true;
    for hop in bundle.hops {
        let led = led_along(potentials, from, bundle.state, hop);
        covered &= led.covered;
        bounded &= led.bounded;
    }
    Led { covered, bounded }
}

// One move.
fn led_along(potentials: &[Potential], from: &Potential, state: u32, hop: &Hop) -> Led
    requires { Ascends potential_order potentials.now }
    ensures covered { result.covered ≡ is_covered potentials.now from.now (moved state hop.now) }
    ensures bounded { result.bounded ≡ is_bounded potentials.now from.now (moved state hop.now) }
{
    match potential(potentials, hop.to, state) {
        None => Led {
            covered: false,
            bounded: true,
        },
        Some(to) => {
            let grown = to.get().saturating_sub(from.cost.get());
            Led {
                covered: true,
                bounded: grown <= u128::from(hop.cost),
            }
        }
    }
}
