ghost use Rattle.std.specs.Prelude.{◌≡◌, MatchBool};
ghost use Rattle.std.specs.List.{AllByRecursion};
ghost use Rattle.gc_base.specs.Ascending.{Ascends};
ghost use Rattle.gc_cert.specs.Acceptance.{BeginsFree, IsProductOf, network_of};
ghost use Rattle.gc_cert.specs.Potentials.{potential_order};
ghost use Rattle.gc_cert.specs.Shortest.{IsShortest};
ghost use Rattle.gc_prod.specs.Products.{Setting};
ghost use Rattle.gc_regx.specs.Expressions.{HasParts};
ghost use Rattle.gc_regx.specs.Views.{regex_tree};
ghost use Rattle.gc_check.specs.declared.rule.Verdict.TheVariants.{Accepted};
ghost use Rattle.gc_check.specs.Verdicts.{IsVerdict};

use crate::laws::accepted_walks_are_shortest;
use crate::leading::all_led;
use crate::listing::{are_listed, is_node};
use crate::lookup::potential;
use crate::pricing::{are_least, is_cost};
use crate::replaying::are_passed;
use crate::rule::{KRule, Verdict};
use gc_base::{Cost, Steps};
use gc_cert::SearchDoc;
use gc_prod::Product;
use std::sync::ledger::Ledger;

/// Whether the document of a search is accepted, or else the first rule that does not hold, given the
/// product of its graph and segments and of the automaton of its expression. The walks of a document that is
/// accepted are the shortest that conform to its expression. It takes no memory.
pub fn check_search<L: Ledger>(s: &SearchDoc, p: &Product, steps: &mut Steps<L>) -> Verdict
    requires { IsProductOf s.now p.now }
    ensures exact { IsVerdict s.now p.now result }
    ensures sound { result ≡ Accepted → HasParts (regex_tree s.now.expression)
        → AllByRecursion (λ w. IsShortest (network_of s.now) (regex_tree s.now.expression) s.now.start w.walk w.cost) s.now.walks }
{
    accepted_walks_are_shortest();
    let _network = p.nodes();
    let potentials = s.potentials.as_slice();
    if !are_listed(p, &s.graph, potentials, steps) {
        return Verdict::Rejected(KRule::PotentialsListed);
    }
    if !begins_free(s, steps) {
        return Verdict::Rejected(KRule::StartFree);
    }
    let led = all_led(p, potentials, steps);
    if !led.covered {
        return Verdict::Rejected(KRule::MovesCovered);
    }
    if !led.bounded {
        return Verdict::Rejected(KRule::MovesBounded);
    }
    if !are_passed(p, s.start, s.walks.as_slice(), steps) {
        return Verdict::Rejected(KRule::RunsPassWalks);
    }
    if !are_least(p, s.segments.as_slice(), potentials, s.walks.as_slice()) {
        return Verdict::Rejected(KRule::CostsLeast);
    }
    Verdict::Accepted
}

// Whether the start is a node, at which the potential of the first state is 0.
fn begins_free<L: Ledger>(s: &SearchDoc, steps: &mut Steps<L>) -> bool
    requires { Ascends potential_order s.now.potentials }
    ensures { (setting : Setting) → IsProductOf s.now setting → MatchBool result (BeginsFree setting s.now) (BeginsFree setting s.now → ⊥) }
{
    is_node(&s.graph, s.start, steps)
        && is_cost(potential(s.potentials.as_slice(), s.start, 0), Cost::of(0))
}
