ghost use Rattle.std.specs.Prelude.{◌≡◌, ◌<◌, Some, IfOk, [], map, position, true, ℕ};
ghost use Rattle.std.specs.List.{AllByRecursion};
ghost use Rattle.std.specs.Ordering.{nat_cmp};
ghost use Rattle.gc_base.specs.Ascending.{Ascends};
ghost use Rattle.gc_spec.specs.PropertyGraph.{is_among, node_ids};
ghost use Rattle.gc_automata.specs.Moves.{IsNetwork};
ghost use Rattle.gc_prod.specs.Groups.{row_of};
ghost use Rattle.gc_prod.specs.Keys.{at_key};
ghost use Rattle.gc_prod.specs.Places.{place_in};
ghost use Rattle.gc_prod.specs.Preparing.{same_symbol, symbol_at, is_fan_of, IsFan, HasFan, HasTargets, leg_bundles};
ghost use Rattle.gc_prod.specs.Products.{bundles};

use crate::by_number::ByNumber;
use crate::hop_lists::symbol_hops;
use crate::moves::Hop;
use crate::places::{first_of, place_near};
use crate::segment::SegmentList;
use gc_automata::{Automaton, On};
use gc_base::{Id, Memory, Steps};
use gc_ppg::Graph;
use std::alloc::Global;
use std::sync::ledger::Ledger;

// The hops along the symbol of a transition, by the place of the node from which they lead, and
// beside them the places of the nodes to which they lead. Transitions of one symbol share a fan.
#[derive(Drop)]
pub(crate) struct Fan {
    pub(crate) symbol: u32,
    pub(crate) hops: ByNumber<Hop>,
    pub(crate) targets: ByNumber<usize>,
}

// A transition, with the number of its fan.
#[derive(Clone, Copy)]
pub(crate) struct Leg {
    pub(crate) from: u32,
    pub(crate) to: u32,
    pub(crate) fan: usize,
}

// A leg for each transition, in their order, and the fans that they need.
pub(crate) fn legs<L: Ledger>(
    alloc: Global,
    graph: &Graph,
    automaton: &Automaton,
    segments: &SegmentList,
    nodes: &[Id],
    fans: &mut Vec<Fan>,
    steps: &mut Steps<L>,
) -> Result<Vec<Leg>, Memory>
    requires none { fans.old.items ≡ [] }
    requires network { IsNetwork (record { graph = graph.now; segments = segments.now }) }
    requires nodes { nodes.now ≡ node_ids graph.now.nodes }
    requires ascend { Ascends nat_cmp nodes.now }
    ensures led { IfOk result (λ legs. (node state : ℕ) → leg_bundles fans.new.items legs.items (place_in nodes.now node) state
        ≡ bundles (record { network = record { graph = graph.now; segments = segments.now }; machine = automaton.now }) node state) }
    ensures targets { IfOk result (λ legs. AllByRecursion (HasTargets nodes.now) fans.new.items) }
{
    let mut legs = Vec::new(alloc);
    for i in 0..u32::MAX {
        match automaton.transition(i) {
            None => return Ok(legs),
            Some(transition) => {
                let on = &transition.on;
                let fan = fan_for(alloc, graph, automaton, segments, nodes, i, on, fans, steps)?;
                legs.push(Leg {
                    from: transition.from,
                    to: transition.to,
                    fan,
                })?;
            }
        }
    }
    Err(Memory)
}

// The number of the fan of a symbol, which is that of a transition.
fn fan_for<L: Ledger>(
    alloc: Global,
    graph: &Graph,
    automaton: &Automaton,
    segments: &SegmentList,
    nodes: &[Id],
    i: u32,
    on: &On,
    fans: &mut Vec<Fan>,
    steps: &mut Steps<L>,
) -> Result<usize, Memory>
    requires network { IsNetwork (record { graph = graph.now; segments = segments.now }) }
    requires nodes { nodes.now ≡ node_ids graph.now.nodes }
    requires ascend { Ascends nat_cmp nodes.now }
    requires symbol { symbol_at automaton.now.transitions i ≡ Some on.now }
    requires fans { AllByRecursion (IsFan (record { graph = graph.now; segments = segments.now }) automaton.now.transitions) fans.old.items }
    requires targets { AllByRecursion (HasTargets nodes.now) fans.old.items }
    ensures fan { IfOk result (HasFan (record { graph = graph.now; segments = segments.now }) automaton.now.transitions on.now fans.old.items fans.new.items) }
    ensures targets { IfOk result (λ i. AllByRecursion (HasTargets nodes.now) fans.new.items) }
{
    if let Some(known) = known_fan(automaton, on, fans) {
        return Ok(known);
    }
    let all = symbol_hops(alloc, graph, segments, on, steps)?;
    let hops = by_node(alloc, nodes, &all)?;
    let targets = targets_of(alloc, nodes, &hops)?;
    let next = fans.len();
    fans.push(Fan {
        symbol: i,
        hops,
        targets,
    })?;
    Ok(next)
}

// Hops by the place of the node from which they lead.
fn by_node(alloc: Global, nodes: &[Id], hops: &[Hop]) -> Result<ByNumber<Hop>, Memory>
    requires ascend { Ascends nat_cmp nodes.now }
    requires there { AllByRecursion (λ h. is_among nodes.now h.from ≡ true) hops.now }
    ensures { IfOk result (λ kept. (node : ℕ) → row_of kept (place_in nodes.now node) ≡ at_key (λ h. h.from) node hops.now) }
{
    let places = places_left(alloc, nodes, hops)?;
    ByNumber::of(alloc, hops, &places, nodes.len())
}

// The places of the nodes from which hops lead.
#[inline(never)]
fn places_left(alloc: Global, nodes: &[Id], hops: &[Hop]) -> Result<Vec<usize>, Memory>
    requires { Ascends nat_cmp nodes.now }
    ensures { IfOk result (λ places. places.items ≡ map (λ h. place_in nodes.now h.from) hops.now) }
{
    let first = first_of(nodes);
    let mut places = Vec::with_capacity(alloc, hops.len())?;
    for hop in hops {
        places.push(place_near(nodes, first, hop.from))?;
    }
    Ok(places)
}

// The places of the nodes to which hops lead, beside these.
fn targets_of(alloc: Global, nodes: &[Id], hops: &ByNumber<Hop>) -> Result<ByNumber<usize>, Memory>
    requires { Ascends nat_cmp nodes.now }
    ensures { IfOk result (λ targets. (place : ℕ) → row_of targets place ≡ map (λ h. place_in nodes.now h.to) (row_of hops.now place)) }
{
    let places = places_reached(alloc, nodes, hops.as_slice())?;
    hops.beside(alloc, places)
}

#[inline(never)]
fn places_reached(alloc: Global, nodes: &[Id], hops: &[Hop]) -> Result<Vec<usize>, Memory>
    requires { Ascends nat_cmp nodes.now }
    ensures { IfOk result (λ places. places.items ≡ map (λ h. place_in nodes.now h.to) hops.now) }
{
    let first = first_of(nodes);
    let mut places = Vec::with_capacity(alloc, hops.len())?;
    for hop in hops {
        places.push(place_near(nodes, first, hop.to))?;
    }
    Ok(places)
}

// Legs by the state that they leave, of which each is below a number.
pub(crate) fn by_state(alloc: Global, legs: &[Leg], width: usize) -> Result<ByNumber<Leg>, Memory>
    requires { AllByRecursion (λ leg. leg.from < width) legs.now }
    ensures { IfOk result (λ kept. (state : ℕ) → row_of kept state ≡ at_key (λ leg. leg.from) state legs.now) }
{
    let states = states_left(alloc, legs)?;
    ByNumber::of(alloc, legs, &states, width)
}

fn states_left(alloc: Global, legs: &[Leg]) -> Result<Vec<usize>, Memory>
    ensures { IfOk result (λ states. states.items ≡ map (λ leg. leg.from) legs.now) }
{
    let states = legs.iter().map(|leg| leg.from as usize).collect(alloc)?;
    Ok(states)
}

// The number of the first fan of a symbol.
fn known_fan(automaton: &Automaton, on: &On, fans: &[Fan]) -> Option<usize>
    ensures { result ≡ position (is_fan_of automaton.now.transitions on.now) fans.now }
{
    fans.iter().position(|fan| is_of(automaton, on, fan))
}

fn is_of(automaton: &Automaton, on: &On, fan: &Fan) -> bool
    ensures { result ≡ is_fan_of automaton.now.transitions on.now fan.now }
{
    match automaton.transition(fan.symbol) {
        None => false,
        Some(transition) => same(on, &transition.on),
    }
}

// Whether two symbols are the same.
fn same(a: &On, b: &On) -> bool
    ensures { result ≡ same_symbol a.now b.now }
{
    match (a, b) {
        (On::Empty, On::Empty) | (On::Any, On::Any) | (On::AnyBack, On::AnyBack) => true,
        (On::Label(l), On::Label(k)) => l == k,
        (On::Back(l), On::Back(k)) => l == k,
        (On::Test(l), On::Test(k)) => l == k,
        (On::View(v), On::View(w)) => v == w,
        _ => false,
    }
}
