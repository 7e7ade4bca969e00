ghost use Rattle.std.specs.Prelude.{◌≡◌, ◌+◌, ◌-◌, ◌<◌, ◌^◌, ◌++◌, ◌∷◌, [], map, IfOk, OnOk};
ghost use Rattle.gc_regx.specs.Views.{regex_tree};
ghost use Rattle.gc_automata.specs.Automata.{automaton_of, go, skip, states_in, symbol, in_turn, one_of, star_of};
ghost use Rattle.gc_automata.specs.Building.{Builds, bridge, branch};

use crate::counting::{count, count_all};
use crate::transition::{On, Transition};
use gc_base::{Duplicate, Memory};
use gc_regx::{Regex, RegexList};

#[tactic(auto, using(crate::proofs::Counts::cat_automaton, crate::proofs::Counts::alt_automaton, crate::proofs::Counts::star_automaton), unfolding(gc_regx::specs::Views::regex_tree, crate::specs::Automata::automaton_of))]
#[cycle(building)]
// Puts the transitions of an expression, whose states are numbered from one on, behind those before,
// and gives the first number behind its states.
pub(crate) fn build(
    regex: &Regex,
    from: u32,
    transitions: &mut Vec<Transition>,
) -> Result<u32, Memory>
    ensures { Builds (automaton_of (regex_tree regex.now)) from transitions.old.items transitions.new.items result }
{
    match regex {
        Regex::Label(label) => build_symbol(On::Label(label.copy()?), from, transitions),
        Regex::Back(label) => build_symbol(On::Back(label.copy()?), from, transitions),
        Regex::Any => build_symbol(On::Any, from, transitions),
        Regex::AnyBack => build_symbol(On::AnyBack, from, transitions),
        Regex::Test(label) => build_symbol(On::Test(label.copy()?), from, transitions),
        Regex::View(view) => build_symbol(On::View(view.copy()?), from, transitions),
        Regex::Cat(parts) => build_in_turn(parts, from, transitions),
        Regex::Alt(parts) => build_branches(parts, from, transitions),
        Regex::Star(part) => build_star(part, from, transitions),
    }
}

// A symbol has two states.
fn build_symbol(on: On, from: u32, transitions: &mut Vec<Transition>) -> Result<u32, Memory>
    ensures { Builds (symbol on) from transitions.old.items transitions.new.items result }
{
    let to = behind(from, 1)?;
    transitions.push(Transition { from, to, on })?;
    behind(from, 2)
}

#[cycle(building)]
// Parts one after another: from the last state of each to the first of the next.
fn build_in_turn(
    parts: &RegexList,
    from: u32,
    transitions: &mut Vec<Transition>,
) -> Result<u32, Memory>
    ensures { Builds (in_turn (map (λ part. automaton_of (regex_tree part)) parts.now.items)) from transitions.old.items transitions.new.items result }
{
    let mut next = from;
    for (i, part) in parts.iter().enumerate() {
        push_bridge(i, next, transitions)?;
        next = build(part, next, transitions)?;
    }
    Ok(next)
}

// Into the first state of a part from the state before it, but not before the first part.
fn push_bridge(i: usize, next: u32, transitions: &mut Vec<Transition>) -> Result<(), Memory>
    ensures { OnOk result (transitions.new.items ≡ transitions.old.items ++ bridge i next) }
{
    if i > 0 {
        push_skip(next.saturating_sub(1), next, transitions)?;
    }
    Ok(())
}

#[cycle(building)]
// Branches between one state and another.
fn build_branches(
    parts: &RegexList,
    from: u32,
    transitions: &mut Vec<Transition>,
) -> Result<u32, Memory>
    ensures { Builds (one_of (map (λ part. automaton_of (regex_tree part)) parts.now.items)) from transitions.old.items transitions.new.items result }
{
    let mut next = behind(from, 1)?;
    let last = behind(next, count_all(parts))?;
    for part in parts {
        next = build_branch(part, from, last, next, transitions)?;
    }
    behind(last, 1)
}

#[cycle(building)]
// One branch, whose states are numbered from the next one on.
fn build_branch(
    part: &Regex,
    from: u32,
    last: u32,
    next: u32,
    transitions: &mut Vec<Transition>,
) -> Result<u32, Memory>
    ensures { Builds (branch from last (automaton_of (regex_tree part.now))) next transitions.old.items transitions.new.items result }
{
    push_skip(from, next, transitions)?;
    let end = build(part, next, transitions)?;
    push_skip(end.saturating_sub(1), last, transitions)?;
    Ok(end)
}

#[cycle(building)]
// A part any number of times.
fn build_star(part: &Regex, from: u32, transitions: &mut Vec<Transition>) -> Result<u32, Memory>
    ensures { Builds (star_of (automaton_of (regex_tree part.now))) from transitions.old.items transitions.new.items result }
{
    let first = behind(from, 1)?;
    let last = behind(first, count(part))?;
    push_skip(from, first, transitions)?;
    push_skip(from, last, transitions)?;
    let end = build(part, first, transitions)?.saturating_sub(1);
    push_skip(end, first, transitions)?;
    push_skip(end, last, transitions)?;
    behind(last, 1)
}

// A transition along nothing.
fn push_skip(from: u32, to: u32, transitions: &mut Vec<Transition>) -> Result<(), Memory>
    ensures { OnOk result (transitions.new.items ≡ transitions.old.items ++ skip from to ∷ []) }
{
    let on = On::Empty;
    transitions.push(Transition { from, to, on })?;
    Ok(())
}

// The state that is so many behind another. No state has a number past the end of its type.
fn behind(state: u32, more: u64) -> Result<u32, Memory>
    ensures { IfOk result (λ next. (next ≡ state + more) × (next < 2 ^ 32)) }
{
    match u32::try_from(u64::from(state).saturating_add(more)) {
        Ok(next) => Ok(next),
        Err(_) => Err(Memory),
    }
}
