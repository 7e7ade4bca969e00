ghost use Rattle.std.specs.Prelude.{◌≡◌, IfOk, IfErr, slice_get, OnOk};
ghost use Rattle.std.specs.Option.{option_copied};
ghost use Rattle.std.specs.List.Sorted.{IsPermutation, IsSorted};
ghost use Rattle.gc_regx.specs.Views.{regex_tree};
ghost use Rattle.gc_automata.specs.Automata.{automaton_of};
ghost use Rattle.gc_automata.specs.Machines.{IsRegexRefusal, IsAutomatonOf, transition_order};
ghost use Rattle.gc_automata.specs.declared.automaton.RegexRefusal.TheVariants.{Memory as OutOfMemory};

use crate::building::build;
use crate::counting::state_count;
use crate::transition::Transition;
use gc_base::Memory;
use gc_regx::Regex;
use std::alloc::{AllocError, Global};
use std::cmp::Ordering;
use std::marker::Model;

/// The greatest number of states of an automaton.
const MOST_STATES: u64 = 1_024;

/// Why an expression has no automaton.
#[derive(Debug, Drop)]
pub enum RegexRefusal {
    /// It would have more than 1,024 states.
    TooManyStates,
    /// Want of memory.
    Memory,
}

impl From<Memory> for RegexRefusal {
    ghost from_gives = { λ _ refusal. refusal ≡ OutOfMemory };

    fn from(_want: Memory) -> RegexRefusal {
        RegexRefusal::Memory
    }
}

/// An automaton. Its states are numbered from 0, where it starts; the last one accepts. Contracts see
/// how many states there are, and the list of transitions.
#[derive(Debug, Drop)]
pub struct Automaton {
    states: u32,
    transitions: Vec<Transition>,
}

impl Model for Automaton {
    ghost use Rattle.gc_automata.specs.Machines.{Machine};

    ghost Value = { Machine };

    ghost view = { λ a. record { states = a.states; transitions = a.transitions.items } };
}

impl Automaton {
    /// The automaton of an expression. It is refused exactly where it would have more than 1,024
    /// states.
    pub fn of(alloc: Global, regex: &Regex) -> Result<Automaton, RegexRefusal>
        ensures exact { IfOk result (IsAutomatonOf (regex_tree regex.now)) }
        ensures refused { IfErr result (IsRegexRefusal (regex_tree regex.now)) }
    {
        if state_count(regex) > MOST_STATES {
            return Err(RegexRefusal::TooManyStates);
        }
        let mut transitions = Vec::new(alloc);
        let states = build(regex, 0, &mut transitions)?;
        let transitions = sort(transitions)?;
        Ok(Automaton {
            states,
            transitions,
        })
    }

    /// How many states there are.
    pub fn states(&self) -> u32
        ensures { result ≡ self.now.states }
    {
        self.states
    }

    /// The transition at a place, by the state left and then the state reached, or `None` exactly past
    /// the last.
    pub fn transition(&self, i: u32) -> Option<&Transition>
        ensures { option_copied result ≡ slice_get self.now.transitions i }
    {
        self.transitions.get(i as usize)
    }
}

// The transitions by the state left, and then by the state reached.
fn sort(mut transitions: Vec<Transition>) -> Result<Vec<Transition>, Memory>
    ensures same { IfOk result (λ sorted. IsPermutation transitions.items sorted.items) }
    ensures ascend { IfOk result (λ sorted. IsSorted transition_order sorted.items) }
{
    transitions.sort_by(|a, b| transition_cmp(a, b))?;
    Ok(transitions)
}

fn transition_cmp(a: &Transition, b: &Transition) -> Ordering
    ensures { result ≡ transition_order a.now b.now }
{
    a.from.cmp(&b.from).then(a.to.cmp(&b.to))
}
