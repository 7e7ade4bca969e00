ghost use Rattle.std.specs.Prelude.{◌≡◌, ◌^◌, ◌-◌, map, min};
ghost use Rattle.gc_regx.specs.Trees.{row};
ghost use Rattle.gc_regx.specs.Views.{regex_tree};
ghost use Rattle.gc_automata.specs.Automata.{automaton_of, states_in};

use gc_regx::{Regex, RegexList};

/// How many states the automaton of an expression has: two for each symbol, alternation and star; or
/// the greatest number of 64 bits where that is less.
pub fn state_count(regex: &Regex) -> u64
    ensures { result ≡ min (automaton_of (regex_tree regex.now)).states (2 ^ 64 - 1) }
{
    count(regex)
}

#[tactic(auto, using(crate::proofs::Counts::count_cat, crate::proofs::Counts::count_alt, crate::proofs::Counts::count_star), unfolding(gc_regx::specs::Views::regex_tree, crate::specs::Automata::automaton_of))]
#[cycle(counting)]
pub(crate) fn count(regex: &Regex) -> u64
    ensures { result ≡ min (automaton_of (regex_tree regex.now)).states (2 ^ 64 - 1) }
{
    match regex {
        Regex::Cat(parts) => count_all(parts),
        Regex::Alt(parts) => count_all(parts).saturating_add(2),
        Regex::Star(part) => count(part).saturating_add(2),
        _ => 2,
    }
}

#[cycle(counting)]
// The states of some expressions together.
pub(crate) fn count_all(parts: &RegexList) -> u64
    ensures { result ≡ min (states_in (map (λ part. automaton_of (regex_tree part)) parts.now.items)) (2 ^ 64 - 1) }
{
    let mut all: u64 = 0;
    for part in parts {
        all = all.saturating_add(count(part));
    }
    all
}
