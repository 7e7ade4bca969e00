ghost use Rattle.std.specs.Prelude.{◌≡◌};
ghost use Rattle.gc_regx.specs.Views.{regex_tree};
ghost use Rattle.gc_sorts.specs.Breaches.{first_among};
ghost use Rattle.gc_sorts.specs.Sizes.{too_many_states, out_of_range, too_many, is_in_range};

use crate::breach::{Breach, SortRule, noted, noted_if};
use gc_ast::CountAt;
use gc_automata::state_count;
use gc_regx::Regex;

/// How many states the automaton of an expression may have.
const MOST_STATES: u64 = 1024;

/// The first breach of those so far and an expression of too many states.
pub(crate) fn too_many_states(found: Option<Breach>, regex: &Regex, at: u32) -> Option<Breach>
    ensures { result ≡ first_among found (too_many_states (regex_tree regex.now) at) }
{
    noted_if(
        found,
        state_count(regex) > MOST_STATES,
        SortRule::TooLarge,
        at as u64,
    )
}

/// The first breach of those so far and a number before SHORTEST that is none of 1 to 1,000.
pub(crate) fn out_of_range(found: Option<Breach>, count: &Option<CountAt>) -> Option<Breach>
    ensures { result ≡ first_among found (out_of_range count.now) }
{
    match count {
        None => found,
        Some(k) => noted_if(
            found,
            !is_in_range(k.count),
            SortRule::KOutOfRange,
            k.token as u64,
        ),
    }
}

fn is_in_range(count: i64) -> bool
    ensures { result ≡ is_in_range count }
{
    1 <= count && count <= 1000
}

/// The first breach of those so far and a pattern, or an OPTIONAL block, too many.
pub(crate) fn too_many(found: Option<Breach>, tokens: &[u32]) -> Option<Breach>
    ensures { result ≡ first_among found (too_many tokens.now) }
{
    match tokens.get(100) {
        None => found,
        Some(token) => noted(found, SortRule::TooLarge, *token as u64),
    }
}
