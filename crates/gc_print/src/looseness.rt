ghost use Rattle.std.specs.Prelude.{◌≡◌, nat_lt};
ghost use Rattle.gc_regx.specs.Views.{regex_tree};
ghost use Rattle.gc_print.specs.LooseTrees.{looseness_of, rank};

use gc_regx::Regex;

/// How loosely a regular path expression holds together, the tightest first.
#[derive(Clone, Copy)]
pub(crate) enum Looseness {
    Unit,
    Star,
    Juxtaposition,
    Alternation,
}

#[tactic(auto, unfolding(gc_regx::specs::Views::regex_tree))]
// That of an expression.
pub(crate) fn looseness_of(regex: &Regex) -> Looseness
    ensures { result ≡ looseness_of (regex_tree regex.now) }
{
    match regex {
        Regex::Star(_) => Looseness::Star,
        Regex::Cat(_) => Looseness::Juxtaposition,
        Regex::Alt(_) => Looseness::Alternation,
        _ => Looseness::Unit,
    }
}

// Whether one is looser than another.
pub(crate) fn is_looser(a: Looseness, b: Looseness) -> bool
    ensures { result ≡ nat_lt (rank b) (rank a) }
{
    rank(a) > rank(b)
}

fn rank(looseness: Looseness) -> u8
    ensures { result ≡ rank looseness }
{
    match looseness {
        Looseness::Unit => 0,
        Looseness::Star => 1,
        Looseness::Juxtaposition => 2,
        Looseness::Alternation => 3,
    }
}
