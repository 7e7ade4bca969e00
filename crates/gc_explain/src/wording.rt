ghost use Rattle.std.specs.Prelude.{◌≡◌};
ghost use Rattle.std.specs.List.{list_all, list_any};
ghost use Rattle.gc_rows.specs.Rows.{lists};
ghost use Rattle.gc_explain.specs.ExplainedWords.{by_bound, class_of, from_bound, searched_from, word_of};

use crate::step::StepWord;
use gc_alg::AtomWhat;
use gc_base::Sym;
use gc_rows::is_listed;

/// How an atom may come where variables are bound, if it may.
pub(crate) fn word_of(bound: &[Sym], what: &AtomWhat) -> Option<StepWord>
    ensures { result ≡ word_of bound.now what.now }
{
    match what {
        AtomWhat::Node { x, .. } => by_bound(bound, &[*x], Some(StepWord::Scan)),
        AtomWhat::Edge { x, e, y, .. } => by_bound(bound, &[*x, *e, *y], None),
        AtomWhat::Property { x, value, .. } => from_bound(bound, *x, *value, StepWord::Expand),
        AtomWhat::Stored { x, p, y, .. } => by_bound(bound, &[*x, *p, *y], Some(StepWord::Scan)),
        AtomWhat::Reach { x, y, .. } => from_bound(bound, *x, *y, StepWord::Search),
        AtomWhat::Found { x, .. } => searched(bound, *x),
        AtomWhat::All { x, .. } => searched(bound, *x),
    }
}

// An atom of these variables, of which all, some or none are bound.
fn by_bound(bound: &[Sym], vars: &[Sym], none: Option<StepWord>) -> Option<StepWord>
    ensures { result ≡ by_bound bound.now vars.now none }
{
    if are_bound(bound, vars) {
        Some(StepWord::Check)
    } else if is_any_bound(bound, vars) {
        Some(StepWord::Expand)
    } else {
        none
    }
}

// Whether one of some variables is bound.
fn is_any_bound(bound: &[Sym], vars: &[Sym]) -> bool
    ensures { result ≡ list_any (lists bound.now) vars.now }
{
    vars.iter().any(|var| is_listed(bound, *var))
}

// An atom that begins at a variable.
fn from_bound(bound: &[Sym], x: Sym, other: Sym, word: StepWord) -> Option<StepWord>
    ensures { result ≡ from_bound bound.now x other word }
{
    if !is_listed(bound, x) {
        return None;
    }
    if is_listed(bound, other) {
        Some(StepWord::Check)
    } else {
        Some(word)
    }
}

// Walks from a variable.
fn searched(bound: &[Sym], x: Sym) -> Option<StepWord>
    ensures { result ≡ searched_from bound.now x }
{
    if is_listed(bound, x) {
        Some(StepWord::Search)
    } else {
        None
    }
}

/// Whether all of some variables are bound.
pub(crate) fn are_bound(bound: &[Sym], vars: &[Sym]) -> bool
    ensures { result ≡ list_all (lists bound.now) vars.now }
{
    vars.iter().all(|var| is_listed(bound, *var))
}

/// The place of a word in their order.
pub(crate) fn class_of(word: StepWord) -> u8
    ensures { result ≡ class_of word }
{
    match word {
        StepWord::Check => 0,
        StepWord::Expand => 1,
        StepWord::Search => 2,
        StepWord::Scan => 3,
        StepWord::Filter => 4,
    }
}
