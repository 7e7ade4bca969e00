ghost use Rattle.std.specs.Prelude.{◌≡◌, ◌∷◌, [], MatchOption, IfOk};
ghost use Rattle.gc_base.specs.Ascending.{Ascends, has, is_subset};
ghost use Rattle.gc_base.specs.Literals.{literal_order};
ghost use Rattle.gc_values.specs.Comparisons.{same_set};
ghost use Rattle.gc_values.specs.References.{literal_seen, literals_seen};

use crate::literal_ref::LiteralRef;
use gc_base::{Duplicate, Literal, Memory, ValueSet};
use std::alloc::Global;

/// A set of literals where it lies: a literal of an expression or a number is the set of itself.
#[derive(Clone, Copy)]
pub(crate) enum Literals<'a> {
    Empty,
    One(LiteralRef<'a>),
    Many(&'a ValueSet),
}

/// The first literal of a set, and what comes after it.
#[derive(Clone, Copy)]
pub(crate) struct First<'a> {
    pub literal: LiteralRef<'a>,
    pub rest: &'a [Literal],
}

impl<'a> Literals<'a> {
    /// The same set once more.
    pub(crate) fn again(&self) -> Literals<'a>
        ensures { literals_seen result ≡ literals_seen self.now }
    {
        match self {
            Literals::Empty => Literals::Empty,
            Literals::One(literal) => Literals::One(*literal),
            Literals::Many(values) => Literals::Many(values),
        }
    }

    /// Its first literal and the rest, unless it is empty.
    pub(crate) fn split_first(&self) -> Option<First<'a>>
        ensures { MatchOption result (literals_seen self.now ≡ []) (λ first. literals_seen self.now ≡ literal_seen first.literal ∷ first.rest.now) }
    {
        match self {
            Literals::Empty => None,
            Literals::One(literal) => Some(First {
                literal: *literal,
                rest: &[],
            }),
            Literals::Many(values) => match values.as_slice().split_first() {
                None => None,
                Some((first, rest)) => Some(First {
                    literal: LiteralRef::of(first),
                    rest,
                }),
            },
        }
    }

    /// Whether two have the same literals.
    pub(crate) fn is(&self, other: &Literals<'_>) -> bool
        ensures { result ≡ same_set (literals_seen self.now) (literals_seen other.now) }
    {
        match (self.split_first(), other.split_first()) {
            (None, None) => true,
            (Some(a), Some(b)) => a.literal.is(&b.literal) && a.rest == b.rest,
            _ => false,
        }
    }

    /// Whether it has a literal.
    pub(crate) fn has(&self, literal: &LiteralRef<'_>) -> bool
        ensures { result ≡ has literal_order (literals_seen self.now) (literal_seen literal.now) }
    {
        match self {
            Literals::Empty => false,
            Literals::One(only) => only.is(literal),
            Literals::Many(values) => is_among(values.as_slice(), literal),
        }
    }

    /// Whether each of its literals is in another set.
    pub(crate) fn subset_of(&self, other: &Literals<'_>) -> bool
        ensures { result ≡ is_subset literal_order (literals_seen self.now) (literals_seen other.now) }
    {
        match (self, other) {
            (Literals::Empty, _) => true,
            (Literals::One(literal), _) => other.has(literal),
            (Literals::Many(values), Literals::Many(others)) => values.subset_of(others),
            (Literals::Many(values), _) => values
                .as_slice()
                .iter()
                .all(|value| other.has(&LiteralRef::of(value))),
        }
    }

    /// A set of copies of them.
    pub(crate) fn to_set(&self, alloc: Global) -> Result<ValueSet, Memory>
        ensures { IfOk result (λ copied. copied ≡ literals_seen self.now) }
    {
        match self {
            Literals::Empty => Ok(ValueSet::empty(alloc)),
            Literals::One(literal) => single(alloc, literal.to_literal()?),
            Literals::Many(values) => values.copy(),
        }
    }
}

// The set of one literal.
fn single(alloc: Global, literal: Literal) -> Result<ValueSet, Memory>
    ensures { IfOk result (λ values. values ≡ literal ∷ []) }
{
    let mut values = ValueSet::empty(alloc);
    values.insert(literal)?;
    Ok(values)
}

// Whether a literal is one of some that ascend.
fn is_among(values: &[Literal], literal: &LiteralRef<'_>) -> bool
    requires { Ascends literal_order values.now }
    ensures { result ≡ has literal_order values.now (literal_seen literal.now) }
{
    values
        .binary_search_by(|value| LiteralRef::of(value).order(literal))
        .is_ok()
}
