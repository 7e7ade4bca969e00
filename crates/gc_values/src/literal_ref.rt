ghost use Rattle.std.specs.Prelude.{◌≡◌, IfOk};
ghost use Rattle.std.specs.Ordering.{eq_by_cmp};
ghost use Rattle.gc_base.specs.Literals.{kind_number, literal_order, text_order};
ghost use Rattle.gc_values.specs.Comparisons.{ordered_literals, test_of};
ghost use Rattle.gc_values.specs.References.{literal_seen, same_literal};

use crate::rank::Rank;
use crate::truth3::Truth3;
use gc_base::{Duplicate, Literal, Memory, Str};
use std::cmp::Ordering;

/// A literal where it lies: in an expression, or in a set.
#[derive(Clone, Copy)]
pub(crate) enum LiteralRef<'a> {
    Truth(bool),
    Number(i64),
    Text(&'a Str),
}

impl<'a> LiteralRef<'a> {
    /// A literal of a set.
    pub(crate) fn of(literal: &'a Literal) -> LiteralRef<'a>
        ensures { literal_seen result ≡ literal.now }
    {
        match literal {
            Literal::Truth(truth) => LiteralRef::Truth(*truth),
            Literal::Number(number) => LiteralRef::Number(*number),
            Literal::Text(text) => LiteralRef::Text(text),
        }
    }

    /// Their order.
    pub(crate) fn order(&self, other: &LiteralRef<'_>) -> Ordering
        ensures { result ≡ literal_order (literal_seen self.now) (literal_seen other.now) }
    {
        match (self, other) {
            (LiteralRef::Truth(a), LiteralRef::Truth(b)) => a.cmp(b),
            (LiteralRef::Number(a), LiteralRef::Number(b)) => a.cmp(b),
            (LiteralRef::Text(a), LiteralRef::Text(b)) => (*a).cmp(*b),
            _ => self.kind_number().cmp(&other.kind_number()),
        }
    }

    fn kind_number(&self) -> u8
        ensures { result ≡ kind_number (literal_seen self.now) }
    {
        match self {
            LiteralRef::Truth(_) => 0,
            LiteralRef::Number(_) => 1,
            LiteralRef::Text(_) => 2,
        }
    }

    /// Whether two are the same.
    pub(crate) fn is(&self, other: &LiteralRef<'_>) -> bool
        ensures { result ≡ same_literal (literal_seen self.now) (literal_seen other.now) }
    {
        match (self, other) {
            (LiteralRef::Truth(a), LiteralRef::Truth(b)) => a.cmp(b).is_eq(),
            (LiteralRef::Number(a), LiteralRef::Number(b)) => a.cmp(b).is_eq(),
            (LiteralRef::Text(a), LiteralRef::Text(b)) => same_text(a, b),
            _ => false,
        }
    }

    /// `<` and its kin: two are ordered where they are of one kind.
    pub(crate) fn ordered(&self, rank: Rank, other: &LiteralRef<'_>) -> Truth3
        ensures { result ≡ ordered_literals (test_of rank) (literal_seen self.now) (literal_seen other.now) }
    {
        match (self, other) {
            (LiteralRef::Truth(a), LiteralRef::Truth(b)) => Truth3::told(rank.holds(a.cmp(b))),
            (LiteralRef::Number(a), LiteralRef::Number(b)) => Truth3::told(rank.holds(a.cmp(b))),
            (LiteralRef::Text(a), LiteralRef::Text(b)) => Truth3::told(rank.holds((*a).cmp(*b))),
            _ => Truth3::Unknown,
        }
    }

    /// A copy of it.
    pub(crate) fn to_literal(&self) -> Result<Literal, Memory>
        ensures { IfOk result (λ copied. copied ≡ literal_seen self.now) }
    {
        match self {
            LiteralRef::Truth(truth) => Ok(Literal::Truth(*truth)),
            LiteralRef::Number(number) => Ok(Literal::Number(*number)),
            LiteralRef::Text(text) => Ok(Literal::Text(text.copy()?)),
        }
    }
}

// Whether two texts are the same. Texts of two lengths are told apart at once.
fn same_text(a: &Str, b: &Str) -> bool
    ensures { result ≡ eq_by_cmp text_order a.now b.now }
{
    a == b
}
