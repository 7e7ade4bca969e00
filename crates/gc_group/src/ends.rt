ghost use Rattle.std.specs.Prelude.{◌≡◌, None, Some, fold};
ghost use Rattle.std.specs.Option.{option_copied};
ghost use Rattle.gc_group.specs.Folds.{all_literals, test_of, outer};

use gc_base::{Literal, literal_cmp};
use gc_values::Val;
use std::cmp::Ordering;

/// An end of the order of literals.
#[derive(Clone, Copy)]
pub(crate) enum End {
    Least,
    Greatest,
}

impl End {
    // Whether a literal is nearer to this end than another, by how it stands to it.
    fn is_reached_by(self, order: Ordering) -> bool
        ensures { result ≡ test_of self order }
    {
        match self {
            End::Least => order.is_lt(),
            End::Greatest => order.is_gt(),
        }
    }
}

/// The literal of all rows that is nearest to an end, if they have any.
pub(crate) fn outermost(end: End, values: &[Val]) -> Option<&Literal>
    ensures { option_copied result ≡ fold (outer (test_of end)) None (all_literals values.now) }
{
    let mut so_far = None;
    for value in values {
        if let Val::Set(literals) = value {
            so_far = outermost_of(end, so_far, literals.as_slice());
        }
    }
    so_far
}

// Of a literal, if there is one, and of others the one that is nearest to an end.
fn outermost_of<'a>(
    end: End,
    first: Option<&'a Literal>,
    others: &'a [Literal],
) -> Option<&'a Literal>
    ensures { option_copied result ≡ fold (outer (test_of end)) (option_copied first.entry) others.now }
{
    let mut so_far = first;
    for literal in others {
        so_far = Some(outer(end, so_far, literal));
    }
    so_far
}

// Of two literals, of which the first may be missing, the one that is nearer to an end.
fn outer<'a>(end: End, first: Option<&'a Literal>, other: &'a Literal) -> &'a Literal
    ensures { outer (test_of end) (option_copied first.entry) other.now ≡ Some result.now }
{
    match first {
        None => other,
        Some(first) => {
            if end.is_reached_by(literal_cmp(other, first)) {
                other
            } else {
                first
            }
        }
    }
}
