ghost use Rattle.std.specs.Prelude.{◌≡◌};
ghost use Rattle.gc_values.specs.Comparisons.{equal, ordered, ordered_sets, test_of, member, member_of, included, compared};
ghost use Rattle.gc_values.specs.References.{literals_seen, value_seen};

use crate::literals::Literals;
use crate::rank::Rank;
use crate::truth3::Truth3;
use crate::val_ref::ValRef;
use gc_expr::Comparison;

/// The truth of a comparison.
pub(crate) fn compared(how: Comparison, a: &ValRef<'_>, b: &ValRef<'_>) -> Truth3
    ensures { result ≡ compared how (value_seen a.now) (value_seen b.now) }
{
    match how {
        Comparison::Equal => equal(a, b),
        Comparison::Unequal => equal(a, b).denied(),
        Comparison::Less => ordered(Rank::Less, a, b),
        Comparison::LessEqual => ordered(Rank::LessEqual, a, b),
        Comparison::Greater => ordered(Rank::Greater, a, b),
        Comparison::GreaterEqual => ordered(Rank::GreaterEqual, a, b),
        Comparison::Member => member(a, b),
        Comparison::Included => included(a, b),
    }
}

// `=`
fn equal(a: &ValRef<'_>, b: &ValRef<'_>) -> Truth3
    ensures { result ≡ equal (value_seen a.now) (value_seen b.now) }
{
    match (a, b) {
        (ValRef::Undefined(_), _) | (_, ValRef::Undefined(_)) => Truth3::Unknown,
        (ValRef::Set(a), ValRef::Set(b)) => Truth3::told(a.is(b)),
        (ValRef::Element(a), ValRef::Element(b)) => Truth3::told(a == b),
        _ => Truth3::No,
    }
}

// `<` and its kin.
fn ordered(rank: Rank, a: &ValRef<'_>, b: &ValRef<'_>) -> Truth3
    ensures { result ≡ ordered (test_of rank) (value_seen a.now) (value_seen b.now) }
{
    match (a, b) {
        (ValRef::Set(a), ValRef::Set(b)) => ordered_sets(rank, a, b),
        _ => Truth3::Unknown,
    }
}

fn ordered_sets(rank: Rank, a: &Literals<'_>, b: &Literals<'_>) -> Truth3
    ensures { result ≡ ordered_sets (test_of rank) (literals_seen a.now) (literals_seen b.now) }
{
    match (a.split_first(), b.split_first()) {
        (None, _) | (_, None) => Truth3::No,
        (Some(a), Some(b)) => {
            if a.rest.is_empty() && b.rest.is_empty() {
                a.literal.ordered(rank, &b.literal)
            } else {
                Truth3::Unknown
            }
        }
    }
}

// `IN`
fn member(a: &ValRef<'_>, b: &ValRef<'_>) -> Truth3
    ensures { result ≡ member (value_seen a.now) (value_seen b.now) }
{
    match (a, b) {
        (ValRef::Set(a), ValRef::Set(b)) => member_of(a, b),
        _ => Truth3::Unknown,
    }
}

fn member_of(values: &Literals<'_>, set: &Literals<'_>) -> Truth3
    ensures { result ≡ member_of (literals_seen values.now) (literals_seen set.now) }
{
    match values.split_first() {
        None => Truth3::No,
        Some(first) => {
            if first.rest.is_empty() {
                Truth3::told(set.has(&first.literal))
            } else {
                Truth3::Unknown
            }
        }
    }
}

// `SUBSET`
fn included(a: &ValRef<'_>, b: &ValRef<'_>) -> Truth3
    ensures { result ≡ included (value_seen a.now) (value_seen b.now) }
{
    match (a, b) {
        (ValRef::Set(a), ValRef::Set(b)) => Truth3::told(a.subset_of(b)),
        _ => Truth3::Unknown,
    }
}
