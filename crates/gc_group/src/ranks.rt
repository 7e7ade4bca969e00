ghost use Rattle.std.specs.Prelude.{◌≡◌, ◌^◌, min};
ghost use Rattle.std.specs.Ordering.{nat_cmp, ordering_then};
ghost use Rattle.gc_group.specs.Groups.{key_order};
ghost use Rattle.gc_group.specs.Ranks.{first_rank, is_told, part_rank, second_rank};

use crate::key::{Key, key_cmp};
use gc_base::Id;
use gc_rows::Datum;
use std::cmp::Ordering;

// What identities are counted up to.
const MOST: u64 = 1 << 60;

/// Numbers that ascend with keys. They tell most keys apart without a look at the keys.
#[derive(Clone, Copy)]
pub(crate) struct Ranks {
    pub first: u64,
    pub second: u64,
}

impl Ranks {
    /// The numbers of a key.
    pub(crate) fn of(key: &Key) -> Ranks
        ensures first { result.first ≡ first_rank key.now.parts }
        ensures second { result.second ≡ second_rank key.now.parts }
    {
        let parts = key.parts.as_slice();
        Ranks {
            first: first_rank(parts),
            second: second_rank(parts),
        }
    }
}

fn first_rank(parts: &[Option<Datum>]) -> u64
    ensures { result ≡ first_rank parts.now }
{
    match parts {
        [] => 0,
        [part, ..] => part_rank(part),
    }
}

fn second_rank(parts: &[Option<Datum>]) -> u64
    ensures { result ≡ second_rank parts.now }
{
    match parts {
        [part, next, ..] => { if is_told(part) { part_rank(next) } else { 0 } }
        _ => 0,
    }
}

// The number of a part: elements of one kind by identity, unbound first.
fn part_rank(part: &Option<Datum>) -> u64
    ensures { result ≡ part_rank part.now }
{
    match part {
        None => 0,
        Some(Datum::Node(id)) => 1 + up_to_most(*id),
        Some(Datum::Edge(id)) => (1 << 61) + up_to_most(*id),
        Some(Datum::Stored(id)) => (1 << 62) + up_to_most(*id),
        Some(_) => 1 << 63,
    }
}

fn up_to_most(id: Id) -> u64
    ensures { result ≡ min id (2 ^ 60) }
{
    id.get().min(MOST)
}

// Whether no other part has the number of this one.
fn is_told(part: &Option<Datum>) -> bool
    ensures { result ≡ is_told part.now }
{
    match part {
        Some(Datum::Node(id)) | Some(Datum::Edge(id)) | Some(Datum::Stored(id)) => id.get() < MOST,
        _ => false,
    }
}

/// The order of keys with these numbers. The numbers are at hand, and mostly decide.
pub(crate) fn ranked_cmp(a: Ranks, b: Ranks, key: &Key, other: &Key) -> Ordering
    ensures { result ≡ ordering_then (nat_cmp a.first b.first) (ordering_then (nat_cmp a.second b.second) (key_order key.now other.now)) }
{
    a.first
        .cmp(&b.first)
        .then(a.second.cmp(&b.second))
        .then_with(|| key_cmp(key, other))
}
