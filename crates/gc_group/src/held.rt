ghost use Rattle.std.specs.Prelude.{◌≡◌, IfOk};
ghost use Rattle.std.specs.List.Sorted.{IsPermutation, IsSortedByKey, IsStableByKey};
ghost use Rattle.gc_group.specs.Gathered.{keyed_rows};
ghost use Rattle.gc_group.specs.Groups.{key_order};

use crate::key::Key;
use crate::ranks::{Ranks, ranked_cmp};
use gc_base::Memory;
use std::alloc::Global;
use std::cmp::Ordering;
use std::marker::Model;

/// The number of a row that has a key, and the key where it stands, with its ranks. Contracts see the row and the key.
#[derive(Drop)]
pub(crate) struct Held<'a> {
    pub key: &'a Key,
    pub row: u64,
    ranks: Ranks,
}

impl<'a> Model for Held<'a> {
    ghost use Rattle.gc_group.specs.Gathered.{KeyedRow};

    ghost Value = { KeyedRow };

    ghost view = { λ h. record { key = h.key.now; row = h.row } };

    ghost use Rattle.gc_group.specs.Ranks.{AreRanksOf};

    ghost invariant = { λ h. AreRanksOf h.key.now.parts h.ranks };
}

impl<'a> Held<'a> {
    // A row of this number with its key.
    fn of(key: &'a Key, row: u64) -> Held<'a>
        ensures { result ≡ record { key = key.now; row = row } }
    {
        Held {
            key,
            row,
            ranks: Ranks::of(key),
        }
    }
}

/// The rows that have keys, in order.
pub(crate) fn keyed_rows(alloc: Global, keys: &[Option<Key>]) -> Result<Vec<Held<'_>>, Memory>
    ensures { IfOk result (λ held. held.items ≡ keyed_rows keys.now) }
{
    let mut held = Vec::with_capacity(alloc, keys.len())?;
    for (row, key) in keys.iter().enumerate() {
        if let Some(key) = key {
            held.push(Held::of(key, row as u64))?;
        }
    }
    Ok(held)
}

/// These rows by ascending keys; rows of one key stay in their order.
pub(crate) fn sorted(mut held: Vec<Held<'_>>) -> Result<Vec<Held<'_>>, Memory>
    ensures ascend { IfOk result (λ sorted. IsSortedByKey (λ r. r.key) key_order sorted.items) }
    ensures same { IfOk result (λ sorted. IsPermutation held.entry.items sorted.items) }
    ensures stable { IfOk result (λ sorted. IsStableByKey (λ r. r.key) key_order held.entry.items sorted.items) }
{
    held.sort_by(|a, b| held_cmp(a, b))?;
    Ok(held)
}

// The order of the keys of two rows.
fn held_cmp(a: &Held<'_>, b: &Held<'_>) -> Ordering
    ensures { result ≡ key_order a.now.key b.now.key }
{
    ranked_cmp(a.ranks, b.ranks, a.key, b.key)
}
