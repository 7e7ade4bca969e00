ghost use Rattle.std.specs.Prelude.{◌≡◌, List, Option, IfOk, map};
ghost use Rattle.std.specs.List.{prefix_len};
ghost use Rattle.std.specs.List.Sorted.{IsPermutation, IsSortedByKey, IsStableByKey};
ghost use Rattle.std.specs.Ordering.{is_eq};
ghost use Rattle.gc_group.specs.Gathered.{AreGathered, keyed_rows};
ghost use Rattle.gc_group.specs.Groups.{AreGroupsOf, key_order};
ghost use Rattle.gc_group.specs.declared.key.Key.{Key};

use crate::element_key::OfElements;
use crate::grouping::Group;
use crate::row_numbers::RowNumbers;
use gc_base::Memory;
use std::alloc::Global;
use std::cmp::Ordering;
use std::marker::Model;

/// The number of a row that has a key of elements alone, and the key. Contracts see the row and the key.
#[derive(Debug, Drop)]
pub struct ElementRow<K: OfElements> {
    pub key: K,
    pub row: u64,
}

impl<K: OfElements> Model for ElementRow<K> {
    ghost use Rattle.gc_group.specs.Gathered.{KeyedRow};

    ghost Value = { KeyedRow };

    ghost view = { λ r. record { key = K.key_of r.key; row = r.row } };
}

/// The groups of rows whose keys are elements alone. It takes those that have a key, in order. Only a group gets a key
/// with its parts.
pub fn element_groups<K: OfElements + Drop>(
    alloc: Global,
    rows: Vec<ElementRow<K>>,
) -> Result<Vec<Group>, Memory>
    ensures { (keys : List (Option Key)) → rows.items ≡ keyed_rows keys → IfOk result (λ groups. AreGroupsOf keys groups.items) }
{
    gathered(alloc, &sorted(rows)?)
}

// These rows by ascending keys; rows of one key stay in their order. Rows that ascend already are left as they are.
fn sorted<K: OfElements + Drop>(mut rows: Vec<ElementRow<K>>) -> Result<Vec<ElementRow<K>>, Memory>
    ensures ascend { IfOk result (λ sorted. IsSortedByKey (λ r. r.key) key_order sorted.items) }
    ensures same { IfOk result (λ sorted. IsPermutation rows.items sorted.items) }
    ensures stable { IfOk result (λ sorted. IsStableByKey (λ r. r.key) key_order rows.items sorted.items) }
{
    rows.sort_by(|a, b| row_cmp(a, b))?;
    Ok(rows)
}

// The order of the keys of two rows.
fn row_cmp<K: OfElements>(a: &ElementRow<K>, b: &ElementRow<K>) -> Ordering
    ensures { result ≡ key_order a.now.key b.now.key }
{
    a.key.order(&b.key)
}

// The groups of rows that ascend by their keys, so that those of one key stand together.
fn gathered<K: OfElements>(alloc: Global, rows: &[ElementRow<K>]) -> Result<Vec<Group>, Memory>
    requires { IsSortedByKey (λ r. r.key) key_order rows.now }
    ensures { IfOk result (λ groups. AreGathered rows.now groups.items) }
{
    let mut groups = Vec::new(alloc);
    let mut left = rows;
    while let Some((first, _rest)) = left.split_first() {
        let (same, later) = left.split_at(run_length(&first.key, left));
        groups.push(group_of(alloc, &first.key, same)?)?;
        left = later;
    }
    Ok(groups)
}

// How many rows have a key, from the first on.
fn run_length<K: OfElements>(key: &K, rows: &[ElementRow<K>]) -> usize
    ensures { result ≡ prefix_len (λ r. is_eq (key_order (K.key_of key.now) r.key)) rows.now }
{
    for (count, row) in rows.iter().enumerate() {
        if key.order(&row.key).is_ne() {
            return count;
        }
    }
    rows.len()
}

// Rows of one key as a group.
fn group_of<K: OfElements>(alloc: Global, key: &K, rows: &[ElementRow<K>]) -> Result<Group, Memory>
    ensures { IfOk result (λ group. group ≡ record { key = K.key_of key.now; rows = map (λ r. r.row) rows.now }) }
{
    let rows = numbers_of(alloc, rows)?;
    Ok(Group {
        key: key.to_key(alloc),
        rows,
    })
}

// The numbers of rows. Where rows make edges, most groups are of one row.
fn numbers_of<K: OfElements>(alloc: Global, rows: &[ElementRow<K>]) -> Result<RowNumbers, Memory>
    ensures { IfOk result (λ numbers. numbers ≡ map (λ r. r.row) rows.now) }
{
    match rows {
        [row] => Ok(RowNumbers::of_one(alloc, row.row)),
        _ => Ok(RowNumbers::of_vec(listed(alloc, rows)?)),
    }
}

fn listed<K: OfElements>(alloc: Global, rows: &[ElementRow<K>]) -> Result<Vec<u64>, Memory>
    ensures { IfOk result (λ numbers. numbers.items ≡ map (λ r. r.row) rows.now) }
{
    let mut numbers = Vec::with_capacity(alloc, rows.len())?;
    for row in rows {
        numbers.push(row.row)?;
    }
    Ok(numbers)
}
