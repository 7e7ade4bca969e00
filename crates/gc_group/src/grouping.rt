ghost use Rattle.std.specs.Prelude.{◌≡◌, IfOk};
ghost use Rattle.std.specs.List.Sorted.{IsSortedByKey};
ghost use Rattle.gc_group.specs.Gathered.{AreGathered, alone};
ghost use Rattle.gc_group.specs.Groups.{AreGroupsOf, key_order};

use crate::held::{Held, keyed_rows, sorted};
use crate::key::{Key, key_cmp};
use crate::row_numbers::RowNumbers;
use gc_base::Memory;
use std::alloc::Global;
use std::mem;

/// A key, and the rows that have it.
#[derive(Debug, Drop)]
pub struct Group {
    pub key: Key,
    /// The numbers of these rows, ascending.
    pub rows: RowNumbers,
}

/// The groups of rows, of each of which it takes the key, in order; a row without a key is in no group.
pub fn groups(alloc: Global, keys: &[Option<Key>]) -> Result<Vec<Group>, Memory>
    ensures { IfOk result (λ groups. AreGroupsOf keys.now groups.items) }
{
    gathered(alloc, sorted(keyed_rows(alloc, keys)?)?)
}

// The groups of rows that ascend by their keys, so that those of one key stand together.
fn gathered(alloc: Global, rows: Vec<Held<'_>>) -> Result<Vec<Group>, Memory>
    requires { IsSortedByKey (λ r. r.key) key_order rows.items }
    ensures { IfOk result (λ groups. AreGathered rows.entry.items groups.items) }
{
    let mut groups = Vec::new(alloc);
    let mut rows = rows.into_iter();
    let Some(first) = rows.next() else {
        return Ok(groups);
    };
    let mut last = alone(alloc, &first)?;
    for row in rows {
        if key_cmp(&last.key, row.key).is_eq() {
            last.rows.push(row.row)?;
        } else {
            groups.push(mem::replace(&mut last, alone(alloc, &row)?))?;
        }
    }
    groups.push(last)?;
    Ok(groups)
}

// A row alone as a group.
fn alone(alloc: Global, row: &Held) -> Result<Group, Memory>
    ensures { IfOk result (λ group. group ≡ alone row.now) }
{
    let mut rows = RowNumbers::new(alloc);
    rows.push(row.row)?;
    Ok(Group {
        key: row.key.copied(alloc)?,
        rows,
    })
}
