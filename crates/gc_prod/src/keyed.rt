ghost use Rattle.std.specs.Prelude.{◌≡◌, ◌≤◌, ℕ, length, take, IfOk, nat_lt, true, false, List};
ghost use Rattle.std.specs.List.Sorted.{IsPartitionPoint};
ghost use Rattle.gc_prod.specs.Keys.{at_key};

use gc_base::Memory;
use std::marker::Model;

/// What has a number as its key.
pub trait Keyed {
    /// Its key.
    ghost key_of: { Self → ℕ };

    /// Its key.
    fn key(&self) -> u64
        ensures { result ≡ key_of self.now };
}

/// Items by their keys. Contracts see the list, which ascends by key.
#[derive(Drop)]
pub struct ByKey<T: Keyed> {
    items: Vec<T>,
}

impl<T: Keyed> Model for ByKey<T> {
    ghost use Rattle.std.specs.Prelude.{List};
    ghost use Rattle.std.specs.List.Sorted.{IsNonDecreasingBy};

    ghost Value = { List T };

    ghost view = { λ b. b.items.items };

    ghost invariant = { λ b. IsNonDecreasingBy T.key_of b.items.items };
}

impl<T: Keyed + Drop> ByKey<T> {
    /// These items, by key; those of one key stay in their order.
    pub fn of(items: Vec<T>) -> Result<ByKey<T>, Memory>
        ensures { IfOk result (λ sorted. (key : ℕ) → at_key T.key_of key sorted ≡ at_key T.key_of key items.items) }
    {
        let mut items = items;
        items.sort_by_key(|item| item.key())?;
        Ok(ByKey { items })
    }

    /// All items, by key.
    pub fn as_slice(&self) -> &[T]
        ensures { result.now ≡ self.now }
    {
        &self.items
    }

    /// The items of a key, in their order.
    pub fn at(&self, key: u64) -> &[T]
        ensures { result.now ≡ at_key T.key_of key self.now }
    {
        let start = self.items.partition_point(|item| item.key() < key);
        let rest = &self.items[start..];
        let count = rest.partition_point(|item| item.key() <= key);
        &rest[..count]
    }
}
