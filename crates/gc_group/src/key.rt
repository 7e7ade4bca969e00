ghost use Rattle.std.specs.Prelude.{◌≡◌, IfOk};
ghost use Rattle.gc_group.specs.Groups.{key_order};

use crate::key_parts::KeyParts;
use gc_base::Memory;
use std::alloc::Global;
use std::cmp::Ordering;

/// What a row is grouped by.
#[derive(Debug, Drop)]
pub struct Key {
    /// What each variable stands for, or `None` where it is unbound.
    pub parts: KeyParts,
}

impl Key {
    /// A copy from the given allocator.
    pub(crate) fn copied(&self, alloc: Global) -> Result<Key, Memory>
        ensures { IfOk result (λ copied. copied ≡ self.now) }
    {
        Ok(Key {
            parts: self.parts.copied(alloc)?,
        })
    }
}

/// The order of keys: part by part, unbound first.
pub(crate) fn key_cmp(a: &Key, b: &Key) -> Ordering
    ensures { result ≡ key_order a.now b.now }
{
    a.parts.as_slice().cmp(b.parts.as_slice())
}
