ghost use Rattle.std.specs.Prelude.{◌≡◌, length, IfOk};

use crate::memory::Memory;
use std::alloc::Global;

/// Data that can be copied while memory lasts.
pub trait Duplicate {
    /// An equal value.
    fn copy(&self) -> Result<Self, Memory>
        ensures { IfOk result (λ copied. copied ≡ self.now) };
}

impl Duplicate for u8 {
    fn copy(&self) -> Result<u8, Memory> {
        Ok(*self)
    }
}

impl Duplicate for u64 {
    fn copy(&self) -> Result<u64, Memory> {
        Ok(*self)
    }
}

/// A vector of copies, in order, from the given allocator; `Memory` where that ends.
pub fn copies<T: Duplicate + Drop>(alloc: Global, items: &[T]) -> Result<Vec<T>, Memory>
    ensures { IfOk result (λ copied. copied.items ≡ items.now) }
{
    let mut copied = Vec::with_capacity(alloc, items.len())?;
    for item in items {
        copied.push(item.copy()?)?;
    }
    Ok(copied)
}
