ghost use Rattle.std.specs.Prelude.{◌≡◌, true, IfOk, IfSome};
ghost use Rattle.std.specs.Option.{SomeIff};
ghost use Rattle.gc_base.specs.Words.{is_word};

use crate::duplicate::Duplicate;
use crate::memory::Memory;
use crate::name::Name;
use std::alloc::Global;

/// How many names a pool keeps at most.
const SLOTS: usize = 256;

/// Names that were made, so that one that is made again shares its bytes. Each has a slot by its bytes,
/// and of several names with one slot the last is kept.
#[derive(Drop)]
pub struct NamePool {
    alloc: Global,
    slots: Vec<Option<Name>>,
}

impl NamePool {
    /// No names yet.
    pub fn new(alloc: Global) -> Result<NamePool, Memory> {
        let mut slots = Vec::with_capacity(alloc, SLOTS)?;
        for _ in 0..SLOTS {
            slots.push(None)?;
        }
        Ok(NamePool { alloc, slots })
    }

    /// Where its memory comes from.
    pub fn allocator(&self) -> Global {
        self.alloc
    }

    /// The name of these bytes, or `None` exactly where they have not the form of a word.
    pub fn name(&mut self, bytes: &[u8]) -> Result<Option<Name>, Memory>
        ensures { IfOk result (λ name. SomeIff name (is_word bytes.now ≡ true) bytes.now) }
    {
        match self.kept(bytes) {
            Some(name) => Ok(Some(name.copy()?)),
            None => self.made(bytes),
        }
    }

    // The name of these bytes, if it is kept.
    fn kept(&self, bytes: &[u8]) -> Option<&Name>
        ensures { IfSome result (λ name. name.now ≡ bytes.now) }
    {
        match self.slots.get(slot_of(bytes)) {
            Some(Some(name)) if name.bytes() == bytes => Some(name),
            _ => None,
        }
    }

    // A name of these bytes, which is kept.
    fn made(&mut self, bytes: &[u8]) -> Result<Option<Name>, Memory>
        ensures { IfOk result (λ name. SomeIff name (is_word bytes.now ≡ true) bytes.now) }
    {
        let Some(name) = Name::of(self.alloc, bytes)? else {
            return Ok(None);
        };
        if let Some(slot) = self.slots.get_mut(slot_of(bytes)) {
            *slot = Some(name.copy()?);
        }
        Ok(Some(name))
    }
}

// The slot of a name.
fn slot_of(bytes: &[u8]) -> usize {
    let mut hash: u32 = 0;
    for byte in bytes {
        hash = hash.wrapping_mul(31).wrapping_add(u32::from(*byte));
    }
    hash as usize % SLOTS
}
