ghost use Rattle.std.specs.Prelude.{◌≡◌, ◌≤◌, ◌<◌, ◌+◌, ◌++◌, [], length, take, drop, set, OnOk, OnErr, IfOk};
ghost use Rattle.std.specs.List.{insert};

use crate::duplicate::{Duplicate, copies};
use crate::growth::insert_at;
use crate::memory::Memory;
use std::alloc::Global;
use std::marker::Model;
use std::rc::Rc;

/// A list that its copies share until one of them changes. Contracts see the list.
#[derive(Debug, Drop)]
pub(crate) struct Shared<T> {
    items: Option<Rc<Vec<T>>>,
}

impl<T> Model for Shared<T> {
    ghost use Rattle.std.specs.Prelude.{List, []};
    ghost use Rattle.std.specs.Option.{option_map, unwrap_or};

    ghost Value = { List T };

    ghost view = { λ s. unwrap_or (option_map (λ rc. rc.value.items) s.items) [] };
}

impl<T> Shared<T> {
    /// The list without items. It takes no memory.
    pub(crate) fn empty() -> Shared<T>
        ensures { result ≡ [] }
    {
        Shared { items: None }
    }

    /// All items.
    pub(crate) fn as_slice(&self) -> &[T]
        ensures { result.now ≡ self.now }
    {
        match &self.items {
            None => &[],
            Some(items) => items.as_slice(),
        }
    }
}

impl<T: Drop> Shared<T> {
    /// The same list. It takes no memory.
    pub(crate) fn share(&self) -> Result<Shared<T>, Memory>
        ensures { IfOk result (λ shared. shared ≡ self.now) }
    {
        match &self.items {
            None => Ok(Shared { items: None }),
            Some(items) => Ok(Shared {
                items: Some(items.clone()?),
            }),
        }
    }
}

impl<T: Duplicate + Drop> Shared<T> {
    /// Inserts an item at a place up to the length.
    pub(crate) fn insert(&mut self, alloc: Global, place: usize, item: T) -> Result<(), Memory>
        requires { place ≤ length self.old }
        ensures ok { OnOk result (self.new ≡ insert self.old place item) }
        ensures err { OnErr result (self.new ≡ self.old) }
    {
        self.own(alloc)?;
        let Some(shared) = &mut self.items else {
            return Err(Memory);
        };
        let Some(items) = Rc::get_mut(shared) else {
            return Err(Memory);
        };
        insert_at(items, place, item)
    }

    /// Puts an item in place of that at a place below the length.
    pub(crate) fn replace(&mut self, alloc: Global, place: usize, item: T) -> Result<(), Memory>
        requires { place < length self.old }
        ensures ok { OnOk result (self.new ≡ set self.old place item) }
        ensures err { OnErr result (self.new ≡ self.old) }
    {
        self.own(alloc)?;
        let Some(shared) = &mut self.items else {
            return Err(Memory);
        };
        let Some(items) = Rc::get_mut(shared) else {
            return Err(Memory);
        };
        items[place] = item;
        Ok(())
    }

    /// Takes the item at a place below the length away.
    pub(crate) fn remove(&mut self, alloc: Global, place: usize) -> Result<(), Memory>
        requires { place < length self.old }
        ensures ok { OnOk result (self.new ≡ take place self.old ++ drop (place + 1) self.old) }
        ensures err { OnErr result (self.new ≡ self.old) }
    {
        self.own(alloc)?;
        let Some(shared) = &mut self.items else {
            return Err(Memory);
        };
        let Some(items) = Rc::get_mut(shared) else {
            return Err(Memory);
        };
        let _removed = items.remove(place);
        Ok(())
    }

    // Makes this list the only one that holds its items.
    fn own(&mut self, alloc: Global) -> Result<(), Memory>
        ensures { self.new ≡ self.old }
    {
        match &self.items {
            None => self.items = Some(Rc::new(alloc, Vec::new(alloc))?),
            Some(items) => {
                if Rc::strong_count(items) > 1 {
                    let copied = copies(alloc, items.as_slice())?;
                    self.items = Some(Rc::new(alloc, copied)?);
                }
            }
        }
        Ok(())
    }
}
