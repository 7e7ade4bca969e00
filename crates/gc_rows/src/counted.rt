ghost use Rattle.std.specs.Prelude.{◌≡◌, IfOk};

use gc_base::{Duplicate, Memory};
use std::alloc::Global;
use std::marker::Model;
use std::rc::Rc;

/// A value behind the count of its users: a copy is one user more, and takes no memory. Contracts see the value.
#[derive(Debug, Drop)]
pub struct Counted<T> {
    value: Rc<T>,
}

impl<T> Model for Counted<T> {
    ghost Value = { T };

    ghost view = { λ c. c.value.value };
}

impl<T: Drop> Counted<T> {
    /// A value with one user.
    pub fn of(alloc: Global, value: T) -> Result<Counted<T>, Memory>
        ensures { IfOk result (λ counted. counted ≡ value) }
    {
        Ok(Counted {
            value: Rc::new(alloc, value)?,
        })
    }
}

impl<T> Counted<T> {
    /// The value.
    pub fn get(&self) -> &T
        ensures { result.now ≡ self.now }
    {
        &self.value
    }
}

impl<T: Drop> Duplicate for Counted<T> {
    fn copy(&self) -> Result<Counted<T>, Memory> {
        Ok(Counted {
            value: self.value.clone()?,
        })
    }
}
