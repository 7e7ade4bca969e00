ghost use Rattle.std.specs.Prelude.{◌≡◌, IfOk};
ghost use Rattle.gc_values.specs.References.{value_seen};

use crate::literals::Literals;
use crate::val::{Val, Why};
use gc_base::{Id, Memory};
use std::alloc::Global;

/// A value where it lies: in a graph, in a row or in an expression. It takes no memory.
#[derive(Clone, Copy)]
pub(crate) enum ValRef<'a> {
    Set(Literals<'a>),
    Element(Id),
    Walked,
    Undefined(Why),
}

impl<'a> ValRef<'a> {
    /// A value that was made.
    pub(crate) fn of(value: &'a Val) -> ValRef<'a>
        ensures { value_seen result ≡ value.now }
    {
        match value {
            Val::Set(values) => ValRef::Set(Literals::Many(values)),
            Val::Element(id) => ValRef::Element(*id),
            Val::Walked => ValRef::Walked,
            Val::Undefined(why) => ValRef::Undefined(*why),
        }
    }

    /// The same value once more.
    pub(crate) fn again(&self) -> ValRef<'a>
        ensures { value_seen result ≡ value_seen self.now }
    {
        match self {
            ValRef::Set(values) => ValRef::Set(values.again()),
            ValRef::Element(id) => ValRef::Element(*id),
            ValRef::Walked => ValRef::Walked,
            ValRef::Undefined(why) => ValRef::Undefined(*why),
        }
    }

    /// A copy of it.
    pub(crate) fn to_val(&self, alloc: Global) -> Result<Val, Memory>
        ensures { IfOk result (λ copied. copied ≡ value_seen self.now) }
    {
        match self {
            ValRef::Set(values) => Ok(Val::Set(values.to_set(alloc)?)),
            ValRef::Element(id) => Ok(Val::Element(*id)),
            ValRef::Walked => Ok(Val::Walked),
            ValRef::Undefined(why) => Ok(Val::Undefined(*why)),
        }
    }
}
