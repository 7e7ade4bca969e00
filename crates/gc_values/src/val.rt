use gc_base::{Duplicate, Id, Memory, Sequence, ValueSet};

/// Why an expression has no value.
#[derive(Clone, Copy, Debug, PartialEq, Eq)]
pub enum Why {
    /// A number does not fit 64 bits.
    Overflow,
    /// A division by zero.
    ZeroDivisor,
    /// An operand is not one number.
    WrongKind,
}

/// The value of an expression.
#[derive(Debug, Drop)]
pub enum Val {
    /// A set of literals.
    Set(ValueSet),
    /// A node, an edge or a stored path.
    Element(Id),
    /// A walk that a search found. It is not empty, and nothing else is read of it.
    Walked,
    /// No value, for a reason.
    Undefined(Why),
}

/// A list of values.
pub type ValList = Sequence<Val>;

impl Duplicate for Val {
    fn copy(&self) -> Result<Val, Memory> {
        match self {
            Val::Set(values) => Ok(Val::Set(values.copy()?)),
            Val::Element(id) => Ok(Val::Element(*id)),
            Val::Walked => Ok(Val::Walked),
            Val::Undefined(why) => Ok(Val::Undefined(*why)),
        }
    }
}
