ghost use Rattle.std.specs.Prelude.{◌≡◌, drop};
ghost use Rattle.gc_values.specs.ExprValues.{first_folded};
ghost use Rattle.gc_values.specs.References.{value_seen};

use crate::literals::Literals;
use crate::val::Val;
use crate::val_ref::ValRef;
use std::marker::Model;

/// The values of the aggregates that an evaluation has not come to yet.
#[derive(Drop)]
pub(crate) struct Folded<'a> {
    rest: &'a [Val],
}

impl<'a> Model for Folded<'a> {
    ghost use Rattle.std.specs.Prelude.{List};
    ghost use Rattle.gc_values.specs.declared.val.Val.{Val};

    ghost Value = { List Val };

    ghost view = { λ f. f.rest.now };
}

impl<'a> Folded<'a> {
    /// All of these values.
    pub(crate) fn of(values: &'a [Val]) -> Folded<'a>
        ensures { result ≡ values.now }
    {
        Folded { rest: values }
    }

    /// The first value, which is then taken; the empty set where there is none.
    pub(crate) fn next(&mut self) -> ValRef<'a>
        ensures value { value_seen result ≡ first_folded self.old }
        ensures rest { self.new ≡ drop 1 self.old }
    {
        match self.rest.split_first() {
            None => ValRef::Set(Literals::Empty),
            Some((first, rest)) => {
                self.rest = rest;
                ValRef::of(first)
            }
        }
    }
}
