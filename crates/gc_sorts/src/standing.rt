ghost use Rattle.std.specs.Prelude.{◌≡◌, ◌++◌, [], map, if◌then◌else◌, slice_get, unwrap_or, IsTrue, Option};
ghost use Rattle.std.specs.Option.{option_map};
ghost use Rattle.gc_expr.specs.Views.{name_of};
ghost use Rattle.gc_sorts.specs.Expressions.{found_form, role_form, use_form, name_form, may_ask};
ghost use Rattle.gc_sorts.specs.Variables.{use_by, first_use};
ghost use Rattle.gc_sorts.specs.Graphs.{has_name};

use crate::form::Form;
use crate::index::Index;
use crate::sort::{Role, UseAt};
use crate::variables::Variables;
use gc_base::Sym;
use std::marker::Model;

/// Where an expression stands: the places of the variables in scope, and in a WHEN those of the
/// CONSTRUCT, with the paths that it stores; and of each EXISTS, whether it may stand there.
#[derive(Drop)]
pub(crate) struct Place<'a, 'n> {
    pub variables: &'a Variables<'n>,
    pub made: &'a Variables<'n>,
    pub stored: &'a Index<'n>,
    pub is_when: bool,
    pub exists: &'a [bool],
}

impl<'a, 'n> Model for Place<'a, 'n> {
    ghost use Rattle.std.specs.Prelude.{◌≡◌, ◌++◌, [], if◌then◌else◌};
    ghost use Rattle.gc_sorts.specs.Holders as holders;

    ghost Value = { holders.HeldPlace };

    ghost view = { λ p. record {
      names = p.variables.now.names;
      at = record {
        uses = (if p.is_when then p.variables.now.uses ++ p.made.now.uses else p.variables.now.uses);
        stored =
            (if p.is_when then p.stored.now.order else []);
        exists = p.exists.now;
      };
    } };

    ghost invariant = { λ p. (p.made.now.names ≡ p.variables.now.names) × (p.stored.now.names ≡ p.variables.now.names) };
}

impl<'a, 'n> Place<'a, 'n> {
    /// What is known of a name there.
    pub fn form_of(&self, name: Sym) -> Form
        ensures { result ≡ name_form self.now.at (name_of self.now.names name) }
    {
        let is_stored = self.stores(name);
        match self.first(name) {
            None => Form::Unknown,
            Some(first) => role_form(is_stored, first.role),
        }
    }

    // The first place of a variable that is in scope.
    fn first(&self, name: Sym) -> Option<UseAt>
        ensures { option_map (use_by self.now.names) result ≡ first_use self.now.at.uses (name_of self.now.names name) }
    {
        match self.variables.first(name) {
            Some(first) => Some(first),
            None => {
                if self.is_when {
                    self.made.first(name)
                } else {
                    None
                }
            }
        }
    }

    // Whether a name is a path that the CONSTRUCT stores.
    fn stores(&self, name: Sym) -> bool
        ensures { result ≡ has_name self.now.at.stored (name_of self.now.names name) }
    {
        self.is_when && self.stored.has(name)
    }

    /// Whether the EXISTS of a number may stand there.
    pub fn may_ask(&self, number: u32) -> bool
        ensures { result ≡ may_ask self.now.at number }
    {
        match self.exists.get(number as usize) {
            Some(may) => *may,
            None => false,
        }
    }
}

// What a variable is, by what it is at its first place.
fn role_form(is_stored: bool, role: Role) -> Form
    ensures { result ≡ role_form is_stored role }
{
    match role {
        Role::Node => Form::Node,
        Role::Edge => Form::Edge,
        Role::Stored => Form::Stored,
        Role::Found => found_form(is_stored),
        Role::All => Form::All,
        Role::Property | Role::Cost => Form::Value,
    }
}

fn found_form(is_stored: bool) -> Form
    ensures { result ≡ found_form is_stored }
{
    if is_stored { Form::Kept } else { Form::Found }
}
