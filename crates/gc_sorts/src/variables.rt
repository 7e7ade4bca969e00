ghost use Rattle.std.specs.Prelude.{◌≡◌, ◌++◌, ◌∷◌, [], ◌≤◌, length, map, drop, take, nat_eq, IfOk, OnOk};
ghost use Rattle.std.specs.Option.{option_map};
ghost use Rattle.gc_base.specs.declared.place.Sym.{Sym as Number};
ghost use Rattle.gc_expr.specs.Views.{name_of};
ghost use Rattle.gc_ast.specs.Names.{same_name};
ghost use Rattle.gc_sorts.specs.Orders.{first_place, slot};
ghost use Rattle.gc_sorts.specs.Variables.{use_by, use_names, first_use, has_use};

use crate::index::Index;
use crate::sort::UseAt;
use gc_ast::NameTable;
use gc_base::{Memory, Sym};
use std::alloc::Global;
use std::marker::Model;

/// The places of the variables in scope, in order, those of the blocks around first.
#[derive(Drop)]
pub(crate) struct Variables<'a> {
    uses: Vec<UseAt>,
    first: Index<'a>,
}

impl<'a> Model for Variables<'a> {
    ghost use Rattle.std.specs.Prelude.{◌≡◌, map};
    ghost use Rattle.gc_sorts.specs.Variables as variables;
    ghost use Rattle.gc_sorts.specs.Variables.{use_by, use_names};

    ghost Value = { variables.Scope };

    ghost view = { λ v. record { names = v.first.names; uses = map (use_by v.first.names) v.uses.items } };

    ghost invariant = { λ v. v.first.order ≡ use_names (map (use_by v.first.names) v.uses.items) };
}

impl<'a> Variables<'a> {
    /// No places yet.
    pub fn of(alloc: Global, names: &'a NameTable) -> Result<Variables<'a>, Memory>
        ensures names { IfOk result (λ variables. variables.names ≡ names.now) }
        ensures uses { IfOk result (λ variables. variables.uses ≡ []) }
    {
        let first = Index::of(alloc, names)?;
        Ok(Variables {
            uses: Vec::new(alloc),
            first,
        })
    }

    /// How many places there are.
    pub fn len(&self) -> usize
        ensures { result ≡ length self.now.uses }
    {
        self.uses.len()
    }

    /// The slot of a number. Another number stands for the same name exactly where it has the same slot.
    pub fn slot(&self, name: Sym) -> usize
        ensures slot { result ≡ slot (length self.now.names) name }
        ensures same { (other : Number) → same_name (name_of self.now.names name) (name_of self.now.names other) ≡ nat_eq result
            (slot (length self.now.names) other) }
    {
        self.first.slot(name)
    }

    /// Whether a variable is in scope.
    pub fn has(&self, name: Sym) -> bool
        ensures { result ≡ has_use self.now.uses (name_of self.now.names name) }
    {
        self.first.has(name)
    }

    /// The first place of a variable, if it is in scope.
    pub fn first(&self, name: Sym) -> Option<UseAt>
        ensures { option_map (use_by self.now.names) result ≡ first_use self.now.uses (name_of self.now.names name) }
    {
        match self.first.first(name) {
            Some(place) => Some(self.uses[place]),
            None => None,
        }
    }

    /// The number of the first place of a variable, if it is in scope.
    pub fn first_number(&self, name: Sym) -> Option<usize>
        ensures { result ≡ first_place (use_names self.now.uses) (name_of self.now.names name) }
    {
        self.first.first(name)
    }

    /// The places from a number on.
    pub fn from(&self, n: usize) -> &[UseAt]
        requires { n ≤ length self.now.uses }
        ensures { map (use_by self.now.names) result.now ≡ drop n self.now.uses }
    {
        &self.uses[n..]
    }

    /// Adds a place at the end.
    pub fn push(&mut self, place: UseAt) -> Result<(), Memory>
        ensures names { self.new.names ≡ self.old.names }
        ensures uses { OnOk result (self.new.uses ≡ self.old.uses ++ use_by self.old.names place ∷ []) }
    {
        let count = self.uses.len();
        self.first.push(place.name)?;
        if self.uses.push(place).is_err() {
            self.first.cut(count);
            return Err(Memory);
        }
        Ok(())
    }

    /// Keeps the first n places, or all where there are no more.
    pub fn cut(&mut self, n: usize)
        ensures names { self.new.names ≡ self.old.names }
        ensures uses { self.new.uses ≡ take n self.old.uses }
    {
        self.first.cut(n);
        self.uses.truncate(n);
    }
}
