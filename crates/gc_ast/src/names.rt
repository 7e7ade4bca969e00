ghost use Rattle.std.specs.Prelude.{◌≡◌, ◌<◌, ◌^◌, [], length, slice_get, Some, IfOk, OnOk, OnErr, is_some};
ghost use Rattle.std.specs.List.{list_any, IsDistinct};
ghost use Rattle.std.specs.Option.{option_map};
ghost use Rattle.gc_ast.specs.Names.{same_name, with_name, number_in};

use gc_base::{Duplicate, Memory, Name, Sym};
use indexmap::IndexSet;
use std::alloc::Global;
use std::marker::Model;

/// The names of a query file, numbered from 0 by first occurrence. Contracts see them in that order;
/// each is there once.
#[derive(Drop)]
pub struct NameTable {
    names: IndexSet<Name>,
}

impl Model for NameTable {
    ghost use Rattle.std.specs.Prelude.{List, ℕ, length, ◌<◌, ◌^◌};
    ghost use Rattle.std.specs.List.{IsDistinct};
    ghost use Rattle.gc_ast.specs.Names.{same_name};

    ghost Value = { List (List ℕ) };

    ghost view = { λ t. t.names.keys };

    ghost invariant = { λ t. (length t.names.keys < 2 ^ 32) × IsDistinct same_name t.names.keys };
}

impl NameTable {
    /// The table without names. It takes no memory yet.
    pub fn new(alloc: Global) -> NameTable
        ensures { result ≡ [] }
    {
        NameTable {
            names: IndexSet::new(alloc),
        }
    }

    /// How many names there are.
    pub fn len(&self) -> u32
        ensures count { result ≡ length self.now }
        ensures bound { length self.now < 2 ^ 32 }
    {
        self.names.len() as u32
    }

    /// The name of a number below the length.
    pub fn name(&self, sym: Sym) -> &Name
        requires { sym.0 < length self.now }
        ensures { slice_get self.now sym.0 ≡ Some result.now }
    {
        &self.names.as_slice()[sym.0 as usize]
    }

    /// All names, by number; each is there once.
    pub fn as_slice(&self) -> &[Name]
        ensures names { result.now ≡ self.now }
        ensures distinct { IsDistinct same_name self.now }
    {
        self.names.as_slice()
    }

    /// The number of a name, or `None` exactly where the table lacks it.
    pub fn number_of(&self, name: &Name) -> Option<Sym>
        ensures number { option_map (λ sym. sym.0) result ≡ number_in self.now name.now }
        ensures has { is_some result ≡ list_any (same_name name.now) self.now }
    {
        match self.names.get_index_of(name) {
            Some(number) => Some(Sym(number as u32)),
            None => None,
        }
    }

    /// The number of a name. A name that the table lacks gets the next number.
    pub fn intern(&mut self, name: &Name) -> Result<Sym, Memory>
        ensures names { OnOk result (self.new ≡ with_name self.old name.now) }
        ensures number { IfOk result (λ sym. slice_get self.new sym.0 ≡ Some name.now) }
        ensures err { OnErr result (self.new ≡ self.old) }
    {
        if let Some(sym) = self.number_of(name) {
            return Ok(sym);
        }
        if self.len() == u32::MAX {
            return Err(Memory);
        }
        let (number, _) = self.names.insert_full(name.copy()?)?;
        Ok(Sym(number as u32))
    }
}
