ghost use Rattle.std.specs.Prelude.{◌≡◌, ◌+◌, Some, length, take, IfOk, OnOk};
ghost use Rattle.std.specs.Option.{option_or, option_map};
ghost use Rattle.gc_expr.specs.Views.{name_of};
ghost use Rattle.gc_sorts.specs.Orders.{first_place};
ghost use Rattle.gc_sorts.specs.Scopes.{outside, with_graph, with_view, graph_number, view_number};

use crate::index::Index;
use gc_ast::NameTable;
use gc_base::{Memory, NameAt, NameList, Sym};
use std::alloc::Global;
use std::marker::Model;

/// The graphs that are known at a place of a file, and the views in scope with their numbers.
#[derive(Drop)]
pub(crate) struct Sight<'n> {
    names: &'n NameTable,
    loaded: &'n NameList,
    declared: Index<'n>,
    views: Index<'n>,
    numbers: Vec<u32>,
    heads: u32,
}

impl<'n> Model for Sight<'n> {
    ghost use Rattle.std.specs.Prelude.{◌≡◌, length};
    ghost use Rattle.gc_sorts.specs.Collected as collected;

    ghost Value = { collected.HeldScope };

    ghost view = { λ s. record {
      names = s.names.now;
      at = record {
        loaded = s.loaded.now;
        declared = s.declared.order;
        views = s.views.order;
        numbers = s.numbers.items;
        heads = s.heads;
      };
    } };

    ghost invariant = { λ s. (s.declared.names ≡ s.names.now) × (s.views.names ≡ s.names.now) × (length s.numbers.items ≡ length s.views.order) };
}

/// How many declared graphs and views there are.
#[derive(Clone, Copy, Debug, PartialEq, Eq)]
pub(crate) struct Counts {
    pub declared: usize,
    pub views: usize,
}

impl<'n> Sight<'n> {
    /// At the begin of a file over graphs of these names.
    pub fn of(
        alloc: Global,
        names: &'n NameTable,
        loaded: &'n NameList,
    ) -> Result<Sight<'n>, Memory>
        ensures { IfOk result (λ sight. sight ≡ record { names = names.now; at = outside loaded.now }) }
    {
        let declared = Index::of(alloc, names)?;
        let views = Index::of(alloc, names)?;
        Ok(Sight {
            names,
            loaded,
            declared,
            views,
            numbers: Vec::new(alloc),
            heads: 0,
        })
    }

    /// The number of a graph, if its name is known.
    pub fn graph_number(&self, name: Sym) -> Result<Option<u32>, Memory>
        ensures { IfOk result (λ number. number ≡ graph_number self.now.at (name_of self.now.names name)) }
    {
        let loaded = place_in(self.loaded, bytes_of(self.names, name));
        let declared = self.declared.first(name);
        first_number(loaded, self.loaded.len(), declared)
    }

    /// The number of a view, if its name is in scope.
    pub fn view_number(&self, name: Sym) -> Option<u32>
        ensures { result ≡ view_number self.now.at (name_of self.now.names name) }
    {
        match self.views.first(name) {
            Some(place) => self.numbers.get(place).copied(),
            None => None,
        }
    }

    /// How much is declared.
    pub fn counts(&self) -> Counts
        ensures declared { result.declared ≡ length self.now.at.declared }
        ensures views { result.views ≡ length self.now.at.views }
        ensures numbers { result.views ≡ length self.now.at.numbers }
    {
        Counts {
            declared: self.declared.len(),
            views: self.views.len(),
        }
    }

    /// Keeps so many of the declared graphs and views.
    pub fn restore(&mut self, counts: Counts)
        ensures { self.new ≡ record {
          names = self.old.names;
          at = record self.old.at {
            declared = take counts.declared self.old.at.declared;
            views = take counts.views self.old.at.views;
            numbers = take counts.views self.old.at.numbers;
          };
        } }
    {
        self.declared.cut(counts.declared);
        self.views.cut(counts.views);
        self.numbers.truncate(counts.views);
    }

    /// Declares a graph.
    pub fn declare_graph(&mut self, name: NameAt) -> Result<(), Memory>
        ensures { OnOk result (self.new ≡ record { names = self.old.names; at = with_graph self.old.at (name_of self.old.names name.sym) }) }
    {
        self.declared.push(name.sym)
    }

    /// Declares a view, which is the next one of the file.
    pub fn declare_view(&mut self, name: NameAt) -> Result<(), Memory>
        ensures { OnOk result (self.new ≡ record { names = self.old.names; at = with_view self.old.at (name_of self.old.names name.sym) }) }
    {
        if self.heads == u32::MAX {
            return Err(Memory);
        }
        let count = self.views.len();
        self.views.push(name.sym)?;
        if self.numbers.push(self.heads).is_err() {
            self.views.cut(count);
            return Err(Memory);
        }
        self.heads += 1;
        Ok(())
    }
}

// A place as a number, or want of memory where it is past the last one.
fn numbered(place: usize) -> Result<Option<u32>, Memory>
    ensures { IfOk result (λ number. number ≡ Some place) }
{
    if place > u32::MAX as usize {
        return Err(Memory);
    }
    Ok(Some(place as u32))
}

// The same of a place in a list behind one of this length, if there is one.
fn numbered_behind(length: usize, place: Option<usize>) -> Result<Option<u32>, Memory>
    ensures { IfOk result (λ number. number ≡ option_map (λ p. p + length) place) }
{
    match place {
        None => Ok(None),
        Some(place) => match place.checked_add(length) {
            None => Err(Memory),
            Some(sum) => numbered(sum),
        },
    }
}

// The number of a place in a list, else of one in a list behind it.
fn first_number(
    place: Option<usize>,
    length: usize,
    later: Option<usize>,
) -> Result<Option<u32>, Memory>
    ensures { IfOk result (λ number. number ≡ option_or place (option_map (λ p. p + length) later)) }
{
    match place {
        Some(place) => numbered(place),
        None => numbered_behind(length, later),
    }
}

/// The bytes of the name of a number; those of a number that the table lacks are none.
pub(crate) fn bytes_of(names: &NameTable, name: Sym) -> &[u8]
    ensures { result.now ≡ name_of names.now name }
{
    if name.0 < names.len() {
        names.name(name).bytes()
    } else {
        &[]
    }
}

// The first place of a name in a list.
fn place_in(all: &NameList, name: &[u8]) -> Option<usize>
    ensures { result ≡ first_place all.now name.now }
{
    all.as_slice()
        .iter()
        .position(|other| name == other.bytes())
}
