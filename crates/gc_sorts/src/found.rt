ghost use Rattle.std.specs.Prelude.{◌≡◌, ◌∷◌, [], OnOk};
ghost use Rattle.gc_expr.specs.Views.{Names, name_of};
ghost use Rattle.gc_ast.specs.PatternViews.{named, named_if, all_named_by};
ghost use Rattle.gc_sorts.specs.Collected.{collect, nothing};
ghost use Rattle.gc_sorts.specs.Occurrences.{one, Unnamed, graph_name, graph_name_if, view_names, unnamed};

use crate::numbers::TokenNumbers;
use crate::sight::Sight;
use gc_base::{Memory, NameAt};
use std::alloc::Global;
use std::marker::Model;

/// What stands at the tokens of a file: the numbers of graphs, views and hidden variables.
#[derive(Debug, Drop)]
pub(crate) struct Found {
    pub graphs: TokenNumbers,
    pub views: TokenNumbers,
    pub hidden: TokenNumbers,
    next: u32,
}

impl Model for Found {
    ghost use Rattle.gc_sorts.specs.Collected as collected;

    ghost Value = { collected.Collected };

    ghost view = { λ f. record { graphs = f.graphs; views = f.views; hidden = f.hidden; next = f.next } };
}

impl Found {
    /// Nothing yet of a file with so many names.
    pub fn new(alloc: Global, names: u32) -> Found
        ensures { result ≡ nothing names }
    {
        Found {
            graphs: TokenNumbers::new(alloc),
            views: TokenNumbers::new(alloc),
            hidden: TokenNumbers::new(alloc),
            next: names,
        }
    }

    /// Adds a graph's name.
    pub fn graph(&mut self, sight: &Sight, name: NameAt) -> Result<(), Memory>
        ensures { OnOk result (self.new ≡ collect self.old (graph_name sight.now.at (named sight.now.names name))) }
    {
        match sight.graph_number(name.sym)? {
            None => Ok(()),
            Some(number) => self.graphs.add(name.token, number),
        }
    }

    /// Adds a graph's name that may be absent.
    pub fn graph_if(&mut self, sight: &Sight, name: &Option<NameAt>) -> Result<(), Memory>
        ensures { OnOk result (self.new ≡ collect self.old (graph_name_if sight.now.at (named_if sight.now.names name.now))) }
    {
        match name {
            None => Ok(()),
            Some(name) => self.graph(sight, *name),
        }
    }

    /// Adds a view's name.
    pub fn view(&mut self, sight: &Sight, name: NameAt) -> Result<(), Memory>
        ensures { OnOk result (self.new ≡ collect self.old (view_names sight.now.at (all_named_by (name_of sight.now.names) (name ∷ [])))) }
    {
        match sight.view_number(name.sym) {
            None => Ok(()),
            Some(number) => self.views.add(name.token, number),
        }
    }

    /// Adds an element, unless it has a name.
    pub fn element(&mut self, token: u32, name: &Option<NameAt>) -> Result<(), Memory>
        ensures { (names : Names) → OnOk result (self.new ≡ collect self.old (unnamed token (named_if names name.now))) }
    {
        match name {
            None => self.unnamed(token),
            Some(_) => Ok(()),
        }
    }

    // Adds an unnamed element.
    fn unnamed(&mut self, token: u32) -> Result<(), Memory>
        ensures { OnOk result (self.new ≡ collect self.old (one (Unnamed token))) }
    {
        if self.next == u32::MAX {
            return Err(Memory);
        }
        self.hidden.add(token, self.next)?;
        self.next += 1;
        Ok(())
    }
}
