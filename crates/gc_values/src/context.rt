ghost use Rattle.std.specs.Prelude.{◌≡◌, ◌==◌, slice_get};
ghost use Rattle.std.specs.List.{find};
ghost use Rattle.std.specs.Option.{option_copied, option_and_then};

use crate::graphs::{own_graph, walk_graph};
use crate::reads::{Made, MadeList, Reads};
use gc_base::Sym;
use gc_ppg::{Graph, GraphList};
use gc_rows::{Datum, RowView};
use std::marker::Model;

/// What an expression is read on: a row, graphs by number, which of them each variable is read in,
/// and in a WHEN the variables of the CONSTRUCT.
#[derive(Drop)]
pub(crate) struct Context<'a> {
    pub row: &'a RowView<'a>,
    pub reads: &'a Reads,
    pub graphs: &'a GraphList,
    pub made: &'a MadeList,
}

impl<'a> Model for Context<'a> {
    ghost use Rattle.gc_values.specs.Contexts.{Context};

    ghost Value = { Context };

    ghost view = { λ c. record { row = c.row.now; reads = c.reads.now; graphs = c.graphs.now; made = c.made.now } };
}

impl Context<'_> {
    ghost use Rattle.gc_values.specs.Contexts.{own_graph, walk_graph, made_of, datum_of};

    /// The graph in which a variable's own labels, properties and walk are read, if it has one.
    pub(crate) fn own_graph(&self, var: Sym) -> Option<&Graph>
        ensures { option_copied result ≡ own_graph self.now var }
    {
        own_graph(self.reads, self.graphs, var)
    }

    /// The graph in which the elements on a variable's walk are read, if it has one.
    pub(crate) fn walk_graph(&self, var: Sym) -> Option<&Graph>
        ensures { option_copied result ≡ walk_graph self.now var }
    {
        walk_graph(self.reads, self.graphs, var)
    }

    /// What was made of a variable, if it is one of the CONSTRUCT.
    pub(crate) fn made_of(&self, var: Sym) -> Option<&Made>
        ensures { option_copied result ≡ made_of self.now var }
    {
        self.made.as_slice().iter().find(|made| made.var.0 == var.0)
    }

    /// What a variable stands for, or `None` where it is unbound.
    pub(crate) fn datum_of(&self, var: Sym) -> Option<&Datum>
        ensures { option_copied result ≡ datum_of self.now var }
    {
        match self.made_of(var) {
            Some(made) => made.datum.as_ref(),
            None => self.row.get(var),
        }
    }
}
