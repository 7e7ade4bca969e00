ghost use Rattle.std.specs.Prelude.{◌≡◌, ◌==◌, IfOk, slice_get};
ghost use Rattle.std.specs.List.{find};
ghost use Rattle.std.specs.Option.{option_and_then, option_copied};
ghost use Rattle.gc_build_numbers.specs.Keys.{number_at, which_at};
ghost use Rattle.gc_build.specs.Makers.{AreEndMakers, IsMaker, maker_of};
ghost use Rattle.gc_build.specs.Makings.{descriptions_of, identity_at, identity_by, identity_of, listed_descriptions};
ghost use Rattle.gc_build_descriptions.specs.Faults.{elements_of};
ghost use Rattle.gc_build.specs.Walks.{along_graph, read_graph};

use gc_base::{Id, Memory, Sym};
use gc_build_descriptions::{Described, DescribedList, Description};
use gc_build_numbers::{Element, Numbered, NumberedList, ReadGraphs, Setting};
use gc_build_recipe::{Grouping, Variable, VariableList};
use gc_ppg::Graph;
use std::marker::Model;

/// What is read, the variables of a CONSTRUCT, their elements with descriptions, and the next identity.
#[derive(Drop)]
pub(crate) struct Making<'a> {
    pub setting: &'a Setting<'a>,
    pub reads: &'a ReadGraphs<'a>,
    pub variables: &'a VariableList,
    pub numbered: &'a NumberedList,
    pub described: &'a DescribedList,
    pub next: u64,
}

impl<'a> Model for Making<'a> {
    ghost use Rattle.gc_build.specs.Makings.{Making};

    ghost Value = { Making };

    ghost view = { λ m. record {
      setting = m.setting.now;
      variables = m.variables.now;
      numbered = m.numbered.now;
      described = m.described.now;
      next = m.next;
    } };

    ghost use Rattle.std.specs.Prelude.{◌≡◌};
    ghost use Rattle.gc_build_numbers.specs.Settings.{read_graphs};

    ghost invariant = { λ m. m.reads.now ≡ read_graphs m.setting.now };
}

/// What makes the elements of a variable, if the CONSTRUCT has it: the variable, and its elements by their
/// rows. It is looked up once for all elements.
#[derive(Clone, Copy)]
pub(crate) struct Maker<'a> {
    pub variable: Option<&'a Variable>,
    pub numbered: Option<&'a Numbered>,
}

/// What makes the elements at the ends of edges of a variable.
#[derive(Clone, Copy)]
pub(crate) struct EndMakers<'a> {
    pub source: Maker<'a>,
    pub target: Maker<'a>,
}

impl Making<'_> {
    /// The identity of an element that is grouped so and has a number. One that passes the limit is
    /// want of memory.
    pub(crate) fn identity(&self, grouping: &Grouping, number: u64) -> Result<Id, Memory>
        ensures { IfOk result (λ id. id ≡ identity_by self.now.next grouping.now number) }
    {
        let identity = match grouping {
            Grouping::Bound => Some(number),
            _ => self.next.checked_add(number),
        };
        match identity {
            None => Err(Memory),
            Some(identity) => Id::new(identity).ok_or(Memory),
        }
    }

    /// The identity that the row at a place gives to a variable, if it makes an element of it.
    pub(crate) fn identity_of(
        &self,
        place: usize,
        variable: &Variable,
    ) -> Result<Option<Id>, Memory>
        ensures { IfOk result (λ id. id ≡ identity_of self.now place variable.now) }
    {
        match self.number_at(variable.var, place) {
            None => Ok(None),
            Some(number) => Ok(Some(self.identity(&variable.grouping, number)?)),
        }
    }

    /// The same for the variable of a number, of which this makes the elements.
    pub(crate) fn identity_by_maker(
        &self,
        var: Sym,
        maker: &Maker<'_>,
        place: usize,
    ) -> Result<Option<Id>, Memory>
        requires { IsMaker self.now var maker.now }
        ensures { IfOk result (λ id. id ≡ identity_at self.now var place) }
    {
        let (Some(variable), Some(numbered)) = (maker.variable, maker.numbered) else {
            return Ok(None);
        };
        match numbered.number_in(place) {
            None => Ok(None),
            Some(number) => Ok(Some(self.identity(&variable.grouping, number)?)),
        }
    }

    /// What makes the elements at the ends of those that are grouped so.
    pub(crate) fn end_makers(&self, grouping: &Grouping) -> EndMakers<'_>
        ensures { AreEndMakers self.now grouping.now result }
    {
        match grouping {
            Grouping::Link {
                source,
                target,
                terms: _,
            } => EndMakers {
                source: self.maker_at(*source),
                target: self.maker_at(*target),
            },
            _ => EndMakers {
                source: no_maker(),
                target: no_maker(),
            },
        }
    }

    // What makes the elements of the variable of a number.
    fn maker_at(&self, var: Sym) -> Maker<'_>
        ensures { IsMaker self.now var result }
    {
        Maker {
            variable: self.variable(var),
            numbered: self.maker(var),
        }
    }

    // The number of the element that the row at a place makes of a variable.
    fn number_at(&self, var: Sym, place: usize) -> Option<u64>
        ensures { result ≡ number_at self.now.numbered var place }
    {
        match self.numbered.get(var) {
            None => None,
            Some(numbered) => numbered.number_in(place),
        }
    }

    // Which of a variable's elements the row at a place makes, if it makes one.
    fn which_at(&self, var: Sym, place: usize) -> Option<usize>
        ensures { result ≡ which_at self.now.numbered var place }
    {
        match self.numbered.get(var) {
            None => None,
            Some(numbered) => numbered.which_of(place),
        }
    }

    /// The variable of a number, if the CONSTRUCT has it.
    pub(crate) fn variable(&self, var: Sym) -> Option<&Variable>
        ensures { option_copied result ≡ find (λ v. v.var.0 == var.0) self.now.variables }
    {
        self.variables.get(var)
    }

    /// The variable of a number with its elements, if the CONSTRUCT has it.
    pub(crate) fn maker(&self, var: Sym) -> Option<&Numbered>
        ensures { option_copied result ≡ maker_of self.now var }
    {
        match self.variable(var) {
            None => None,
            Some(variable) => self.numbered.get(variable.var),
        }
    }

    /// The elements of a variable, by ascending keys.
    pub(crate) fn elements(&self, var: Sym) -> &[Element]
        ensures { result.now ≡ elements_of self.now.numbered var }
    {
        match self.numbered.get(var) {
            None => &[],
            Some(numbered) => numbered.elements.as_slice(),
        }
    }

    /// A variable with the descriptions of its elements, in their order, if the CONSTRUCT has it.
    pub(crate) fn described(&self, var: Sym) -> Option<&Described>
        ensures { option_copied result ≡ find (λ d. d.var.0 == var.0) self.now.described }
    {
        self.described.get(var)
    }

    /// The description of the element that the row at a place makes of a variable, if it makes one.
    pub(crate) fn description_at(&self, var: Sym, place: usize) -> Option<&Description>
        ensures { option_copied result ≡ option_and_then (slice_get (descriptions_of self.now.described var)) (which_at self.now.numbered var place) }
    {
        match self.which_at(var, place) {
            None => None,
            Some(which) => self.description_of(var, which),
        }
    }

    // The description of one of a variable's elements, if there is one at that place.
    fn description_of(&self, var: Sym, which: usize) -> Option<&Description>
        ensures { option_copied result ≡ slice_get (descriptions_of self.now.described var) which }
    {
        description_in(self.described(var), which)
    }

    /// The graph in which a variable is read, if it has one.
    pub(crate) fn read_graph(&self, var: Sym) -> Option<&Graph>
        ensures { option_copied result ≡ read_graph self.now.setting var }
    {
        self.reads.own_graph(var)
    }

    /// The graph in which the elements on a variable's walk are read, if it has one.
    pub(crate) fn along_graph(&self, var: Sym) -> Option<&Graph>
        ensures { option_copied result ≡ along_graph self.now.setting var }
    {
        self.reads.walk_graph(var)
    }

    /// The graph of a number.
    pub(crate) fn graph(&self, number: u32) -> Option<&Graph>
        ensures { option_copied result ≡ slice_get self.now.setting.graphs number }
    {
        let setting = self.setting;
        setting.graphs.as_slice().get(number as usize)
    }
}

/// The description of the element at a place among those of a variable, if the CONSTRUCT has that.
pub(crate) fn description_in(described: Option<&Described>, place: usize) -> Option<&Description>
    ensures { option_copied result ≡ slice_get (listed_descriptions (option_copied described.entry)) place }
{
    match described {
        None => None,
        Some(described) => described.descriptions.get(place),
    }
}

fn no_maker<'a>() -> Maker<'a> {
    Maker {
        variable: None,
        numbered: None,
    }
}
