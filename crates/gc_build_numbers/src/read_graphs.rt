ghost use Rattle.std.specs.Prelude.{◌≡◌, ◌==◌, ◌++◌, ◌∷◌, [], IfOk, OnOk, slice_get};
ghost use Rattle.std.specs.List.{find};
ghost use Rattle.std.specs.Option.{option_copied};
ghost use Rattle.gc_build_numbers.specs.Settings.{read_graphs};
ghost use Rattle.gc_values.specs.Contexts.{own_among, walk_among};

use crate::setting::Setting;
use gc_base::{Memory, Sym};
use gc_build_recipe::{ByVariable, OfVariable};
use gc_ppg::{Graph, GraphList};
use gc_values::ReadUse;
use std::alloc::Global;
use std::marker::Model;

// In which graphs a variable is read. Contracts see what is told of it.
#[derive(Drop)]
struct Use {
    read: ReadUse,
}

impl Model for Use {
    ghost use Rattle.gc_values.specs.declared.reads.ReadUse.{ReadUse};

    ghost Value = { ReadUse };

    ghost view = { λ u. u.read };
}

impl OfVariable for Use {
    ghost var_of = { λ u. u.var };

    fn var(&self) -> Sym {
        self.read.var
    }
}

/// The graphs in which variables are read, of which those of a variable are one read away.
#[derive(Drop)]
pub struct ReadGraphs<'a> {
    graphs: &'a GraphList,
    uses: ByVariable<Use>,
}

impl<'a> Model for ReadGraphs<'a> {
    ghost use Rattle.gc_build_numbers.specs.Settings.{ReadGraphs};

    ghost Value = { ReadGraphs };

    ghost view = { λ r. record { reads = r.uses; graphs = r.graphs.now } };
}

impl<'a> ReadGraphs<'a> {
    /// Those of a setting. It looks at each variable once.
    pub fn of(setting: &Setting<'a>) -> Result<ReadGraphs<'a>, Memory>
        ensures { IfOk result (λ r. r ≡ read_graphs setting.now) }
    {
        let uses = uses_of(setting.alloc, setting.reads.as_slice())?;
        Ok(ReadGraphs {
            graphs: setting.graphs,
            uses,
        })
    }

    /// The graph in which a variable's own labels, properties and walk are read, if it has one.
    pub fn own_graph(&self, var: Sym) -> Option<&Graph>
        ensures { option_copied result ≡ own_among self.now.reads self.now.graphs var }
    {
        match self.read_use(var) {
            Some(read) => self.numbered(read.own),
            None => None,
        }
    }

    /// The graph in which the elements on a variable's walk are read, if it has one.
    pub fn walk_graph(&self, var: Sym) -> Option<&Graph>
        ensures { option_copied result ≡ walk_among self.now.reads self.now.graphs var }
    {
        match self.read_use(var) {
            Some(read) => self.numbered(read.walk),
            None => None,
        }
    }

    // The numbers of a variable's graphs.
    fn read_use(&self, var: Sym) -> Option<ReadUse>
        ensures { result ≡ find (λ read. read.var.0 == var.0) self.now.reads }
    {
        match self.uses.get(var) {
            Some(found) => Some(found.read),
            None => None,
        }
    }

    // The graph of a number.
    fn numbered(&self, number: u32) -> Option<&Graph>
        ensures { option_copied result ≡ slice_get self.now.graphs number }
    {
        self.graphs.as_slice().get(number as usize)
    }
}

// In which graphs each variable is read.
fn uses_of(alloc: Global, reads: &[ReadUse]) -> Result<ByVariable<Use>, Memory>
    ensures { IfOk result (λ uses. uses ≡ reads.now) }
{
    let mut uses = ByVariable::new(alloc);
    for read in reads {
        uses.push(Use { read: *read })?;
    }
    Ok(uses)
}
