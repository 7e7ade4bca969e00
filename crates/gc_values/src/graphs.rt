ghost use Rattle.std.specs.Prelude.{◌≡◌, ◌==◌, slice_get};
ghost use Rattle.std.specs.List.{find};
ghost use Rattle.std.specs.Option.{option_copied};
ghost use Rattle.gc_values.specs.Contexts.{own_among, walk_among};

use crate::reads::{ReadUse, Reads};
use gc_base::Sym;
use gc_ppg::{Graph, GraphList};

/// The graph in which a variable's own labels, properties and walk are read, if it has one.
pub fn own_graph<'a>(reads: &Reads, graphs: &'a GraphList, var: Sym) -> Option<&'a Graph>
    ensures { option_copied result ≡ own_among reads.now graphs.now var }
{
    match read_use(reads, var) {
        Some(read) => numbered(graphs, read.own),
        None => None,
    }
}

/// The graph in which the elements on a variable's walk are read, if it has one.
pub fn walk_graph<'a>(reads: &Reads, graphs: &'a GraphList, var: Sym) -> Option<&'a Graph>
    ensures { option_copied result ≡ walk_among reads.now graphs.now var }
{
    match read_use(reads, var) {
        Some(read) => numbered(graphs, read.walk),
        None => None,
    }
}

// The numbers of a variable's graphs.
fn read_use(reads: &Reads, var: Sym) -> Option<&ReadUse>
    ensures { option_copied result ≡ find (λ read. read.var.0 == var.0) reads.now }
{
    reads.as_slice().iter().find(|read| read.var.0 == var.0)
}

// The graph of a number.
fn numbered(graphs: &GraphList, number: u32) -> Option<&Graph>
    ensures { option_copied result ≡ slice_get graphs.now number }
{
    graphs.as_slice().get(number as usize)
}
