ghost use Rattle.std.specs.Prelude.{◌≡◌, ◌++◌, ◌∷◌, [], map, IfOk, OnOk};
ghost use Rattle.gc_alg.specs.Instances.{listed};
ghost use Rattle.gc_lower.specs.Reads.{has_read, read_in, reads_of, reads_of_atom, seen};

use gc_alg::{Atom, AtomWhat};
use gc_base::{Memory, Sym};
use gc_values::ReadUse;
use std::alloc::Global;

/// The graphs in which the variables of atoms are read, in the order of the atoms.
pub(crate) fn reads_of(alloc: Global, atoms: &[Atom]) -> Result<Vec<ReadUse>, Memory>
    ensures { IfOk result (λ reads. reads.items ≡ reads_of atoms.now) }
{
    let mut reads = Vec::new(alloc);
    for atom in atoms {
        add_reads(&mut reads, atom)?;
    }
    Ok(reads)
}

// Puts those of the variables of an atom behind others.
fn add_reads(reads: &mut Vec<ReadUse>, atom: &Atom) -> Result<(), Memory>
    ensures { OnOk result (reads.new.items ≡ reads.old.items ++ reads_of_atom atom.now) }
{
    let graph = atom.graph;
    match &atom.what {
        AtomWhat::Node { x, .. } => add(reads, *x, graph),
        AtomWhat::Property { x, value, .. } => add_two(reads, *x, *value, graph),
        AtomWhat::Reach { x, y, .. } => add_two(reads, *x, *y, graph),
        AtomWhat::Edge { x, e, y, .. } => add_three(reads, *x, *e, *y, graph),
        AtomWhat::Stored { x, p, y, .. } => add_three(reads, *x, *p, *y, graph),
        AtomWhat::All { x, p, y, .. } => add_three(reads, *x, *p, *y, graph),
        AtomWhat::Found { x, p, y, cost, .. } => {
            add_three(reads, *x, *p, *y, graph)?;
            add_if(reads, *cost, graph)
        }
    }
}

// Puts that of a variable behind others.
fn add(reads: &mut Vec<ReadUse>, var: Sym, graph: u32) -> Result<(), Memory>
    ensures { OnOk result (reads.new.items ≡ reads.old.items ++ read_in graph var ∷ []) }
{
    reads.push(ReadUse {
        var,
        own: graph,
        walk: graph,
    })?;
    Ok(())
}

fn add_two(reads: &mut Vec<ReadUse>, x: Sym, y: Sym, graph: u32) -> Result<(), Memory>
    ensures { OnOk result (reads.new.items ≡ reads.old.items ++ read_in graph x ∷ read_in graph y ∷ []) }
{
    add(reads, x, graph)?;
    add(reads, y, graph)
}

fn add_three(
    reads: &mut Vec<ReadUse>,
    x: Sym,
    between: Sym,
    y: Sym,
    graph: u32,
) -> Result<(), Memory>
    ensures { OnOk result (reads.new.items ≡ reads.old.items ++ read_in graph x ∷ read_in graph between ∷ read_in graph y ∷ []) }
{
    add(reads, x, graph)?;
    add_two(reads, between, y, graph)
}

fn add_if(reads: &mut Vec<ReadUse>, var: Option<Sym>, graph: u32) -> Result<(), Memory>
    ensures { OnOk result (reads.new.items ≡ reads.old.items ++ map (read_in graph) (listed var)) }
{
    match var {
        None => Ok(()),
        Some(var) => add(reads, var, graph),
    }
}

/// Whether a variable is among those that are read.
pub(crate) fn has_read(reads: &[ReadUse], var: Sym) -> bool
    ensures { result ≡ has_read reads.now var }
{
    reads.iter().any(|read| read.var.0 == var.0)
}

/// What the EXISTS queries of a part see: the variables around its block and its own, each read where the
/// first of the block's entries says.
pub(crate) fn seen(
    alloc: Global,
    around: &[ReadUse],
    own: &[ReadUse],
    reads: &[ReadUse],
) -> Result<Vec<ReadUse>, Memory>
    ensures { IfOk result (λ kept. kept.items ≡ seen around.now own.now reads.now) }
{
    let mut kept = Vec::new(alloc);
    for read in reads {
        if has_read(around, read.var) || has_read(own, read.var) {
            kept.push(*read)?;
        }
    }
    Ok(kept)
}

/// Puts reads behind others.
pub(crate) fn add_all(reads: &mut Vec<ReadUse>, more: &[ReadUse]) -> Result<(), Memory>
    ensures { OnOk result (reads.new.items ≡ reads.old.items ++ more.now) }
{
    for read in more {
        reads.push(*read)?;
    }
    Ok(())
}

/// A copy of reads.
pub(crate) fn copied(alloc: Global, reads: &[ReadUse]) -> Result<Vec<ReadUse>, Memory>
    ensures { IfOk result (λ made. made.items ≡ reads.now) }
{
    let mut made = Vec::with_capacity(alloc, reads.len())?;
    add_all(&mut made, reads)?;
    Ok(made)
}
