ghost use Rattle.std.specs.Prelude.{◌≡◌, ◌++◌, [], map, slice_get, IfOk, OnOk};
ghost use Rattle.gc_ast.specs.QueryViews.{basic_tree, block_tree as match_tree, file_trees};
ghost use Rattle.gc_ast.specs.Trees.{row};
ghost use Rattle.gc_sorts.specs.Blocks.{around_in, file_blocks};
ghost use Rattle.gc_sorts.specs.FileBlocks.{around_by};
ghost use Rattle.gc_lower.specs.Sights.{around_reads, part_reads, part_sight, reads_before};
ghost use Rattle.gc_lower.specs.Blocks.{block_atoms};
ghost use Rattle.gc_lower.specs.Namings.{names_of, scope};
ghost use Rattle.gc_lower.specs.Reads.{reads_of};

use crate::chains::atoms_of;
use crate::naming::Naming;
use crate::reads::{add_all, copied, reads_of, seen};
use gc_ast::{Basic, MatchBlock};
use gc_base::{BlockNo, Memory};
use gc_sorts::{PartAround, part_of};
use gc_values::ReadUse;
use std::alloc::Global;

/// How the block of a number reads the variables that it sees of the parts around it.
pub(crate) fn around_reads(
    alloc: Global,
    naming: &Naming<'_>,
    block: BlockNo,
) -> Result<Vec<ReadUse>, Memory>
    ensures { IfOk result (λ reads. reads.items ≡ around_reads (scope naming.now) []
        (around_in (slice_get (file_blocks (row (file_trees naming.now.checked.now.file))) block.0))) }
{
    let parts = naming.checked.around(alloc, block)?;
    let mut reads = Vec::new(alloc);
    for part in &parts {
        reads = part_sight(alloc, naming, &reads, part)?;
    }
    Ok(reads)
}

// What the EXISTS queries of a part see, where those around it are seen so.
fn part_sight(
    alloc: Global,
    naming: &Naming<'_>,
    around: &[ReadUse],
    part: &PartAround<'_>,
) -> Result<Vec<ReadUse>, Memory>
    ensures { IfOk result (λ reads. reads.items ≡ part_sight (scope naming.now) around.now (around_by (names_of naming.now) part.now)) }
{
    let mut before = copied(alloc, around)?;
    add_before(alloc, naming, part.basic, part.part, &mut before)?;
    let own = part_reads(alloc, naming, part.basic, part.part)?;
    add_all(&mut before, &own)?;
    seen(alloc, around, &own, &before)
}

// Puts behind others what the parts before one of a number read.
fn add_before(
    alloc: Global,
    naming: &Naming<'_>,
    basic: &Basic,
    part: u32,
    reads: &mut Vec<ReadUse>,
) -> Result<(), Memory>
    ensures { OnOk result (reads.new.items ≡ reads.old.items ++ reads_before (scope naming.now) (basic_tree (names_of naming.now) basic.now) part) }
{
    for number in 0..part {
        let own = part_reads(alloc, naming, basic, number)?;
        add_all(reads, &own)?;
    }
    Ok(())
}

// What the part of a number reads, if there is one.
fn part_reads(
    alloc: Global,
    naming: &Naming<'_>,
    basic: &Basic,
    part: u32,
) -> Result<Vec<ReadUse>, Memory>
    ensures { IfOk result (λ reads. reads.items ≡ part_reads (scope naming.now) (basic_tree (names_of naming.now) basic.now) part) }
{
    match part_of(basic, part) {
        None => Ok(Vec::new(alloc)),
        Some(block) => block_reads(alloc, naming, block),
    }
}

#[tactic(auto, using(crate::proofs::TreeParts::block_parts))]
fn block_reads(
    alloc: Global,
    naming: &Naming<'_>,
    block: &MatchBlock,
) -> Result<Vec<ReadUse>, Memory>
    ensures { IfOk result (λ reads. reads.items ≡ reads_of (block_atoms (scope naming.now) (match_tree (names_of naming.now) block.now))) }
{
    let atoms = atoms_of(alloc, naming, &block.patterns)?;
    reads_of(alloc, &atoms)
}
