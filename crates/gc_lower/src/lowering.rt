ghost use Rattle.std.specs.Prelude.{◌≡◌, [], slice_get, Some, IfOk};
ghost use Rattle.gc_alg.specs.Views.{block_tree};
ghost use Rattle.gc_ast.specs.QueryViews.{basic_tree, file_trees};
ghost use Rattle.gc_ast.specs.Trees.{row};
ghost use Rattle.gc_sorts.specs.Blocks.{around_in, file_blocks};
ghost use Rattle.gc_lower.specs.Blocks.{block_of};
ghost use Rattle.gc_lower.specs.Lowerings.{IsLowered, asked_block};
ghost use Rattle.gc_lower.specs.Namings.{scope_of};
ghost use Rattle.gc_lower.specs.Sights.{around_reads};

use crate::around::around_reads;
use crate::blocks::{block_of, view_block, without_parts};
use crate::naming::Naming;
use gc_alg::{Block, Rel, text_tree};
use gc_ast::Basic;
use gc_base::{BlockNo, Memory};
use gc_sorts::{Checked, FileBlock};
use std::alloc::Global;

/// A block, and its tree in the order of the text.
#[derive(Drop)]
pub struct LoweredBlock {
    pub block: Block,
    pub tree: Rel,
}

/// What the block of a number in a file asks for, and its tree: the MATCH of a CONSTRUCT with its OPTIONAL blocks, the
/// MATCH of an EXISTS query, which sees variables of the blocks around it, or the chains and the WHERE of a PATH view.
/// Of a view `on` is the number of the graph on which it is used; for any other block it is not read, and patterns
/// without ON stand on the first graph. A number that no block has gives the block without parts. A number past its
/// type is want of memory, and so is a view's name that the file lacks.
pub fn lower(
    alloc: Global,
    checked: &Checked,
    block: BlockNo,
    on: u32,
) -> Result<LoweredBlock, Memory>
    ensures { IfOk result (IsLowered (asked_block checked.now block.0 on)) }
{
    let block = asked_block(alloc, checked, block, on)?;
    let tree = text_tree(alloc, &block)?;
    Ok(LoweredBlock { block, tree })
}

// The block that is due.
fn asked_block(alloc: Global, checked: &Checked, number: BlockNo, on: u32) -> Result<Block, Memory>
    ensures { IfOk result (λ made. block_tree made ≡ asked_block checked.now number.0 on) }
{
    match checked.block(number) {
        None => without_parts(alloc, &[]),
        Some(FileBlock::Match(basic)) => match_block(alloc, checked, number, basic),
        Some(FileBlock::View { chains, filter, .. }) => {
            view_block(alloc, &Naming { checked, on }, chains, filter)
        }
    }
}

// That of the MATCH of a CONSTRUCT, which sees variables of the parts around the block of a number.
fn match_block(
    alloc: Global,
    checked: &Checked,
    number: BlockNo,
    basic: &Basic,
) -> Result<Block, Memory>
    ensures { IfOk result (λ made. block_tree made ≡ block_of (scope_of checked.now 0)
        (around_reads (scope_of checked.now 0) [] (around_in (slice_get (file_blocks (row (file_trees checked.now.file))) number.0)))
        (basic_tree checked.now.file.names basic.now)) }
{
    let naming = Naming { checked, on: 0 };
    let around = around_reads(alloc, &naming, number)?;
    block_of(basic, alloc, &naming, &around)
}
