ghost use Rattle.std.specs.Prelude.{◌≡◌, [], map, IfOk, OnOk};
ghost use Rattle.gc_expr.specs.Views.{Names};
ghost use Rattle.gc_ast.specs.QueryViews.{file_trees, statement_tree};
ghost use Rattle.gc_ast.specs.Trees.{row};
ghost use Rattle.gc_sorts.specs.BlockTokens.{outermost_if, with_token, with_tokens};
ghost use Rattle.std.specs.List.{list_any};
ghost use Rattle.gc_sorts.specs.Blocks.{file_blocks, token_of};
ghost use Rattle.gc_sorts.specs.FileBlocks.{block_by};
ghost use Rattle.gc_sorts.specs.Ways.{file_ways, is_inside, led};

use crate::file_block::FileBlock;
use crate::following::block_at;
use crate::numbers::TokenNumbers;
use crate::step::Step;
use crate::way_walk::WayList;
use gc_ast::{File, Statement};
use gc_base::Memory;
use std::alloc::Global;

/// The numbers of the blocks of a file that stand in no WHERE, by their tokens.
pub(crate) fn block_tokens(
    alloc: Global,
    file: &File,
    ways: &WayList,
) -> Result<TokenNumbers, Memory>
    requires { map (λ way. way.items) ways.now ≡ file_ways (row (file_trees file.now)) }
    ensures { IfOk result (λ tokens. tokens ≡ with_tokens [] 0 (file_blocks (row (file_trees file.now)))) }
{
    let mut tokens = TokenNumbers::new(alloc);
    for number in 0..ways.len() {
        let token = outermost_token(&file.statements, ways.at(number).as_slice());
        add(&mut tokens, token, number)?;
    }
    Ok(tokens)
}

// Gives a token its number, if there is one.
fn add(tokens: &mut TokenNumbers, token: Option<u32>, number: u32) -> Result<(), Memory>
    ensures { OnOk result (tokens.new ≡ with_token tokens.old number token) }
{
    match token {
        None => Ok(()),
        Some(token) => tokens.add(token, number),
    }
}

// The token of the block to which a way leads, unless the block stands in a WHERE.
fn outermost_token(statements: &[Statement], way: &[Step]) -> Option<u32>
    ensures { (names : Names) → result ≡ outermost_if (led (row (map (statement_tree names) statements.now)) way.now) }
{
    if goes_inside(way) {
        return None;
    }
    match block_at(statements, way) {
        None => None,
        Some(block) => Some(token_of(block)),
    }
}

// Whether a way goes into a WHERE.
fn goes_inside(way: &[Step]) -> bool
    ensures { result ≡ list_any is_inside way.now }
{
    way.iter().any(|step| is_inside(*step))
}

fn is_inside(step: Step) -> bool
    ensures { result ≡ is_inside step }
{
    matches!(step, Step::Exists { .. })
}

#[tactic(auto, unfolding(gc_ast::specs::QueryViews::basic_by))]
fn token_of(block: FileBlock) -> u32
    ensures { (names : Names) → result ≡ token_of (block_by names block.entry) }
{
    match block {
        FileBlock::Match(basic) => basic.token,
        FileBlock::View { name, .. } => name.token,
    }
}
