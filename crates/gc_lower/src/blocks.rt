ghost use Rattle.std.specs.Prelude.{◌≡◌, ◌++◌, map, IfOk, OnOk};
ghost use Rattle.std.specs.Option.{option_map};
ghost use Rattle.gc_ast.specs.PatternViews.{pattern_tree};
ghost use Rattle.gc_ast.specs.QueryViews.{basic_tree, block_tree as match_tree, formula_tree, query_tree};
ghost use Rattle.gc_ast.specs.Trees.{maybe, row, rows};
ghost use Rattle.gc_alg.specs.Trees.{BlockOf, none};
ghost use Rattle.gc_alg.specs.Views.{block_tree, conjunct_tree, exists_tree, part_tree};
ghost use Rattle.gc_lower.specs.Blocks.{block_atoms, block_of, exists_of, part_of, queries_of, query_block, view_block, where_conjuncts};
ghost use Rattle.gc_lower.specs.Namings.{names_of, scope};
ghost use Rattle.gc_lower.specs.Reads.{reads_of};

use crate::chains::{atoms_of, view_atoms};
use crate::conjuncts::conjuncts_of;
use crate::naming::Naming;
use crate::occurring::outer_of;
use crate::reads::{add_all, copied, reads_of, seen};
use gc_alg::{Block, ConjunctList, ExistsBlock, ExistsList, Part, text_tree};
use gc_ast::{Basic, ChainList, Formula, MatchBlock, Query, Term};
use gc_base::{Memory, Sequence};
use gc_values::ReadUse;
use std::alloc::Global;

/// The block of a MATCH with its OPTIONAL blocks, around which other blocks read variables.
#[tactic(auto, using(crate::proofs::TreeParts::basic_parts), unfolding(crate::specs::Blocks::block_of))]
#[cycle(lowered)]
pub(crate) fn block_of(
    basic: &Basic,
    alloc: Global,
    naming: &Naming<'_>,
    around: &[ReadUse],
) -> Result<Block, Memory>
    ensures { IfOk result (λ block. block_tree block ≡ block_of (scope naming.now) around.now (basic_tree (names_of naming.now) basic.now)) }
{
    let mut reads = copied(alloc, around)?;
    let mut parts = Vec::new(alloc);
    parts.push(part_of(&basic.main, alloc, naming, around, &mut reads)?)?;
    for optional in &basic.optionals {
        parts.push(part_of(&optional.block, alloc, naming, around, &mut reads)?)?;
    }
    Ok(Block::new(parts, Sequence::from_vec(reads)))
}

// A part, behind others that read variables. What it reads goes behind.
#[tactic(auto, using(crate::proofs::TreeParts::block_parts), unfolding(crate::specs::Blocks::block_of))]
#[cycle(lowered)]
fn part_of(
    block: &MatchBlock,
    alloc: Global,
    naming: &Naming<'_>,
    around: &[ReadUse],
    reads: &mut Vec<ReadUse>,
) -> Result<Part, Memory>
    ensures part { IfOk result (λ part. part_tree part ≡ part_of (scope naming.now) around.now reads.old.items (match_tree (names_of naming.now) block.now)) }
    ensures reads { OnOk result (reads.new.items ≡ reads.old.items ++ reads_of (block_atoms (scope naming.now) (match_tree (names_of naming.now) block.now))) }
{
    let atoms = atoms_of(alloc, naming, &block.patterns)?;
    let own = reads_of(alloc, &atoms)?;
    add_all(reads, &own)?;
    let seen = seen(alloc, around, &own, reads)?;
    let conjuncts = where_conjuncts(&block.filter, alloc, naming, &seen)?;
    Ok(Part::new(atoms, conjuncts))
}

// The conjuncts of a WHERE, of which a block without one has none.
#[tactic(auto, using(crate::proofs::TreeParts::formula_parts), unfolding(crate::specs::Blocks::block_of))]
#[cycle(lowered)]
fn where_conjuncts(
    filter: &Option<Formula>,
    alloc: Global,
    naming: &Naming<'_>,
    around: &[ReadUse],
) -> Result<ConjunctList, Memory>
    ensures { IfOk result (λ list. map conjunct_tree list.items
        ≡ where_conjuncts (scope naming.now) around.now (maybe (option_map (formula_tree (names_of naming.now)) filter.now))) }
{
    match filter {
        None => Ok(Vec::new(alloc)),
        Some(formula) => {
            let queries = queries_of(&formula.exists, alloc, naming, around)?;
            conjuncts_of(alloc, naming, &formula.expr, queries)
        }
    }
}

#[tactic(auto, unfolding(crate::specs::Blocks::block_of))]
#[cycle(lowered)]
fn queries_of(
    queries: &[Query],
    alloc: Global,
    naming: &Naming<'_>,
    around: &[ReadUse],
) -> Result<ExistsList, Memory>
    ensures { IfOk result (λ list. map exists_tree list.items ≡ queries_of (scope naming.now) around.now
        (row (map (query_tree (names_of naming.now)) queries.now))) }
{
    let mut lowered = Vec::with_capacity(alloc, queries.len())?;
    for query in queries {
        let block = query_block(query, alloc, naming, around)?;
        lowered.push(exists_of(alloc, around, block)?)?;
    }
    Ok(lowered)
}

// The block of an EXISTS query, which is that of its MATCH.
#[tactic(auto, using(crate::proofs::TreeParts::query_parts, crate::proofs::TreeParts::basic_term), unfolding(crate::specs::Blocks::block_of))]
#[cycle(lowered)]
fn query_block(
    query: &Query,
    alloc: Global,
    naming: &Naming<'_>,
    around: &[ReadUse],
) -> Result<Block, Memory>
    ensures { IfOk result (λ block. block_tree block ≡ query_block (scope naming.now) around.now (query_tree (names_of naming.now) query.now)) }
{
    match &query.first {
        Term::Basic(basic) => block_of(basic, alloc, naming, around),
        Term::Graph(_) => without_parts(alloc, around),
        Term::Query(_) => without_parts(alloc, around),
    }
}

/// A block without parts, around which other blocks read variables.
pub(crate) fn without_parts(alloc: Global, around: &[ReadUse]) -> Result<Block, Memory>
    ensures { IfOk result (λ block. block_tree block ≡ BlockOf none around.now) }
{
    let reads = copied(alloc, around)?;
    Ok(Block::new(Vec::new(alloc), Sequence::from_vec(reads)))
}

// The EXISTS query of a block, with the block's tree in the order of the text.
fn exists_of(alloc: Global, around: &[ReadUse], block: Block) -> Result<ExistsBlock, Memory>
    ensures { IfOk result (λ query. exists_tree query ≡ exists_of around.now (block_tree block)) }
{
    let outer = outer_of(alloc, around, &block)?;
    let tree = text_tree(alloc, &block)?;
    Ok(ExistsBlock::new(outer, block, tree))
}

/// The block of a view: one part, of its chains and its WHERE.
pub(crate) fn view_block(
    alloc: Global,
    naming: &Naming<'_>,
    chains: &ChainList,
    filter: &Option<Formula>,
) -> Result<Block, Memory>
    ensures { IfOk result (λ block. block_tree block ≡ view_block (scope naming.now)
        (rows (map (λ c. map (pattern_tree (names_of naming.now)) c.parts) chains.now)) (maybe (option_map (formula_tree (names_of naming.now)) filter.now))) }
{
    let atoms = view_atoms(alloc, naming, chains)?;
    let own = reads_of(alloc, &atoms)?;
    let seen = seen(alloc, &[], &own, &own)?;
    let conjuncts = where_conjuncts(filter, alloc, naming, &seen)?;
    let mut parts = Vec::new(alloc);
    parts.push(Part::new(atoms, conjuncts))?;
    Ok(Block::new(parts, Sequence::from_vec(own)))
}
