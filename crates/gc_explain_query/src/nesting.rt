ghost use Rattle.std.specs.Prelude.{[], ◌∷◌, OnOk};
ghost use Rattle.std.specs.List.{flat_map};
ghost use Rattle.gc_alg.specs.Views.{block_tree, conjunct_tree, exists_tree, part_tree};
ghost use Rattle.gc_explain_query.specs.NestedLines.{AddsQueries};
ghost use Rattle.gc_explain_query.specs.NestedQueries.{nested};

use crate::lines::push_numbered;
use crate::parts::{push_block, seen};
use gc_alg::{Block, Conjunct, ExistsBlock, Part};
use gc_base::{Memory, Sym};
use gc_ppg::GraphList;

/// Adds the lines of the EXISTS queries in a block, where variables around it are bound, and counts them on. A number
/// past its type is want of memory.
#[tactic(auto, using(crate::proofs::Nested::block_nested))]
#[cycle(nesting)]
pub fn push_nested(
    text: &mut Vec<u8>,
    number: &mut u64,
    block: &Block,
    around: &[Sym],
    graphs: &GraphList,
) -> Result<(), Memory>
    ensures { OnOk result (AddsQueries graphs.now (nested around.now (block_tree block.now))
        number.old number.new text.old.items text.new.items) }
{
    in_parts(text, number, &block.parts, around, graphs)
}

#[cycle(nesting)]
fn in_parts(
    text: &mut Vec<u8>,
    number: &mut u64,
    parts: &[Part],
    around: &[Sym],
    graphs: &GraphList,
) -> Result<(), Memory>
    ensures { OnOk result (AddsQueries graphs.now (flat_map (λ p. nested around.now (part_tree p)) parts.now)
        number.old number.new text.old.items text.new.items) }
{
    for part in parts {
        in_part(text, number, part, around, graphs)?;
    }
    Ok(())
}

#[tactic(auto, using(crate::proofs::Nested::part_nested))]
#[cycle(nesting)]
fn in_part(
    text: &mut Vec<u8>,
    number: &mut u64,
    part: &Part,
    around: &[Sym],
    graphs: &GraphList,
) -> Result<(), Memory>
    ensures { OnOk result (AddsQueries graphs.now (nested around.now (part_tree part.now))
        number.old number.new text.old.items text.new.items) }
{
    let seen = seen(*text.allocator(), part, around)?;
    in_conjuncts(text, number, &part.conjuncts, &seen, graphs)
}

#[cycle(nesting)]
fn in_conjuncts(
    text: &mut Vec<u8>,
    number: &mut u64,
    conjuncts: &[Conjunct],
    around: &[Sym],
    graphs: &GraphList,
) -> Result<(), Memory>
    ensures { OnOk result (AddsQueries graphs.now (flat_map (λ c. nested around.now (conjunct_tree c)) conjuncts.now)
        number.old number.new text.old.items text.new.items) }
{
    for conjunct in conjuncts {
        in_conjunct(text, number, conjunct, around, graphs)?;
    }
    Ok(())
}

#[tactic(auto, using(crate::proofs::Nested::conjunct_nested))]
#[cycle(nesting)]
fn in_conjunct(
    text: &mut Vec<u8>,
    number: &mut u64,
    conjunct: &Conjunct,
    around: &[Sym],
    graphs: &GraphList,
) -> Result<(), Memory>
    ensures { OnOk result (AddsQueries graphs.now (nested around.now (conjunct_tree conjunct.now))
        number.old number.new text.old.items text.new.items) }
{
    push_queries(text, number, &conjunct.subqueries, around, graphs)
}

#[cycle(nesting)]
fn push_queries(
    text: &mut Vec<u8>,
    number: &mut u64,
    queries: &[ExistsBlock],
    around: &[Sym],
    graphs: &GraphList,
) -> Result<(), Memory>
    ensures { OnOk result (AddsQueries graphs.now (flat_map (λ q. nested around.now (exists_tree q)) queries.now)
        number.old number.new text.old.items text.new.items) }
{
    for query in queries {
        push_query(text, number, query, around, graphs)?;
    }
    Ok(())
}

#[tactic(auto, using(crate::proofs::Nested::query_nested))]
#[cycle(nesting)]
fn push_query(
    text: &mut Vec<u8>,
    number: &mut u64,
    query: &ExistsBlock,
    around: &[Sym],
    graphs: &GraphList,
) -> Result<(), Memory>
    ensures { OnOk result (AddsQueries graphs.now (nested around.now (exists_tree query.now))
        number.old number.new text.old.items text.new.items) }
{
    push_own(text, number, &query.block, around, graphs)?;
    push_nested(text, number, &query.block, around, graphs)
}

// Adds the lines of an EXISTS query alone.
fn push_own(
    text: &mut Vec<u8>,
    number: &mut u64,
    block: &Block,
    around: &[Sym],
    graphs: &GraphList,
) -> Result<(), Memory>
    ensures { OnOk result (AddsQueries graphs.now (record { around = around.now; block = block_tree block.now } ∷ [])
        number.old number.new text.old.items text.new.items) }
{
    push_numbered(text, b"exists", *number)?;
    push_block(text, block, around, graphs)?;
    *number = number.checked_add(1).ok_or(Memory)?;
    Ok(())
}
