ghost use Rattle.std.specs.Prelude.{◌≡◌, ◌++◌, map, IfOk, OnOk};
ghost use Rattle.std.specs.List.{flat_map};
ghost use Rattle.gc_alg.specs.Trees.{items, parts_of};
ghost use Rattle.gc_alg.specs.Views.{block_tree, part_tree};
ghost use Rattle.gc_explain_query.specs.QueryLines.{match_lines, optional_lines, query_lines, view_lines, view_of};

use crate::lines::{push_numbered, push_view_line};
use crate::nesting::push_nested;
use crate::parts::{push_block, push_part};
use crate::views::ExplainedView;
use gc_alg::{Block, Part};
use gc_base::{Bytes, Memory};
use gc_ppg::GraphList;
use std::alloc::Global;

/// The text that explains a CONSTRUCT of a number: the steps of the views that it uses, of its MATCH with its OPTIONAL
/// blocks, and of all EXISTS queries in that.
pub fn query_lines(
    alloc: Global,
    number: u64,
    views: &[ExplainedView],
    block: &Block,
    graphs: &GraphList,
) -> Result<Bytes, Memory>
    ensures { IfOk result (λ text. text ≡ query_lines graphs.now number (map view_of views.now) (block_tree block.now)) }
{
    let mut text = Vec::new(alloc);
    push_numbered(&mut text, b"query", number)?;
    push_views(&mut text, views, graphs)?;
    push_match(&mut text, block, graphs)?;
    let mut number = 1;
    push_nested(&mut text, &mut number, block, &[], graphs)?;
    Ok(Bytes::from_vec(text))
}

fn push_views(text: &mut Vec<u8>, views: &[ExplainedView], graphs: &GraphList) -> Result<(), Memory>
    ensures { OnOk result (text.new.items ≡ text.old.items ++ flat_map (view_lines graphs.now) (map view_of views.now)) }
{
    for view in views {
        push_view(text, view, graphs)?;
    }
    Ok(())
}

// Adds the lines of a view, around which nothing is bound.
fn push_view(text: &mut Vec<u8>, view: &ExplainedView, graphs: &GraphList) -> Result<(), Memory>
    ensures { OnOk result (text.new.items ≡ text.old.items ++ view_lines graphs.now (view_of view.now)) }
{
    push_view_line(text, view)?;
    push_block(text, &view.block, &[], graphs)
}

#[tactic(auto, using(gc_alg::proofs::Items::parts_are))]
fn push_match(text: &mut Vec<u8>, block: &Block, graphs: &GraphList) -> Result<(), Memory>
    ensures { OnOk result (text.new.items ≡ text.old.items ++ match_lines graphs.now (items (parts_of (block_tree block.now)))) }
{
    push_parts(text, &block.parts, graphs)
}

// Adds the lines of a MATCH and of its OPTIONAL blocks.
fn push_parts(text: &mut Vec<u8>, parts: &[Part], graphs: &GraphList) -> Result<(), Memory>
    ensures { OnOk result (text.new.items ≡ text.old.items ++ match_lines graphs.now (map part_tree parts.now)) }
{
    text.extend_from_slice(b"match\n")?;
    match parts.split_first() {
        None => Ok(()),
        Some((first, later)) => {
            push_part(text, first, &[], graphs)?;
            push_optionals(text, later, graphs)
        }
    }
}

fn push_optionals(text: &mut Vec<u8>, parts: &[Part], graphs: &GraphList) -> Result<(), Memory>
    ensures { OnOk result (text.new.items ≡ text.old.items ++ optional_lines graphs.now 1 (map part_tree parts.now)) }
{
    for (index, part) in parts.iter().enumerate() {
        push_numbered(text, b"optional", index as u64 + 1)?;
        push_part(text, part, &[], graphs)?;
    }
    Ok(())
}
