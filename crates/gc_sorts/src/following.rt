ghost use Rattle.std.specs.Prelude.{◌≡◌, [], Some, is_some, map, true, IfOk};
ghost use Rattle.std.specs.Option.{option_map};
ghost use Rattle.gc_expr.specs.Views.{Names, name_of};
ghost use Rattle.gc_ast.specs.QueryViews.{basic_tree, statement_tree};
ghost use Rattle.gc_ast.specs.Trees.{row};
ghost use Rattle.gc_sorts.specs.Blocks.{MatchBlock, around_in, block_in, own_uses, places_in};
ghost use Rattle.gc_sorts.specs.FileBlocks.{around_by, block_by, node_by};
ghost use Rattle.gc_sorts.specs.Variables.{first_sort};
ghost use Rattle.gc_sorts.specs.Ways.{around_uses_at, led, own_uses_at, part_left};

use crate::file_block::{FileBlock, PartAround, part_of};
use crate::first_sorts::{Sought, in_chains, in_optionals, in_part};
use crate::reached::{Reached, next};
use crate::sort::Sort;
use crate::step::Step;
use gc_ast::{Basic, Statement};
use gc_base::Memory;
use std::alloc::Global;

/// The block to which a way leads, if it leads to one.
pub(crate) fn block_at<'a>(statements: &'a [Statement], way: &[Step]) -> Option<FileBlock<'a>>
    ensures { (names : Names) → option_map (block_by names) result ≡ block_in (led (row (map (statement_tree names) statements.now)) way.now) }
{
    let mut at = Reached::Statements(statements);
    for step in way {
        at = match next(at, *step) {
            None => return None,
            Some(to) => to,
        };
    }
    match at {
        Reached::Block(block) => Some(block),
        Reached::Statements(_) => None,
        Reached::Query(_) => None,
    }
}

/// The parts around the block to which a way leads, if it leads to one, from the outermost on.
pub(crate) fn around_at<'a>(
    alloc: Global,
    statements: &'a [Statement],
    way: &[Step],
) -> Result<Vec<PartAround<'a>>, Memory>
    ensures { IfOk result (λ parts. (names : Names) → is_some (led (row (map (statement_tree names) statements.now)) way.now) ≡ true
        → map (around_by names) parts.items ≡ around_in (led (row (map (statement_tree names) statements.now)) way.now)) }
{
    let mut parts = Vec::new(alloc);
    let mut at = Reached::Statements(statements);
    for step in way {
        if let Some(part) = part_left(at, *step) {
            parts.push(part)?;
        }
        at = match next(at, *step) {
            None => return Ok(parts),
            Some(to) => to,
        };
    }
    Ok(parts)
}

// The part whose WHERE a step goes into.
fn part_left<'a>(at: Reached<'a>, step: Step) -> Option<PartAround<'a>>
    ensures { (names : Names) → option_map (around_by names) result ≡ part_left (node_by names at.entry) step }
{
    match at {
        Reached::Block(FileBlock::Match(basic)) => match step {
            Step::Exists { part, .. } => Some(PartAround { basic, part }),
            _ => None,
        },
        _ => None,
    }
}

/// The sort of the first place of a variable in the parts around the block to which a way leads, and then in the block.
pub(crate) fn sort_at(statements: &[Statement], way: &[Step], sought: Sought) -> Option<Sort>
    requires { is_some (led (row (map (statement_tree sought.names.now) statements.now)) way.now) ≡ true }
    ensures { result ≡ first_sort (places_in (led (row (map (statement_tree sought.entry.names.now) statements.now)) way.now))
        (name_of sought.entry.names.now sought.entry.name) }
{
    let mut at = Reached::Statements(statements);
    for step in way {
        if let Some(sort) = sort_left(at, *step, sought) {
            return Some(sort);
        }
        at = match next(at, *step) {
            None => return None,
            Some(to) => to,
        };
    }
    sort_in(at, sought)
}

// The same in the part whose WHERE a step goes into.
fn sort_left(at: Reached, step: Step, sought: Sought) -> Option<Sort>
    ensures { result ≡ first_sort (around_uses_at (node_by sought.entry.names.now at.entry) step) (name_of sought.entry.names.now sought.entry.name) }
{
    match part_left(at, step) {
        None => None,
        Some(around) => match part_of(around.basic, around.part) {
            None => None,
            Some(part) => in_part(sought, part),
        },
    }
}

// The same in what has been reached.
fn sort_in(at: Reached, sought: Sought) -> Option<Sort>
    ensures { result ≡ first_sort (own_uses_at (node_by sought.entry.names.now at.entry)) (name_of sought.entry.names.now sought.entry.name) }
{
    match at {
        Reached::Block(block) => sort_in_block(block, sought),
        Reached::Statements(_) => None,
        Reached::Query(_) => None,
    }
}

fn sort_in_block(block: FileBlock, sought: Sought) -> Option<Sort>
    ensures { result ≡ first_sort (own_uses (block_by sought.entry.names.now block.entry)) (name_of sought.entry.names.now sought.entry.name) }
{
    match block {
        FileBlock::Match(basic) => in_match(basic, sought),
        FileBlock::View { chains, .. } => in_chains(sought, chains),
    }
}

fn in_match(basic: &Basic, sought: Sought) -> Option<Sort>
    ensures { result ≡ first_sort (own_uses (MatchBlock (basic_tree sought.entry.names.now basic.now))) (name_of sought.entry.names.now sought.entry.name) }
{
    match in_part(sought, &basic.main) {
        Some(sort) => Some(sort),
        None => in_optionals(sought, &basic.optionals),
    }
}
