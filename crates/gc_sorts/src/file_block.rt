ghost use Rattle.std.specs.Prelude.{◌≡◌};
ghost use Rattle.std.specs.Option.{option_map};
ghost use Rattle.gc_expr.specs.Views.{Names};
ghost use Rattle.gc_ast.specs.QueryViews.{basic_tree, block_tree};
ghost use Rattle.gc_sorts.specs.Blocks.{part_of};

use gc_ast::{Basic, ChainList, Formula, MatchBlock};
use gc_base::NameAt;

/// A block of a query file, by the trees that it stands in.
#[derive(Clone, Copy)]
pub enum FileBlock<'a> {
    /// The MATCH of a CONSTRUCT with its OPTIONAL blocks.
    Match(&'a Basic),
    /// The chains and the WHERE of a PATH view of this name.
    View {
        name: NameAt,
        chains: &'a ChainList,
        filter: &'a Option<Formula>,
    },
}

/// A part of the MATCH of a CONSTRUCT in whose WHERE an EXISTS query stands. Part 0 is the mandatory one, and the
/// OPTIONAL blocks follow.
#[derive(Clone, Copy)]
pub struct PartAround<'a> {
    pub basic: &'a Basic,
    pub part: u32,
}

/// The part of a MATCH of a number, if it has one: 0 is the mandatory one, and the OPTIONAL blocks follow.
#[tactic(auto, unfolding(gc_ast::specs::QueryViews::basic_by, gc_ast::specs::QueryViews::block_by, gc_ast::specs::QueryViews::optional_by))]
pub fn part_of<'a>(basic: &'a Basic, part: u32) -> Option<&'a MatchBlock>
    ensures { (names : Names) → option_map (λ block. block_tree names block.now) result ≡ part_of (basic_tree names basic.now) part }
{
    if part == 0 {
        return Some(&basic.main);
    }
    match basic.optionals.get((part - 1) as usize) {
        None => None,
        Some(optional) => Some(&optional.block),
    }
}
