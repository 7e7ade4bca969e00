ghost use Rattle.std.specs.Prelude.{◌≡◌, map};
ghost use Rattle.gc_expr.specs.Views.{numbered_expr};
ghost use Rattle.gc_alg.specs.Trees.{BlockOf, ConjunctOf, ExistsOf, PartOf, row};
ghost use Rattle.gc_alg.specs.Views.{block_tree, conjunct_tree, exists_tree, part_tree, rel_tree};

use crate::atom::AtomList;
use crate::block::{Block, Conjunct, ConjunctList, ExistsBlock, ExistsList, Part, PartList};
use crate::relation::Rel;
use gc_expr::Expr;
use gc_rows::SymList;
use gc_values::Reads;

#[tactic(auto, unfolding(crate::specs::Views::block_tree, crate::specs::Views::part_tree))]
impl Block {
    /// The block of these parts, the mandatory one first, whose variables are read so.
    pub fn new(parts: PartList, reads: Reads) -> Block
        ensures { block_tree result ≡ BlockOf (row (map part_tree parts.items)) reads }
    {
        Block { parts, reads }
    }
}

#[tactic(auto, unfolding(crate::specs::Views::part_tree, crate::specs::Views::conjunct_tree))]
impl Part {
    /// The part of these atoms and conjuncts.
    pub fn new(atoms: AtomList, conjuncts: ConjunctList) -> Part
        ensures { part_tree result ≡ PartOf atoms.items (row (map conjunct_tree conjuncts.items)) }
    {
        Part { atoms, conjuncts }
    }
}

#[tactic(auto, unfolding(crate::specs::Views::conjunct_tree, crate::specs::Views::exists_tree))]
impl Conjunct {
    /// The conjunct of a condition, beside which these EXISTS queries stand.
    pub fn new(condition: Expr, subqueries: ExistsList) -> Conjunct
        ensures { conjunct_tree result ≡ ConjunctOf (numbered_expr condition) (row (map exists_tree subqueries.items)) }
    {
        Conjunct {
            condition,
            subqueries,
        }
    }
}

#[tactic(auto, unfolding(crate::specs::Views::exists_tree, crate::specs::Views::block_tree))]
impl ExistsBlock {
    /// The EXISTS query of a block in which these outer variables occur, with a tree of the block.
    pub fn new(outer: SymList, block: Block, tree: Rel) -> ExistsBlock
        ensures { exists_tree result ≡ ExistsOf outer (block_tree block) (rel_tree tree) }
    {
        ExistsBlock { outer, block, tree }
    }
}
