//! What a MATCH asks for, as atoms and conditions, and the trees by which its table is made. Others
//! rely on the definitions: which rows a block has, which rows a tree and a plan mean, and the table of
//! a block; and on the law that the tree in the order of the text means the rows of its block. This
//! crate knows of no query file, and runs nothing.
#![tactic(auto)]

mod atom;
mod block;
mod build;
mod expression;
mod laws;
mod mentioning;
mod plan;
mod relation;
mod text;
mod variables;

pub use atom::{Atom, AtomList, AtomWhat, ViewUse, ViewUseList};
pub use block::{Block, Conjunct, ConjunctList, ExistsBlock, ExistsList, Part, PartList};
pub use expression::PathExpression;
pub use laws::{
    a_conjunct_hangs_on_the_variables_in_it, plans_that_mean_their_blocks_answer_as_they_do,
    the_tree_in_text_order_means_its_block,
};
pub use plan::{Phys, PhysList};
pub use relation::Rel;
pub use text::text_tree;
