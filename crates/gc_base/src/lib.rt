//! The ground that every crate stands on: names, texts, literals, sets, walks, places and the step
//! counter, and the words by which contracts speak of folders and sinks. Others rely on one thing
//! above all: the order of literals is total, and a set ascends by its type. This crate knows of no
//! graph, and of queries only how their parts are numbered.
#![tactic(auto)]

mod ascending;
mod duplicate;
mod fault;
mod growth;
mod id;
mod literal;
mod memory;
mod name;
mod name_pool;
mod numbered;
mod place;
mod properties;
mod sequence;
mod sets;
mod shared;
mod steps;
mod text;
mod walk;

pub use ascending::{Ascending, Item};
pub use duplicate::{Duplicate, copies};
pub use fault::EvalFault;
pub use id::{Id, LARGEST_ID};
pub use literal::{Literal, literal_cmp};
pub use memory::Memory;
pub use name::{Name, NameList, is_reserved, is_word_form};
pub use name_pool::NamePool;
pub use numbered::Numbered;
pub use place::{
    BasicNo, BlockNo, Direction, LabelGroupList, MakeKind, NameAt, Place, Sym, ViewNo,
};
pub use properties::{Properties, Property};
pub use sequence::{Bytes, Sequence};
pub use sets::{LabelSet, ValueSet};
pub use steps::Steps;
pub use text::Str;
pub use walk::{Cost, Step, StepList, Walk, edges_cmp, walk_cmp};
