//! Query files as trees. Others rely on the types, which stand as the grammar gives them, and on
//! `File::place`, which says where a token begins. This crate knows of no token list and no graph.
#![tactic(auto)]

mod build_construct;
mod build_query;
mod construct;
mod file;
mod names;
mod pattern;
mod query;

pub use construct::{
    Assign, AssignList, Change, ChangeList, ConstructPart, ConstructPartList, GroupTerm,
    GroupTermList, Item, ItemList, NewElement,
};
pub use file::{File, PlaceList};
pub use names::NameTable;
pub use pattern::{
    Chain, ChainList, CountAt, Element, Located, LocatedList, NameAtList, PathBody, Pattern,
    PatternList, PropertyUse, PropertyUseList,
};
pub use query::{
    Basic, Formula, Head, HeadList, MatchBlock, NextTerm, NextTermList, OptionalBlock,
    OptionalList, Query, QueryList, SetOp, Statement, StatementList, Term,
};
