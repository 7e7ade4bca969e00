//! Grouping rows. Others rely on three calls: `groups` tells which rows have which key, `element_groups`
//! does so where keys are elements alone, and `fold` gives the value of an aggregate over the rows of a
//! group, each exactly as the definition says. This crate knows of no query and evaluates no expression.
#![tactic(auto)]

mod element_key;
mod element_rows;
mod ends;
mod folds;
mod grouping;
mod held;
mod key;
mod key_parts;
mod listed;
mod ranks;
mod row_numbers;

pub use element_key::{ElementKey, EndsKey, NodeKey, OfElements};
pub use element_rows::{ElementRow, element_groups};
pub use folds::fold;
pub use grouping::{Group, groups};
pub use key::Key;
pub use key_parts::KeyParts;
pub use row_numbers::RowNumbers;
