//! What a CONSTRUCT makes: its items, their new elements and their changes. Others rely on `items`, which
//! gives exactly what the reader of items gives, and on `condition_if`. Expressions are read by what the
//! caller hands in, so this crate knows no operator, no pattern of a MATCH and no graph.
#![tactic(auto)]

mod assigns;
mod changes;
mod conditions;
mod constructs;
mod formulas;
mod new_elements;
mod unplaced;

pub use conditions::condition_if;
pub use constructs::items;
pub use formulas::FormulaRead;
