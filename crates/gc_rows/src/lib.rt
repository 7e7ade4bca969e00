//! Tables of bindings and their algebra. Others rely on one thing: each operation gives exactly the
//! rows that the relational algebra names, ascending, each once, over a schema that is told.
//! This crate knows of no graph, no pattern and no expression.
#![tactic(auto)]

mod array_row;
mod cells;
mod counted;
mod datum;
mod joins;
mod keys;
mod laws;
mod pair;
mod partners;
mod projection;
mod row;
mod row_array;
mod semijoins;
mod sorting;
mod table;
#[cfg(test)]
mod tests;
mod variables;
mod view;

pub use counted::Counted;
pub use datum::Datum;
pub use joins::{join, outer};
pub use laws::{
    a_binding_binds_one_variable, a_join_has_the_unions, a_table_is_told_by_its_rows,
    a_union_has_the_first_then_the_second, an_outer_join_is_join_and_antijoin,
    compatible_rows_have_one_union, joins_associate, joins_commute,
    semijoin_and_antijoin_split_a_table,
};
pub use projection::project;
pub use row::{Binding, Row, RowList, SymList};
pub use row_array::RowArray;
pub use semijoins::{antijoin, semijoin};
pub use table::Table;
pub use variables::{each_once, is_listed};
pub use view::RowView;
