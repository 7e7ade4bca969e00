ghost use Rattle.std.specs.Prelude.{◌≡◌, ◌++◌, true, IfOk, OnOk};
ghost use Rattle.gc_rows.specs.Algebra.{projected};
ghost use Rattle.gc_rows.specs.Arrays.{is_distinct};
ghost use Rattle.gc_rows.specs.Tables.{IsTableOf};

use crate::row::SymList;
use crate::row_array::RowArray;
use crate::table::Table;
use gc_base::{Duplicate, Memory};
use std::alloc::Global;

/// The rows of `a` restricted to the variables `keep`, each listed once, over these variables.
pub fn project(alloc: Global, a: &Table, keep: &SymList) -> Result<Table, Memory>
    requires { is_distinct keep.now ≡ true }
    ensures { IfOk result (IsTableOf keep.now (projected keep.now a.now.rows)) }
{
    let mut kept = RowArray::new(alloc, keep.copy()?);
    push_restricted(&mut kept, a.rows())?;
    Table::of(kept)
}

// Adds the rows of another array, each restricted to the schema.
fn push_restricted(out: &mut RowArray, rows: &RowArray) -> Result<(), Memory>
    ensures { OnOk result (out.new ≡ record { schema = out.old.schema; rows = out.old.rows ++ projected out.old.schema rows.now.rows }) }
{
    for i in 0..rows.len() {
        out.push(&rows.row(i))?;
    }
    Ok(())
}
