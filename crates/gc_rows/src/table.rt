ghost use Rattle.std.specs.Prelude.{◌≡◌, ◌<◌, Some, length, slice_get, IfOk};
ghost use Rattle.gc_rows.specs.Tables.{AreRowsOver, IsTableOf};

use crate::row::SymList;
use crate::row_array::RowArray;
use crate::view::RowView;
use gc_base::Memory;
use std::marker::Model;

/// A table of bindings. Contracts see its schema, which is a list of variables, and its rows, which
/// are over the schema and ascend by its order, each once. They lie in one array.
#[derive(Debug, Drop)]
pub struct Table {
    rows: RowArray,
}

impl Model for Table {
    ghost use Rattle.gc_rows.specs.Tables.{Relation, AreRowsOver};

    ghost Value = { Relation };

    ghost view = { λ t. t.rows };

    ghost invariant = { λ t. AreRowsOver t.rows.schema t.rows.rows };
}

impl Table {
    /// The table of these rows, which it sorts unless they ascend; of equal rows it keeps one.
    pub fn of(rows: RowArray) -> Result<Table, Memory>
        ensures { IfOk result (IsTableOf rows.schema rows.rows) }
    {
        if rows.is_ascending() {
            Ok(Table { rows })
        } else {
            Ok(Table {
                rows: rows.sorted()?,
            })
        }
    }

    /// The table of rows that ascend already.
    pub fn ascending(rows: RowArray) -> Table
        requires { AreRowsOver rows.schema rows.rows }
        ensures { result ≡ rows }
    {
        Table { rows }
    }

    /// Its variables, in order.
    pub fn schema(&self) -> &SymList
        ensures { result.now ≡ self.now.schema }
    {
        self.rows.schema()
    }

    /// How many rows it has.
    pub fn len(&self) -> usize
        ensures { result ≡ length self.now.rows }
    {
        self.rows.len()
    }

    /// The row of a number, from 0 on, where it lies.
    pub fn row(&self, number: usize) -> RowView<'_>
        requires { number < length self.now.rows }
        ensures { slice_get self.now.rows number ≡ Some result }
    {
        self.rows.row(number)
    }

    /// The same, or `None` exactly where there is no row of this number.
    pub fn get(&self, number: usize) -> Option<RowView<'_>>
        ensures { result ≡ slice_get self.now.rows number }
    {
        if number < self.rows.len() {
            Some(self.rows.row(number))
        } else {
            None
        }
    }

    /// Its rows; they ascend, and each is over the schema.
    pub fn rows(&self) -> &RowArray
        ensures rows { result.now ≡ self.now }
        ensures valid { AreRowsOver self.now.schema self.now.rows }
    {
        &self.rows
    }
}
