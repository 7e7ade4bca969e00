ghost use Rattle.std.specs.Prelude.{◌≡◌, IfOk};
ghost use Rattle.std.specs.Option.{option_copied};
ghost use Rattle.gc_rows.specs.Rows.{IsRow, datum_at};

use crate::array_row::ArrayRow;
use crate::datum::Datum;
use crate::row::Row;
use gc_base::{Duplicate, Memory, Sym};
use std::alloc::Global;
use std::marker::Model;

// Where a row lies: by itself, or among others in an array.
#[derive(Drop)]
pub(crate) enum RowPlace<'a> {
    Alone(&'a Row),
    InArray(ArrayRow<'a>),
}

/// A row where it lies, by itself or in a table. Contracts see the list of its bindings, as of a `Row`.
#[derive(Drop)]
pub struct RowView<'a> {
    place: RowPlace<'a>,
}

impl<'a> Model for RowView<'a> {
    ghost use Rattle.std.specs.Prelude.{List};
    ghost use Rattle.gc_rows.specs.declared.row.Binding.{Binding};

    ghost Value = { List Binding };

    ghost use Rattle.gc_rows.specs.Views.{row_at};

    ghost view = { λ v. row_at v.place };
}

impl<'a> RowView<'a> {
    /// A row by itself.
    pub fn of(row: &'a Row) -> RowView<'a>
        ensures { result ≡ row.now }
    {
        RowView {
            place: RowPlace::Alone(row),
        }
    }

    /// A row of an array.
    pub(crate) fn in_array(row: ArrayRow<'a>) -> RowView<'a>
        ensures { result ≡ row.entry.row }
    {
        RowView {
            place: RowPlace::InArray(row),
        }
    }

    /// What a variable stands for, or `None` exactly where it is unbound.
    pub fn get(&self, var: Sym) -> Option<&Datum>
        ensures { option_copied result ≡ datum_at self.now var }
    {
        match &self.place {
            RowPlace::Alone(row) => row.get(var),
            RowPlace::InArray(row) => row.get(var),
        }
    }

    /// A copy of the row, by itself.
    pub fn to_row(&self, alloc: Global) -> Result<Row, Memory>
        ensures { IfOk result (λ row. row ≡ self.now) }
    {
        match &self.place {
            RowPlace::Alone(row) => row.copy(),
            RowPlace::InArray(row) => row.to_row(alloc),
        }
    }

    // Its bindings ascend by variable.
    pub(crate) fn know(&self)
        ensures { IsRow self.now }
    {
        match &self.place {
            RowPlace::Alone(row) => {
                let _bindings = row.bindings();
            }
            RowPlace::InArray(row) => {
                let _schema = row.schema();
            }
        }
    }
}
