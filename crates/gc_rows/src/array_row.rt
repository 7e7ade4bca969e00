ghost use Rattle.std.specs.Prelude.{◌≡◌, length, IfOk, OnOk};
ghost use Rattle.std.specs.Option.{option_copied};
ghost use Rattle.gc_rows.specs.Arrays.{cell_at, row_of, with_cell};
ghost use Rattle.gc_rows.specs.Rows.{datum_at};
ghost use Rattle.gc_rows.specs.Tables.{IsRowOver};

use crate::datum::Datum;
use crate::row::Row;
use gc_base::{Duplicate, Memory, Sym};
use std::alloc::Global;
use std::marker::Model;

/// A row of an array, where it lies. Contracts see its schema and the list of its bindings.
#[derive(Drop)]
pub(crate) struct ArrayRow<'a> {
    pub(crate) schema: &'a [Sym],
    pub(crate) cells: &'a [Option<Datum>],
}

impl<'a> Model for ArrayRow<'a> {
    ghost use Rattle.gc_rows.specs.Arrays.{RowOver};

    ghost Value = { RowOver };

    ghost use Rattle.gc_rows.specs.Arrays.{IsFilled, row_of};

    ghost view = { λ r. record { schema = r.schema.now; row = row_of r.schema.now r.cells.now } };

    ghost invariant = { λ r. IsFilled r.schema.now 1 r.cells.now };
}

impl<'a> ArrayRow<'a> {
    /// What a variable stands for, or `None` exactly where it is unbound.
    pub(crate) fn get(&self, var: Sym) -> Option<&Datum>
        ensures { option_copied result ≡ datum_at self.now.row var }
    {
        cell_of(self.schema, self.cells, var)
    }

    /// The row by itself.
    pub(crate) fn to_row(&self, alloc: Global) -> Result<Row, Memory>
        ensures { IfOk result (λ row. row ≡ self.now.row) }
    {
        row_of(alloc, self.schema, self.cells)
    }

    /// The variables of its schema.
    pub(crate) fn schema(&self) -> &'a [Sym]
        ensures schema { result.now ≡ self.now.schema }
        ensures valid { IsRowOver self.now.schema self.now.row }
    {
        self.schema
    }
}

// The row that cells make, from the last on.
fn row_of(alloc: Global, schema: &[Sym], cells: &[Option<Datum>]) -> Result<Row, Memory>
    requires { length cells.now ≡ length schema.now }
    ensures { IfOk result (λ row. row ≡ row_of schema.now cells.now) }
{
    let mut row = Row::with_room(alloc, schema.len())?;
    let mut at = schema.len();
    while at > 0 {
        at -= 1;
        let var = schema[at];
        bind_cell(&mut row, var, cells[at].as_ref())?;
    }
    Ok(row)
}

// Binds a variable, where its cell is not empty.
fn bind_cell(row: &mut Row, var: Sym, cell: Option<&Datum>) -> Result<(), Memory>
    ensures { OnOk result (row.new ≡ with_cell row.old var (option_copied cell.entry)) }
{
    match cell {
        None => Ok(()),
        Some(datum) => row.put(var, datum.copy()?),
    }
}

// The cell of a variable.
fn cell_of<'a>(schema: &[Sym], cells: &'a [Option<Datum>], var: Sym) -> Option<&'a Datum>
    requires { length cells.now ≡ length schema.now }
    ensures { option_copied result ≡ cell_at schema.now cells.now var }
{
    for (slot, other) in schema.iter().enumerate() {
        if other.0 == var.0 {
            return cells[slot].as_ref();
        }
    }
    None
}
