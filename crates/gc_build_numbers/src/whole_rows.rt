ghost use Rattle.std.specs.Prelude.{◌≡◌, IfOk, OnOk};
ghost use Rattle.gc_rows.specs.Tables.{AreRowsOver};
ghost use Rattle.gc_build_numbers.specs.WholeRows.{element_alone, own_places, row_elements, row_key, with_rows};

use crate::keys::row_key;
use crate::numbered::{Element, ElementList, Numbered, Numbering, RowElements};
use crate::setting::Setting;
use gc_base::{Memory, Sym};
use gc_group::{Group, RowNumbers};
use gc_rows::{RowArray, RowView};
use std::alloc::Global;

/// Numbers a variable with an element for each row. The rows of a table ascend, so that each is a group by
/// itself and nothing has to be sorted.
pub(crate) fn add_rows(
    setting: &Setting<'_>,
    numbering: &mut Numbering,
    var: Sym,
) -> Result<(), Memory>
    ensures rows { OnOk result (numbering.new ≡ with_rows var numbering.old setting.now.schema setting.now.rows) }
    ensures ascend { AreRowsOver setting.now.schema setting.now.rows }
{
    let schema = setting.table.schema().as_slice();
    let rows = rows_of(setting);
    let elements = row_elements(setting.alloc, schema, numbering.next, rows)?;
    let which = own_places(setting.alloc, rows)?;
    let taken = rows.len() as u64;
    numbering.next = numbering.next.checked_add(taken).ok_or(Memory)?;
    numbering.variables.push(Numbered {
        var,
        elements: ElementList::from_vec(elements),
        which: RowElements::from_vec(which),
    })?;
    Ok(())
}

// The rows of the table, which ascend.
fn rows_of<'a>(setting: &'a Setting<'_>) -> &'a RowArray
    ensures rows { result.now.rows ≡ setting.now.rows }
    ensures valid { AreRowsOver setting.now.schema setting.now.rows }
{
    setting.table.rows()
}

// An element for each row, which are numbered from this number on.
fn row_elements(
    alloc: Global,
    schema: &[Sym],
    next: u64,
    rows: &RowArray,
) -> Result<Vec<Element>, Memory>
    ensures { IfOk result (λ elements. elements.items ≡ row_elements schema.now next 0 rows.now.rows) }
{
    let mut elements = Vec::with_capacity(alloc, rows.len())?;
    let mut number = next;
    for place in 0..rows.len() {
        elements.push(element_of(alloc, schema, number, place, &rows.row(place))?)?;
        number = number.checked_add(1).ok_or(Memory)?;
    }
    Ok(elements)
}

// The element of the row at a place.
fn element_of(
    alloc: Global,
    schema: &[Sym],
    number: u64,
    place: usize,
    row: &RowView<'_>,
) -> Result<Element, Memory>
    ensures { IfOk result (λ e. e ≡ element_alone number place (row_key schema.now row.now)) }
{
    let key = row_key(alloc, schema, row)?;
    let mut rows = RowNumbers::new(alloc);
    rows.push(place as u64)?;
    Ok(Element {
        number,
        group: Group { key, rows },
    })
}

// Each row makes the element at its own place.
fn own_places(alloc: Global, rows: &RowArray) -> Result<Vec<Option<usize>>, Memory>
    ensures { IfOk result (λ places. places.items ≡ own_places 0 rows.now.rows) }
{
    let mut places = Vec::with_capacity(alloc, rows.len())?;
    for place in 0..rows.len() {
        places.push(Some(place))?;
    }
    Ok(places)
}
