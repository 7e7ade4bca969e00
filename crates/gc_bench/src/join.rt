ghost use Rattle.std.specs.Prelude.{◌≡◌, [], ◌∷◌, IfOk};
ghost use Rattle.gc_rows.specs.Rows.{IsOver};

use crate::draw::Draw;
use gc_base::{Id, Memory, Sym};
use gc_rows::{Datum, Row, RowArray, RowView, SymList, Table, join};
use std::alloc::Global;

/// How large a join to make.
#[derive(Clone, Copy)]
pub struct JoinSize {
    /// The rows of each table.
    pub rows: u32,
    /// How many rows of a table have one value of the variable that both tables have; from 1 on.
    pub alike: u32,
}

/// What a join gave.
#[derive(Clone, Copy)]
pub struct Joined {
    pub rows: usize,
    /// A sum of the identities in the rows that turns on their order.
    pub sum: u64,
}

/// Joins two tables on the one variable that both have. The first has its values in random order.
pub fn join_tables(alloc: Global, size: JoinSize, draw: &mut Draw) -> Result<Joined, Memory> {
    let values = draw.shuffled(alloc, size.rows)?;
    let first = Table::of(first_rows(alloc, size, &values)?)?;
    let second = Table::of(second_rows(alloc, size)?)?;
    let both = join(alloc, &first, &second)?;
    let mut sum = 0u64;
    for number in 0..both.len() {
        sum = sum
            .wrapping_mul(31)
            .wrapping_add(row_sum(&both.row(number)));
    }
    Ok(Joined {
        rows: both.len(),
        sum,
    })
}

// Rows over the variables 0 and 1, of which the second has values of this list.
fn first_rows(alloc: Global, size: JoinSize, values: &[u32]) -> Result<RowArray, Memory>
    ensures { IfOk result (λ rows. rows.schema ≡ record { 0 = 0 } ∷ record { 0 = 1 } ∷ []) }
{
    let mut rows = RowArray::new(alloc, schema_of(alloc, Sym(0), Sym(1))?);
    for number in 0..size.rows {
        let value = values.get(number as usize).copied().unwrap_or(0) / size.alike.max(1);
        let row = row_of(alloc, Sym(0), number, Sym(1), value)?;
        rows.push(&RowView::of(&row))?;
    }
    Ok(rows)
}

// Rows over the variables 1 and 2.
fn second_rows(alloc: Global, size: JoinSize) -> Result<RowArray, Memory>
    ensures { IfOk result (λ rows. rows.schema ≡ record { 0 = 1 } ∷ record { 0 = 2 } ∷ []) }
{
    let mut rows = RowArray::new(alloc, schema_of(alloc, Sym(1), Sym(2))?);
    for number in 0..size.rows {
        let row = row_of(alloc, Sym(1), number / size.alike.max(1), Sym(2), number)?;
        rows.push(&RowView::of(&row))?;
    }
    Ok(rows)
}

fn schema_of(alloc: Global, first: Sym, second: Sym) -> Result<SymList, Memory>
    ensures { IfOk result (λ schema. schema ≡ first ∷ second ∷ []) }
{
    let mut schema = SymList::new(alloc);
    schema.push(first)?;
    schema.push(second)?;
    Ok(schema)
}

fn row_of(alloc: Global, first: Sym, a: u32, second: Sym, b: u32) -> Result<Row, Memory>
    ensures { IfOk result (IsOver (first ∷ second ∷ [])) }
{
    let mut row = Row::with_room(alloc, 2)?;
    row.put(first, node(a))?;
    row.put(second, node(b))?;
    Ok(row)
}

// A sum of the identities that a row binds to the three variables.
fn row_sum(row: &RowView<'_>) -> u64 {
    let mut sum = 0u64;
    for var in 0..3 {
        if let Some(Datum::Node(id)) = row.get(Sym(var)) {
            sum = sum.wrapping_mul(7).wrapping_add(id.get());
        }
    }
    sum
}

fn node(number: u32) -> Datum {
    Datum::Node(Id::new(u64::from(number)).unwrap())
}
