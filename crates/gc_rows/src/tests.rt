// The operations with ample memory, on tables whose results were worked out by hand.
use crate::{
    Datum, Row, RowArray, RowView, SymList, Table, antijoin, join, outer, project, semijoin,
};
use gc_base::{Id, Sym};
use std::alloc::Global;
use std::test::Fail;

// A row that binds the variables 0 and 1 to these nodes, where there are any.
fn row(alloc: Global, first: Option<u64>, second: Option<u64>) -> Result<Row, Fail> {
    let mut row = Row::empty(alloc);
    put(&mut row, 0, first)?;
    put(&mut row, 1, second)?;
    Ok(row)
}

fn put(row: &mut Row, var: u32, node: Option<u64>) -> Result<(), Fail> {
    if let Some(node) = node {
        row.put(Sym(var), Datum::Node(Id::new(node).ok_or("an identity")?))?;
    }
    Ok(())
}

// The table of such rows.
fn table(alloc: Global, rows: &[(Option<u64>, Option<u64>)]) -> Result<Table, Fail> {
    let schema = [Sym(0), Sym(1)];
    let mut list = RowArray::new(alloc, SymList::from_vec(schema.to_vec(alloc)?));
    for (first, second) in rows {
        list.push(&RowView::of(&row(alloc, *first, *second)?))?;
    }
    Ok(Table::of(list)?)
}

// Two rows without the second variable, one of them twice.
fn loose(alloc: Global) -> Result<Table, Fail> {
    table(alloc, &[(Some(2), None), (Some(1), None), (Some(2), None)])
}

// A row with both variables.
fn whole(alloc: Global) -> Result<Table, Fail> {
    table(alloc, &[(Some(1), Some(3))])
}

fn node_at(row: &RowView<'_>, var: u32) -> Option<u64> {
    match row.get(Sym(var)) {
        Some(Datum::Node(node)) => Some(node.get()),
        _ => None,
    }
}

// Whether a table has these rows, in this order.
fn has_rows(table: &Table, rows: &[(Option<u64>, Option<u64>)]) -> bool {
    if table.len() != rows.len() {
        return false;
    }
    for (number, (first, second)) in rows.iter().enumerate() {
        let row = table.row(number);
        if node_at(&row, 0) != *first || node_at(&row, 1) != *second {
            return false;
        }
    }
    true
}

// A row without a partner stays.
fn outer_is_right(alloc: Global) -> Result<bool, Fail> {
    let result = outer(alloc, &loose(alloc)?, &whole(alloc)?)?;
    Ok(has_rows(&result, &[(Some(1), Some(3)), (Some(2), None)]))
}

fn antijoin_is_right(alloc: Global) -> Result<bool, Fail> {
    let result = antijoin(alloc, &loose(alloc)?, &whole(alloc)?)?;
    Ok(has_rows(&result, &[(Some(2), None)]))
}

fn semijoin_is_right(alloc: Global) -> Result<bool, Fail> {
    let result = semijoin(alloc, &loose(alloc)?, &whole(alloc)?)?;
    Ok(has_rows(&result, &[(Some(1), None)]))
}

// The second variable alone.
fn second(alloc: Global) -> Result<Table, Fail> {
    let keep = SymList::from_vec([Sym(1)].to_vec(alloc)?);
    Ok(project(alloc, &whole(alloc)?, &keep)?)
}

// Each row has a partner where they share no variable that both bind.
fn join_is_right(alloc: Global) -> Result<bool, Fail> {
    let result = join(alloc, &loose(alloc)?, &second(alloc)?)?;
    Ok(has_rows(&result, &[(Some(1), Some(3)), (Some(2), Some(3))]))
}

#[test]
fn operations_have_their_rows(rt: HostRuntime) -> Result<(), Fail> {
    assert!(rt; outer_is_right(rt.alloc())?);
    assert!(rt; antijoin_is_right(rt.alloc())?);
    assert!(rt; semijoin_is_right(rt.alloc())?);
    assert!(rt; join_is_right(rt.alloc())?);
    Ok(())
}
