//! Lists of rows that share blocks of cells.
use super::support::{holds, same, text};
use rp_value::{Row, RowList, Value};
use std::alloc::{AllocError, Global};
use std::test::Fail;

/// The rows of one cell each that are numbers from 0, one after another.
fn numbered(alloc: Global, count: i64) -> Result<Vec<Row>, AllocError> {
    let mut list = RowList::new(alloc);
    let mut cells = Vec::new(alloc);
    for number in 0..count {
        cells.push(Value::Int(number))?;
        list.push(&mut cells)?;
    }
    list.into_rows()
}

/// Whether each row has one cell, the number of rows before it.
fn are_numbered(rows: &[Row]) -> bool {
    let mut wanted = 0u64;
    for row in rows {
        let cell = row.cell(1);
        if row.cells().len() != 1 || i64::try_from(wanted).map(Value::Int).ok().as_ref() != cell {
            return false;
        }
        wanted = wanted.saturating_add(1);
    }
    true
}

#[test]
fn rows_of_several_blocks(rt: HostRuntime) -> Result<(), Fail> {
    let rows = numbered(rt.alloc(), 5000)?;
    same(&rt, rows.len(), 5000);
    holds(&rt, are_numbered(&rows));
    Ok(())
}

/// Rows of two cells, of none twice, and of one.
fn of_several_widths(alloc: Global) -> Result<Vec<Row>, AllocError> {
    let mut list = RowList::new(alloc);
    let mut cells = vec![in alloc; text(alloc, "x")?, Value::Int(2)]?;
    list.push(&mut cells)?;
    list.push(&mut cells)?;
    list.push(&mut cells)?;
    cells.push(Value::Null)?;
    list.push(&mut cells)?;
    list.into_rows()
}

#[test]
fn rows_of_several_widths(rt: HostRuntime) -> Result<(), Fail> {
    let rows = of_several_widths(rt.alloc())?;
    let widths: Vec<usize> = rows
        .iter()
        .map(|row| row.cells().len())
        .collect(rt.alloc())?;
    same(&rt, widths.as_slice(), [2, 0, 0, 1].as_slice());
    Ok(())
}

#[test]
fn cells_of_listed_rows(rt: HostRuntime) -> Result<(), Fail> {
    let rows = of_several_widths(rt.alloc())?;
    let second = rows.first().and_then(|row| row.cell(2));
    same(&rt, second, Some(&Value::Int(2)));
    let last = rows.last().and_then(|row| row.cell(1));
    same(&rt, last, Some(&Value::Null));
    Ok(())
}

/// A list takes the cells out of the room that they came in.
#[test]
fn listed_cells_are_taken(rt: HostRuntime) -> Result<(), Fail> {
    let mut list = RowList::new(rt.alloc());
    let mut cells = vec![in rt.alloc(); Value::Int(2)]?;
    list.push(&mut cells)?;
    same(&rt, cells.len(), 0);
    Ok(())
}

#[test]
fn a_list_of_no_rows(rt: HostRuntime) -> Result<(), Fail> {
    same(&rt, RowList::new(rt.alloc()).into_rows()?.len(), 0);
    Ok(())
}

#[test]
fn rows_of_many_columns(rt: HostRuntime) -> Result<(), Fail> {
    let alloc = rt.alloc();
    let mut list = RowList::new(alloc);
    for _ in 0..20 {
        let mut cells: Vec<Value> = (1..1001).map(Value::Int).collect(alloc)?;
        list.push(&mut cells)?;
    }
    let rows = list.into_rows()?;
    same(&rt, rows.len(), 20);
    same(
        &rt,
        rows.last().and_then(|row| row.cell(1000)),
        Some(&Value::Int(1000)),
    );
    Ok(())
}
