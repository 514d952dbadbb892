//! A call that is refused memory, made again, gives what it gives with ample memory.
use super::support::{at_last, holds, sale, sales, same, text};
use rp_value::{Cells, Kind, Row, RowFault, RowList, Table, TableFault, Value, same_values};
use std::alloc::{AllocError, Global};
use std::test::Fail;

/// Adds a row, once more where memory was refused.
fn push_row(list: &mut RowList, cells: &mut Vec<Value>) -> Result<(), Fail> {
    match list.push(cells) {
        Err(AllocError) => at_last(list.push(cells)),
        Ok(()) => Ok(()),
    }
}

/// Rows of one cell, of two and of one, whose cells are the numbers from 1.
fn pushed_rows(alloc: Global) -> Result<Vec<Row>, Fail> {
    let mut list = RowList::new(alloc);
    push_numbers(&mut list, &mut Vec::new(alloc))?;
    Ok(list.into_rows()?)
}

fn push_numbers(list: &mut RowList, cells: &mut Vec<Value>) -> Result<(), Fail> {
    cells.push(Value::Int(1))?;
    push_row(list, cells)?;
    cells.push(Value::Int(2))?;
    cells.push(Value::Int(3))?;
    push_row(list, cells)?;
    cells.push(Value::Int(4))?;
    push_row(list, cells)
}

#[test]
fn refused_rows(rt: HostRuntime) -> Result<(), Fail> {
    let rows = pushed_rows(rt.alloc())?;
    let widths: Vec<usize> = rows
        .iter()
        .map(|row| row.cells().len())
        .collect(rt.alloc())?;
    same(&rt, widths.as_slice(), [1, 2, 1].as_slice());
    let first = rows.first().and_then(|row| row.cell(1));
    same(&rt, first, Some(&Value::Int(1)));
    let last = rows.last().and_then(|row| row.cell(1));
    same(&rt, last, Some(&Value::Int(4)));
    Ok(())
}

fn row_of(alloc: Global, table: &Table) -> Result<Row, RowFault> {
    table.row(alloc, sale(alloc)?)
}

#[test]
fn refused_texts(rt: HostRuntime) -> Result<(), Fail> {
    let alloc = rt.alloc();
    let value = text(alloc, "x").or_else(|_| at_last(text(alloc, "x")))?;
    let copy = value.share()?;
    same(&rt, copy, value);
    Ok(())
}

#[test]
fn refused_keys(rt: HostRuntime) -> Result<(), Fail> {
    let alloc = rt.alloc();
    let key = Cells::new(sale(alloc)?);
    let copy = key.share(alloc).or_else(|_| at_last(key.share(alloc)))?;
    holds(&rt, copy.same(&key));
    holds(&rt, same_values(copy.as_slice(), key.as_slice()));
    same(&rt, copy.into_vec(), key.into_vec());
    Ok(())
}

#[test]
fn refused_tables_and_rows(rt: HostRuntime) -> Result<(), Fail> {
    let alloc = rt.alloc();
    let table = sales(alloc).or_else(|_| at_last(sales(alloc)))?;
    let copy = table.share()?;
    same(&rt, &copy, &table);
    holds(&rt, copy.same(&table));
    let row = row_of(alloc, &copy).or_else(|_| at_last(row_of(alloc, &copy)))?;
    let twin = row.share()?;
    holds(&rt, twin.same(&row));
    same(&rt, &twin, &row);
    holds(&rt, row.cell(1).is_some_and(|cell| Kind::Text.admits(cell)));
    holds(
        &rt,
        row.cell(2).is_some_and(|cell| !Kind::Text.admits(cell)),
    );
    Ok(())
}

/// A fault goes through `?` whether or not a refused call gives back what it could not store.
fn boxed_row(alloc: Global, cell: Value) -> Result<Box<Value>, RowFault> {
    let mut cells = vec![in alloc; cell]?;
    cells.push(Value::Null)?;
    Ok(Box::new(alloc, Value::Null)?)
}

fn boxed_kind(alloc: Global) -> Result<Box<Kind>, TableFault> {
    let mut kinds = Vec::with_capacity(alloc, 1)?;
    kinds.push(Kind::Int)?;
    Ok(Box::new(alloc, Kind::Int)?)
}

#[test]
fn faults_of_memory(rt: HostRuntime) -> Result<(), Fail> {
    let alloc = rt.alloc();
    same(&rt, &*boxed_row(alloc, Value::Int(1))?, &Value::Null);
    same(&rt, &*boxed_kind(alloc)?, &Kind::Int);
    Ok(())
}
