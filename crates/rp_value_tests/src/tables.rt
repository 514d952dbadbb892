//! Tables, and rows of their columns.
ghost use Rattle.std.specs.Prelude.{◌≡◌, [], ◌∷◌, IfOk, IfErr, string_bytes};
ghost use Rattle.rp_value.specs.Tables.{kinds_of};

use super::support::{column, holds, sale, sales, same, text};
use rp_value::{Kind, Row, RowFault, Table, TableFault, Text, Value, check_cells};
use std::alloc::{AllocError, Global};
use std::fmt::Display;
use std::process::Abort;
use std::test::Fail;

/// The fault of a table of two columns with this name, and of a third one where it is given.
fn fault_of_names(
    alloc: Global,
    name: &str,
    third: Option<&str>,
) -> Result<Option<TableFault>, Fail> {
    let mut columns = Vec::new(alloc);
    columns.push(column(alloc, name, Kind::Int)?)?;
    columns.push(column(alloc, name, Kind::Text)?)?;
    if let Some(name) = third {
        columns.push(column(alloc, name, Kind::Int)?)?;
    }
    Ok(Table::new(alloc, columns).err())
}

#[test]
fn columns_that_make_no_table(rt: HostRuntime) -> Result<(), Fail> {
    let alloc = rt.alloc();
    let none = Table::new(alloc, Vec::new(alloc)).err();
    same(&rt, none, Some(TableFault::NoColumns));
    let double = fault_of_names(alloc, "A", None)?;
    same(&rt, double, Some(TableFault::DoubleName));
    let nameless = fault_of_names(alloc, "A", Some(""))?;
    same(&rt, nameless, Some(TableFault::BadName));
    Ok(())
}

#[test]
fn kinds_of_a_table(rt: HostRuntime) -> Result<(), Fail> {
    let table = sales(rt.alloc())?;
    let kinds: Vec<Kind> = table
        .columns()
        .iter()
        .map(|column| column.kind)
        .collect(rt.alloc())?;
    same(&rt, kinds.as_slice(), [Kind::Text, Kind::Int].as_slice());
    Ok(())
}

/// A table of stocks and their prices, as a caller of this crate makes one.
fn prices(alloc: Global) -> Result<Table, TableFault>
    ensures kinds { IfOk result (λ table. kinds_of table ≡ Kind.Text ∷ Kind.Int ∷ []) }
{
    let stock = (String::from_str(alloc, "stock")?, Kind::Text);
    let price = (String::from_str(alloc, "price")?, Kind::Int);
    Table::new(alloc, vec![in alloc; stock, price]?)
}

/// A row of it. Table's contract tells such a caller that only memory that is out can refuse the row.
fn priced(alloc: Global, table: &Table, stock: String, price: i64) -> Result<Row, RowFault>
    requires kinds { kinds_of table.now ≡ Kind.Text ∷ Kind.Int ∷ [] }
    ensures row { IfOk result (λ row. row ≡ Value.Text (string_bytes stock) ∷ Value.Int price ∷ []) }
    ensures accepted { IfErr result (λ fault. fault ≡ RowFault.OutOfMemory) }
{
    let stock = Value::Text(Text::new(alloc, stock)?);
    table.row(alloc, vec![in alloc; stock, Value::Int(price)]?)
}

#[test]
fn a_priced_stock(rt: HostRuntime) -> Result<(), Fail> {
    let alloc = rt.alloc();
    let table = prices(alloc)?;
    let row = priced(alloc, &table, String::from_str(alloc, "ACME")?, 17)?;
    same(&rt, row.cell(2), Some(&Value::Int(17)));
    Ok(())
}

fn two_numbers(alloc: Global) -> Result<Vec<Value>, AllocError> {
    Ok(vec![in alloc; Value::Int(1), Value::Int(2)]?)
}

fn two_texts(alloc: Global) -> Result<Vec<Value>, AllocError> {
    let mut cells = one_text(alloc)?;
    cells.push(text(alloc, "y")?)?;
    Ok(cells)
}

fn one_text(alloc: Global) -> Result<Vec<Value>, AllocError> {
    let mut cells = Vec::new(alloc);
    cells.push(text(alloc, "x")?)?;
    Ok(cells)
}

/// Whether a table has no row of these cells, for this reason.
fn is_refused(rt: &impl Abort, alloc: Global, table: &Table, cells: Vec<Value>, why: RowFault) {
    same(rt, table.row(alloc, cells).err(), Some(why));
}

#[test]
fn cells_that_make_no_row(rt: HostRuntime) -> Result<(), Fail> {
    let alloc = rt.alloc();
    let table = sales(alloc)?;
    is_refused(&rt, alloc, &table, two_numbers(alloc)?, RowFault::Kind(1));
    is_refused(&rt, alloc, &table, two_texts(alloc)?, RowFault::Kind(2));
    is_refused(&rt, alloc, &table, one_text(alloc)?, RowFault::Width);
    Ok(())
}

#[test]
fn a_row(rt: HostRuntime) -> Result<(), Fail> {
    let table = sales(rt.alloc())?;
    let row = table.row(rt.alloc(), sale(rt.alloc())?)?;
    same(&rt, row.cell(0), None);
    same(&rt, row.cell(2), Some(&Value::Int(2)));
    same(&rt, row.cell(3), None);
    Ok(())
}

/// A row that has null in each column.
fn nulls(alloc: Global, table: &Table) -> Result<Row, RowFault> {
    table.row(alloc, vec![in alloc; Value::Null, Value::Null]?)
}

#[test]
fn a_row_of_nulls(rt: HostRuntime) -> Result<(), Fail> {
    let table = sales(rt.alloc())?;
    let nulls = nulls(rt.alloc(), &table)?;
    same(&rt, nulls.cells().len(), 2);
    let row = table.row(rt.alloc(), sale(rt.alloc())?)?;
    holds(&rt, !row.same(&nulls));
    Ok(())
}

/// Whether the cells of a row fit columns of these kinds so, and never fewer columns.
fn are_checked_so(rt: &impl Abort, cells: &[Value], kinds: &[([Kind; 2], Result<(), RowFault>)]) {
    for (kinds, expected) in kinds {
        same(rt, check_cells(kinds, cells), *expected);
        same(rt, check_cells(&kinds[..1], cells), Err(RowFault::Width));
    }
}

#[test]
fn cells_of_kinds(rt: HostRuntime) -> Result<(), Fail> {
    let kinds = [
        ([Kind::Text, Kind::Int], Ok(())),
        ([Kind::Text, Kind::Text], Err(RowFault::Kind(2))),
        ([Kind::Int, Kind::Text], Err(RowFault::Kind(1))),
    ];
    let cells = sale(rt.alloc())?;
    same(&rt, cells.len(), 2);
    are_checked_so(&rt, &cells, &kinds);
    same(&rt, check_cells(&[], &[]), Ok(()));
    Ok(())
}

/// Whether a fault is told so.
fn is_told<F: Display + Drop>(
    rt: &impl Abort,
    alloc: Global,
    fault: F,
    want: &str,
) -> Result<(), Fail> {
    let text = format!(in alloc; "{fault}")?;
    same(rt, text.as_str(), want);
    Ok(())
}

#[test]
fn fault_texts(rt: HostRuntime) -> Result<(), Fail> {
    let alloc = rt.alloc();
    is_told(&rt, alloc, TableFault::NoColumns, "NoColumns")?;
    is_told(&rt, alloc, TableFault::BadName, "BadName")?;
    is_told(&rt, alloc, TableFault::DoubleName, "DoubleName")?;
    is_told(&rt, alloc, RowFault::Width, "width")?;
    is_told(&rt, alloc, RowFault::Kind(2), "kind 2")
}
