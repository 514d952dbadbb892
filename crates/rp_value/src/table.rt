//! Tables: the names and kinds of columns, and which lists of values are rows of them.
ghost use Rattle.std.specs.Prelude.{◌≡◌, ◌↔◌, IsTrue, IfOk, IfErr, IfSome, None, not, position, zip, length, ◌<◌, ◌==◌, string_bytes};
ghost use Rattle.std.specs.List.{list_any};
ghost use Rattle.std.specs.Cmp.Lexicographic.{pointwise, lists_per, lists_equiv};
ghost use Rattle.rp_value.specs.Rows.{row_fault, said_of_cells, admits};
ghost use Rattle.rp_value.specs.Tables.{is_bad_name, has_double_name, table_fault, said_of_columns, columns_of, kinds_of};
ghost use Rattle.rp_value.specs.declared.table.TableFault.TheVariants.{OutOfMemory};
ghost use Rattle.rp_value.specs.contracts.table.ColumnPartialEq.TheImpl.Laws.{laws-law as column_per};
ghost use Rattle.rp_value.specs.contracts.table.ColumnEq.TheImpl.Laws.{laws-law as column_equiv};

use crate::{Kind, Row, RowFault, Text, Value};
use std::alloc::{AllocError, AllocFailed, Global};
use std::marker::Model;
use std::rc::Rc;
use thiserror::Error;

/// The greatest length of a column's name, in bytes.
pub const MAX_NAME_LEN: usize = 128;

/// A column of a table.
#[derive(Debug, PartialEq, Eq)]
pub struct Column {
    /// The name as it was given, in its own case. In a table it has 1 to 128 bytes, and no
    /// other column has it.
    pub name: Text,
    /// What the column's cells may be beside null.
    pub kind: Kind,
}

/// It is let go of by a call, wherever it is held.
impl Drop for Column {
    fn drop(self) {
        let Column { name: _, kind: _ } = self;
    }
}

impl Column {
    /// An equal column, which shares the name.
    pub fn share(&self) -> Result<Column, AllocError>
        ensures { IfOk result (λ column. column ≡ self.now) }
    {
        let name = self.name.share()?;
        Ok(Column {
            name,
            kind: self.kind,
        })
    }
}

/// A table: one column or more, whose names differ and have 1 to 128 bytes. Contracts see it
/// as the list of its columns.
#[derive(Debug)]
pub struct Table {
    columns: Rc<Vec<Column>>,
}

/// It is let go of by a call, wherever it is held.
impl Drop for Table {
    fn drop(self) {
        let Table { columns: _ } = self;
    }
}

impl Model for Table {
    ghost use Rattle.std.specs.Prelude.{◌≡◌, List, None};
    ghost use Rattle.rp_value.specs.declared.table.Column.{Column as Heading};
    ghost use Rattle.rp_value.specs.Tables.{table_fault};

    ghost Value = { List Heading };

    ghost view = { λ t. t.columns.value.items };

    ghost invariant = { λ t. table_fault t.columns.value.items ≡ None };
}

impl PartialEq for Table {
    ghost eq = { pointwise ⟦<Column as PartialEq>⟧.eq };

    ghost laws = { lists_per column_per };

    fn eq(&self, other: &Table) -> bool {
        self.columns() == other.columns()
    }
}

impl Eq for Table {
    ghost laws = { lists_equiv column_equiv };
}

impl Table {
    /// The table of these columns, in this order.
    ///
    /// The whole list is looked through for `NoColumns`, then for `BadName`, then for
    /// `DoubleName`; `OutOfMemory` comes last.
    pub fn new(alloc: Global, columns: Vec<(String, Kind)>) -> Result<Table, TableFault>
        ensures ok { IfOk result
            (λ table. (table ≡ columns_of columns.items) × (table_fault table ≡ None)) }
        ensures err { IfErr result
            (λ fault. table_fault (columns_of columns.items) ≡ said_of_columns fault) }
    {
        if let Some(fault) = fault_of(&columns) {
            return Err(fault);
        }
        let columns = headed(alloc, columns)?;
        Ok(Table { columns })
    }

    /// The columns, in order. They make a table.
    pub fn columns(&self) -> &[Column]
        ensures columns { result.now ≡ self.now }
        ensures valid { table_fault self.now ≡ None }
    {
        self.columns.as_slice()
    }

    /// A row of these cells, in the order of the columns.
    ///
    /// The number of cells is looked at first, then the columns from the first on;
    /// `OutOfMemory` comes last.
    pub fn row(&self, alloc: Global, cells: Vec<Value>) -> Result<Row, RowFault>
        ensures ok { IfOk result
            (λ row. (row ≡ cells.items) × (row_fault (kinds_of self.now) row ≡ None)) }
        ensures err { IfErr result
            (λ fault. row_fault (kinds_of self.now) cells.items ≡ said_of_cells fault) }
    {
        if let Some(fault) = fault_in(self.columns(), &cells) {
            return Err(fault);
        }
        Ok(Row::new(alloc, cells)?)
    }

    /// Why these are no cells of a row of the table; none: they are.
    pub fn row_fault(&self, cells: &[Value]) -> Option<RowFault>
        ensures { result ≡ row_fault (kinds_of self.now) cells.now }
    {
        fault_in(self.columns(), cells)
    }

    /// Equal columns, as a list of their own. The names are shared, and nothing is copied.
    pub fn to_columns(&self, alloc: Global) -> Result<Vec<Column>, AllocError>
        ensures { IfOk result (λ columns. columns.items ≡ self.now) }
    {
        let mut columns = Vec::with_capacity(alloc, self.columns.len())?;
        for column in self.columns() {
            columns.push(column.share()?)?;
        }
        Ok(columns)
    }

    /// Whether two tables have equal columns in one order.
    pub fn same(&self, other: &Table) -> bool
        ensures { IsTrue result ↔ (self.now ≡ other.now) }
    {
        same_columns(self.columns(), other.columns())
    }

    /// An equal table: a further owner of the same columns. Nothing is copied; the error says
    /// that the count of owners is full.
    pub fn share(&self) -> Result<Table, AllocError>
        ensures { IfOk result (λ table. table ≡ self.now) }
    {
        let columns = self.columns.clone()?;
        Ok(Table { columns })
    }
}

/// Why a list of columns is no table, the first reason in the order of the variants.
#[derive(Clone, Copy, Debug, PartialEq, Eq, Error)]
pub enum TableFault {
    /// The list is empty.
    #[error("NoColumns")]
    NoColumns,
    /// A name is empty or above 128 bytes.
    #[error("BadName")]
    BadName,
    /// Two columns have the same name, byte by byte.
    #[error("DoubleName")]
    DoubleName,
    /// The list has none of these faults, but no memory was left for the table.
    #[error("out of memory")]
    OutOfMemory,
}

impl From<AllocError> for TableFault {
    ghost from_gives = { λ _ fault. fault ≡ OutOfMemory };

    fn from(_error: AllocError) -> TableFault {
        TableFault::OutOfMemory
    }
}

impl<T: Drop> From<AllocFailed<T>> for TableFault {
    ghost from_gives = { λ _ fault. fault ≡ OutOfMemory };

    fn from(_error: AllocFailed<T>) -> TableFault {
        TableFault::OutOfMemory
    }
}

fn same_columns(left: &[Column], right: &[Column]) -> bool
    ensures { IsTrue result ↔ (left.now ≡ right.now) }
{
    left == right
}

/// Why these are no columns of a table, memory aside.
fn fault_of(columns: &[(String, Kind)]) -> Option<TableFault>
    ensures { result ≡ table_fault (columns_of columns.now) }
{
    if columns.is_empty() {
        return Some(TableFault::NoColumns);
    }
    if has_bad_name(columns) {
        return Some(TableFault::BadName);
    }
    if has_double_name(columns) {
        return Some(TableFault::DoubleName);
    }
    None
}

fn has_bad_name(columns: &[(String, Kind)]) -> bool
    ensures { result ≡ list_any (λ c. is_bad_name (string_bytes c.0)) columns.now }
{
    columns.iter().any(|column| column.0.is_empty() || MAX_NAME_LEN < column.0.len())
}

fn has_name(name: &str, columns: &[(String, Kind)]) -> bool
    ensures { result ≡ list_any (λ c. pointwise ◌==◌ (string_bytes c.0) name.now) columns.now }
{
    columns.iter().any(|column| column.0.as_str() == name)
}

fn has_double_name(columns: &[(String, Kind)]) -> bool
    ensures { result ≡ has_double_name (columns_of columns.now) }
{
    for (index, column) in columns.iter().enumerate() {
        if has_name(column.0.as_str(), &columns[index + 1..]) {
            return true;
        }
    }
    false
}

/// The columns of these names and kinds.
fn headed(alloc: Global, pairs: Vec<(String, Kind)>) -> Result<Rc<Vec<Column>>, AllocError>
    ensures { IfOk result (λ columns. columns.value.items ≡ columns_of pairs.items) }
{
    let mut columns = Vec::with_capacity(alloc, pairs.len())?;
    for (name, kind) in pairs {
        let name = Text::new(alloc, name)?;
        columns.push(Column { name, kind })?;
    }
    Ok(Rc::new(alloc, columns)?)
}

/// Why these are no cells of a row over these columns, memory aside.
fn fault_in(columns: &[Column], cells: &[Value]) -> Option<RowFault>
    ensures { result ≡ row_fault (kinds_of columns.now) cells.now }
{
    if cells.len() != columns.len() {
        return Some(RowFault::Width);
    }
    let index = first_misfit(columns, cells)?;
    Some(RowFault::Kind(index + 1))
}

/// The index of the first column that may not hold its cell.
fn first_misfit(columns: &[Column], cells: &[Value]) -> Option<usize>
    ensures place { result
        ≡ position (λ p. not (admits p.0.kind p.1)) (zip columns.now cells.now) }
    ensures bound { IfSome result (λ index. index < length columns.now) }
{
    columns
        .iter()
        .zip(cells)
        .position(|(column, cell)| !column.kind.admits(cell))
}
