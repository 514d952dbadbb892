//! The keys of partitions.
ghost use Rattle.std.specs.Prelude.{◌≡◌, ◌<◌, IfOk, IfSome, length, map, not, position, zip};
ghost use Rattle.rp_value.specs.Rows.{admits, row_fault};
ghost use Rattle.rp_query.specs.Keys.{key_kinds, key_of as key_is, kind_at, value_at as value_is, values_in as values_are};

use crate::Query;
use rp_value::{Cells, Column, Kind, Row, RowFault, Value};
use std::alloc::{AllocError, Global};

impl Query {
    /// The key of the partition that a row belongs to: its values in the columns of PARTITION BY, in that order, and null
    /// where the row lacks a column. Without PARTITION BY it has no values. No text is copied.
    pub fn key(&self, alloc: Global, row: &Row) -> Result<Cells, AllocError>
        ensures { IfOk result (λ key. key ≡ key_is self.now row.now) }
    {
        let columns = self.partition();
        values_in(Vec::with_capacity(alloc, columns.len())?, columns, row)
    }

    /// Why these are no values of a key: `Width` where they are not as many as PARTITION BY has columns, else `Kind` of the
    /// first value, from 1, that its column may not hold.
    pub fn key_fault(&self, key: &[Value]) -> Option<RowFault>
        ensures { result ≡ row_fault (key_kinds self.now) key.now }
    {
        fault_in(self.table().columns(), self.partition(), key)
    }
}

/// Why these are no values of some columns of a table, each by its number from 1.
fn fault_in(table: &[Column], columns: &[usize], values: &[Value]) -> Option<RowFault>
    ensures { result ≡ row_fault (map (kind_at table.now) columns.now) values.now }
{
    if values.len() != columns.len() {
        return Some(RowFault::Width);
    }
    let index = first_misplaced(table, columns, values)?;
    Some(RowFault::Kind(index + 1))
}

/// The values of a row in these columns, each by its number from 1, in the room of an earlier list; null where the row lacks a
/// column.
pub fn values_in(room: Vec<Value>, columns: &[usize], row: &Row) -> Result<Cells, AllocError>
    ensures { IfOk result (λ cells. cells ≡ values_are columns.now row.now) }
{
    let mut values = room;
    values.clear();
    for column in columns {
        values.push(value_at(row, *column)?)?;
    }
    Ok(Cells::new(values))
}

/// The value of a row in a column, from 1, null where there is none.
fn value_at(row: &Row, column: usize) -> Result<Value, AllocError>
    ensures { IfOk result (λ value. value ≡ value_is column row.now) }
{
    match row.cell(column) {
        Some(value) => value.share(),
        None => Ok(Value::Null),
    }
}

/// The index of the first value that its column may not hold.
fn first_misplaced(table: &[Column], columns: &[usize], key: &[Value]) -> Option<usize>
    ensures place { result ≡ position (λ p. not (admits (kind_at table.now p.0) p.1)) (zip columns.now key.now) }
    ensures bound { IfSome result (λ index. index < length columns.now) }
{
    columns
        .iter()
        .zip(key)
        .position(|(column, value)| !kind_at(table, *column).admits(value))
}

/// The kind of a column, from 1.
fn kind_at(table: &[Column], column: usize) -> Kind
    ensures { result ≡ kind_at table.now column }
{
    match table.get(column.saturating_sub(1)) {
        Some(column) => column.kind,
        None => Kind::Int,
    }
}
