//! Zeros before a number, which are lost.

use csv::ByteRecord;
use rp_proposal::Records;
use rp_value::{Column, Kind, Table};
use rp_wording::{Pieces, has_zeros, is_whole, shown_text};
use std::alloc::{AllocError, Global};

/// Says of the bytes of a CSV text, which are rows of a table, where zeros before a number are lost. The line ends in LF; there may be
/// none.
pub fn describe_zeros(alloc: Global, table: &Table, bytes: &[u8]) -> Result<String, AllocError> {
    let columns = table.columns();
    let mut records = Records::of(alloc, bytes, b',');
    let is_found = records.next() && records.find(|fields| zeros_at(columns, fields).is_some());
    if !is_found {
        return records.finish(String::new(alloc));
    }
    let index = zeros_at(columns, records.fields()).unwrap_or(0);
    of_zeros(alloc, columns, records.fields(), index)
}

/// The first column of whole numbers in which a record has zeros before a number.
fn zeros_at(columns: &[Column], fields: &ByteRecord) -> Option<usize> {
    for (index, column) in columns.iter().enumerate() {
        let field = fields.get(index).unwrap_or(b"");
        if column.kind == Kind::Int && is_whole(field) && has_zeros(field) {
            return Some(index);
        }
    }
    None
}

/// Says that zeros before a number are lost.
fn of_zeros(
    alloc: Global,
    columns: &[Column],
    fields: &ByteRecord,
    index: usize,
) -> Result<String, AllocError> {
    let Some(column) = columns.get(index) else {
        return Ok(String::new(alloc));
    };
    let name = column.name.as_str();
    let mut line = Pieces::new(alloc);
    line.push_name(name);
    line.push(" is int, so the zeros before ");
    line.push_start(fields.get(index).unwrap_or(b""));
    line.push(" are lost: if they count, as in a postal code, write ");
    line.push_name(name);
    line.push(" text\n");
    shown_text(alloc, line.text()?)
}
