//! The header of a CSV text.
ghost use Rattle.std.specs.Prelude.{IfOk, MatchBool};
ghost use Rattle.csv.specs.Records.{fields_of};
ghost use Rattle.rp_input.specs.Headers.{NamesColumn, NamesColumns};

use crate::fields::field_at;
use csv::ByteRecord;
use rp_value::{Column, upper_case_name};
use std::alloc::{AllocError, Global};

/// Whether the fields name these columns, in order.
pub(crate) fn names_columns(
    alloc: Global,
    columns: &[Column],
    fields: &ByteRecord,
) -> Result<bool, AllocError>
    ensures { IfOk result (λ named. MatchBool named (NamesColumns columns.now (fields_of fields.now))
        (NamesColumns columns.now (fields_of fields.now) → ⊥)) }
{
    if fields.len() != columns.len() {
        return Ok(false);
    }
    for (index, column) in columns.iter().enumerate() {
        if !names_column(alloc, column, field_at(fields, index))? {
            return Ok(false);
        }
    }
    Ok(true)
}

/// Whether a field of a header names a column: it is the column's name, or has the form of a name whose upper-case form that is.
pub fn names_column(alloc: Global, column: &Column, field: &[u8]) -> Result<bool, AllocError>
    ensures { IfOk result (λ named. MatchBool named (NamesColumn column.now field.now)
        (NamesColumn column.now field.now → ⊥)) }
{
    if field == column.name.as_str().as_bytes() {
        return Ok(true);
    }
    let Ok(text) = std::str::from_utf8(field) else {
        return Ok(false);
    };
    match upper_case_name(alloc, text)? {
        Some(name) => Ok(name.as_str() == column.name.as_str()),
        None => Ok(false),
    }
}
