//! A field of an object of JSON that is no value of its column.

use crate::nested::of_nested;
use crate::reading_words::{to_write, wrong};
use rp_columns::{Columns, InputColumn, Reading, ReadingFault};
use rp_objects::{FieldFault, ObjectsFault, rows_by_objects};
use rp_value::{Row, TableFault, Text, Value};
use rp_wording::{Advice, Pieces, is_null_word};
use std::alloc::{AllocError, Global};

/// What to do about two keys for one column.
const DOUBLE: &str = "two keys of the object name it: upper and lower case are one without quotes";

/// What is said of an object, by its line, that has no value for a column.
pub(crate) fn at_object(
    alloc: Global,
    column: &InputColumn,
    line: &[u8],
    why: FieldFault,
) -> Result<Advice, AllocError> {
    match why {
        FieldFault::Nested => {
            let help = of_nested(alloc, column.source.as_str(), line)?;
            Ok(not_read(alloc, column, help))
        }
        FieldFault::Double => Ok(not_read(alloc, column, Pieces::of(alloc, DOUBLE))),
        FieldFault::Reading(fault) => {
            let field = field_in(alloc, column, line)?;
            Ok(of_reading(alloc, column, field.as_str(), fault))
        }
    }
}

/// A column, and where it comes from.
fn column_told(alloc: Global, column: &InputColumn) -> Pieces {
    let mut told = Pieces::of(alloc, "column ");
    told.push_name(column.name.as_str());
    told.push_filled(", which comes from {}", &[column.source.as_str()]);
    told
}

/// What is said of a column for which the object has no field.
fn not_read(alloc: Global, column: &InputColumn, help: Pieces) -> Advice {
    let mut what = column_told(alloc, column);
    what.push(", can't be read here");
    Advice::of_pieces(what, help)
}

/// What is said of a field that its column's reading doesn't take.
fn of_reading(alloc: Global, column: &InputColumn, field: &str, why: ReadingFault) -> Advice {
    let mut what = column_told(alloc, column);
    what.push(": `");
    what.push_start(field.as_bytes());
    what.push_filled("` {}", &[wrong(&column.reading, why)]);
    let help = if is_null_word(field.as_bytes()) {
        of_word(alloc, field)
    } else {
        Pieces::of(alloc, to_write(&column.reading, why, field))
    };
    Advice::of_pieces(what, help)
}

/// What to do about a word that another program wrote for a null.
fn of_word(alloc: Global, field: &str) -> Pieces {
    let mut help = Pieces::of(alloc, "it seems to be a null: give --null ");
    help.push_shell_word(field);
    help
}

/// The field that the object of a line has for a column, as its reading takes it; an empty one where it has none.
fn field_in(alloc: Global, column: &InputColumn, line: &[u8]) -> Result<String, AllocError> {
    let Some(columns) = as_text(alloc, column)? else {
        return Ok(String::new(alloc));
    };
    match rows_by_objects(alloc, line, &columns, &[]) {
        Ok(rows) => first_text(alloc, rows.as_slice()),
        Err(ObjectsFault::OutOfMemory) => Err(AllocError),
        Err(_) => Ok(String::new(alloc)),
    }
}

/// A column that has the fields of another one as texts.
fn as_text(alloc: Global, column: &InputColumn) -> Result<Option<Columns>, AllocError> {
    let name = Text::new(alloc, String::from_str(alloc, column.name.as_str())?)?;
    let source = Text::new(alloc, String::from_str(alloc, column.source.as_str())?)?;
    let mut columns = Vec::new(alloc);
    columns.push(InputColumn {
        name,
        reading: Reading::Text,
        source,
    })?;
    match Columns::new(alloc, columns) {
        Ok(columns) => Ok(Some(columns)),
        Err(TableFault::OutOfMemory) => Err(AllocError),
        Err(_) => Ok(None),
    }
}

/// The text in the first cell of the first row; an empty one where there is none.
fn first_text(alloc: Global, rows: &[Row]) -> Result<String, AllocError> {
    let Some(row) = rows.first() else {
        return Ok(String::new(alloc));
    };
    match row.cell(1) {
        Some(Value::Text(text)) => String::from_str(alloc, text.as_str()),
        _ => Ok(String::new(alloc)),
    }
}
