//! What `check` says of literals that are compared with columns which are read as whole numbers.

use rp_columns::{InputColumn, Reading, ReadingFault, Texts, read};
use rp_explain_clauses::Compared;
use rp_question::InputShape;
use rp_value::Value;
use rp_wording::{Pieces, shown, shown_text};
use std::alloc::{AllocError, Global};

/// What is behind a day in the text of the time at which it begins: by the zone of a column, or else in UTC.
const MIDNIGHT: [&str; 3] = ["", "T00:00:00", "T00:00:00Z"];

/// The number that a literal is as its column is read, in a line. Nothing where it is none, and where a number is read as it is written.
pub(crate) fn literal_told(
    alloc: Global,
    shape: &InputShape,
    compared: &Compared,
) -> Result<String, AllocError> {
    let mut line = Pieces::new(alloc);
    if let Some(column) = column_of(shape, compared.column) {
        for behind in MIDNIGHT.as_slice() {
            let mut literal = Pieces::of(alloc, compared.literal.as_str());
            literal.push(behind);
            let literal = literal.finish()?;
            if let Some(number) = number_of(alloc, &column.reading, literal.as_str())? {
                push_line(alloc, &mut line, column, literal.as_str(), number);
                return shown_text(alloc, line.text()?);
            }
        }
    }
    line.finish()
}

/// The column of this number, from 1, whose fields are read as whole numbers.
fn column_of(shape: &InputShape, number: usize) -> Option<&InputColumn> {
    let columns = match shape {
        InputShape::Columns(columns) | InputShape::Objects(columns) => columns.as_slice(),
        InputShape::Table(_) => return None,
    };
    let column = columns.get(number.saturating_sub(1))?;
    match column.reading {
        Reading::Text | Reading::Lower | Reading::Record | Reading::Int => None,
        _ => Some(column),
    }
}

/// The whole number that a text is by a reading.
pub(crate) fn number_of(
    alloc: Global,
    reading: &Reading,
    text: &str,
) -> Result<Option<i64>, AllocError> {
    let mut texts = Texts::new(alloc)?;
    match read(alloc, &mut texts, &[], reading, 1, text.as_bytes()) {
        Ok(value) => Ok(number_in(&value)),
        Err(ReadingFault::OutOfMemory) => Err(AllocError),
        Err(_) => Ok(None),
    }
}

/// The number that a value is.
fn number_in(value: &Value) -> Option<i64> {
    match value {
        Value::Int(number) => Some(*number),
        _ => None,
    }
}

/// Adds the line.
fn push_line(alloc: Global, line: &mut Pieces, column: &InputColumn, literal: &str, number: i64) {
    line.push("as ");
    line.push_made(shown(alloc, column.name.as_str()));
    line.push_filled(" is read, {} is ", &[literal]);
    line.push_made(format!(in alloc; "{number}"));
    line.push(": write this number\n");
}
