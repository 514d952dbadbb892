//! Notes on columns of texts that are numbers or times.

use crate::clocks::{clocks_of, line_of_clocks};
use crate::compact_dates::{add_dates, line_on_dates};
use crate::example::example_of;
use crate::found::{Found, columns_found};
use crate::lines::line_of;
use crate::null_texts::{NullTexts, line_of_nulls, null_texts};
use crate::retyped::options_for;
use crate::signs::{line_of_signed, signed_of};
use crate::strays::{line_of_strays, strays_of};
use crate::texts::{ColumnTexts, NumberReader};
use crate::time_texts::line_on_times;
use crate::units::share_units;
use crate::uses::Asked;
use crate::written::{add_sources, written_columns};
use rp_query::Query;
use rp_value::{Row, Text};
use rp_wording::shown;
use std::alloc::{AllocError, Global};

/// A note on a column of texts.
pub struct Note {
    /// The number of the column, from 1.
    pub column: usize,
    /// What is to be known of it, and the columns to write. It has no line end.
    pub line: String,
}

/// It is let go of by a call, wherever it is held.
impl Drop for Note {
    fn drop(self) {
        let Note { column: _, line: _ } = self;
    }
}

/// Columns that are proposed for an input.
#[derive(Clone, Copy)]
pub struct Proposed<'a> {
    /// Their text: of each its name and its kind, and the field from which it is read where that has another name.
    pub columns: &'a str,
    /// The words for null by which they are proposed.
    pub nulls: &'a [Text],
}

/// A note on each column of texts that are all decimal numbers, whose values the query asks for, or all dates or times, whose order it
/// asks for and may not find, or which are taken for whole numbers: in the order of the columns. Words that other programs write for a null may be among them; between such words
/// numbers may be whole. A column whose order is asked for may have a few other fields among its numbers, too. And a note on each column of
/// whole numbers that are all dates or times, as 20240131, which the query adds to or subtracts. The rows are all of an input, whose columns are
/// proposed.
///
/// Each note has the same options, by which all these are read as numbers, in one unit where they are compared with each other. It reads each
/// field of the rows. Where other fields are among the numbers, or the column has times of day, it has none, and says what to do with these.
pub fn notes_on_proposed(
    alloc: Global,
    asked: Asked<'_>,
    proposed: Proposed<'_>,
    rows: &[Row],
) -> Result<Vec<Note>, AllocError> {
    let mut reader = NumberReader::new(alloc)?;
    let mut found = columns_found(alloc, &mut reader, asked, rows)?;
    share_units(alloc, &mut reader, asked, rows, &mut found)?;
    add_dates(alloc, &mut reader, asked, rows, &mut found)?;
    let columns = written_columns(alloc, proposed.columns)?;
    add_sources(alloc, columns.as_slice(), &mut found)?;
    let texts = null_texts(alloc, &mut reader, asked, rows, found.as_slice())?;
    let options = options_for(
        alloc,
        columns.as_slice(),
        proposed.nulls,
        found.as_slice(),
        texts.as_slice(),
    )?;
    let readings = Readings {
        found: found.as_slice(),
        texts: texts.as_slice(),
        options: options.as_str(),
    };
    notes_by(alloc, &mut reader, asked, rows, readings)
}

/// The columns that are found, those that stay texts but for their words for null, and the options by which all are read.
#[derive(Clone, Copy)]
struct Readings<'a> {
    found: &'a [Found],
    texts: &'a [NullTexts],
    options: &'a str,
}

/// The notes on the columns of a query's table, in their order.
fn notes_by(
    alloc: Global,
    reader: &mut NumberReader,
    asked: Asked<'_>,
    rows: &[Row],
    readings: Readings<'_>,
) -> Result<Vec<Note>, AllocError> {
    let mut notes = Vec::new(alloc);
    for column in 1..asked.query.table().columns().len().saturating_add(1) {
        if let Some(line) = line_on(alloc, reader, asked, rows, readings, column)? {
            notes.push(Note { column, line })?;
        }
    }
    Ok(notes)
}

/// What is said of a column; None where there is nothing to say.
fn line_on(
    alloc: Global,
    reader: &mut NumberReader,
    asked: Asked<'_>,
    rows: &[Row],
    readings: Readings<'_>,
    number: usize,
) -> Result<Option<String>, AllocError> {
    match found_at(readings.found, number) {
        Some(one) if asked.is_text(number) => {
            let line = line_of_found(alloc, reader, asked, one, rows, readings.options)?;
            Ok(Some(line))
        }
        Some(one) if asked.adds(number) && !one.way.is_of_numbers() => {
            let name = name_of(alloc, asked.query, number)?;
            let line = line_on_dates(alloc, reader, rows, name.as_str(), one, readings.options)?;
            Ok(Some(line))
        }
        Some(_) => Ok(None),
        None => match line_on_others(alloc, reader, asked, rows, number)? {
            Some(line) => Ok(Some(line)),
            None => line_on_nulls(alloc, asked, readings, number),
        },
    }
}

/// What is said of a column that stays text, and has words for null.
fn line_on_nulls(
    alloc: Global,
    asked: Asked<'_>,
    readings: Readings<'_>,
    number: usize,
) -> Result<Option<String>, AllocError> {
    for one in readings.texts {
        if one.number == number {
            let name = name_of(alloc, asked.query, number)?;
            let line = line_of_nulls(alloc, name.as_str(), &one.words, readings.options)?;
            return Ok(Some(line));
        }
    }
    Ok(None)
}

/// The column of this number among those that are found.
fn found_at(found: &[Found], number: usize) -> Option<&Found> {
    for one in found {
        if one.number == number {
            return Some(one);
        }
    }
    None
}

/// What is said of a column that is read in a way.
fn line_of_found(
    alloc: Global,
    reader: &mut NumberReader,
    asked: Asked<'_>,
    found: &Found,
    rows: &[Row],
    options: &str,
) -> Result<String, AllocError> {
    let example = example_of(reader, &found.way.reading, found.texts(rows));
    let name = name_of(alloc, asked.query, found.number)?;
    let is_number = asked.wants_numbers(found.number);
    line_of(alloc, name.as_str(), found, is_number, example, options)
}

/// What is said of a column that is read in no way: its numbers or times have other fields among them, or a sign, or it has times of day, or times
/// that the clause writes in another form. None where there is nothing to say.
fn line_on_others(
    alloc: Global,
    reader: &mut NumberReader,
    asked: Asked<'_>,
    rows: &[Row],
    number: usize,
) -> Result<Option<String>, AllocError> {
    if !asked.is_text(number) || !asked.asks_values(number) {
        return Ok(None);
    }
    let column = ColumnTexts {
        rows,
        number,
        sign: "",
    };
    if let Some(signed) = signed_of(column) {
        let name = name_of(alloc, asked.query, number)?;
        let is_number = asked.wants_numbers(number);
        let line = line_of_signed(alloc, name.as_str(), signed, is_number)?;
        return Ok(Some(line));
    }
    if !asked.asks_order(number) {
        return Ok(None);
    }
    line_on_unread(alloc, reader, asked, column)
}

/// The same of a column whose order is asked for, and whose numbers have no sign besides.
fn line_on_unread(
    alloc: Global,
    reader: &mut NumberReader,
    asked: Asked<'_>,
    column: ColumnTexts<'_>,
) -> Result<Option<String>, AllocError> {
    let number = column.number;
    if let Some(strays) = strays_of(column) {
        let name = name_of(alloc, asked.query, number)?;
        return Ok(Some(line_of_strays(alloc, name.as_str(), strays)?));
    }
    let Some(clocks) = clocks_of(column) else {
        return line_on_times(alloc, reader, asked, column);
    };
    let name = name_of(alloc, asked.query, number)?;
    Ok(Some(line_of_clocks(alloc, name.as_str(), clocks)?))
}

/// The name of a column as it may be typed.
pub(crate) fn name_of(alloc: Global, query: &Query, number: usize) -> Result<String, AllocError> {
    match query.table().columns().get(number.saturating_sub(1)) {
        Some(column) => shown(alloc, column.name.as_str()),
        None => Ok(String::new(alloc)),
    }
}
