//! Columns of whole numbers that are dates or times, as 20240131 and 20240131095930.

use crate::example::Numbered;
use crate::found::Found;
use crate::lines::line_of_dates;
use crate::null_words::NullWords;
use crate::texts::NumberReader;
use crate::units::put;
use crate::uses::Asked;
use crate::way::Way;
use rp_columns::Reading;
use rp_value::{Row, Value};
use std::alloc::{AllocError, Global};

/// Adds these columns to those that are found, where the clause adds to one of them or subtracts it. The others are read then, too, so that
/// all of them can be compared.
pub(crate) fn add_dates(
    alloc: Global,
    reader: &mut NumberReader,
    asked: Asked<'_>,
    rows: &[Row],
    found: &mut Vec<Found>,
) -> Result<(), AllocError> {
    if put_dates(alloc, reader, asked, rows, true, found)? {
        put_dates(alloc, reader, asked, rows, false, found)?;
    }
    Ok(())
}

/// Adds those that are added or subtracted, or those that aren't; and whether there is one.
fn put_dates(
    alloc: Global,
    reader: &mut NumberReader,
    asked: Asked<'_>,
    rows: &[Row],
    are_added: bool,
    found: &mut Vec<Found>,
) -> Result<bool, AllocError> {
    let mut is_any = false;
    for number in 1..asked.query.table().columns().len().saturating_add(1) {
        if asked.adds(number) == are_added {
            if let Some(way) = way_of(alloc, reader, rows, number)? {
                is_any = true;
                put(found, number, way, NullWords::new(alloc))?;
            }
        }
    }
    Ok(is_any)
}

/// How a column of whole numbers is read where all of them are dates or times, and the first one is of the years 1900 to 2099.
fn way_of(
    alloc: Global,
    reader: &mut NumberReader,
    rows: &[Row],
    number: usize,
) -> Result<Option<Way>, AllocError> {
    let way = match first_number(rows, number) {
        Some(19_000_101..=20_991_231) => Some(Way::of_days(alloc)),
        Some(19_000_101_000_000..=20_991_231_235_959) => Way::of_compact_times(alloc)?,
        _ => None,
    };
    let Some(way) = way else {
        return Ok(None);
    };
    if !reads_all(alloc, reader, &way.reading, rows, number)? {
        return Ok(None);
    }
    Ok(Some(way))
}

/// The first whole number of a column.
fn first_number(rows: &[Row], number: usize) -> Option<i64> {
    for row in rows {
        if let Some(Value::Int(first)) = row.cell(number) {
            return Some(*first);
        }
    }
    None
}

/// Whether a reading reads all whole numbers of a column as they are written.
pub(crate) fn reads_all(
    alloc: Global,
    reader: &mut NumberReader,
    reading: &Reading,
    rows: &[Row],
    number: usize,
) -> Result<bool, AllocError> {
    for row in rows {
        if let Some(Value::Int(date)) = row.cell(number) {
            let text = format!(in alloc; "{date}")?;
            if reader.number(reading, text.as_str()).is_err() {
                return Ok(false);
            }
        }
    }
    Ok(true)
}

/// What is to be known of a column of this name and number that is read in a way, and the options to write.
pub(crate) fn line_on_dates(
    alloc: Global,
    reader: &mut NumberReader,
    rows: &[Row],
    name: &str,
    found: &Found,
    options: &str,
) -> Result<String, AllocError> {
    let date = first_number(rows, found.number).unwrap_or(0);
    let text = format!(in alloc; "{date}")?;
    let example = Numbered {
        text: text.as_str(),
        number: number_by(reader, &found.way.reading, text.as_str()),
    };
    line_of_dates(alloc, name, &found.way, example, options)
}

/// The number that a text is by a reading that reads it.
fn number_by(reader: &mut NumberReader, reading: &Reading, text: &str) -> i64 {
    match reader.number(reading, text) {
        Ok(Some(number)) => number,
        _ => 0,
    }
}
