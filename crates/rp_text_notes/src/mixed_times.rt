//! Dates or times of one form with other fields among them: words, as in the row of a sum below them, dates that are written otherwise, and
//! such as no calendar has.

use crate::example::{Example, Numbered, example_of};
use crate::formats::format_ways;
use crate::notes::name_of;
use crate::same_form::{has_form_of, have_one_form, is_formed_as};
use crate::strays::{Strays, line_of_mixed, with_further};
use crate::texts::{ColumnTexts, NumberReader, is_word};
use crate::times::{has_year_first, iso_way_of_some};
use crate::uses::Asked;
use crate::way::Way;
use rp_columns::Reading;
use rp_wording::count_digits;
use std::alloc::{AllocError, Global};

/// So many fields are looked at to find how most of them are read.
const SAMPLES: usize = 4;

/// So many digits a date without letters has, unless zeros in front are left out. A version, as 1.10.0, has fewer.
const DATE_DIGITS: usize = 6;

/// A way that reads most fields of a column.
struct Widest {
    way: Way,
    /// How many fields it doesn't read.
    misses: usize,
}

/// It is let go of by a call, wherever it is held.
impl Drop for Widest {
    fn drop(self) {
        let Widest { way: _, misses: _ } = self;
    }
}

/// What is said of a column whose order is asked for, and more than half of whose fields are dates or times of one form. None where all are, or where
/// their order as texts is that of time.
pub(crate) fn line_on_mixed(
    alloc: Global,
    reader: &mut NumberReader,
    asked: Asked<'_>,
    column: ColumnTexts<'_>,
) -> Result<Option<String>, AllocError> {
    if has_year_first(column.first().unwrap_or("")) && have_one_form(column) {
        return Ok(None);
    }
    let Some(widest) = widest_of(alloc, reader, column)? else {
        return Ok(None);
    };
    let reading = &widest.way.reading;
    let may_have_words = !asked.compares_order(column.number);
    if are_ordered(reader, reading, column, may_have_words) {
        return Ok(None);
    }
    let Some(strays) = strays_by(reader, reading, column) else {
        return Ok(None);
    };
    let example = example_with(reader, reading, column, strays.first);
    let name = name_of(alloc, asked.query, column.number)?;
    let line = line_of_mixed(alloc, name.as_str(), strays, &widest.way, example)?;
    Ok(Some(line))
}

/// The way that reads the most fields of a column, of those that read one of its first. None where none reads more than half of them.
fn widest_of(
    alloc: Global,
    reader: &mut NumberReader,
    column: ColumnTexts<'_>,
) -> Result<Option<Widest>, AllocError> {
    let too_many = count_fields(column).saturating_add(1) / 2;
    let mut widest = None;
    let mut samples = 0usize;
    for (at, row) in column.rows.iter().enumerate() {
        let text = column.of_row(row).unwrap_or("");
        if samples < SAMPLES && is_sample(text) {
            samples = samples.saturating_add(1);
            if !is_read(reader, &widest, text) {
                let sample = row_at(column, at);
                widest = wider(alloc, reader, column, sample, widest, too_many)?;
            }
        }
    }
    Ok(widest)
}

/// How many fields a column has that aren't blank.
fn count_fields(column: ColumnTexts<'_>) -> usize {
    let mut fields = 0usize;
    for row in column.rows {
        if !column.of_row(row).unwrap_or("").trim().is_empty() {
            fields = fields.saturating_add(1);
        }
    }
    fields
}

/// Whether a text may show how others are read.
fn is_sample(text: &str) -> bool {
    let has_letters = text.bytes().any(|byte| byte.is_ascii_alphabetic());
    count_digits(text) >= DATE_DIGITS || has_letters && !is_word(text)
}

/// Whether a way reads a text, if there is one.
fn is_read(reader: &mut NumberReader, widest: &Option<Widest>, text: &str) -> bool {
    match widest {
        Some(widest) => reader.number(&widest.way.reading, text).is_ok(),
        None => false,
    }
}

/// A column of one row.
fn row_at(column: ColumnTexts<'_>, at: usize) -> ColumnTexts<'_> {
    ColumnTexts {
        rows: column.rows.get(at..at.saturating_add(1)).unwrap_or(&[]),
        ..column
    }
}

/// The way that reads the most fields of a column, of this one and those that read a sample of them, if it leaves fewer than too many.
fn wider(
    alloc: Global,
    reader: &mut NumberReader,
    column: ColumnTexts<'_>,
    sample: ColumnTexts<'_>,
    before: Option<Widest>,
    too_many: usize,
) -> Result<Option<Widest>, AllocError> {
    let mut widest = before;
    if let Some(way) = iso_way_of_some(alloc, reader, sample, column)? {
        widest = wider_of(reader, column, way, widest, too_many);
    }
    for way in format_ways(alloc, reader, sample)? {
        widest = wider_of(reader, column, way, widest, too_many);
    }
    Ok(widest)
}

/// The one of two ways that reads more fields.
fn wider_of(
    reader: &mut NumberReader,
    column: ColumnTexts<'_>,
    way: Way,
    before: Option<Widest>,
    too_many: usize,
) -> Option<Widest> {
    let limit = match &before {
        Some(widest) => widest.misses,
        None => too_many,
    };
    match misses_below(reader, &way.reading, column, limit) {
        Some(misses) => Some(Widest { way, misses }),
        None => before,
    }
}

/// How many fields of a column a reading doesn't read, where these are fewer than so many.
fn misses_below(
    reader: &mut NumberReader,
    reading: &Reading,
    column: ColumnTexts<'_>,
    limit: usize,
) -> Option<usize> {
    let mut misses = 0usize;
    for row in column.rows {
        if misses >= limit {
            return None;
        }
        if reader
            .number(reading, column.of_row(row).unwrap_or(""))
            .is_err()
        {
            misses = misses.saturating_add(1);
        }
    }
    if misses < limit { Some(misses) } else { None }
}

/// Whether the order of all fields of a column as texts is that of time, as far as they are read. Words may be among them, or not.
fn are_ordered(
    reader: &mut NumberReader,
    reading: &Reading,
    column: ColumnTexts<'_>,
    may_have_words: bool,
) -> bool {
    let time = first_time(reader, reading, column);
    if !has_year_first(time) {
        return false;
    }
    for row in column.rows {
        let text = column.of_row(row).unwrap_or("");
        let fits = if text.trim().is_empty() {
            true
        } else if reader.number(reading, text).is_ok() {
            is_formed_as(time, text)
        } else if is_word(text) {
            may_have_words
        } else {
            has_form_of(text, time)
        };
        if !fits {
            return false;
        }
    }
    true
}

/// The first field that is read as a time; it is empty where there is none.
fn first_time<'a>(
    reader: &mut NumberReader,
    reading: &Reading,
    column: ColumnTexts<'a>,
) -> &'a str {
    for row in column.rows {
        let text = column.of_row(row).unwrap_or("");
        if let Ok(Some(_)) = reader.number(reading, text) {
            return text;
        }
    }
    ""
}

/// The fields that aren't read; None where each is.
fn strays_by<'a>(
    reader: &mut NumberReader,
    reading: &Reading,
    column: ColumnTexts<'a>,
) -> Option<Strays<'a>> {
    let mut strays = None;
    for row in column.rows {
        let text = column.of_row(row).unwrap_or("").trim();
        if reader.number(reading, text).is_err() {
            strays = Some(with_further(strays, text));
        }
    }
    strays
}

/// Two fields whose order as texts isn't that of time; or the first one that isn't read, where that is a word behind the times.
fn example_with<'a>(
    reader: &mut NumberReader,
    reading: &Reading,
    column: ColumnTexts<'a>,
    stray: &'a str,
) -> Option<Example<'a>> {
    let found = example_of(reader, reading, column)?;
    if found.before.is_some() || !is_word(stray) || stray < found.one.text {
        return Some(found);
    }
    Some(Example {
        one: Numbered {
            text: stray,
            number: found.one.number,
        },
        before: Some(found.one.text),
    })
}
