//! Texts that are dates or times in another form than that of ISO 8601.

use crate::texts::{ColumnTexts, NumberReader, is_word};
use crate::way::{Way, as_fine};
use rp_wording::Pieces;
use std::alloc::{AllocError, Global};

/// Formats of dates, each with the one that has its numbers in another order and may be meant as well, if there is such a one.
const DATES: [(&str, &str); 29] = [
    ("%Y-%m-%d", ""),
    ("%Y/%m/%d", ""),
    ("%Y.%m.%d", ""),
    ("%Y%m%d", ""),
    ("%m/%d/%Y", "%d/%m/%Y"),
    ("%d/%m/%Y", ""),
    ("%m-%d-%Y", "%d-%m-%Y"),
    ("%d-%m-%Y", ""),
    ("%d.%m.%Y", ""),
    ("%m/%d/%y", "%d/%m/%y"),
    ("%d/%m/%y", "%y/%m/%d"),
    ("%y/%m/%d", ""),
    ("%m-%d-%y", "%d-%m-%y"),
    ("%d-%m-%y", "%y-%m-%d"),
    ("%y-%m-%d", ""),
    ("%d.%m.%y", "%y.%m.%d"),
    ("%y.%m.%d", ""),
    ("%b %d, %Y", ""),
    ("%B %d, %Y", ""),
    ("%b %d %Y", ""),
    ("%d %b %Y", ""),
    ("%d %B %Y", ""),
    ("%d-%b-%Y", ""),
    ("%d-%b-%y", ""),
    ("%d %b %y", ""),
    ("%d/%b/%Y", ""),
    ("%d/%b/%y", ""),
    ("%Y-%b-%d", ""),
    ("%d%b%Y", ""),
];

/// What may follow a date, and the reading of a time that has it.
const CLOCKS: [(&str, &str); 15] = [
    ("", "date"),
    (" %H:%M:%S", "seconds"),
    (" %H:%M", "seconds"),
    (" %H:%M:%S.%f", "micros"),
    (" %I:%M:%S %p", "seconds"),
    (" %I:%M %p", "seconds"),
    (", %H:%M:%S", "seconds"),
    (", %H:%M", "seconds"),
    (", %I:%M:%S %p", "seconds"),
    (", %I:%M %p", "seconds"),
    (" %I.%M.%S.%f %p", "micros"),
    (" %H.%M.%S", "seconds"),
    (":%H:%M:%S", "seconds"),
    (" %H:%M:%S %z", "seconds"),
    (":%H:%M:%S %z", "seconds"),
];

/// A format of dates or times.
#[derive(Clone, Copy)]
struct Form {
    /// How dates are written.
    date: &'static str,
    /// What follows them.
    clock: &'static str,
    /// The word of the reading.
    word: &'static str,
}

/// How all texts of a column are read as dates or times by a format, in a unit that is at least so fine. None where not all are.
pub(crate) fn format_way(
    alloc: Global,
    reader: &mut NumberReader,
    column: ColumnTexts<'_>,
    least: usize,
) -> Result<Option<Way>, AllocError> {
    if is_word(column.first().unwrap_or("")) {
        return Ok(None);
    }
    for date in DATES.as_slice() {
        let way = way_of_date(alloc, reader, column, least, *date, CLOCKS.as_slice())?;
        if way.is_some() {
            return Ok(way);
        }
    }
    Ok(None)
}

/// Each way by a format that reads all texts of a column.
pub(crate) fn format_ways(
    alloc: Global,
    reader: &mut NumberReader,
    column: ColumnTexts<'_>,
) -> Result<Vec<Way>, AllocError> {
    let mut ways = Vec::new(alloc);
    for (date, _swapped) in DATES.as_slice() {
        push_ways(alloc, reader, column, *date, &mut ways)?;
    }
    Ok(ways)
}

/// Adds those that have a date's format.
fn push_ways(
    alloc: Global,
    reader: &mut NumberReader,
    column: ColumnTexts<'_>,
    date: &'static str,
    ways: &mut Vec<Way>,
) -> Result<(), AllocError> {
    for (clock, word) in CLOCKS.as_slice() {
        let form = Form { date, clock, word };
        if let Some(way) = way_of(alloc, reader, column, form)? {
            ways.push(way)?;
        }
    }
    Ok(())
}

/// How all texts of a column are read by a date's format and one of these that may follow it.
fn way_of_date(
    alloc: Global,
    reader: &mut NumberReader,
    column: ColumnTexts<'_>,
    least: usize,
    date: (&'static str, &'static str),
    clocks: &[(&'static str, &'static str)],
) -> Result<Option<Way>, AllocError> {
    let (date, swapped) = date;
    for (clock, word) in clocks {
        let word = as_fine(word, least);
        let form = Form { date, clock, word };
        if let Some(way) = way_of(alloc, reader, column, form)? {
            return with_other(alloc, reader, column, form, swapped, way);
        }
    }
    Ok(None)
}

/// How all texts of a column are read by a format, in UTC where they have no offset.
fn way_of(
    alloc: Global,
    reader: &mut NumberReader,
    column: ColumnTexts<'_>,
    form: Form,
) -> Result<Option<Way>, AllocError> {
    let behind = behind_source(alloc, form)?;
    Way::reading_all(alloc, reader, column, form.word, behind)
}

/// What is behind the source in the reading of a format, where times that have no offset are in UTC.
fn behind_source(alloc: Global, form: Form) -> Result<String, AllocError> {
    let mut behind = Pieces::filled(alloc, ", '{}{}'", &[form.date, form.clock]);
    if is_without_offset(form) {
        behind.push(", 'UTC'");
    }
    behind.finish()
}

/// Whether times of a format have no offset from UTC.
fn is_without_offset(form: Form) -> bool {
    form.word != "date" && !form.clock.contains("%z")
}

/// The way of a format, with what may be meant otherwise: another order of its numbers, or a time zone.
fn with_other(
    alloc: Global,
    reader: &mut NumberReader,
    column: ColumnTexts<'_>,
    form: Form,
    swapped: &'static str,
    way: Way,
) -> Result<Option<Way>, AllocError> {
    let way = or_swapped(alloc, reader, column, form, swapped, way)?;
    if is_without_offset(form) {
        return Ok(Some(way.in_utc()));
    }
    Ok(Some(way))
}

/// The way of a format, with the one that has its numbers in another order, where that reads all texts too.
fn or_swapped(
    alloc: Global,
    reader: &mut NumberReader,
    column: ColumnTexts<'_>,
    form: Form,
    swapped: &'static str,
    way: Way,
) -> Result<Way, AllocError> {
    let other = Form {
        date: swapped,
        ..form
    };
    if swapped.is_empty() || !reads_all(alloc, reader, column, other)? {
        return Ok(way);
    }
    Ok(way.or(
        condition_of(form.date, is_without_offset(form)),
        otherwise_of(swapped),
        behind_source(alloc, other)?,
    ))
}

/// Whether a format reads all texts of a column.
fn reads_all(
    alloc: Global,
    reader: &mut NumberReader,
    column: ColumnTexts<'_>,
    form: Form,
) -> Result<bool, AllocError> {
    Ok(way_of(alloc, reader, column, form)?.is_some())
}

/// When a format of numbers is meant, by the first of them; of times without an offset also that they are in UTC.
fn condition_of(date: &str, has_no_offset: bool) -> &'static str {
    match (date.starts_with("%m"), has_no_offset) {
        (true, true) => " if the month is first and they are in UTC",
        (true, false) => " if the month is first",
        (false, true) => " if the day is first and they are in UTC",
        (false, false) => " if the day is first",
    }
}

/// When another one is meant.
fn otherwise_of(date: &str) -> &'static str {
    if date.starts_with("%d") {
        "if the day is first"
    } else {
        "if the year is first"
    }
}
