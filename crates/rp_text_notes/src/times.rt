//! Texts that are dates or times.

use crate::formats::format_way;
use crate::same_form::have_one_form;
use crate::texts::{ColumnTexts, NumberReader};
use crate::way::{Way, as_fine};
use rp_wording::are_digits;
use std::alloc::{AllocError, Global};

/// So many digits a year has.
const YEAR_DIGITS: usize = 4;

/// So many digits the fraction of a second has in millionths.
const MICRO_PLACES: usize = 6;

/// What is said where times have no offset from UTC.
pub(crate) const IN_UTC: &str = " if they are in UTC";

/// What is said where they may be in a time zone instead.
pub(crate) const IN_ZONE: &str =
    "; if they are in a time zone, name it in place of 'UTC', as 'Europe/Berlin'";

/// How all texts of a column are read as dates or times, in a unit that is at least so fine. None where not all are, and where no unit is asked
/// for and their order as texts is that of time.
pub(crate) fn time_way(
    alloc: Global,
    reader: &mut NumberReader,
    column: ColumnTexts<'_>,
    least: usize,
) -> Result<Option<Way>, AllocError> {
    if least == 0 && has_year_first(column.first().unwrap_or("")) && have_one_form(column) {
        return Ok(None);
    }
    any_time_way(alloc, reader, column, least)
}

/// How all texts of a column are read as dates or times, in a unit that is at least so fine. None where not all are.
pub(crate) fn any_time_way(
    alloc: Global,
    reader: &mut NumberReader,
    column: ColumnTexts<'_>,
    least: usize,
) -> Result<Option<Way>, AllocError> {
    let found = match iso_way(alloc, reader, column, least)? {
        Some(way) => Some(way),
        None => format_way(alloc, reader, column, least)?,
    };
    match found {
        Some(way) => Ok(Some(way.cutting(most_places(column) > MICRO_PLACES))),
        None => Ok(None),
    }
}

/// Whether a text begins with a year if it is a time, and smaller units come behind greater ones: it has no clock of twelve hours.
pub(crate) fn has_year_first(text: &str) -> bool {
    let year = text.trim().get(..YEAR_DIGITS).unwrap_or("");
    are_digits(year) && !text.contains('m') && !text.contains('M')
}

/// How all texts of a column are read as dates or times by ISO 8601, in a unit that is at least so fine.
fn iso_way(
    alloc: Global,
    reader: &mut NumberReader,
    column: ColumnTexts<'_>,
    least: usize,
) -> Result<Option<Way>, AllocError> {
    if least == 0 {
        return iso_way_of_some(alloc, reader, column, column);
    }
    instant_way(alloc, reader, column, as_fine(word_for(column), least))
}

/// How some texts of a column are read as dates or times by ISO 8601, in the unit in which all of them are whole.
pub(crate) fn iso_way_of_some(
    alloc: Global,
    reader: &mut NumberReader,
    some: ColumnTexts<'_>,
    column: ColumnTexts<'_>,
) -> Result<Option<Way>, AllocError> {
    let nothing = String::new(alloc);
    match Way::reading_all(alloc, reader, some, "date", nothing)? {
        Some(way) => Ok(Some(way)),
        None => instant_way(alloc, reader, some, word_for(column)),
    }
}

/// How all texts of a column are read as times by ISO 8601, by this word.
fn instant_way(
    alloc: Global,
    reader: &mut NumberReader,
    column: ColumnTexts<'_>,
    word: &'static str,
) -> Result<Option<Way>, AllocError> {
    let nothing = String::new(alloc);
    if let Some(way) = Way::reading_all(alloc, reader, column, word, nothing)? {
        return Ok(Some(way));
    }
    let utc = String::from_str(alloc, ", 'UTC'")?;
    match Way::reading_all(alloc, reader, column, word, utc)? {
        Some(way) => Ok(Some(way.in_utc())),
        None => Ok(None),
    }
}

/// The word of the unit in which times of a column are whole: of millionths at the least.
fn word_for(column: ColumnTexts<'_>) -> &'static str {
    match most_places(column) {
        0 => "seconds",
        1..=3 => "millis",
        _ => "micros",
    }
}

/// The most digits that the fraction of a time of a column has.
fn most_places(column: ColumnTexts<'_>) -> usize {
    let mut places = 0usize;
    for row in column.rows {
        if let Some(text) = column.of_row(row) {
            places = places.max(fraction_places(text.as_bytes()));
        }
    }
    places
}

/// How many digits the fraction of a time has.
fn fraction_places(text: &[u8]) -> usize {
    let Some(point) = text.iter().position(|byte| matches!(*byte, b'.' | b',')) else {
        return 0;
    };
    let behind = text.get(point.saturating_add(1)..).unwrap_or(b"");
    behind
        .iter()
        .position(|byte| !byte.is_ascii_digit())
        .unwrap_or(behind.len())
}
