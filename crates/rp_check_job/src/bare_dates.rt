//! What `check` says of dates without quotes, which are differences of numbers: `2024-01-07` is 2016.

use crate::found::Found;
use crate::literals::{literal_told, number_of};
use rp_columns::Reading as ColumnReading;
use rp_explain_clauses::Compared;
use rp_question::InputShape;
use rp_value::{Kind, Table};
use rp_wording::{Pieces, Reading, are_digits, is_comparison, meant, shown_text, tokens_of};
use std::alloc::{AllocError, Global};

/// How many tokens a date without quotes is: three numbers and two minus signs.
const TOKENS: usize = 5;

/// A date without quotes.
#[derive(Clone, Copy)]
struct BareDate<'a> {
    /// The digits of its year, its month and its day.
    year: &'a str,
    month: &'a str,
    day: &'a str,
    /// Its year without its month and its day.
    difference: i64,
    /// The name before the sign by which it is compared, or behind it; nothing where there is none.
    column: &'a str,
}

/// What is said of dates without quotes in a clause and in a condition, over the columns that were found: a line or two for each.
pub(crate) fn bare_dates_told(
    found: &Found,
    clause: &Option<String>,
    condition: &Option<String>,
) -> Result<String, AllocError> {
    let mut told = Pieces::new(found.alloc);
    if let Some(shape) = &found.shape {
        if let Some(clause) = clause {
            push_dates(found.alloc, &mut told, shape, clause.as_str(), "")?;
        }
        if let Some(condition) = condition {
            push_dates(found.alloc, &mut told, shape, condition.as_str(), "where: ")?;
        }
    }
    shown_text(found.alloc, told.text()?)
}

/// Adds what is said of the dates of a text, each line behind a word.
fn push_dates(
    alloc: Global,
    told: &mut Pieces,
    shape: &InputShape,
    text: &str,
    front: &str,
) -> Result<(), AllocError> {
    let tokens = tokens_of(alloc, text)?;
    for at in 0..tokens.len() {
        let reading = Reading {
            text,
            tokens: tokens.as_slice(),
            at,
        };
        if let Some(date) = date_at(&reading) {
            push_date(alloc, told, shape, date, front)?;
        }
    }
    Ok(())
}

/// The date of four, two and two digits, or of one for two, that begins at the place without a gap in it.
fn date_at<'a>(reading: &Reading<'a>) -> Option<BareDate<'a>> {
    let (year, month, day) = (reading.here(), reading.next(2), reading.next(4));
    if year.len() != 4 || month.len() > 2 || day.len() > 2 || !is_joined(reading) {
        return None;
    }
    let difference = number(year, 9999)?
        .saturating_sub(number(month, 12)?)
        .saturating_sub(number(day, 31)?);
    Some(BareDate {
        year,
        month,
        day,
        difference,
        column: column_beside(reading),
    })
}

/// Whether minus signs are between the tokens of a date, and no gaps, and no further one on either side.
fn is_joined(reading: &Reading<'_>) -> bool {
    for count in 1..TOKENS {
        let token = Reading {
            at: reading.at.saturating_add(count),
            ..*reading
        };
        let is_sign = count % 2 == 1;
        if !token.touches() || is_sign != (token.here() == "-") {
            return false;
        }
    }
    let is_behind_sign = reading.touches() && reading.back(1) == "-";
    !is_behind_sign && reading.next(TOKENS) != "-"
}

/// The number that one or more digits are, from 1 to another.
fn number(digits: &str, most: i64) -> Option<i64> {
    if !are_digits(digits) {
        return None;
    }
    let number = digits.parse::<i64>().ok()?;
    if number >= 1 && number <= most {
        return Some(number);
    }
    None
}

/// The name with which the date at the place is compared; nothing where there is none.
fn column_beside<'a>(reading: &Reading<'a>) -> &'a str {
    if is_comparison(reading.back(1)) {
        return reading.back(2);
    }
    if !is_comparison(reading.next(TOKENS)) {
        return "";
    }
    let behind = TOKENS.saturating_add(1);
    match reading.next(behind.saturating_add(1)) {
        "." => reading.next(behind.saturating_add(2)),
        _ => reading.next(behind),
    }
}

/// Adds what is said of a date: that it is none, and what to write for it.
fn push_date(
    alloc: Global,
    told: &mut Pieces,
    shape: &InputShape,
    date: BareDate<'_>,
    front: &str,
) -> Result<(), AllocError> {
    let difference = format!(in alloc; "{}", date.difference)?;
    let parts = &[front, date.year, date.month, date.day, difference.as_str()];
    told.push_filled("{}{}-{}-{} is a difference here, {}, and no date", parts);
    if let Some(column) = column_named(alloc, shape.table(), date.column)? {
        let literal = in_full(alloc, date)?;
        push_remedy(alloc, told, shape, &Compared { column, literal }, front)?;
    }
    told.push("\n");
    Ok(())
}

/// The date with two digits for its month and its day.
fn in_full(alloc: Global, date: BareDate<'_>) -> Result<String, AllocError> {
    let mut text = Pieces::of(alloc, date.year);
    for part in [date.month, date.day] {
        text.push(if part.len() == 1 { "-0" } else { "-" });
        text.push(part);
    }
    text.finish()
}

/// Adds what to write for a date: as its column is read, where that is known.
fn push_remedy(
    alloc: Global,
    told: &mut Pieces,
    shape: &InputShape,
    compared: &Compared,
    front: &str,
) -> Result<(), AllocError> {
    let read = literal_told(alloc, shape, compared)?;
    if read.is_empty() {
        return push_by_kind(alloc, told, shape.table(), compared);
    }
    told.push_filled("\n{}{}", &[front, read.as_str().trim_end()]);
    Ok(())
}

/// The same by the kind of its column.
fn push_by_kind(
    alloc: Global,
    told: &mut Pieces,
    table: &Table,
    compared: &Compared,
) -> Result<(), AllocError> {
    let date = compared.literal.as_str();
    let Some(column) = table.columns().get(compared.column.saturating_sub(1)) else {
        return Ok(());
    };
    if column.kind == Kind::Text {
        told.push_filled(": a text is written in single quotes, '{}'", &[date]);
        return Ok(());
    }
    told.push(": write ");
    push_digits(told, date);
    told.push(" where ");
    told.push_name(column.name.as_str());
    told.push(" has dates as 20240105");
    if let Some(days) = number_of(alloc, &ColumnReading::Day, date)? {
        told.push(", ");
        told.push_made(format!(in alloc; "{days}"));
        told.push(" where it has days since 1970");
    }
    Ok(())
}

/// Adds a date without its signs.
fn push_digits(told: &mut Pieces, date: &str) {
    for part in date.split('-') {
        told.push(part);
    }
}

/// The number of the column whose name is written so, from 1.
fn column_named(alloc: Global, table: &Table, written: &str) -> Result<Option<usize>, AllocError> {
    let name = meant(alloc, written)?;
    for (index, column) in table.columns().iter().enumerate() {
        if column.name.as_str() == name.as_str() {
            return Ok(Some(index.saturating_add(1)));
        }
    }
    Ok(None)
}
