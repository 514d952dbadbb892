//! What to write for a date or a time that is compared with a column of whole numbers.

use crate::literals::{column_beside, with_text};
use crate::moments::{Clock, Moment, moment_of};
use rp_lexer::TokenKind;
use rp_value::Table;
use rp_wording::{Advice, Pieces, Reading, is_date, is_one_of};
use std::alloc::{AllocError, Global};

/// The words before a text of a date or a time in other dialects of SQL.
const TYPES: &str = "DATE TIMESTAMP TIMESTAMPTZ DATETIME";

/// What to write for a date that isn't one as 2024-01-05, over whole numbers.
const OTHER_DATE: &str =
    "write the number that the column has for it, as 20240105 or the seconds since 1970, of which 1704412800 is 2024-01-05 in UTC";

/// What to write in place of a text with a date or a time that is compared by the sign at the place with whole numbers. Nothing where there
/// is none.
pub(crate) fn of_dates(
    alloc: Global,
    table: &Table,
    reading: &Reading<'_>,
) -> Result<Option<Pieces>, AllocError> {
    let Some(inside) = text_beside(reading) else {
        return Ok(None);
    };
    if !is_date(inside) {
        return Ok(None);
    }
    let Some(moment) = moment_of(inside) else {
        return Ok(Some(Pieces::of(alloc, OTHER_DATE)));
    };
    let column = match with_text(alloc, table, reading)? {
        Some(compared) => compared.column,
        None => 0,
    };
    Ok(Some(as_numbers(alloc, table, column, inside, moment)))
}

/// What is inside the quotes of the text behind the place, or before it.
fn text_beside<'a>(reading: &Reading<'a>) -> Option<&'a str> {
    let text = Some(TokenKind::Text);
    if reading.kind(reading.at.saturating_add(1)) == text {
        return Some(reading.next(1).trim_matches('\''));
    }
    if reading.kind_back(1) == text {
        return Some(reading.back(1).trim_matches('\''));
    }
    None
}

/// What is wrong with a DATE or a TIMESTAMP before the text at the place, and what to write, where it is compared with a column of whole
/// numbers.
pub(crate) fn of_typed_date(
    alloc: Global,
    table: &Table,
    reading: &Reading<'_>,
) -> Result<Option<Advice>, AllocError> {
    let Some(start) = reading.at.checked_sub(1) else {
        return Ok(None);
    };
    if reading.kind_here() != Some(TokenKind::Text) || !is_one_of(reading.back(1), TYPES) {
        return Ok(None);
    }
    let inside = reading.here().trim_matches('\'');
    let end = reading.at.saturating_add(1);
    match (
        moment_of(inside),
        column_beside(alloc, table, reading, start, end)?,
    ) {
        (Some(moment), Some(column)) => {
            let help = as_numbers(alloc, table, column, inside, moment);
            let what = "there are no dates and times";
            Ok(Some(Advice::with_help(alloc, what, help)))
        }
        _ => Ok(None),
    }
}

/// The numbers that a date or a time of this text may be in the column of this number: what that has isn't known here.
fn as_numbers(alloc: Global, table: &Table, column: usize, text: &str, moment: Moment) -> Pieces {
    let name = name_of(table, column);
    let mut help = Pieces::of(alloc, "write ");
    if moment.clock == Clock::Absent {
        push_integer(alloc, &mut help, moment.digits);
        push_where(&mut help, name);
        help.push(" has dates as 20240105, ");
        push_integer(alloc, &mut help, moment.seconds);
        help.push(" where it has seconds since 1970 in UTC, ");
    } else {
        push_integer(alloc, &mut help, moment.seconds);
        push_where(&mut help, name);
        help.push(" has seconds since 1970 in UTC, ");
    }
    push_integer(alloc, &mut help, moment.seconds.saturating_mul(1000));
    help.push(" where milliseconds");
    match moment.clock {
        Clock::Absent => push_days(alloc, &mut help, name, text, moment.days),
        Clock::Local => help.push(
            "\nthe time is taken as one in UTC: in another zone it has another number",
        ),
        Clock::Certain => {}
    }
    help
}

/// The name of the column of this number, from 1.
fn name_of(table: &Table, column: usize) -> Option<&str> {
    let index = column.checked_sub(1)?;
    Some(table.columns().get(index)?.name.as_str())
}

/// Adds a number.
fn push_integer(alloc: Global, help: &mut Pieces, number: i64) {
    help.push_made(format!(in alloc; "{number}"));
}

/// Adds in which case something is right, up to the name of a column.
fn push_where(help: &mut Pieces, name: Option<&str>) {
    help.push(" where ");
    match name {
        Some(name) => help.push_name(name),
        None => help.push("the column"),
    }
}

/// Adds what a date of this text is in days, and how a column of this name is read so.
fn push_days(alloc: Global, help: &mut Pieces, name: Option<&str>, text: &str, days: i64) {
    match name {
        Some(name) => {
            let mut column = Pieces::new(alloc);
            column.push_name(name);
            column.push(" date");
            help.push("\n--columns ");
            match column.finish() {
                Ok(column) => help.push_shell_word(column.as_str()),
                Err(refused) => help.push_made(Err(refused)),
            }
        }
        None => help.push("\na reading date of --columns"),
    }
    help.push_filled(" reads dates as days since 1970, and {} is ", &[text]);
    push_integer(alloc, help, days);
    help.push(" then");
}
