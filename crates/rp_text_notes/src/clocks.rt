//! Times of day without their dates, which no reading takes.

use crate::example::{Example, Numbered, Passed, crossing, with_further};
use crate::lines::push_order;
use crate::same_form::have_one_form;
use crate::texts::ColumnTexts;
use rp_wording::{Pieces, are_digits};
use std::alloc::{AllocError, Global};

/// Times of day of a column that came so far.
#[derive(Clone, Copy)]
pub(crate) struct Clocks<'a> {
    passed: Option<Passed<'a>>,
    /// Two of them whose order is another one as texts; None where none were found.
    example: Option<Example<'a>>,
    /// Whether one says AM or PM.
    has_halves: bool,
}

/// Those of a column all of whose texts are times of day. None where all have one form, and none says AM or PM: they are ordered as their texts
/// then.
pub(crate) fn clocks_of(column: ColumnTexts<'_>) -> Option<Clocks<'_>> {
    let mut clocks = Clocks {
        passed: None,
        example: None,
        has_halves: false,
    };
    for row in column.rows {
        if let Some(text) = column.of_row(row) {
            clocks = with_text(clocks, text)?;
        }
    }
    if clocks.passed.is_none() || !clocks.has_halves && have_one_form(column) {
        return None;
    }
    Some(clocks)
}

/// The times that came so far, with a further text; None where that is no time of day.
fn with_text<'a>(clocks: Clocks<'a>, text: &'a str) -> Option<Clocks<'a>> {
    let (clock, half) = split_half(text.trim());
    let number = seconds_of(clock, half)?;
    let here = Numbered { text, number };
    Some(Clocks {
        passed: Some(with_further(clocks.passed, here)),
        example: match clocks.example {
            Some(example) => Some(example),
            None => crossing(clocks.passed, here),
        },
        has_halves: clocks.has_halves || !half.is_empty(),
    })
}

/// A time of day without what says which half of the day it is in, and that.
fn split_half(text: &str) -> (&str, &str) {
    let at = text.len().saturating_sub(2);
    match (text.get(..at), text.get(at..)) {
        (Some(clock), Some(half)) if is_half(half) => (clock.trim(), half),
        _ => (text, ""),
    }
}

fn is_half(text: &str) -> bool {
    text.eq_ignore_ascii_case("AM") || text.eq_ignore_ascii_case("PM")
}

/// The seconds since midnight of a time as 9:30 or 09:30:15, in this half of the day, if it says one; None where it is no time of day.
fn seconds_of(clock: &str, half: &str) -> Option<i64> {
    let (hours, rest) = clock.split_once(':')?;
    let (minutes, seconds) = rest.split_once(':').unwrap_or((rest, "0"));
    let (seconds, _fraction) = seconds.split_once('.').unwrap_or((seconds, ""));
    let hours = hours_of(number_below(hours, 25)?, half);
    let minutes = number_below(minutes, 60)?;
    let seconds = number_below(seconds, 60)?;
    Some(
        hours
            .saturating_mul(3600)
            .saturating_add(minutes.saturating_mul(60))
            .saturating_add(seconds),
    )
}

/// The hours since midnight of those of a clock of 24 hours, or of one half of the day.
fn hours_of(hours: i64, half: &str) -> i64 {
    if half.eq_ignore_ascii_case("PM") && hours < 12 {
        hours.saturating_add(12)
    } else if half.eq_ignore_ascii_case("AM") && hours == 12 {
        0
    } else {
        hours
    }
}

/// The number of one or two digits that a text is, where it is below a limit.
fn number_below(text: &str, limit: i64) -> Option<i64> {
    if text.len() > 2 || !are_digits(text) {
        return None;
    }
    match text.parse::<i64>() {
        Ok(number) if number < limit => Some(number),
        _ => None,
    }
}

/// What is to be known of a column of this name.
pub(crate) fn line_of_clocks(
    alloc: Global,
    name: &str,
    clocks: Clocks<'_>,
) -> Result<String, AllocError> {
    let mut line = Pieces::of(alloc, name);
    line.push(" is text, and its times of day are compared as texts");
    push_order(&mut line, clocks.example);
    line.push(
        ". No reading takes a time without its date: write each with two digits for the hour, from 00 to 23, as 09:30",
    );
    line.finish()
}
