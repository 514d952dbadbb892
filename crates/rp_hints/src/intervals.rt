//! Lengths of time, as whole numbers of the unit that a column has.

use rp_lexer::TokenKind;
use rp_wording::{Advice, Pieces, Reading, are_digits, is_name, is_one_of};
use std::alloc::Global;

/// The most digits of a length of time that is told in other units.
const DIGITS: usize = 6;

/// The words and signs before which a condition or a measure has ended.
const BOUNDS: &str = "AS AND OR NOT DEFINE MEASURES WHERE ,";

/// The milliseconds of each unit of time, by the words for it.
const UNITS: [(&str, u64); 6] = [
    ("MILLISECOND MILLISECONDS MS", 1),
    ("SECOND SECONDS SEC", 1000),
    ("MINUTE MINUTES MIN", 60_000),
    ("HOUR HOURS", 3_600_000),
    ("DAY DAYS", 86_400_000),
    ("WEEK WEEKS", 604_800_000),
];

/// What an INTERVAL before the number or the text at the place is in units of the column near it, or a number of units before the unit at
/// the place.
pub(crate) fn of_interval(alloc: Global, reading: &Reading<'_>) -> Option<Advice> {
    if is_one_of(reading.back(1), "INTERVAL") {
        let length = length_of(reading.here().trim_matches('\''), reading.next(1))?;
        return lasting(alloc, reading, "there are no intervals", length);
    }
    if reading.is_name() && reading.kind_back(1) == Some(TokenKind::Number) {
        let length = milliseconds(reading.back(1), reading.here())?;
        return lasting(alloc, reading, "there are no units of time", length);
    }
    None
}

/// The milliseconds of what is written in an interval, as `1`, with the unit behind it, or `1 hour`.
fn length_of(written: &str, behind: &str) -> Option<u64> {
    match written.split_once(' ') {
        Some((number, unit)) => milliseconds(number, unit.trim()),
        None => milliseconds(written, behind),
    }
}

/// The milliseconds of so many units.
fn milliseconds(number: &str, unit: &str) -> Option<u64> {
    if !are_digits(number) || number.len() > DIGITS {
        return None;
    }
    let count = number.parse::<u64>().ok()?;
    for (words, length) in &UNITS {
        if is_one_of(unit, words) {
            return Some(count.saturating_mul(*length));
        }
    }
    None
}

/// What to write for so many milliseconds, by the unit of the column near the place.
fn lasting(alloc: Global, reading: &Reading<'_>, what: &str, length: u64) -> Option<Advice> {
    let column = column_near(reading);
    let mut help = Pieces::of(alloc, "write ");
    if length % 1000 == 0 {
        help.push_number(length / 1000);
        help.push_filled(" where {} is in seconds, ", &[column]);
        help.push_number(length);
        help.push(" where in milliseconds");
    } else {
        help.push_number(length);
        help.push_filled(" where {} is in milliseconds", &[column]);
    }
    if length % 86_400_000 == 0 {
        help.push(", ");
        help.push_number(length / 86_400_000);
        help.push(" where in days");
    }
    Some(Advice::with_help(alloc, what, help))
}

/// The last column that is named before the place in its condition.
fn column_near<'a>(reading: &Reading<'a>) -> &'a str {
    for back in 1..reading.at.saturating_add(1) {
        if is_one_of(reading.back(back), BOUNDS) {
            return "the column";
        }
        if is_column(reading, back) {
            return reading.back(back);
        }
    }
    "the column"
}

/// Whether the name of a column is so many tokens before the place.
fn is_column(reading: &Reading<'_>, back: usize) -> bool {
    let behind = reading.back(back.saturating_sub(1));
    is_name(reading.kind_back(back))
        && !matches!(behind, "." | "(")
        && !is_one_of(reading.back(back), "INTERVAL")
}
