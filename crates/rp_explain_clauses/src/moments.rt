//! Dates and times as ISO 8601 writes them, as numbers.

use rp_wording::are_digits;

/// The seconds of a day.
const DAY: i64 = 86_400;

/// The days from the first of March of the year 0 on to 1970.
const BEFORE_1970: i64 = 719_468;

/// What a text says of the time of a day.
#[derive(Clone, Copy, PartialEq, Eq)]
pub(crate) enum Clock {
    /// Nothing: it is a date alone.
    Absent,
    /// A time without an offset from UTC.
    Local,
    /// A time with one.
    Certain,
}

/// A date or a time.
#[derive(Clone, Copy)]
pub(crate) struct Moment {
    /// The date in digits, as 20240105.
    pub(crate) digits: i64,
    /// The date in days since 1970.
    pub(crate) days: i64,
    /// The seconds since 1970 in UTC; of a date those at its beginning.
    pub(crate) seconds: i64,
    /// What it says of the time of the day.
    pub(crate) clock: Clock,
}

/// The date or the time that a text is, as 2024-01-05, 2024-01-05 12:00 and 2024-01-05T12:00:00+01:00. Nothing where it is something else,
/// or has parts of a second.
pub(crate) fn moment_of(text: &str) -> Option<Moment> {
    let date = date_of(text.get(..10)?)?;
    let rest = text.get(10..)?;
    if rest.is_empty() {
        return Some(date);
    }
    let time = rest.strip_prefix('T').or(rest.strip_prefix(' '))?;
    let (second, behind) = second_of(time)?;
    let (clock, offset) = offset_of(behind)?;
    let seconds = date.seconds.saturating_add(second).saturating_sub(offset);
    Some(Moment {
        seconds,
        clock,
        ..date
    })
}

/// The date that a text of ten characters is.
fn date_of(text: &str) -> Option<Moment> {
    if text.get(4..5)? != "-" || text.get(7..8)? != "-" {
        return None;
    }
    day_of(
        number_of(text.get(..4)?)?,
        number_of(text.get(5..7)?)?,
        number_of(text.get(8..)?)?,
    )
}

/// The date of a year, a month and a day, where the calendar has it.
pub(crate) fn day_of(year: i64, month: i64, day: i64) -> Option<Moment> {
    if !is_in(year, 1, 9999) || !is_in(month, 1, 12) || !is_in(day, 1, month_length(year, month)) {
        return None;
    }
    let days = days_before(year, month).saturating_add(day);
    Some(Moment {
        digits: year
            .saturating_mul(100)
            .saturating_add(month)
            .saturating_mul(100)
            .saturating_add(day),
        days,
        seconds: days.saturating_mul(DAY),
        clock: Clock::Absent,
    })
}

/// How many days a month has.
fn month_length(year: i64, month: i64) -> i64 {
    let is_leap = year % 4 == 0 && (year % 100 != 0 || year % 400 == 0);
    match month {
        2 if is_leap => 29,
        2 => 28,
        4 | 6 | 9 | 11 => 30,
        _ => 31,
    }
}

/// The days since 1970 of the day before a month: years are counted from March, so that a leap day is their last one.
fn days_before(year: i64, month: i64) -> i64 {
    let (from_march, months) = if month > 2 {
        (year, month.saturating_sub(3))
    } else {
        (year.saturating_sub(1), month.saturating_add(9))
    };
    let leap_days = (from_march / 4)
        .saturating_sub(from_march / 100)
        .saturating_add(from_march / 400);
    let in_year = months.saturating_mul(153).saturating_add(2) / 5;
    from_march
        .saturating_mul(365)
        .saturating_add(leap_days)
        .saturating_add(in_year)
        .saturating_sub(1)
        .saturating_sub(BEFORE_1970)
}

/// The second of the day at which a time in front of a text is, as 12:00 and 12:00:30, and what is behind it.
fn second_of(text: &str) -> Option<(i64, &str)> {
    let hour = number_of(text.get(..2)?)?;
    let minute = number_of(text.get(3..5)?)?;
    if text.get(2..3)? != ":" || !is_in(hour, 0, 23) || !is_in(minute, 0, 59) {
        return None;
    }
    let start = hour
        .saturating_mul(60)
        .saturating_add(minute)
        .saturating_mul(60);
    let behind = text.get(5..)?;
    if !behind.starts_with(':') {
        return Some((start, behind));
    }
    let second = number_of(behind.get(1..3)?)?;
    if !is_in(second, 0, 59) {
        return None;
    }
    Some((start.saturating_add(second), behind.get(3..)?))
}

/// The seconds by which clocks of an offset are before UTC.
fn offset_of(text: &str) -> Option<(Clock, i64)> {
    if text.is_empty() {
        return Some((Clock::Local, 0));
    }
    if text == "Z" {
        return Some((Clock::Certain, 0));
    }
    if let Some(behind) = text.strip_prefix('-') {
        return Some((Clock::Certain, hours_of(behind)?.saturating_neg()));
    }
    Some((Clock::Certain, hours_of(text.strip_prefix('+')?)?))
}

/// The seconds of hours and minutes, as 01:00, 0100 and 01.
fn hours_of(text: &str) -> Option<i64> {
    let hours = number_of(text.get(..2)?)?;
    let behind = text.get(2..)?;
    let minutes = match behind.strip_prefix(':').unwrap_or(behind) {
        "" => 0,
        digits if digits.len() == 2 => number_of(digits)?,
        _ => return None,
    };
    if !is_in(hours, 0, 23) || !is_in(minutes, 0, 59) {
        return None;
    }
    Some(
        hours
            .saturating_mul(60)
            .saturating_add(minutes)
            .saturating_mul(60),
    )
}

/// The number that digits are.
pub(crate) fn number_of(digits: &str) -> Option<i64> {
    if !are_digits(digits) {
        return None;
    }
    digits.parse::<i64>().ok()
}

/// Whether a number is from one to another.
fn is_in(number: i64, least: i64, most: i64) -> bool {
    number >= least && number <= most
}
