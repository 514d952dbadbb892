//! Dates and instants.
ghost use Rattle.std.specs.Prelude.{◌≡◌, ◌<◌, ◌≤◌, ◌+◌, ◌*◌, ◌^◌, ◌↔◌, pos, neg_ℤ, ◌≤ℤ◌, ◌+ℤ◌, ◌*ℤ◌, ◌-ℤ◌, IfOk, IfErr};
ghost use Rattle.std.specs.Result.{result_map_both};
ghost use Rattle.jiff_core.specs.Calendar.{IsEpochDay, IsWithin};
ghost use Rattle.rp_columns.specs.Fronts.{front_view, rest_view, leading_digits};
ghost use Rattle.rp_columns.specs.Instants as spec;

use crate::fault::ReadingFault;
use crate::fronts::{
    after, are_blanks, begins_with, begins_with_digit, four_digits, leading_digits, placed,
    two_digits, two_digits_after, without_blanks,
};
use crate::reading::Unit;
use crate::zone::{Zone, ahead_in};
use jiff_core::civil::Date;

/// An instant, as so many units since 1970-01-01 00:00 UTC.
pub(crate) fn instant(unit: Unit, zone: &Option<Zone>, bytes: &[u8]) -> Result<i64, ReadingFault>
    ensures { result ≡ spec.instant_of unit zone.now bytes.now }
{
    let (instant, rest) = date_time(unit, zone, without_blanks(bytes))?;
    if !are_blanks(rest) {
        return Err(ReadingFault::Form);
    }
    Ok(instant)
}

/// A day, as days since 1970-01-01.
pub(crate) fn day(bytes: &[u8]) -> Result<i64, ReadingFault>
    ensures { result ≡ spec.day_of bytes.now }
{
    let ((day, _), rest) = date(without_blanks(bytes))?;
    if !are_blanks(rest) {
        return Err(ReadingFault::Form);
    }
    Ok(day as i64)
}

/// A date, a time and an offset, as an instant.
#[tactic(auto, unfolding(crate::specs::Instants::date_time))]
fn date_time<'a>(
    unit: Unit,
    zone: &Option<Zone>,
    bytes: &'a [u8],
) -> Result<(i64, &'a [u8]), ReadingFault>
    ensures { front_view result ≡ spec.date_time unit zone.now bytes.now }
{
    let ((day, dashes), rest) = date(bytes)?;
    let rest = time_after(dashes, rest)?;
    let (time, rest) = clock(places_of(unit), rest)?;
    let (written, rest) = offset(without_blanks(rest))?;
    let ahead = ahead_in(written, zone, day, time.0)?;
    Ok((in_units(unit, day, time, ahead), rest))
}

/// How many digits behind the second a unit has.
fn places_of(unit: Unit) -> u8
    ensures { result ≡ spec.places_of unit }
{
    match unit {
        Unit::Second => 0,
        Unit::Millisecond => 3,
        Unit::Microsecond => 6,
    }
}

/// The units of a day, of the seconds of its time and a part of the next one, where clocks are ahead by so many seconds.
pub(crate) fn in_units(unit: Unit, day: i32, time: (u32, u32), ahead: i32) -> i64
    requires day { IsEpochDay day }
    requires seconds { time.0 < 86400 }
    requires fraction { time.1 < 1000000 }
    ensures { result ≡ spec.in_units unit day time ahead }
{
    let whole = whole_seconds(day, time.0, ahead);
    match unit {
        Unit::Second => whole + time.1 as i64,
        Unit::Millisecond => whole * 1_000 + time.1 as i64,
        Unit::Microsecond => whole * 1_000_000 + time.1 as i64,
    }
}

fn whole_seconds(day: i32, seconds: u32, ahead: i32) -> i64
    requires day { IsEpochDay day }
    requires seconds { seconds < 86400 }
    ensures value { result ≡ day *ℤ pos 86400 +ℤ pos seconds -ℤ ahead }
    ensures bound { IsWithin 400000000000 result }
{
    day as i64 * 86_400 + seconds as i64 - ahead as i64
}

/// A date as its day since 1970-01-01, and whether it has dashes.
#[tactic(auto, unfolding(crate::specs::Instants::date))]
fn date(bytes: &[u8]) -> Result<((i32, bool), &[u8]), ReadingFault>
    ensures value { front_view result ≡ spec.date bytes.now }
    ensures bound { IfOk result (λ p. IsEpochDay p.0.0) }
{
    let (year, rest) = four_digits(bytes)?;
    let dashes = begins_with(rest, b'-');
    let (month, rest) = two_digits_after(rest, dashes, b'-')?;
    let (day, rest) = two_digits_after(rest, dashes, b'-')?;
    let day = day_number(year, month, day)?;
    Ok(((day, dashes), rest))
}

/// The number of a day of the calendar.
pub(crate) fn day_number(year: u32, month: u32, day: u32) -> Result<i32, ReadingFault>
    requires year { year < 10000 }
    requires month { month < 100 }
    requires day { day < 100 }
    ensures value { result ≡ spec.day_number year month day }
    ensures bound { IfOk result IsEpochDay }
{
    match Date::new(year as i16, month as i8, day as i8) {
        Ok(date) => Ok(date.to_unix_epoch_day()),
        Err(_) => Err(ReadingFault::NoSuchTime),
    }
}

/// What follows the sign between a date and its time.
fn time_after(dashes: bool, bytes: &[u8]) -> Result<&[u8], ReadingFault>
    ensures { rest_view result ≡ spec.time_after dashes bytes.now }
{
    match bytes {
        [b'T' | b't' | b' ', rest @ ..] => Ok(rest),
        [b'-', rest @ ..] if !dashes => Ok(rest),
        _ => Err(ReadingFault::Form),
    }
}

/// A time of day as its seconds since midnight, and the first digits of a fraction.
#[tactic(auto, unfolding(crate::specs::Instants::clock))]
fn clock(places: u8, bytes: &[u8]) -> Result<((u32, u32), &[u8]), ReadingFault>
    requires { places ≤ 6 }
    ensures value { front_view result ≡ spec.clock places bytes.now }
    ensures seconds { IfOk result (λ p. p.0.0 < 86400) }
    ensures fraction { IfOk result (λ p. p.0.1 < 1000000) }
{
    let (hour, rest) = two_digits(bytes)?;
    let colons = begins_with(rest, b':');
    let (minute, rest) = two_digits_after(rest, colons, b':')?;
    let ((second, fraction), rest) = seconds(colons, places, rest)?;
    if hour < 24 && minute < 60 && second < 60 {
        return Ok(((hour * 3600 + minute * 60 + second, fraction), rest));
    }
    Err(ReadingFault::NoSuchTime)
}

/// The seconds of a time, and the first digits of their fraction.
#[tactic(auto, unfolding(crate::specs::Instants::seconds))]
fn seconds(colons: bool, places: u8, bytes: &[u8]) -> Result<((u32, u32), &[u8]), ReadingFault>
    requires { places ≤ 6 }
    ensures value { front_view result ≡ spec.seconds colons places bytes.now }
    ensures second { IfOk result (λ p. p.0.0 < 100) }
    ensures fraction { IfOk result (λ p. p.0.1 < 1000000) }
{
    if !has_seconds(colons, bytes) {
        return Ok(((0, 0), bytes));
    }
    let (second, rest) = two_digits_after(bytes, colons, b':')?;
    let (fraction, rest) = fraction(places, rest)?;
    Ok(((second, fraction), rest))
}

/// Whether seconds follow the minute.
fn has_seconds(colons: bool, bytes: &[u8]) -> bool
    ensures { result ≡ spec.has_seconds colons bytes.now }
{
    if colons {
        begins_with(bytes, b':')
    } else {
        begins_with_digit(bytes)
    }
}

/// The first digits of a fraction.
#[tactic(auto, unfolding(crate::specs::Instants::fraction))]
fn fraction(places: u8, bytes: &[u8]) -> Result<(u32, &[u8]), ReadingFault>
    requires { places ≤ 6 }
    ensures value { front_view result ≡ spec.fraction places bytes.now }
    ensures bound { IfOk result (λ p. p.0 < 1000000) }
{
    match bytes {
        [b'.' | b',', behind @ ..] => some_fraction(places, behind),
        _ => Ok((0, bytes)),
    }
}

fn some_fraction(places: u8, bytes: &[u8]) -> Result<(u32, &[u8]), ReadingFault>
    requires { places ≤ 6 }
    ensures value { front_view result ≡ spec.some_fraction places (leading_digits bytes.now) }
    ensures bound { IfOk result (λ p. p.0 < 1000000) }
{
    if !begins_with_digit(bytes) {
        return Err(ReadingFault::Form);
    }
    let (value, left) = placed(Some(0), places, bytes);
    let rest = leading_digits(Some(0), left).rest;
    match value {
        Some(value) => Ok((value as u32, rest)),
        None => unreachable!(),
    }
}

/// The seconds by which a local time is ahead of UTC, where anything is written.
#[tactic(auto, unfolding(crate::specs::Instants::offset))]
pub(crate) fn offset(bytes: &[u8]) -> Result<(Option<i32>, &[u8]), ReadingFault>
    ensures { front_view result ≡ spec.offset bytes.now }
{
    match bytes {
        [] => Ok((None, bytes)),
        [b'Z' | b'z', rest @ ..] => Ok((Some(0), rest)),
        [b'+', rest @ ..] => {
            let (seconds, rest) = hours_minutes(rest)?;
            Ok((Some(seconds as i32), rest))
        }
        [b'-', rest @ ..] => {
            let (seconds, rest) = hours_minutes(rest)?;
            Ok((Some(-(seconds as i32)), rest))
        }
        _ => utc(bytes),
    }
}

/// `UTC`.
fn utc(bytes: &[u8]) -> Result<(Option<i32>, &[u8]), ReadingFault>
    ensures { front_view result ≡ spec.utc bytes.now }
{
    let rest = after(after(after(bytes, b'U')?, b'T')?, b'C')?;
    Ok((Some(0), rest))
}

/// Hours and minutes of an offset, as seconds.
#[tactic(auto, unfolding(crate::specs::Instants::hours_minutes))]
fn hours_minutes(bytes: &[u8]) -> Result<(u32, &[u8]), ReadingFault>
    ensures value { front_view result ≡ spec.hours_minutes bytes.now }
    ensures bound { IfOk result (λ p. p.0 < 86400) }
{
    let (hours, rest) = two_digits(bytes)?;
    let (minutes, rest) = minutes(begins_with(rest, b':'), rest)?;
    if hours < 24 && minutes < 60 {
        return Ok((hours * 3600 + minutes * 60, rest));
    }
    Err(ReadingFault::NoSuchTime)
}

/// The minutes of an offset, which may be left out.
fn minutes(colon: bool, bytes: &[u8]) -> Result<(u32, &[u8]), ReadingFault>
    ensures value { front_view result ≡ spec.minutes colon bytes.now }
    ensures bound { IfOk result (λ p. p.0 < 100) }
{
    if colon {
        return two_digits(after(bytes, b':')?);
    }
    if begins_with_digit(bytes) {
        return two_digits(bytes);
    }
    Ok((0, bytes))
}
