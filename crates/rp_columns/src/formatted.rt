//! Dates and instants by a format of a column's own.
ghost use Rattle.std.specs.Prelude.{◌≡◌, ◌<◌, ◌-◌, ◌/◌, ◌^◌, IfOk, Some, option_map};
ghost use Rattle.jiff_core.specs.Calendar.{IsEpochDay};
ghost use Rattle.jiff_strtime.specs.Text.{parts_of};
ghost use Rattle.rp_columns.specs.Formats as spec;
ghost use Rattle.rp_columns.specs.Instants.{places_of};

use crate::fault::ReadingFault;
use crate::formats::Format;
use crate::fronts::{are_blanks, without_blanks};
use crate::instant::{day_number, in_units};
use crate::reading::Unit;
use crate::zone::{Zone, ahead_in};
use jiff_core::{Error, Offset};
use jiff_strtime::{BrokenDownTime, parse_prefix};

/// An instant, as so many units since 1970-01-01 00:00 UTC.
pub(crate) fn formatted(
    unit: Unit,
    format: &Format,
    zone: &Option<Zone>,
    bytes: &[u8],
) -> Result<i64, ReadingFault>
    ensures { result ≡ spec.formatted unit format.now zone.now bytes.now }
{
    let parts = parts_by(format, bytes)?;
    instant_in(unit, zone, &parts)
}

/// A day, as days since 1970-01-01.
pub(crate) fn formatted_day(format: &Format, bytes: &[u8]) -> Result<i64, ReadingFault>
    ensures { result ≡ spec.formatted_day format.now bytes.now }
{
    let parts = parts_by(format, bytes)?;
    let day = day_in(parts.year, parts.month, parts.day)?;
    Ok(day as i64)
}

/// The parts that a format reads of a whole field.
#[tactic(auto, unfolding(crate::specs::Formats::parts_by))]
fn parts_by<'a>(format: &Format, bytes: &'a [u8]) -> Result<BrokenDownTime<'a>, ReadingFault>
    ensures { spec.whole_view result ≡ spec.parts_by format.now bytes.now }
{
    let bytes = without_blanks(bytes);
    let _below = read_by(format.as_minutes(), bytes)?;
    let (parts, rest) = read_by(format.as_bytes(), bytes)?;
    if are_blanks(rest) {
        return Ok(parts);
    }
    Err(ReadingFault::Form)
}

/// The parts that a format reads at a front, and what follows it.
fn read_by<'a>(
    format: &[u8],
    bytes: &'a [u8],
) -> Result<(BrokenDownTime<'a>, &'a [u8]), ReadingFault>
    ensures { spec.parts_view result ≡ spec.read_by format.now bytes.now }
{
    match parse_prefix(format, bytes) {
        Ok(read) => Ok(read),
        Err(error) => Err(refusal(error)),
    }
}

fn refusal(error: Error) -> ReadingFault
    ensures { result ≡ spec.refusal error }
{
    match error {
        Error::Parse(_) => ReadingFault::Form,
        _ => ReadingFault::NoSuchTime,
    }
}

/// The instant of the parts of a date and a time.
#[tactic(auto, unfolding(crate::specs::Formats::instant_in))]
fn instant_in(
    unit: Unit,
    zone: &Option<Zone>,
    parts: &BrokenDownTime<'_>,
) -> Result<i64, ReadingFault>
    ensures { result ≡ spec.instant_in unit zone.now (parts_of parts.now) }
{
    let day = day_in(parts.year, parts.month, parts.day)?;
    let time = clock_in(unit, parts.hour, parts.minute, parts.second, parts.subsec)?;
    let ahead = ahead_in(seconds_of(parts.offset), zone, day, time.0)?;
    Ok(in_units(unit, day, time, ahead))
}

/// The number of the day of a year of four digits, a month and a day.
fn day_in(year: Option<i16>, month: Option<u8>, day: Option<u8>) -> Result<i32, ReadingFault>
    ensures value { result ≡ spec.day_in year month day }
    ensures bound { IfOk result IsEpochDay }
{
    match (year, month, day) {
        (Some(year), Some(month), Some(day)) => day_of(year, month, day),
        _ => Err(ReadingFault::Form),
    }
}

fn day_of(year: i16, month: u8, day: u8) -> Result<i32, ReadingFault>
    ensures value { result ≡ spec.day_in (Some year) (Some month) (Some day) }
    ensures bound { IfOk result IsEpochDay }
{
    let Ok(year) = u32::try_from(year) else {
        return Err(ReadingFault::Form);
    };
    if year < 1000 {
        return Err(ReadingFault::Form);
    }
    if year < 10000 && month < 100 && day < 100 {
        return day_number(year, month as u32, day as u32);
    }
    Err(ReadingFault::NoSuchTime)
}

/// A time of day as its seconds since midnight, and the first digits of a fraction.
fn clock_in(
    unit: Unit,
    hour: Option<u8>,
    minute: Option<u8>,
    second: Option<u8>,
    nanoseconds: Option<u32>,
) -> Result<(u32, u32), ReadingFault>
    ensures value { result ≡ spec.clock_in unit hour minute second nanoseconds }
    ensures seconds { IfOk result (λ p. p.0 < 86400) }
    ensures fraction { IfOk result (λ p. p.1 < 1000000) }
{
    let hour = hour.unwrap_or(0) as u32;
    let minute = minute.unwrap_or(0) as u32;
    let second = second.unwrap_or(0) as u32;
    let nanoseconds = nanoseconds.unwrap_or(0);
    if hour < 24 && minute < 60 && second < 60 && nanoseconds < 1000000000 {
        return Ok((hour * 3600 + minute * 60 + second, cut(unit, nanoseconds)));
    }
    Err(ReadingFault::NoSuchTime)
}

/// The first digits of a fraction of nine.
fn cut(unit: Unit, nanoseconds: u32) -> u32
    ensures { result ≡ nanoseconds / 10 ^ (9 - places_of unit) }
{
    match unit {
        Unit::Second => nanoseconds / 1_000_000_000,
        Unit::Millisecond => nanoseconds / 1_000_000,
        Unit::Microsecond => nanoseconds / 1_000,
    }
}

/// The seconds of an offset that is written.
fn seconds_of(written: Option<Offset>) -> Option<i32>
    ensures { result ≡ option_map (λ o. o.seconds) written }
{
    match written {
        Some(written) => Some(written.seconds),
        None => None,
    }
}
