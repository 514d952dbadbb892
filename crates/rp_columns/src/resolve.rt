//! What columns as they are written mean.
ghost use Rattle.std.specs.Prelude.{◌≡◌, IfOk, Some, slice_get};
ghost use Rattle.std.specs.List.{list_all};
ghost use Rattle.rp_columns.specs.ColumnsGrammar.{written_tree};
ghost use Rattle.rp_columns.specs.Instants.{offset as spec_offset};
ghost use Rattle.rp_columns.specs.Resolved as spec;

use crate::columns::InputColumn;
use crate::formats::{Format, has, letters, say_day};
use crate::fronts::are_blanks;
use crate::instant::offset;
use crate::reading::{Marks, Reading, Unit};
use crate::written::{Argument, Source, Written};
use crate::zone::{Region, Zone};
use rp_value::Text;
use std::alloc::{AllocError, Global};

/// The reading that a word calls, in upper case, with what it takes.
fn reading_called(
    alloc: Global,
    word: &str,
    arguments: &[Argument],
) -> Result<Option<Reading>, AllocError>
    ensures { IfOk result (λ reading. reading ≡ spec.reading_called word.now arguments.now) }
{
    if word == "TEXT" || word == "VARCHAR" {
        return Ok(plain(Reading::Text, arguments));
    }
    if word == "LOWER" {
        return Ok(plain(Reading::Lower, arguments));
    }
    if word == "INT" || word == "INTEGER" || word == "BIGINT" {
        return Ok(plain(Reading::Int, arguments));
    }
    computed_by(alloc, word, arguments)
}

/// The reading that computes a number which a word calls, in upper case, with what it takes.
fn computed_by(
    alloc: Global,
    word: &str,
    arguments: &[Argument],
) -> Result<Option<Reading>, AllocError>
    ensures { IfOk result (λ reading. reading ≡ spec.computed_by word.now arguments.now) }
{
    if word == "DATE" {
        return day(alloc, arguments);
    }
    if word == "SECONDS" {
        return instant(alloc, Unit::Second, arguments);
    }
    if word == "MILLIS" {
        return instant(alloc, Unit::Millisecond, arguments);
    }
    if word == "MICROS" {
        return instant(alloc, Unit::Microsecond, arguments);
    }
    if word == "DECIMAL" {
        return Ok(decimal(arguments));
    }
    Ok(None)
}

/// The reading that a word calls with a field or, where the brackets are empty, without one.
fn reading_by(
    alloc: Global,
    source: &Source,
    word: &str,
    arguments: &[Argument],
) -> Result<Option<Reading>, AllocError>
    ensures { IfOk result (λ reading. reading ≡ spec.reading_by source.now word.now arguments.now) }
{
    match source {
        Source::Nothing => Ok(numbering(word, arguments)),
        _ => reading_called(alloc, word, arguments),
    }
}

/// The reading that a word calls without a field.
fn numbering(word: &str, arguments: &[Argument]) -> Option<Reading>
    ensures { result ≡ spec.numbering word.now arguments.now }
{
    if word == "RECORD" {
        return plain(Reading::Record, arguments);
    }
    None
}

/// A reading that takes nothing else.
fn plain(reading: Reading, arguments: &[Argument]) -> Option<Reading>
    ensures { result ≡ spec.plain reading arguments.now }
{
    arguments.is_empty().then_some(reading)
}

/// An instant, perhaps of a zone or by a format.
fn instant(alloc: Global, unit: Unit, arguments: &[Argument]) -> Result<Option<Reading>, AllocError>
    ensures { IfOk result (λ reading. reading ≡ spec.instant unit arguments.now) }
{
    if arguments.is_empty() {
        return Ok(Some(Reading::Instant(unit, None)));
    }
    if arguments.len() == 1 {
        return instant_by(alloc, unit, &arguments[0]);
    }
    if arguments.len() == 2 {
        let zone = named(&arguments[1])?;
        return formatted_with(alloc, unit, &arguments[0], zone);
    }
    Ok(None)
}

/// An instant of a zone, or by a format, which has a per cent sign.
fn instant_by(alloc: Global, unit: Unit, argument: &Argument) -> Result<Option<Reading>, AllocError>
    ensures { IfOk result (λ reading. reading ≡ spec.instant_by unit (spec.text_in (Some argument.now))) }
{
    let Argument::Text(text) = argument else {
        return Ok(None);
    };
    if has(b'%', text.as_str().as_bytes()) {
        return formatted_as(alloc, unit, text, None);
    }
    Ok(with_zone(unit, zone_named(text)?))
}

/// An instant by a format, of a zone where fields have no offset.
fn formatted_with(
    alloc: Global,
    unit: Unit,
    argument: &Argument,
    zone: Option<Zone>,
) -> Result<Option<Reading>, AllocError>
    ensures { IfOk result (λ reading. reading ≡ spec.formatted_with unit (spec.text_in (Some argument.now)) zone) }
{
    match (argument, zone) {
        (Argument::Text(format), Some(zone)) => formatted_as(alloc, unit, format, Some(zone)),
        _ => Ok(None),
    }
}

/// An instant by a format, where it says one.
fn formatted_as(
    alloc: Global,
    unit: Unit,
    format: &Text,
    zone: Option<Zone>,
) -> Result<Option<Reading>, AllocError>
    ensures { IfOk result (λ reading. reading ≡ spec.formatted_as unit format.now zone) }
{
    let letters = letters(alloc, format.as_str().as_bytes())?;
    if say_day(&letters) && (has(b'z', &letters) || zone.is_some()) {
        let format = Format::new(alloc, format)?;
        return Ok(Some(Reading::Formatted(unit, format, zone)));
    }
    Ok(None)
}

/// A date, perhaps by a format.
fn day(alloc: Global, arguments: &[Argument]) -> Result<Option<Reading>, AllocError>
    ensures { IfOk result (λ reading. reading ≡ spec.day arguments.now) }
{
    if arguments.is_empty() {
        return Ok(Some(Reading::Day));
    }
    if arguments.len() == 1 {
        return day_by(alloc, &arguments[0]);
    }
    Ok(None)
}

fn day_by(alloc: Global, argument: &Argument) -> Result<Option<Reading>, AllocError>
    ensures { IfOk result (λ reading. reading ≡ spec.day_by (spec.text_in (Some argument.now))) }
{
    let Argument::Text(format) = argument else {
        return Ok(None);
    };
    let letters = letters(alloc, format.as_str().as_bytes())?;
    if say_day(&letters) {
        let format = Format::new(alloc, format)?;
        return Ok(Some(Reading::FormattedDay(format)));
    }
    Ok(None)
}

fn with_zone(unit: Unit, zone: Option<Zone>) -> Option<Reading>
    ensures { result ≡ spec.with_zone unit zone }
{
    match zone {
        Some(zone) => Some(Reading::Instant(unit, Some(zone))),
        None => None,
    }
}

/// The zone of fields without an offset, as a text.
fn named(argument: &Argument) -> Result<Option<Zone>, AllocError>
    ensures { IfOk result (λ zone. zone ≡ spec.named (spec.text_in (Some argument.now))) }
{
    match argument {
        Argument::Text(text) => zone_named(text),
        Argument::Number(_) => Ok(None),
    }
}

/// The zone that a text names: an offset as a field may have it, or a region.
fn zone_named(text: &Text) -> Result<Option<Zone>, AllocError>
    ensures { IfOk result (λ zone. zone ≡ spec.zone_named text.now) }
{
    let bytes = text.as_str().as_bytes();
    if let Some(seconds) = ahead(bytes) {
        return Ok(Some(Zone::Fixed(seconds)));
    }
    if !is_identifier(bytes) {
        return Ok(None);
    }
    Ok(Some(Zone::Region(Region {
        name: text.share()?,
        rules: None,
    })))
}

/// What clocks are ahead by, as a text.
fn ahead(text: &[u8]) -> Option<i32>
    ensures { result ≡ spec.ahead (spec_offset text.now) }
{
    match offset(text) {
        Ok((seconds, rest)) if are_blanks(rest) => seconds,
        _ => None,
    }
}

/// Whether a text is an identifier of the database of time zones.
fn is_identifier(text: &[u8]) -> bool
    ensures { result ≡ spec.is_identifier text.now }
{
    match text {
        [first, rest @ ..] if first.is_ascii_alphabetic() => are_in_identifiers(rest),
        _ => false,
    }
}

fn are_in_identifiers(bytes: &[u8]) -> bool
    ensures { result ≡ list_all spec.is_in_identifier bytes.now }
{
    for byte in bytes {
        if !is_in_identifier(*byte) {
            return false;
        }
    }
    true
}

/// Whether a byte is a letter, a digit, or one of `_`, `+`, `-` and `/`.
fn is_in_identifier(byte: u8) -> bool
    ensures { result ≡ spec.is_in_identifier byte }
{
    byte.is_ascii_alphanumeric() || byte == b'_' || byte == b'+' || byte == b'-' || byte == b'/'
}

/// A decimal number with its places and marks.
fn decimal(arguments: &[Argument]) -> Option<Reading>
    ensures { result ≡ spec.decimal arguments.now }
{
    if arguments.len() > 3 {
        return None;
    }
    let places = places_in(arguments);
    let thousands = mark_or(arguments, 1, None);
    let point = mark_or(arguments, 2, Some(b'.'));
    decimal_with(places, thousands, point)
}

/// The number that comes first.
fn places_in(arguments: &[Argument]) -> Option<u64>
    ensures { result ≡ spec.number_in (slice_get arguments.now 0) }
{
    match arguments.first() {
        Some(Argument::Number(places)) => Some(*places),
        _ => None,
    }
}

/// The mark at a place, or the usual one where there are fewer arguments.
fn mark_or(arguments: &[Argument], place: usize, usual: Option<u8>) -> Option<Option<u8>>
    ensures { result ≡ spec.mark_or arguments.now place usual }
{
    if place < arguments.len() {
        return mark(&arguments[place]);
    }
    Some(usual)
}

/// One mark, or none for an empty text.
fn mark(argument: &Argument) -> Option<Option<u8>>
    ensures { result ≡ spec.mark (spec.text_in (Some argument.now)) }
{
    let Argument::Text(text) = argument else {
        return None;
    };
    match text.as_str().as_bytes() {
        [] => Some(None),
        [byte] if is_mark(*byte) => Some(Some(*byte)),
        _ => None,
    }
}

/// Whether a byte is an ASCII character that is neither a digit nor a sign.
fn is_mark(byte: u8) -> bool
    ensures { result ≡ spec.is_mark byte }
{
    31 < byte && byte < 127 && !byte.is_ascii_digit() && !(byte == b'+') && !(byte == b'-')
}

fn decimal_with(
    places: Option<u64>,
    thousands: Option<Option<u8>>,
    point: Option<Option<u8>>,
) -> Option<Reading>
    ensures { result ≡ spec.decimal_with places thousands point }
{
    let (Some(places), Some(thousands), Some(point)) = (places, thousands, point) else {
        return None;
    };
    if places <= 18 && differ(thousands, point) {
        return Some(Reading::Decimal(places as u8, Marks { thousands, point }));
    }
    None
}

fn differ(thousands: Option<u8>, point: Option<u8>) -> bool
    ensures { result ≡ spec.differ thousands point }
{
    match (thousands, point) {
        (Some(thousands), Some(point)) => !(thousands == point),
        _ => true,
    }
}

/// The column of what is written. None where its word calls no reading that takes what stands behind it.
pub(crate) fn column_of(alloc: Global, written: &Written) -> Result<Option<InputColumn>, AllocError>
    ensures { IfOk result (λ column. column ≡ spec.column_of (written_tree written.now)) }
{
    let source = source_of(written)?;
    let name = written.name.text.share()?;
    let called = &written.called;
    let word = called.reading.text.as_str();
    match reading_by(alloc, &called.source, word, called.arguments.as_slice())? {
        Some(reading) => Ok(Some(InputColumn {
            name,
            reading,
            source,
        })),
        None => Ok(None),
    }
}

/// The header's name of a column.
fn source_of(written: &Written) -> Result<Text, AllocError>
    ensures { IfOk result (λ source. source ≡ spec.source_of (written_tree written.now)) }
{
    match &written.called.source {
        Source::Field(source) => source.text.share(),
        _ => written.name.text.share(),
    }
}
