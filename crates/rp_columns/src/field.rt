//! The value of a field.
ghost use Rattle.std.specs.Prelude.{◌≡◌, ◌<◌, ◌^◌, map};
ghost use Rattle.std.specs.Char.{to_ascii_lowercase};
ghost use Rattle.rp_columns.specs.Readings as spec;
ghost use Rattle.rp_columns.specs.Given.{Gives};

use crate::decimal::decimal;
use crate::fault::ReadingFault;
use crate::formatted::{formatted, formatted_day};
use crate::fronts::are_blanks;
use crate::instant::{day, instant};
use crate::reading::{Marks, Reading};
use crate::texts::Texts;
use rp_value::{Text, Value};
use std::alloc::Global;

/// The value of a field by the reading of its column, in the record of this number. A field that is one of these words, byte for byte, is null: where an empty
/// field is to be null, the empty text is among them. A number or a time of spaces and tabs alone, or of nothing, is null always.
///
/// Equal texts that come one after another share their bytes: they are those of `texts`.
pub fn read(
    alloc: Global,
    texts: &mut Texts,
    nulls: &[Text],
    reading: &Reading,
    number: u64,
    field: &[u8],
) -> Result<Value, ReadingFault>
    requires { number < 2 ^ 63 }
    ensures { Gives result (spec.value_of nulls.now reading.now number field.now) }
{
    if !reading.reads_field() {
        return Ok(Value::Int(number as i64));
    }
    if is_null(nulls, field) {
        return Ok(Value::Null);
    }
    match reading {
        Reading::Text => text(alloc, texts, field),
        Reading::Lower => lower_text(alloc, texts, field),
        _ => number_or_null(reading, field),
    }
}

/// Whether a field stands for null.
fn is_null(nulls: &[Text], field: &[u8]) -> bool
    ensures { result ≡ spec.is_null nulls.now field.now }
{
    for word in nulls {
        if word.as_str().as_bytes() == field {
            return true;
        }
    }
    false
}

/// The field as it is.
fn text(alloc: Global, texts: &mut Texts, field: &[u8]) -> Result<Value, ReadingFault>
    ensures { Gives result (spec.text_for field.now field.now) }
{
    let Ok(text) = std::str::from_utf8(field) else {
        return Err(ReadingFault::NotText);
    };
    Ok(Value::Text(texts.text_of(alloc, text)?))
}

/// The field with small letters.
fn lower_text(alloc: Global, texts: &mut Texts, field: &[u8]) -> Result<Value, ReadingFault>
    ensures { Gives result (spec.text_for field.now (map to_ascii_lowercase field.now)) }
{
    let Ok(text) = std::str::from_utf8(field) else {
        return Err(ReadingFault::NotText);
    };
    let mut lower = String::from_str(alloc, text)?;
    lower.make_ascii_lowercase();
    Ok(Value::Text(texts.text_of(alloc, lower.as_str())?))
}

/// The number of a field, or null where it is blank.
fn number_or_null(reading: &Reading, field: &[u8]) -> Result<Value, ReadingFault>
    ensures { result ≡ spec.number_or_null reading.now field.now }
{
    if are_blanks(field) {
        return Ok(Value::Null);
    }
    Ok(Value::Int(number(reading, field)?))
}

/// The number of a field.
fn number(reading: &Reading, field: &[u8]) -> Result<i64, ReadingFault>
    ensures { result ≡ spec.number_of reading.now field.now }
{
    match reading {
        Reading::Decimal(places, marks) => decimal(*marks, *places, field),
        Reading::Instant(unit, zone) => instant(*unit, zone, field),
        Reading::Day => day(field),
        Reading::Formatted(unit, format, zone) => formatted(*unit, format, zone, field),
        Reading::FormattedDay(format) => formatted_day(format, field),
        _ => decimal(NO_MARKS, 0, field),
    }
}

/// A whole number has neither a point nor signs between thousands.
const NO_MARKS: Marks = Marks {
    thousands: None,
    point: None,
};
