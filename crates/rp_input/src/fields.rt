//! The fields of a record as the values of a row.
ghost use Rattle.std.specs.Prelude.{◌≡◌, ◌<◌, ◌+◌, ◌∷◌, IfOk, IsUtf8, MatchBool, MatchOption, drop, length};
ghost use Rattle.csv.specs.Records.{fields_of};
ghost use Rattle.rp_value.specs.Tables.{kinds_of};
ghost use Rattle.rp_input.specs.Fields.{HasNoField, IsField, IsFirstMisfit, IsNoField, IsRow};

use csv::{ByteRecord, StringRecord};
use rp_columns::Texts;
use rp_value::{Column, Kind, Value};
use std::alloc::{AllocError, Global};

/// Whether a field has a value of a column of this kind: an empty one is null, any other UTF-8, and for whole numbers a sign or
/// none and digits, within 64 bits.
pub fn is_value(kind: Kind, field: &[u8]) -> bool
    ensures { MatchBool result (IsNoField kind field.now → ⊥) (IsNoField kind field.now) }
{
    if field.is_empty() {
        return true;
    }
    let Ok(text) = std::str::from_utf8(field) else {
        return false;
    };
    match kind {
        Kind::Text => true,
        Kind::Int => match text.parse::<i64>() {
            Ok(_) => true,
            Err(_) => false,
        },
    }
}

/// The place of the first field that is no value of its column, from 0. None where each field that has a column is one.
pub fn first_misfit(columns: &[Column], fields: &ByteRecord) -> Option<usize>
    ensures { MatchOption result (HasNoField (kinds_of columns.now) (fields_of fields.now) → ⊥)
        (IsFirstMisfit (kinds_of columns.now) (fields_of fields.now)) }
{
    for (index, column) in columns.iter().enumerate() {
        let Some(field) = fields.get(index) else {
            return None;
        };
        if !is_value(column.kind, field) {
            return Some(index);
        }
    }
    None
}

/// The value of a field of a column of this kind. None where it has none.
fn field_of(
    alloc: Global,
    texts: &mut Texts,
    kind: Kind,
    field: &str,
) -> Result<Option<Value>, AllocError>
    requires { IsUtf8 field.now }
    ensures { IfOk result (λ found. MatchOption found (IsNoField kind field.now) (IsField kind field.now)) }
{
    if field.is_empty() {
        return Ok(Some(Value::Null));
    }
    match kind {
        Kind::Text => Ok(Some(Value::Text(texts.text_of(alloc, field)?))),
        Kind::Int => match field.parse::<i64>() {
            Ok(number) => Ok(Some(Value::Int(number))),
            Err(_) => Ok(None),
        },
    }
}

/// Puts the values of a record that has a field for each column into a list, in the place of what is there. False where
/// one of the fields is no value of its column.
pub(crate) fn take_values(
    alloc: Global,
    texts: &mut Texts,
    columns: &[Column],
    fields: &StringRecord,
    values: &mut Vec<Value>,
) -> Result<bool, AllocError>
    requires { length (fields_of fields.now) ≡ length columns.now }
    ensures { IfOk result (λ all. MatchBool all (IsRow (kinds_of columns.now) (fields_of fields.now) values.new.items)
        (HasNoField (kinds_of columns.now) (fields_of fields.now))) }
{
    values.clear();
    for (index, column) in columns.iter().enumerate() {
        let field = text_at(fields, index);
        let Some(value) = field_of(alloc, texts, column.kind, field)? else {
            return Ok(false);
        };
        values.push(value)?;
    }
    Ok(true)
}

/// A field of a record of texts, by its index.
fn text_at(fields: &StringRecord, index: usize) -> &str
    requires { index < length (fields_of fields.now) }
    ensures field { drop index (fields_of fields.now) ≡ result.now ∷ drop (index + 1) (fields_of fields.now) }
    ensures text { IsUtf8 result.now }
{
    match fields.get(index) {
        Some(field) => field,
        None => unreachable!(),
    }
}

/// A field of a record, by its index.
pub(crate) fn field_at(fields: &ByteRecord, index: usize) -> &[u8]
    requires { index < length (fields_of fields.now) }
    ensures { drop index (fields_of fields.now) ≡ result.now ∷ drop (index + 1) (fields_of fields.now) }
{
    match fields.get(index) {
        Some(field) => field,
        None => unreachable!(),
    }
}
