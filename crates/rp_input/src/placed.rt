//! Columns at their places in a record, and the cells of a record by their readings.
ghost use Rattle.std.specs.Prelude.{◌≡◌, ◌<◌, ◌^◌, Ok, IfOk, IfErr, MatchBool, OnOk};
ghost use Rattle.csv.specs.Records.{field_at, fields_of};
ghost use Rattle.rp_input.specs.Placed as spec;
ghost use Rattle.rp_input.specs.declared.placed.CellFault.TheVariants.{OutOfMemory};

use crate::fields::field_at;
use csv::ByteRecord;
use rp_columns::{InputColumn, Reading, ReadingFault, Texts, read};
use rp_value::{Text, Value, upper_case_name};
use std::alloc::{AllocError, AllocFailed, Global};

/// How a column is read, and the place of its field in a record.
#[derive(Drop)]
pub(crate) struct Placed {
    pub(crate) reading: Reading,
    pub(crate) place: usize,
}

/// Why a record has no cells.
#[derive(Clone, Copy)]
pub(crate) enum CellFault {
    /// The field of this column, from 0, is no value of it.
    Field(usize, ReadingFault),
    OutOfMemory,
}

/// Where a name stands in a header.
#[derive(Clone, Copy)]
pub(crate) enum Found {
    Nowhere,
    Once(usize),
    Twice,
}

impl<T: Drop> From<AllocFailed<T>> for CellFault {
    ghost from_gives = { λ _ fault. fault ≡ OutOfMemory };

    fn from(_error: AllocFailed<T>) -> CellFault {
        CellFault::OutOfMemory
    }
}

/// Puts the cells of the record of this number into a list, in the place of what is there.
pub(crate) fn take_cells(
    alloc: Global,
    texts: &mut Texts,
    nulls: &[Text],
    number: u64,
    columns: &[Placed],
    fields: &ByteRecord,
    cells: &mut Vec<Value>,
) -> Result<(), CellFault>
    requires { number < 2 ^ 63 }
    ensures ok { OnOk result
        (spec.cells_from 0 nulls.now number columns.now (fields_of fields.now) ≡ Ok cells.new.items) }
    ensures err { IfErr result (spec.IsCellsFault nulls.now number columns.now (fields_of fields.now)) }
{
    cells.clear();
    for (index, column) in columns.iter().enumerate() {
        let field = field_or_empty(fields, column.place);
        match read(alloc, texts, nulls, &column.reading, number, field) {
            Ok(cell) => cells.push(cell)?,
            Err(fault) => return Err(told(index, fault)),
        }
    }
    Ok(())
}

/// A field's fault, of the column of this index.
fn told(index: usize, fault: ReadingFault) -> CellFault
    ensures { result ≡ spec.told_at index fault }
{
    match fault {
        ReadingFault::OutOfMemory => CellFault::OutOfMemory,
        fault => CellFault::Field(index, fault),
    }
}

/// The field of a record at a place; empty, where there is none.
fn field_or_empty(fields: &ByteRecord, place: usize) -> &[u8]
    ensures { result.now ≡ spec.field_or_empty (field_at (fields_of fields.now) place) }
{
    match fields.get(place) {
        Some(field) => field,
        None => b"",
    }
}

/// Where a column stands in a header. One that reads no field is told the first place, which nothing looks at.
pub(crate) fn place_for(
    alloc: Global,
    column: &InputColumn,
    header: &ByteRecord,
) -> Result<Found, AllocError>
    ensures { IfOk result (spec.IsFoundFor column.now (fields_of header.now)) }
{
    if !column.reading.reads_field() {
        return Ok(Found::Once(0));
    }
    place_of(alloc, &column.source, header)
}

/// Where a name stands in a header.
fn place_of(alloc: Global, source: &Text, header: &ByteRecord) -> Result<Found, AllocError>
    ensures { IfOk result (spec.IsFound source.now (fields_of header.now)) }
{
    let mut found = Found::Nowhere;
    for place in 0..header.len() {
        let named = names_source(alloc, source, field_at(header, place))?;
        found = with_place(found, named, place);
    }
    Ok(found)
}

/// Where a name stands, with one more place, where it stands too or doesn't.
fn with_place(found: Found, named: bool, place: usize) -> Found
    ensures { result ≡ spec.with_place found named place }
{
    if !named {
        return found;
    }
    match found {
        Found::Nowhere => Found::Once(place),
        _ => Found::Twice,
    }
}

/// Whether a field of a header names a source.
fn names_source(alloc: Global, source: &Text, field: &[u8]) -> Result<bool, AllocError>
    ensures { IfOk result (λ named. MatchBool named (spec.NamesSource source.now field.now) (spec.NamesSource source.now field.now → ⊥)) }
{
    if field == source.as_str().as_bytes() {
        return Ok(true);
    }
    let Ok(text) = std::str::from_utf8(field) else {
        return Ok(false);
    };
    match upper_case_name(alloc, text)? {
        Some(name) => Ok(name.as_str() == source.as_str()),
        None => Ok(false),
    }
}
