//! The rows of a text of objects.
ghost use Rattle.std.specs.Prelude.{◌≡◌, ◌<◌, ◌^◌, [], is_some, IfOk, IfErr, OnOk};
ghost use Rattle.json.specs.Find.{as_object};
ghost use Rattle.json.specs.Value.{value_view};
ghost use Rattle.rp_objects.specs.ObjectRows.{AreRowsByObjects, IsByObjectsFault, IsObject, IsTextFault, fault_told};
ghost use Rattle.rp_value.specs.RowLists.{rows_added};

use crate::cells::{CellsFault, take_cells};
use crate::fault::ObjectsFault;
use crate::lines::Lines;
use json::{Error, Scratch, Value as Json};
use rp_columns::{Columns, InputColumn, Texts};
use rp_value::{Row, RowList, Text, Value};
use std::alloc::{AllocError, Global};

/// The most objects that a text may have, as `specs/ObjectRows` has it.
const MAX_OBJECTS: u64 = 1_099_511_627_776;

/// The rows of a text of objects by columns: one object of JSON a line, lines of blanks alone passed over.
///
/// A column's value is what the object has under the column's path: a text goes through the column's reading as a CSV's field
/// does, and so do a number's digits as they are written, `true` and `false`. Null, or no such key, is null. The error is the
/// first of the text, in the order of its lines, where a line is looked at whole before its columns in their order.
pub fn rows_by_objects(
    alloc: Global,
    text: &[u8],
    columns: &Columns,
    nulls: &[Text],
) -> Result<Vec<Row>, ObjectsFault>
    ensures ok { IfOk result (λ rows. AreRowsByObjects nulls.now columns.now text.now rows.items) }
    ensures err { IfErr result (λ fault. IsByObjectsFault nulls.now columns.now text.now fault) }
{
    let mut taking = Taking::new(alloc)?;
    taking.take_lines(alloc, nulls, columns.as_slice(), text)?;
    Ok(taking.rows.into_rows()?)
}

/// The rows of the objects so far, and what is used again for the next one.
#[derive(Drop)]
struct Taking {
    scratch: Scratch,
    texts: Texts,
    cells: Vec<Value>,
    rows: RowList,
}

impl Taking {
    ghost use Rattle.rp_objects.specs.ObjectRows.{IsLineFault, TakesRow};

    fn new(alloc: Global) -> Result<Taking, AllocError>
        ensures { IfOk result (λ taking. rows_added taking.rows ≡ []) }
    {
        Ok(Taking {
            texts: Texts::new(alloc)?,
            scratch: Scratch::new(alloc),
            cells: Vec::new(alloc),
            rows: RowList::new(alloc),
        })
    }

    /// Takes each line of a text that isn't blank as a row, where none was taken yet.
    fn take_lines(
        &mut self,
        alloc: Global,
        nulls: &[Text],
        columns: &[InputColumn],
        text: &[u8],
    ) -> Result<(), ObjectsFault>
        requires { rows_added self.old.rows ≡ [] }
        ensures ok { OnOk result (AreRowsByObjects nulls.now columns.now text.now (rows_added self.new.rows)) }
        ensures err { IfErr result (λ fault. IsByObjectsFault nulls.now columns.now text.now fault) }
    {
        let mut lines = Lines::new(text);
        for number in 1..MAX_OBJECTS + 1 {
            let line = match lines.next_full() {
                Some(line) => line,
                None => return Ok(()),
            };
            self.take(alloc, nulls, columns, line, lines.taken, number)?;
        }
        match lines.next_full() {
            Some(_line) => Err(ObjectsFault::TooMany(lines.taken)),
            None => Ok(()),
        }
    }

    /// Takes the line of this place as the next row, the object of this number, both from 1.
    fn take(
        &mut self,
        alloc: Global,
        nulls: &[Text],
        columns: &[InputColumn],
        line: &[u8],
        place: u64,
        number: u64,
    ) -> Result<(), ObjectsFault>
        requires { number < 2 ^ 63 }
        ensures ok { OnOk result (TakesRow nulls.now columns.now number line.now
            (rows_added self.old.rows) (rows_added self.new.rows)) }
        ensures err { IfErr result (IsLineFault nulls.now columns.now number line.now place) }
    {
        let Ok(text) = std::str::from_utf8(line) else {
            return Err(ObjectsFault::NotObject(place));
        };
        let taken = match read_object(alloc, text, &mut self.scratch, place) {
            Ok(object) => take_cells(
                alloc,
                &mut self.texts,
                nulls,
                number,
                columns,
                &object,
                &mut self.cells,
            ),
            Err(fault) => return Err(fault),
        };
        match taken {
            Ok(()) => {}
            Err(CellsFault::Field(index, why)) => {
                return Err(ObjectsFault::Field(place, index, why));
            }
            Err(CellsFault::OutOfMemory) => return Err(ObjectsFault::OutOfMemory),
        }
        self.rows.push(&mut self.cells)?;
        Ok(())
    }
}

/// The object that a text is, of the line of this place.
fn read_object<'a>(
    alloc: Global,
    text: &'a str,
    scratch: &'a mut Scratch,
    place: u64,
) -> Result<Json<'a>, ObjectsFault>
    ensures ok { IfOk result (λ object. IsObject text.now (value_view object)) }
    ensures err { IfErr result (IsTextFault text.now place) }
{
    let value = match Json::parse_strict(alloc, text, scratch) {
        Ok(value) => value,
        Err(error) => return Err(told(error, place)),
    };
    if !is_object(&value) {
        return Err(ObjectsFault::NotObject(place));
    }
    Ok(value)
}

/// An error of reading JSON, of the line of this place.
fn told(error: Error, place: u64) -> ObjectsFault
    ensures { result ≡ fault_told error place }
{
    match error {
        Error::DuplicateKey => ObjectsFault::DoubleKey(place),
        Error::OutOfMemory => ObjectsFault::OutOfMemory,
        Error::Invalid | Error::TooLong => ObjectsFault::NotObject(place),
    }
}

fn is_object(value: &Json) -> bool
    ensures { result ≡ is_some (as_object (value_view value.now)) }
{
    match value {
        Json::Object(_) => true,
        _ => false,
    }
}
