//! The cells of an object.
ghost use Rattle.std.specs.Prelude.{◌≡◌, ◌<◌, ◌^◌, Ok, IfErr, OnOk};
ghost use Rattle.json.specs.Value.{value_view};
ghost use Rattle.rp_objects.specs.Cells as spec;
ghost use Rattle.rp_objects.specs.Given.{GivesCell, IsCellsFault, told_at};
ghost use Rattle.rp_objects.specs.declared.cells.CellsFault.TheVariants.{OutOfMemory};

use crate::fault::FieldFault;
use crate::path::field_under;
use json::Value as Json;
use rp_columns::{InputColumn, ReadingFault, Texts, read};
use rp_value::{Text, Value};
use std::alloc::{AllocFailed, Global};

/// Why an object has no cells.
#[derive(Clone, Copy)]
pub(crate) enum CellsFault {
    /// This column, from 0, has no value.
    Field(usize, FieldFault),
    OutOfMemory,
}

impl<T: Drop> From<AllocFailed<T>> for CellsFault {
    ghost from_gives = { λ _ fault. fault ≡ OutOfMemory };

    fn from(_error: AllocFailed<T>) -> CellsFault {
        CellsFault::OutOfMemory
    }
}

/// Puts the cells of the object of this number into a list, in the place of what is there.
pub(crate) fn take_cells(
    alloc: Global,
    texts: &mut Texts,
    nulls: &[Text],
    number: u64,
    columns: &[InputColumn],
    object: &Json,
    cells: &mut Vec<Value>,
) -> Result<(), CellsFault>
    requires { number < 2 ^ 63 }
    ensures ok { OnOk result
        (spec.cells_from 0 nulls.now number (value_view object.now) columns.now ≡ Ok cells.new.items) }
    ensures err { IfErr result (IsCellsFault nulls.now number (value_view object.now) columns.now) }
{
    cells.clear();
    for (index, column) in columns.iter().enumerate() {
        match cell_of(alloc, texts, nulls, number, index, column, object) {
            Ok(cell) => cells.push(cell)?,
            Err(fault) => return Err(fault),
        }
    }
    Ok(())
}

/// The cell of the column of this index.
fn cell_of(
    alloc: Global,
    texts: &mut Texts,
    nulls: &[Text],
    number: u64,
    index: usize,
    column: &InputColumn,
    object: &Json,
) -> Result<Value, CellsFault>
    requires { number < 2 ^ 63 }
    ensures { GivesCell result index (spec.cell_of nulls.now number (value_view object.now) column.now) }
{
    if !column.reading.reads_field() {
        return told(
            index,
            read(alloc, texts, nulls, &column.reading, number, b""),
        );
    }
    match field_under(object, column.source.as_str().as_bytes()) {
        Ok(Some(field)) => told(
            index,
            read(alloc, texts, nulls, &column.reading, number, field),
        ),
        Ok(None) => Ok(Value::Null),
        Err(why) => Err(CellsFault::Field(index, why)),
    }
}

/// What reading a field comes to, as the cell of the column of this index.
fn told(index: usize, cell: Result<Value, ReadingFault>) -> Result<Value, CellsFault>
    ensures { result ≡ told_at index cell }
{
    match cell {
        Ok(value) => Ok(value),
        Err(ReadingFault::OutOfMemory) => Err(CellsFault::OutOfMemory),
        Err(why) => Err(CellsFault::Field(index, FieldFault::Reading(why))),
    }
}
