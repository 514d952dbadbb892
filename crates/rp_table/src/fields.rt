//! The fields of a record to be.
ghost use Rattle.std.specs.Prelude.{◌≡◌, [], ◌∷◌, ◌++◌, map, OnOk};
ghost use Rattle.csv.specs.Records.{fields_of, partial_of};
ghost use Rattle.rp_table.specs.RecordTexts.{field_of};

use csv::ByteRecord;
use itoa::Buffer;
use rp_value::{Text, Value};
use std::alloc::AllocError;

/// Adds a field for each name.
pub(crate) fn push_name_fields(row: &mut ByteRecord, names: &[Text]) -> Result<(), AllocError>
    requires { partial_of row.old ≡ [] }
    ensures fields { OnOk result (fields_of row.new ≡ fields_of row.old ++ names.now) }
    ensures whole { OnOk result (partial_of row.new ≡ []) }
{
    for name in names {
        row.push_field(name.as_str().as_bytes())?;
    }
    Ok(())
}

/// Adds a field for each cell.
pub(crate) fn push_cell_fields(row: &mut ByteRecord, cells: &[Value]) -> Result<(), AllocError>
    requires { partial_of row.old ≡ [] }
    ensures fields { OnOk result (fields_of row.new ≡ fields_of row.old ++ map field_of cells.now) }
    ensures whole { OnOk result (partial_of row.new ≡ []) }
{
    for cell in cells {
        push_cell(row, cell)?;
    }
    Ok(())
}

fn push_cell(row: &mut ByteRecord, cell: &Value) -> Result<(), AllocError>
    requires { partial_of row.old ≡ [] }
    ensures fields { OnOk result (fields_of row.new ≡ fields_of row.old ++ field_of cell.now ∷ []) }
    ensures whole { OnOk result (partial_of row.new ≡ []) }
{
    match cell {
        Value::Int(number) => row.push_field(Buffer::new().format(*number).as_bytes()),
        Value::Text(text) => row.push_field(text.as_str().as_bytes()),
        Value::Null => row.push_field(b""),
    }
}
