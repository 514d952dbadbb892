//! Output rows as objects, written a token at a time.
ghost use Rattle.std.specs.Prelude.{◌≡◌, ◌++◌, zip, OnOk};
ghost use Rattle.std.specs.List.{flat_map};
ghost use Rattle.rp_protocol.specs.ObjectTexts.{object_text};
ghost use Rattle.rp_protocol.specs.Tokens.{field_tokens, object_tokens};

use crate::line::write_value;
use json::Writer;
use rp_query::OutputColumn;
use rp_value::Value;
use std::alloc::{AllocError, Global};
use std::mem;

/// Adds the object of an output row to a text, without a line feed: under the name of each output column its cell. It
/// costs as much as the room that the text has. Where memory is refused, some bytes may be added.
pub fn push_object(
    alloc: Global,
    text: &mut Vec<u8>,
    columns: &[OutputColumn],
    cells: &[Value],
) -> Result<(), AllocError>
    ensures { OnOk result (text.new.items ≡ text.old.items ++ object_text columns.now cells.now) }
{
    let earlier = mem::replace(text, Vec::new(alloc));
    let mut writer = Writer::new(earlier);
    let written = write_object(&mut writer, columns, cells);
    *text = writer.into_inner();
    written
}

fn write_object(
    writer: &mut Writer,
    columns: &[OutputColumn],
    cells: &[Value],
) -> Result<(), AllocError>
    ensures ok { OnOk result (writer.new.tokens ≡ writer.old.tokens ++ object_tokens columns.now cells.now) }
    ensures before { writer.new.before ≡ writer.old.before }
{
    writer.begin_object()?;
    write_fields(writer, columns, cells)?;
    writer.end_object()
}

fn write_fields(
    writer: &mut Writer,
    columns: &[OutputColumn],
    cells: &[Value],
) -> Result<(), AllocError>
    ensures ok { OnOk result
        (writer.new.tokens ≡ writer.old.tokens ++ flat_map field_tokens (zip columns.now cells.now)) }
    ensures before { writer.new.before ≡ writer.old.before }
{
    let count = columns.len().min(cells.len());
    for index in 0..count {
        write_field(writer, &columns[index], &cells[index])?;
    }
    Ok(())
}

fn write_field(writer: &mut Writer, column: &OutputColumn, cell: &Value) -> Result<(), AllocError>
    ensures ok { OnOk result (writer.new.tokens ≡ writer.old.tokens ++ field_tokens (column.now, cell.now)) }
    ensures before { writer.new.before ≡ writer.old.before }
{
    writer.key(column.name.as_str())?;
    write_value(writer, cell)
}
