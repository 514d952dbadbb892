//! The records of a text, one after the other.
ghost use Rattle.std.specs.Prelude.{[], IfOk};
ghost use Rattle.csv.specs.Records.{fields_of};
ghost use Rattle.rp_input.specs.Standing.{Stands, TakesNext};

use csv::{ByteRecord, Reader, ReaderBuilder};
use std::alloc::{AllocError, Global};

/// A reader before the first record of a text with this byte between fields. The header is the first record, and records may have
/// any number of fields.
pub fn reader_of<'a>(alloc: Global, text: &'a [u8], delimiter: u8) -> Reader<&'a [u8]>
    ensures { Stands delimiter text.now [] result }
{
    ReaderBuilder::new()
        .delimiter(delimiter)
        .has_headers(false)
        .flexible(true)
        .from_reader(alloc, text)
}

/// Takes the next record, and says whether there was one.
pub fn take_record(reader: &mut Reader<&[u8]>, fields: &mut ByteRecord) -> Result<bool, AllocError>
    ensures { IfOk result (λ found. TakesNext found (fields_of fields.new) reader.old reader.new) }
{
    let Ok(found) = reader.read_byte_record(fields) else {
        return Err(AllocError);
    };
    Ok(found)
}
