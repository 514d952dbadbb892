//! Records of CSV that are gathered in memory.
ghost use Rattle.std.specs.Prelude.{◌≡◌, ◌≤◌, [], ◌++◌, true, length, IfOk, OnOk};
ghost use Rattle.csv.specs.Records.{fields_of};
ghost use Rattle.csv.specs.Writing.{row_text};
ghost use Rattle.rp_table.specs.RecordTexts.{csv_form, cells_record, names_record};
ghost use Rattle.rp_table.specs.Between.{IsBetween, bytes_of};

use crate::fields::{push_cell_fields, push_name_fields};
use csv::{ByteRecord, Writer, WriterBuilder};
use rp_value::{Text, Value};
use std::alloc::{AllocError, Global};
use std::marker::Model;
use std::mem;

/// Whole records, one after another. Contracts see them as their bytes. Where memory is refused, those that are
/// gathered are lost.
pub struct Records {
    alloc: Global,
    writer: Writer<Vec<u8>>,
    /// A record to be, in the memory of those before.
    row: ByteRecord,
    /// Memory for the next records.
    spare: Vec<u8>,
}

/// It is let go of by a call, wherever it is held.
impl Drop for Records {
    fn drop(self) {
        let Records {
            alloc: _,
            writer: _,
            row: _,
            spare: _,
        } = self;
    }
}

impl Model for Records {
    ghost use Rattle.std.specs.Prelude.{List, ℕ};
    ghost use Rattle.rp_table.specs.Between.{IsBetween, bytes_of};

    ghost Value = { List ℕ };

    ghost view = { λ records. bytes_of records.writer };

    ghost invariant = { λ records. IsBetween records.writer };
}

impl Records {
    /// No record yet.
    pub fn new(alloc: Global) -> Records
        ensures { result ≡ [] }
    {
        Records {
            alloc,
            writer: writer_over(Vec::new(alloc)),
            row: ByteRecord::new(alloc),
            spare: Vec::new(alloc),
        }
    }

    /// Adds a record of names, as a header.
    pub fn push_names(&mut self, names: &[Text]) -> Result<(), AllocError>
        ensures { OnOk result (self.new ≡ self.old ++ names_record names.now) }
    {
        self.row.clear();
        push_name_fields(&mut self.row, names)?;
        write_record(self.alloc, &mut self.writer, &self.row)
    }

    /// Adds a record of cells.
    pub fn push_cells(&mut self, cells: &[Value]) -> Result<(), AllocError>
        ensures { OnOk result (self.new ≡ self.old ++ cells_record cells.now) }
    {
        self.row.clear();
        push_cell_fields(&mut self.row, cells)?;
        write_record(self.alloc, &mut self.writer, &self.row)
    }

    /// Whether at least so many bytes are gathered. The last few thousand aren't counted.
    pub fn holds_bytes(&self, count: usize) -> bool
        ensures { result ≡ true → count ≤ length self.now }
    {
        self.writer.get_ref().len() >= count
    }

    /// Gives the bytes away, and begins anew.
    pub fn take(&mut self) -> Result<Vec<u8>, AllocError>
        ensures taken { IfOk result (λ bytes. bytes.items ≡ self.old) }
        ensures anew { self.new ≡ [] }
    {
        let mut next = mem::replace(&mut self.spare, Vec::new(self.alloc));
        next.clear();
        let writer = mem::replace(&mut self.writer, writer_over(next));
        match writer.into_inner() {
            Ok(bytes) => Ok(bytes),
            Err(_) => Err(AllocError),
        }
    }

    /// Takes memory back that was given away, to gather later records in.
    pub fn give_back(&mut self, memory: Vec<u8>)
        ensures { self.new ≡ self.old }
    {
        self.spare = memory;
    }
}

/// Adds a record to a writer. Where memory is refused, the writer is begun anew, since it may stand inside the record.
fn write_record(
    alloc: Global,
    writer: &mut Writer<Vec<u8>>,
    row: &ByteRecord,
) -> Result<(), AllocError>
    requires { IsBetween writer.old }
    ensures between { IsBetween writer.new }
    ensures record { OnOk result (bytes_of writer.new ≡ bytes_of writer.old ++ row_text csv_form (fields_of row.now)) }
{
    match writer.write_byte_record(row) {
        Ok(()) => Ok(()),
        Err(_) => {
            *writer = writer_over(Vec::new(alloc));
            Err(AllocError)
        }
    }
}

/// A writer that adds records to these bytes, and lets each have as many fields as it has.
fn writer_over(bytes: Vec<u8>) -> Writer<Vec<u8>>
    ensures between { IsBetween result }
    ensures bytes { bytes_of result ≡ bytes.items }
{
    WriterBuilder::new().flexible(true).from_writer(bytes)
}
