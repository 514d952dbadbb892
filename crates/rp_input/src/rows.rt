//! The rows of a CSV text.
ghost use Rattle.std.specs.Prelude.{◌≡◌, ℕ, List, [], IfOk, IfErr, OnOk};
ghost use Rattle.rp_value.specs.RowLists.{rows_added};
ghost use Rattle.rp_input.specs.Beginning.{IsBelowHeader};
ghost use Rattle.rp_input.specs.CsvRows.{AreRowsOf, IsTextFault};
ghost use Rattle.rp_input.specs.Devices.{of_device_csv};
ghost use Rattle.rp_input.specs.Standing.{Stands};
ghost use Rattle.rp_input.specs.declared.rows.CsvFault.TheVariants.{OutOfMemory};

use crate::device::DeviceFault;
use crate::header::names_columns;
use crate::records::{reader_of, take_record};
use crate::taking::Taking;
use csv::{ByteRecord, Reader};
use rp_value::{Row, Table};
use std::alloc::{AllocError, AllocFailed, Global};
use thiserror::Error;

/// The most records that an input may have beside its header, as `specs/CsvRows` has it.
pub const MAX_RECORDS: u64 = 1_099_511_627_776;

/// Why an input is no rows of a table: the first reason, in the order of its text.
#[derive(Clone, Copy, Debug, PartialEq, Eq, Error)]
pub enum CsvFault {
    /// There is no header, or it doesn't name the table's columns in order.
    #[error("Header")]
    Header,
    /// This record, from 1, hasn't a field for each column, or is one too many.
    #[error("Record at record {0}")]
    Record(u64),
    /// A field of this record, from 1, is no value of its column.
    #[error("Field at record {0}")]
    Field(u64),
    /// The device failed.
    #[error("device: read")]
    Read,
    /// All reads that are allowed were made, none of them told the end, and another is due. (A turn of a search is another
    /// thing.)
    #[error("too many turns")]
    Turns,
    /// Memory was refused.
    #[error("out of memory")]
    OutOfMemory,
}

impl From<DeviceFault> for CsvFault {
    ghost from_gives = { λ why fault. fault ≡ of_device_csv why };

    fn from(why: DeviceFault) -> CsvFault {
        match why {
            DeviceFault::Read => CsvFault::Read,
            DeviceFault::Turns => CsvFault::Turns,
            DeviceFault::OutOfMemory => CsvFault::OutOfMemory,
        }
    }
}

impl From<AllocError> for CsvFault {
    ghost from_gives = { λ _ fault. fault ≡ OutOfMemory };

    fn from(_error: AllocError) -> CsvFault {
        CsvFault::OutOfMemory
    }
}

impl<T: Drop> From<AllocFailed<T>> for CsvFault {
    ghost from_gives = { λ _ fault. fault ≡ OutOfMemory };

    fn from(_error: AllocFailed<T>) -> CsvFault {
        CsvFault::OutOfMemory
    }
}

/// The rows of a CSV text over a table.
///
/// The first record is the header. A field is a column's name, or has the form of a name whose upper-case form that is.
/// Of the records after it an empty field is null, any other UTF-8; that of a column of whole numbers is a sign or none
/// and digits, within 64 bits. The error is the first of the text: the header's, then the records' in order, where the
/// number of fields is looked at before what they are.
///
/// Rows that were read one after another share blocks of memory (`RowList`): who keeps a few of many rows for long keeps the
/// blocks in which they lie.
pub fn rows_of(alloc: Global, text: &[u8], table: &Table) -> Result<Vec<Row>, CsvFault>
    ensures ok { IfOk result (λ rows. AreRowsOf table.now text.now rows.items) }
    ensures err { IfErr result (λ fault. IsTextFault table.now text.now fault) }
{
    let mut reader = reader_of(alloc, text, b',');
    take_all(alloc, table, &mut reader)
}

/// The rows over a table of the records that a reader has before it, of which the first is the header. The reader is lent, since to
/// own it costs each way out.
fn take_all(alloc: Global, table: &Table, reader: &mut Reader<&[u8]>) -> Result<Vec<Row>, CsvFault>
    ensures ok { (text : List ℕ) → Stands 44 text [] reader.old →
        IfOk result (λ rows. AreRowsOf table.now text rows.items) }
    ensures err { (text : List ℕ) → Stands 44 text [] reader.old →
        IfErr result (λ fault. IsTextFault table.now text fault) }
{
    let mut fields = ByteRecord::new(alloc);
    take_header(alloc, table, reader, &mut fields)?;
    let mut taking = Taking::new(alloc, fields)?;
    take_rows(alloc, table, reader, &mut taking)?;
    Ok(taking.into_rows()?)
}

/// Takes the first record, which has to name the columns of the table.
fn take_header(
    alloc: Global,
    table: &Table,
    reader: &mut Reader<&[u8]>,
    header: &mut ByteRecord,
) -> Result<(), CsvFault>
    ensures ok { (text : List ℕ) → Stands 44 text [] reader.old →
        OnOk result (IsBelowHeader table.now text reader.new) }
    ensures err { (text : List ℕ) → Stands 44 text [] reader.old →
        IfErr result (λ fault. IsTextFault table.now text fault) }
{
    if !take_record(reader, header)? {
        return Err(CsvFault::Header);
    }
    if !names_columns(alloc, table.columns(), header)? {
        return Err(CsvFault::Header);
    }
    Ok(())
}

/// Takes each record that a reader has before it, below the header, as a row, where none was taken yet.
fn take_rows(
    alloc: Global,
    table: &Table,
    reader: &mut Reader<&[u8]>,
    taking: &mut Taking,
) -> Result<(), CsvFault>
    requires { rows_added taking.old.rows ≡ [] }
    ensures ok { (text : List ℕ) → IsBelowHeader table.now text reader.old →
        OnOk result (AreRowsOf table.now text (rows_added taking.new.rows)) }
    ensures err { (text : List ℕ) → IsBelowHeader table.now text reader.old →
        IfErr result (λ fault. IsTextFault table.now text fault) }
{
    for number in 1..MAX_RECORDS + 1 {
        if !take_record(reader, &mut taking.fields)? {
            return Ok(());
        }
        taking.take(alloc, table, number)?;
    }
    if take_record(reader, &mut taking.fields)? {
        return Err(CsvFault::Record(MAX_RECORDS + 1));
    }
    Ok(())
}
