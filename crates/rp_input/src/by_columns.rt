//! The rows of a CSV text by columns that are computed.
ghost use Rattle.std.specs.Prelude.{◌≡◌, ◌<◌, ◌^◌, ℕ, List, [], IfOk, IfErr, OnOk};
ghost use Rattle.csv.specs.Records.{fields_of};
ghost use Rattle.rp_input.specs.Beginning.{BeginsAt};
ghost use Rattle.rp_input.specs.ByColumns.{AreRowsByColumns, IsByColumnsFault, IsRecordFault, TakesRow};
ghost use Rattle.rp_input.specs.Standing.{Stands};
ghost use Rattle.rp_input.specs.declared.layout.CsvLayout.{CsvLayout};
ghost use Rattle.rp_columns.specs.declared.columns.InputColumn.{InputColumn};
ghost use Rattle.rp_value.specs.RowLists.{rows_added};

use crate::columns_fault::ColumnsCsvFault;
use crate::layout::CsvLayout;
use crate::placed::{CellFault, take_cells};
use crate::places::{Places, places_of};
use crate::records::{reader_of, take_record};
use crate::rows::MAX_RECORDS;
use crate::taking::Taking;
use csv::{ByteRecord, Reader};
use rp_columns::Columns;
use rp_value::{Row, Text};
use std::alloc::Global;

/// The rows of a CSV text by columns.
///
/// Where the layout has a header, it is the first record: each column's source is the name of one of its fields, or the
/// upper-case form of one that has the form of a name, and other fields may have any name. Each record after it has as many
/// fields as the header. Without a header each record has a field for each column that reads one, in their order. A field that
/// is one of the null words, byte for byte, is null. The error is the first of the text: the header's, then the records' in
/// order, where the number of fields is looked at before what they are.
pub fn rows_by(
    alloc: Global,
    text: &[u8],
    layout: CsvLayout,
    columns: &Columns,
    nulls: &[Text],
) -> Result<Vec<Row>, ColumnsCsvFault>
    ensures ok { IfOk result (λ rows. AreRowsByColumns nulls.now layout columns.now text.now rows.items) }
    ensures err { IfErr result (λ fault. IsByColumnsFault nulls.now layout columns.now text.now fault) }
{
    let mut reader = reader_of(alloc, text, layout.delimiter);
    take_all(alloc, layout, columns, nulls, &mut reader)
}

/// The rows by columns of the records that a reader has before it. The reader is lent, since to own it costs each way out.
fn take_all(
    alloc: Global,
    layout: CsvLayout,
    columns: &Columns,
    nulls: &[Text],
    reader: &mut Reader<&[u8]>,
) -> Result<Vec<Row>, ColumnsCsvFault>
    ensures ok { (text : List ℕ) → Stands layout.delimiter text [] reader.old →
        IfOk result (λ rows. AreRowsByColumns nulls.now layout columns.now text rows.items) }
    ensures err { (text : List ℕ) → Stands layout.delimiter text [] reader.old →
        IfErr result (λ fault. IsByColumnsFault nulls.now layout columns.now text fault) }
{
    let mut fields = ByteRecord::new(alloc);
    let places = places_of(alloc, layout, columns.as_slice(), reader, &mut fields)?;
    let mut taking = Taking::new(alloc, fields)?;
    take_rows(alloc, nulls, &places, reader, &mut taking)?;
    Ok(taking.into_rows()?)
}

/// Takes each record that a reader has before it as a row, by the places of the columns, where none was taken yet.
fn take_rows(
    alloc: Global,
    nulls: &[Text],
    places: &Places,
    reader: &mut Reader<&[u8]>,
    taking: &mut Taking,
) -> Result<(), ColumnsCsvFault>
    requires { rows_added taking.old.rows ≡ [] }
    ensures ok { (layout : CsvLayout) (columns : List InputColumn) (text : List ℕ) →
        BeginsAt layout columns text places.now reader.old →
        OnOk result (AreRowsByColumns nulls.now layout columns text (rows_added taking.new.rows)) }
    ensures err { (layout : CsvLayout) (columns : List InputColumn) (text : List ℕ) →
        BeginsAt layout columns text places.now reader.old →
        IfErr result (λ fault. IsByColumnsFault nulls.now layout columns text fault) }
{
    for number in 1..MAX_RECORDS + 1 {
        if !take_record(reader, &mut taking.fields)? {
            return Ok(());
        }
        take_row(alloc, nulls, places, number, taking)?;
    }
    if take_record(reader, &mut taking.fields)? {
        return Err(ColumnsCsvFault::Record(MAX_RECORDS + 1));
    }
    Ok(())
}

/// Takes the record at hand, of this number from 1, as the next row, where it has as many fields as it has to have.
fn take_row(
    alloc: Global,
    nulls: &[Text],
    places: &Places,
    number: u64,
    taking: &mut Taking,
) -> Result<(), ColumnsCsvFault>
    requires { number < 2 ^ 63 }
    ensures ok { OnOk result (TakesRow nulls.now places.now.columns.items places.now.width number
        (fields_of taking.old.fields) (rows_added taking.old.rows) (rows_added taking.new.rows)) }
    ensures err { IfErr result (λ fault. IsRecordFault nulls.now places.now.columns.items places.now.width
        (fields_of taking.old.fields) number fault) }
{
    if taking.fields.len() != places.width {
        return Err(ColumnsCsvFault::Record(number));
    }
    match take_cells(
        alloc,
        &mut taking.texts,
        nulls,
        number,
        places.columns.as_slice(),
        &taking.fields,
        &mut taking.cells,
    ) {
        Ok(()) => {}
        Err(CellFault::Field(index, why)) => {
            return Err(ColumnsCsvFault::Field(number, index, why));
        }
        Err(CellFault::OutOfMemory) => return Err(ColumnsCsvFault::OutOfMemory),
    }
    taking.rows.push(&mut taking.cells)?;
    Ok(())
}
