//! The rows of an input that is read from a device.
ghost use Rattle.std.specs.Prelude.{IfOk, IfErr, IfSome};
ghost use Rattle.rp_io.specs.Reading.{ReadsWithin};
ghost use Rattle.rp_input.specs.ByColumns.{AreRowsByColumns};
ghost use Rattle.rp_input.specs.CsvRows.{AreRowsOf};
ghost use Rattle.rp_input.specs.Devices.{IsByColumnsInputFault, IsInputFault, columns_told, rows_told};

use crate::by_columns::rows_by;
use crate::columns_fault::ColumnsCsvFault;
use crate::device::read_all;
use crate::layout::CsvLayout;
use crate::rows::{CsvFault, rows_of};
use rp_columns::Columns;
use rp_io::Intake;
use rp_value::{Row, Table, Text};
use std::alloc::Global;

/// The rows of a CSV input over a table, as `rows_of` has them. It is read to its end, by at most `reads` calls.
pub fn read_rows<R: Intake>(
    alloc: Global,
    reader: &mut R,
    table: &Table,
    reads: u64,
) -> Result<Vec<Row>, CsvFault>
    ensures ok { IfOk result (λ rows. IfSome (R.seen reader.old).remaining
        (λ text. AreRowsOf table.now text rows.items)) }
    ensures err { IfErr result (λ fault. IfSome (R.seen reader.old).remaining
        (λ text. IsInputFault table.now text fault)) }
    ensures reads { ReadsWithin reads (rows_told result) (R.seen reader.old) (R.seen reader.new) }
{
    let text = read_all(alloc, reader, reads)?;
    rows_of(alloc, &text, table)
}

/// The rows of a CSV input by columns, as `rows_by` has them. It is read to its end, by at most `reads` calls.
pub fn read_rows_by<R: Intake>(
    alloc: Global,
    reader: &mut R,
    layout: CsvLayout,
    columns: &Columns,
    nulls: &[Text],
    reads: u64,
) -> Result<Vec<Row>, ColumnsCsvFault>
    ensures ok { IfOk result (λ rows. IfSome (R.seen reader.old).remaining
        (λ text. AreRowsByColumns nulls.now layout columns.now text rows.items)) }
    ensures err { IfErr result (λ fault. IfSome (R.seen reader.old).remaining
        (λ text. IsByColumnsInputFault nulls.now layout columns.now text fault)) }
    ensures reads { ReadsWithin reads (columns_told result) (R.seen reader.old) (R.seen reader.new) }
{
    let text = read_all(alloc, reader, reads)?;
    rows_by(alloc, &text, layout, columns, nulls)
}
