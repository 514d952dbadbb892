//! Records taken as rows, one after another.
ghost use Rattle.std.specs.Prelude.{◌≡◌, [], IfErr, IfOk, OnOk};
ghost use Rattle.csv.specs.Records.{fields_of};
ghost use Rattle.rp_value.specs.RowLists.{rows_added};
ghost use Rattle.rp_value.specs.Tables.{kinds_of};

use crate::fields::take_values;
use crate::rows::CsvFault;
use csv::{ByteRecord, StringRecord};
use rp_columns::Texts;
use rp_value::{Row, RowList, Table, Value};
use std::alloc::{AllocError, Global};
use std::mem;

/// The record at hand, the rows of those before it, and what is used again for the next one: the texts that rows
/// share, and the room of its cells.
#[derive(Drop)]
pub(crate) struct Taking {
    pub(crate) fields: ByteRecord,
    pub(crate) texts: Texts,
    pub(crate) cells: Vec<Value>,
    pub(crate) rows: RowList,
}

impl Taking {
    ghost use Rattle.rp_input.specs.CsvRows.{IsRowFault, TakesOne};

    /// No record was taken yet: the one at hand is room for the first.
    pub(crate) fn new(alloc: Global, fields: ByteRecord) -> Result<Taking, AllocError>
        ensures { IfOk result (λ taking. rows_added taking.rows ≡ []) }
    {
        Ok(Taking {
            fields,
            texts: Texts::new(alloc)?,
            cells: Vec::new(alloc),
            rows: RowList::new(alloc),
        })
    }

    /// Takes the record at hand as the next row of a table. Its number, from 1, is for the fault.
    pub(crate) fn take(&mut self, alloc: Global, table: &Table, number: u64) -> Result<(), CsvFault>
        ensures ok { OnOk result (TakesOne (kinds_of table.now) (fields_of self.old.fields)
            (rows_added self.old.rows) (rows_added self.new.rows)) }
        ensures err { IfErr result (λ fault. IsRowFault (kinds_of table.now) (fields_of self.old.fields) number fault) }
    {
        let columns = table.columns();
        if self.fields.len() != columns.len() {
            return Err(CsvFault::Record(number));
        }
        let fields = mem::replace(&mut self.fields, ByteRecord::new(alloc));
        let Ok(fields) = StringRecord::from_byte_record(fields) else {
            return Err(CsvFault::Field(number));
        };
        let taken = take_values(alloc, &mut self.texts, columns, &fields, &mut self.cells);
        self.fields = fields.into_byte_record();
        if !taken? {
            return Err(CsvFault::Field(number));
        }
        self.rows.push(&mut self.cells)?;
        Ok(())
    }

    /// The rows of all records. Where memory runs out they are dropped.
    pub(crate) fn into_rows(self) -> Result<Vec<Row>, AllocError>
        ensures { IfOk result (λ rows. rows.items ≡ rows_added self.rows) }
    {
        self.rows.into_rows()
    }
}
