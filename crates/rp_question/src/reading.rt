//! The rows of inputs.
ghost use Rattle.std.specs.Prelude.{◌≡◌, IfErr, IfOk};

use crate::fault::InputFault;
use crate::shape::InputShape;
use rp_input::{CsvLayout, rows_by, rows_of};
use rp_objects::rows_by_objects;
use rp_value::{Row, Text};
use std::alloc::Global;

/// How the bytes of inputs become rows.
#[derive(Clone, Copy)]
pub struct Reading<'a> {
    /// The columns.
    pub shape: &'a InputShape,
    /// How the text of a CSV is laid out. A table has its own layout: commas, and a header.
    pub layout: CsvLayout,
    /// The words that are null. For a table it is the empty field.
    pub nulls: &'a [Text],
}

impl Reading<'_> {
    ghost use Rattle.rp_question.specs.Read.{AreRowsBy, IsFaultBy};

    /// The rows of the bytes of an input, or the first fault in their order.
    pub fn rows(&self, alloc: Global, text: &[u8]) -> Result<Vec<Row>, InputFault>
        ensures ok { IfOk result (λ rows.
            AreRowsBy self.now.shape.now self.now.layout self.now.nulls.now text.now rows.items) }
        ensures err { IfErr result (IsFaultBy self.now.shape.now self.now.layout self.now.nulls.now text.now) }
    {
        match self.shape {
            InputShape::Table(table) => match rows_of(alloc, text, table) {
                Ok(rows) => Ok(rows),
                Err(fault) => Err(InputFault::Table(fault)),
            },
            InputShape::Columns(columns) => {
                match rows_by(alloc, text, self.layout, columns, self.nulls) {
                    Ok(rows) => Ok(rows),
                    Err(fault) => Err(InputFault::Columns(fault)),
                }
            }
            InputShape::Objects(columns) => {
                match rows_by_objects(alloc, text, columns, self.nulls) {
                    Ok(rows) => Ok(rows),
                    Err(fault) => Err(InputFault::Objects(fault)),
                }
            }
        }
    }
}
