//! What answers of output rows alone are to their readers: CSV and lines of objects, in which names head the cells.
//!
//! It is said of the text of a clause and of the texts of inputs: `specs/NamedAnswers`.
#![tactic(auto)]

ghost use Rattle.rp_protocol.specs.Within.{AreCells, IsCell};
ghost use Rattle.rp_named_answers.specs.NamedAnswers.{AreRowsOfCells, CellsStayWithin, NamesAreApart, ObjectsAreRead, RecordsAreRead};

use rp_known::law_named;
use rp_value::{Row, Value, law_value_order};
use rp_whole::{law_fitting, law_fitting_columns, law_header, law_limits};

/// No two output columns of a clause have one name, and over cells of 64 bits each cell of an answer has 64 bits. So a CSV over the rows
/// that are asked of is a header of different names and below it records, in which under each name is the cell of the output column that
/// has it, null or of this column's kind; and each line of objects over them is read as the object that has just these cells.
pub fn law_named_answers()
    ensures apart { NamesAreApart }
    ensures cells { CellsStayWithin }
    ensures records { RecordsAreRead }
    ensures objects { ObjectsAreRead }
{
    law_value_order();
    law_named();
    law_fitting();
    law_fitting_columns();
    law_header();
    law_limits();
}

/// The cells of rows have 64 bits, since each whole number in them is an `i64`: so have those of rows that were read. No program calls
/// it; it goes over the rows only for the proof to see each cell.
pub fn law_cells(rows: &[Row])
    ensures { AreRowsOfCells rows.now }
{
    for row in rows {
        law_row(row.cells());
    }
}

fn law_row(cells: &[Value])
    ensures { AreCells cells.now }
{
    for cell in cells {
        law_cell(cell);
    }
}

fn law_cell(cell: &Value)
    ensures { IsCell cell.now }
{
    match cell {
        Value::Int(number) => {
            let _number = *number;
        }
        Value::Text(_) | Value::Null => {}
    }
}
