//! The lines of faults of an input, with the name of the column that they are of. A program reports them, and what is explained begins
//! with them.

use rp_columns::InputColumn;
use rp_input::ColumnsCsvFault;
use rp_objects::ObjectsFault;
use rp_wording::{Pieces, shown_text};
use std::alloc::{AllocError, Global};

/// The line of a fault of a CSV input by columns, as `Form at record 3, column CENTS` or `Missing booked`, with `?` for each character
/// that would control a terminal. The only error is being out of memory.
pub fn csv_fault_line(
    alloc: Global,
    columns: &[InputColumn],
    fault: &ColumnsCsvFault,
) -> Result<String, AllocError> {
    let line = match fault {
        ColumnsCsvFault::Missing(index) => {
            Pieces::filled(alloc, "Missing {}", &[source_of(columns, *index)]).finish()
        }
        ColumnsCsvFault::Double(index) => {
            Pieces::filled(alloc, "Double {}", &[source_of(columns, *index)]).finish()
        }
        ColumnsCsvFault::Field(number, index, why) => {
            let name = name_of(columns, *index);
            format!(in alloc; "{why} at record {number}, column {name}")
        }
        fault => format!(in alloc; "{fault}"),
    };
    shown_text(alloc, line?.as_str())
}

/// The line of a fault of an input of objects, as `Form at line 3, column CENTS`, likewise.
pub fn objects_fault_line(
    alloc: Global,
    columns: &[InputColumn],
    fault: &ObjectsFault,
) -> Result<String, AllocError> {
    let line = match fault {
        ObjectsFault::Field(number, index, why) => {
            let name = name_of(columns, *index);
            format!(in alloc; "{why} at line {number}, column {name}")
        }
        fault => format!(in alloc; "{fault}"),
    };
    shown_text(alloc, line?.as_str())
}

/// The name of a column, by its index.
pub fn name_of(columns: &[InputColumn], index: usize) -> &str {
    match columns.get(index) {
        Some(column) => column.name.as_str(),
        None => "",
    }
}

/// The name that the header has for a column, by its index.
pub fn source_of(columns: &[InputColumn], index: usize) -> &str {
    match columns.get(index) {
        Some(column) => column.source.as_str(),
        None => "",
    }
}
