//! Why an input has no rows, with the name of its file where it has one.
use crate::fault::ProgramFault;
use crate::files::unreadable;
use rp_columns::InputColumn;
use rp_input::ColumnsCsvFault;
use rp_objects::ObjectsFault;
use rp_proposal::{csv_fault_line, objects_fault_line};
use rp_question::{InputFault, InputShape};
use rp_wording::{Pieces, shown_line};
use std::alloc::{AllocError, Global};

/// The fault of an input of this shape. The name is that of its file.
pub(crate) fn input_fault(
    alloc: Global,
    name: Option<&str>,
    shape: &InputShape,
    fault: InputFault,
) -> ProgramFault {
    match fault {
        InputFault::Unread => ProgramFault::Read,
        InputFault::OutOfMemory => ProgramFault::OutOfMemory,
        InputFault::Table(fault) => in_file(alloc, name, ProgramFault::from(fault)),
        InputFault::Columns(fault) => columns_fault(alloc, name, columns_in(shape), fault),
        InputFault::Objects(fault) => objects_fault(alloc, name, columns_in(shape), fault),
    }
}

/// The columns that fields or keys are read for; none where the columns are those of a table.
fn columns_in(shape: &InputShape) -> &[InputColumn] {
    match shape {
        InputShape::Table(_) => &[],
        InputShape::Columns(columns) => columns.as_slice(),
        InputShape::Objects(columns) => columns.as_slice(),
    }
}

/// The fault of an input, which this text reports.
fn told_so(text: Result<String, AllocError>) -> ProgramFault {
    match text {
        Ok(text) => ProgramFault::Input(text),
        Err(_) => ProgramFault::OutOfMemory,
    }
}

/// A fault of an input, with the name of its file where it has one.
fn in_file(alloc: Global, name: Option<&str>, fault: ProgramFault) -> ProgramFault {
    let Some(name) = name else {
        return fault;
    };
    match &fault {
        ProgramFault::Read => unreadable(alloc, name),
        ProgramFault::CsvHeader
        | ProgramFault::CsvRecord(_)
        | ProgramFault::CsvField(_)
        | ProgramFault::Input(_) => told_so(line_in_file(alloc, name, &fault)),
        _ => fault,
    }
}

/// The line of a fault behind the name of a file as it is shown.
fn line_in_file(alloc: Global, name: &str, fault: &ProgramFault) -> Result<String, AllocError> {
    let shown = shown_line(alloc, name)?;
    format!(in alloc; "{shown}: {fault}")
}

/// The fault of an input by columns, as `csv: Form at record 3, column cents`.
fn columns_fault(
    alloc: Global,
    name: Option<&str>,
    columns: &[InputColumn],
    fault: ColumnsCsvFault,
) -> ProgramFault {
    let fault = match fault {
        ColumnsCsvFault::Read => ProgramFault::Read,
        ColumnsCsvFault::Turns => ProgramFault::Turns,
        ColumnsCsvFault::OutOfMemory => ProgramFault::OutOfMemory,
        ColumnsCsvFault::Header => ProgramFault::CsvHeader,
        ColumnsCsvFault::Record(number) => ProgramFault::CsvRecord(number),
        fault => told_line(alloc, "csv: ", csv_fault_line(alloc, columns, &fault)),
    };
    in_file(alloc, name, fault)
}

/// The fault of objects, as `json: Form at line 3, column CENTS`.
fn objects_fault(
    alloc: Global,
    name: Option<&str>,
    columns: &[InputColumn],
    fault: ObjectsFault,
) -> ProgramFault {
    if fault == ObjectsFault::OutOfMemory {
        return ProgramFault::OutOfMemory;
    }
    let line = objects_fault_line(alloc, columns, &fault);
    in_file(alloc, name, told_line(alloc, "json: ", line))
}

/// The fault of an input, by its line behind the word for what the input is.
fn told_line(alloc: Global, word: &str, line: Result<String, AllocError>) -> ProgramFault {
    let mut text = Pieces::of(alloc, word);
    text.push_made(line);
    told_so(text.finish())
}
