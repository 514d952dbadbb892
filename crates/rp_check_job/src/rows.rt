//! The rows of inputs, or what is wrong with them.
use crate::condition::condition_described;
use crate::found::Found;
use crate::inputs::Input;
use crate::parts::parts_told;
use crate::texts::{compared_told, texts_told};
use rp_columns::Columns;
use rp_command::InputFormat;
use rp_explain_inputs::{
    describe_quotes, describe_zeros, explain_csv, explain_csv_by, explain_objects,
};
use rp_explain_queries::describe_input;
use rp_input::{ColumnsCsvFault, CsvFault, rows_by, rows_of};
use rp_job::{InputForm, columns_never_found};
use rp_objects::{ObjectsFault, rows_by_objects};
use rp_question::InputShape;
use rp_report::FoundRows;
use rp_value::{Row, Table};
use rp_wording::{Pieces, Report, noun};
use std::alloc::{AllocError, Global};
use std::collections::hash_map::RandomState;

/// The rows of an input, or what is said of why they are none.
type Looked = Result<Vec<Row>, Result<Report, AllocError>>;

/// What was read of an input: how many rows it has, where they were read; these, and those of them that the clause sees.
#[derive(Drop)]
struct RowsRead {
    counts: Option<FoundRows>,
    all: Vec<Row>,
    seen: Vec<Row>,
}

/// How many rows each input has, or what is wrong with it, and what is to be known of the rows that the clause sees. The condition is the
/// text of the one that leaves rows out. The hasher finds the partitions of rows.
pub(crate) fn look_at_inputs(
    form: &InputForm,
    inputs: &[Input<'_>],
    condition: &Option<String>,
    hasher: RandomState,
    found: &mut Found,
) -> Result<(), AllocError> {
    let (mut all, mut seen) = (Vec::new(found.alloc), Vec::new(found.alloc));
    for input in inputs {
        found.look_in(input.name)?;
        let mut read = look_at_rows(form, input.bytes.as_slice(), found)?;
        found.take_input(input.name, read.counts)?;
        all.append(&mut read.all)?;
        seen.append(&mut read.seen)?;
    }
    found.look_in_none();
    let told = condition_described(found, condition, all.as_slice());
    found.note(told);
    let described = rows_described(found, form, condition, all.as_slice(), seen.as_slice());
    found.note(described);
    let of_parts = match &found.query {
        Some(query) => parts_told(found.alloc, query, seen, hasher),
        None => Ok(String::new(found.alloc)),
    };
    found.note(of_parts);
    Ok(())
}

/// What there is of an input: its rows, or what is wrong with it.
fn look_at_rows(form: &InputForm, bytes: &[u8], found: &mut Found) -> Result<RowsRead, AllocError> {
    let alloc = found.alloc;
    let looked = match &found.shape {
        None => return Ok(no_rows(alloc)),
        Some(InputShape::Table(table)) => rows_by_table(alloc, table, bytes),
        Some(InputShape::Columns(columns)) => rows_by_columns(alloc, columns, form, bytes),
        Some(InputShape::Objects(columns)) => rows_of_objects(alloc, columns, form, bytes),
    };
    match looked {
        Ok(rows) => take_rows(form, bytes, rows, found),
        Err(report) => {
            found.blame(input_name(form), report);
            Ok(no_rows(alloc))
        }
    }
}

/// No row was read.
fn no_rows(alloc: Global) -> RowsRead {
    RowsRead {
        counts: None,
        all: Vec::new(alloc),
        seen: Vec::new(alloc),
    }
}

/// Takes the rows of an input, of which the clause sees those that meet the condition.
fn take_rows(
    form: &InputForm,
    bytes: &[u8],
    rows: Vec<Row>,
    found: &mut Found,
) -> Result<RowsRead, AllocError> {
    tell_rows(form, bytes, rows.as_slice(), found);
    let seen = found.rows_seen(shared(found.alloc, rows.as_slice())?)?;
    let kept = tell_kept(found, seen.len());
    let counts = Some(FoundRows {
        all: rows.len() as u64,
        kept,
    });
    Ok(RowsRead {
        counts,
        all: rows,
        seen,
    })
}

/// The same rows, shared.
fn shared(alloc: Global, rows: &[Row]) -> Result<Vec<Row>, AllocError> {
    let mut list = Vec::with_capacity(alloc, rows.len())?;
    for row in rows {
        list.push(row.share()?)?;
    }
    Ok(list)
}

/// Writes how many rows an input of this form has, and what is to be known of them.
fn tell_rows(form: &InputForm, bytes: &[u8], rows: &[Row], found: &mut Found) {
    let mut line = Pieces::of(found.alloc, input_name(form));
    line.push(": ");
    line.push_count(rows.len());
    line.push(noun(
        rows.len(),
        " row, which fits the table\n",
        " rows, which fit the table\n",
    ));
    found.tell(line.finish());
    let quotes = quotes_told(found.alloc, form, bytes);
    found.note(quotes);
    let zeros = zeros_told(found, bytes);
    found.note(zeros);
    let never_found = never_found_told(found, rows);
    found.note(never_found);
}

/// Writes how many rows meet the condition, and gives it, where there is a condition without a fault.
fn tell_kept(found: &mut Found, count: usize) -> Option<u64> {
    if !found.is_filtered() {
        return None;
    }
    let mut line = Pieces::of(found.alloc, "where: ");
    line.push_count(count);
    line.push(noun(count, " row meets", " rows meet"));
    line.push(" the condition\n");
    found.tell(line.finish());
    Some(count as u64)
}

/// What is said of quotes of CSV.
fn quotes_told(alloc: Global, form: &InputForm, bytes: &[u8]) -> Result<String, AllocError> {
    match form.from {
        InputFormat::Csv => describe_quotes(alloc, bytes, form.layout.delimiter),
        InputFormat::JsonLines => Ok(String::new(alloc)),
    }
}

/// What is said of zeros before numbers, where a table alone says how the bytes are read.
fn zeros_told(found: &Found, bytes: &[u8]) -> Result<String, AllocError> {
    match &found.shape {
        Some(InputShape::Table(table)) => describe_zeros(found.alloc, table, bytes),
        _ => Ok(String::new(found.alloc)),
    }
}

/// What is said of columns for which no line of JSON has a value.
fn never_found_told(found: &Found, rows: &[Row]) -> Result<String, AllocError> {
    let mut lines = Pieces::new(found.alloc);
    if let Some(shape) = &found.shape {
        for remark in columns_never_found(found.alloc, shape, rows)? {
            lines.push(remark.as_str());
            lines.push("\n");
        }
    }
    lines.finish()
}

/// What is said of rows: of those that the clause sees, and of the columns and texts of all. Of a clause with a fault it is said of columns
/// alone, where it takes texts for numbers.
fn rows_described(
    found: &Found,
    form: &InputForm,
    condition: &Option<String>,
    all: &[Row],
    seen: &[Row],
) -> Result<String, AllocError> {
    let Some(query) = &found.query else {
        return texts_told(found, form, condition, all, "");
    };
    let described = describe_input(found.alloc, query, seen)?;
    let mut told = Pieces::of(found.alloc, described.as_str());
    told.push_made(texts_told(found, form, condition, all, described.as_str()));
    told.push_made(compared_told(found.alloc, query, all));
    told.finish()
}

/// What an input of this form is called.
fn input_name(form: &InputForm) -> &'static str {
    match form.from {
        InputFormat::Csv => "csv",
        InputFormat::JsonLines => "json",
    }
}

/// The rows of a table that the bytes are, or why they are none.
fn rows_by_table(alloc: Global, table: &Table, bytes: &[u8]) -> Looked {
    match rows_of(alloc, bytes, table) {
        Ok(rows) => Ok(rows),
        Err(CsvFault::OutOfMemory) => Err(Err(AllocError)),
        Err(fault) => Err(explain_csv(alloc, table, bytes, &fault)),
    }
}

/// The rows by columns that the bytes are, or why they are none.
fn rows_by_columns(alloc: Global, columns: &Columns, form: &InputForm, bytes: &[u8]) -> Looked {
    match rows_by(alloc, bytes, form.layout, columns, form.nulls.as_slice()) {
        Ok(rows) => Ok(rows),
        Err(ColumnsCsvFault::OutOfMemory) => Err(Err(AllocError)),
        Err(fault) => Err(explain_csv_by(alloc, columns, form.layout, bytes, &fault)),
    }
}

/// The rows by columns that the objects are, or why they are none.
fn rows_of_objects(alloc: Global, columns: &Columns, form: &InputForm, bytes: &[u8]) -> Looked {
    match rows_by_objects(alloc, bytes, columns, form.nulls.as_slice()) {
        Ok(rows) => Ok(rows),
        Err(ObjectsFault::OutOfMemory) => Err(Err(AllocError)),
        Err(fault) => Err(explain_objects(alloc, columns, bytes, &fault)),
    }
}
