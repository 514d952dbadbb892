//! What is reported of columns that are proposed as texts, and are numbers or times that a clause compares, or as whole numbers, and are dates
//! that it adds or subtracts; and of those that are given in different units.
use crate::telling::tell;
use rp_compile::{CompileFault, compile};
use rp_query::Query;
use rp_question::InputShape;
use rp_text_notes::{Asked, Note, Proposed, notes_on_proposed, notes_on_units};
use rp_value::{Row, Table};
use rp_wording::{Pieces, shown_line};
use std::alloc::{AllocError, Global};

/// What is before a condition of rows in the clause that it is read as.
const FRONT: &str = "PATTERN (R) DEFINE R AS ";

/// Notes on the columns of a query, which are proposed, that are numbers or times and are compared as texts, or dates and are added as whole
/// numbers: by the query, or by a condition that leaves rows out. The rows are all of the inputs.
pub(crate) fn notes_on_columns(
    alloc: Global,
    query: &Query,
    condition: &Option<String>,
    proposed: Proposed<'_>,
    rows: &[Row],
) -> Result<Vec<Note>, AllocError> {
    match condition_query(alloc, condition, query.table())? {
        Some(filter) => notes_by(alloc, query, Some(&filter), proposed, rows),
        None => notes_by(alloc, query, None, proposed, rows),
    }
}

/// The same by the query of that condition.
fn notes_by(
    alloc: Global,
    query: &Query,
    filter: Option<&Query>,
    proposed: Proposed<'_>,
    rows: &[Row],
) -> Result<Vec<Note>, AllocError> {
    let asked = Asked {
        query,
        filter,
        numbers: &[],
    };
    notes_on_proposed(alloc, asked, proposed, rows)
}

/// Notes on columns that are given, where a query, or a condition that leaves rows out, takes two of them for values of one unit, and they
/// have two.
pub fn notes_on_given(
    alloc: Global,
    query: &Query,
    condition: &Option<String>,
    shape: &InputShape,
) -> Result<Vec<Note>, AllocError> {
    let columns = match shape {
        InputShape::Columns(columns) | InputShape::Objects(columns) => columns.as_slice(),
        InputShape::Table(_) => return Ok(Vec::new(alloc)),
    };
    match condition_query(alloc, condition, query.table())? {
        Some(filter) => notes_on_units(alloc, query, Some(&filter), columns),
        None => notes_on_units(alloc, query, None, columns),
    }
}

/// The clause that a condition of rows is read as.
pub fn condition_clause(alloc: Global, condition: &str) -> Result<String, AllocError> {
    let mut clause = Pieces::of(alloc, FRONT);
    clause.push(condition);
    clause.finish()
}

/// The query of the clause that a condition of rows is read as, over a table; None where there is no condition, or it has a fault.
pub fn condition_query(
    alloc: Global,
    condition: &Option<String>,
    table: &Table,
) -> Result<Option<Query>, AllocError> {
    let Some(condition) = condition else {
        return Ok(None);
    };
    let clause = condition_clause(alloc, condition.as_str())?;
    match compile(alloc, clause.as_str(), table) {
        Ok(query) => Ok(Some(query)),
        Err(CompileFault::OutOfMemory) => Err(AllocError),
        Err(_) => Ok(None),
    }
}

/// Reports notes, a line for each.
pub(crate) fn tell_notes(rt: &HostRuntime, notes: &[Note]) -> Result<(), AllocError> {
    for note in notes {
        tell(rt, &shown_line(rt.alloc(), note.line.as_str())?);
    }
    Ok(())
}
