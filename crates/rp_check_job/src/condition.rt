//! What `check` says of rows over the condition that leaves rows out.

use crate::found::{Found, RowsSeen};
use crate::texts::compared_told;
use rp_explain_queries::describe_input;
use rp_job::condition_query;
use rp_query::Query;
use rp_value::{Row, Table};
use rp_wording::Pieces;
use std::alloc::{AllocError, Global};

/// What is said of the condition of this text, if it has no fault: the rows are all of the inputs, those that it leaves out among them.
pub(crate) fn condition_described(
    found: &Found,
    condition: &Option<String>,
    rows: &[Row],
) -> Result<String, AllocError> {
    match (&found.seen, &found.shape) {
        (RowsSeen::Meeting(_), Some(shape)) => {
            let said = said_of(found.alloc, condition, shape.table(), rows)?;
            behind_where(found.alloc, said.as_str())
        }
        _ => Ok(String::new(found.alloc)),
    }
}

/// What is said of rows over the clause that a condition is read as.
fn said_of(
    alloc: Global,
    condition: &Option<String>,
    table: &Table,
    rows: &[Row],
) -> Result<String, AllocError> {
    match condition_query(alloc, condition, table)? {
        Some(query) => said_over(alloc, &query, rows),
        None => Ok(String::new(alloc)),
    }
}

/// What is said of rows over a query.
fn said_over(alloc: Global, query: &Query, rows: &[Row]) -> Result<String, AllocError> {
    let said = describe_input(alloc, query, rows)?;
    let mut told = Pieces::of(alloc, said.as_str());
    told.push_made(compared_told(alloc, query, rows));
    told.finish()
}

/// Lines, each behind a word that says that it is of the condition.
fn behind_where(alloc: Global, lines: &str) -> Result<String, AllocError> {
    let mut told = Pieces::new(alloc);
    for line in lines.lines() {
        told.push("where: ");
        told.push(line);
        told.push("\n");
    }
    told.finish()
}
