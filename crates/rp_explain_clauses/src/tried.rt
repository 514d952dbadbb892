//! What is tried of a value that a condition has.

use rp_compile::{CompileFault, compile};
use rp_query::Query;
use rp_value::Table;
use rp_wording::Pieces;
use std::alloc::{AllocError, Global};

/// Whether a text is a value over the table.
pub(crate) fn is_value(alloc: Global, table: &Table, text: &str) -> Result<bool, AllocError> {
    Ok(asked(alloc, table, text)?.is_some())
}

/// Whether a text is a value over the table that looks at other rows than its own.
pub(crate) fn looks_elsewhere(
    alloc: Global,
    table: &Table,
    text: &str,
) -> Result<bool, AllocError> {
    match asked(alloc, table, text)? {
        Some(query) => Ok(!query.judges_rows() || !query.looks_back() || query.reach() > 0),
        None => Ok(false),
    }
}

/// Whether a text is a condition over the table that looks at its own row alone.
pub(crate) fn is_filter(alloc: Global, table: &Table, text: &str) -> Result<bool, AllocError> {
    let form = "PATTERN (R) DEFINE R AS ({}\n)";
    let clause = Pieces::filled(alloc, form, &[text]).finish()?;
    match compile(alloc, clause.as_str(), table) {
        Ok(query) => Ok(query.judges_rows() && query.looks_back() && query.reach() == 0),
        Err(CompileFault::OutOfMemory) => Err(AllocError),
        Err(_) => Ok(false),
    }
}

/// The query of a pattern of one variable, whose condition asks whether the value is null; None where the text is no value.
fn asked(alloc: Global, table: &Table, text: &str) -> Result<Option<Query>, AllocError> {
    let form = "PATTERN (R) DEFINE R AS ({}\n) IS NULL";
    let clause = Pieces::filled(alloc, form, &[text]).finish()?;
    match compile(alloc, clause.as_str(), table) {
        Ok(query) => Ok(Some(query)),
        Err(CompileFault::OutOfMemory) => Err(AllocError),
        Err(_) => Ok(None),
    }
}
