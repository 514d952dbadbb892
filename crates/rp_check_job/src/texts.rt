//! What `check` says of columns that are proposed as texts, and are numbers or times that a clause compares, or numbers that it needs; or as whole
//! numbers, and are dates that it adds or subtracts; of columns that are given in different units; and of texts that rows have nearly, or not at
//! all.

use crate::found::Found;
use rp_job::{InputForm, condition_query, notes_on_given};
use rp_near_misses::{absent_texts, near_misses};
use rp_query::Query;
use rp_text_notes::{Asked, Note, Proposed, notes_on_proposed};
use rp_value::Row;
use rp_wording::{Pieces, shown_text};
use std::alloc::{AllocError, Global};

/// What is said of these columns, a line for each: of all but those of whose offsets from UTC something was said. The rows are all of the
/// inputs, which have this form, and the condition is the text of the one that leaves rows out.
pub(crate) fn texts_told(
    found: &Found,
    form: &InputForm,
    condition: &Option<String>,
    rows: &[Row],
    told: &str,
) -> Result<String, AllocError> {
    let mut lines = Pieces::new(found.alloc);
    if let (Some(columns), Some(query)) = (&found.proposed, found.asked()) {
        let proposed = form.proposed(columns.as_str());
        for note in notes_on(found, query, condition, proposed, rows)? {
            if !is_told(found.alloc, query, note.column, told)? {
                lines.push(note.line.as_str());
                lines.push("\n");
            }
        }
    }
    shown_text(found.alloc, lines.text()?)
}

/// The notes on columns that are proposed, of which a query and the condition of this text ask something.
fn notes_on(
    found: &Found,
    query: &Query,
    condition: &Option<String>,
    proposed: Proposed<'_>,
    rows: &[Row],
) -> Result<Vec<Note>, AllocError> {
    let numbers = found.numbers()?;
    let numbers = numbers.as_slice();
    if let Some(taken) = &found.condition_as_numbers {
        return notes_by(
            found.alloc,
            query,
            Some(&taken.query),
            numbers,
            proposed,
            rows,
        );
    }
    match filter_of(found, condition)? {
        Some(filter) => notes_by(found.alloc, query, Some(&filter), numbers, proposed, rows),
        None => notes_by(found.alloc, query, None, numbers, proposed, rows),
    }
}

/// The same by a query and that of the condition, which take the columns of these numbers for numbers.
fn notes_by(
    alloc: Global,
    query: &Query,
    filter: Option<&Query>,
    numbers: &[usize],
    proposed: Proposed<'_>,
    rows: &[Row],
) -> Result<Vec<Note>, AllocError> {
    let asked = Asked {
        query,
        filter,
        numbers,
    };
    notes_on_proposed(alloc, asked, proposed, rows)
}

/// The query of the condition of this text, where it has no fault.
fn filter_of(found: &Found, condition: &Option<String>) -> Result<Option<Query>, AllocError> {
    match &found.shape {
        Some(shape) => condition_query(found.alloc, condition, shape.table()),
        None => Ok(None),
    }
}

/// What is said of columns that are given, where the clause, or the condition of this text, takes two of them for values of one unit.
pub(crate) fn units_told(found: &Found, condition: &Option<String>) -> Result<String, AllocError> {
    let mut lines = Pieces::new(found.alloc);
    if let (None, Some(shape), Some(query)) = (&found.proposed, &found.shape, &found.query) {
        for note in notes_on_given(found.alloc, query, condition, shape)? {
            lines.push(note.line.as_str());
            lines.push("\n");
        }
    }
    shown_text(found.alloc, lines.text()?)
}

/// What is said of texts with which a query compares columns, where rows have them nearly, or no row has them: a line for each.
pub(crate) fn compared_told(
    alloc: Global,
    query: &Query,
    rows: &[Row],
) -> Result<String, AllocError> {
    let mut notes = near_misses(alloc, query, rows)?;
    notes.append(&mut absent_texts(alloc, query, rows)?)?;
    let mut lines = Pieces::new(alloc);
    for note in notes {
        lines.push(note.as_str());
        lines.push("\n");
    }
    shown_text(alloc, lines.text()?)
}

/// Whether something was said of the offsets of a column, by its number from 1.
fn is_told(alloc: Global, query: &Query, column: usize, told: &str) -> Result<bool, AllocError> {
    let Some(column) = query.table().columns().get(column.saturating_sub(1)) else {
        return Ok(false);
    };
    let mut start = Pieces::new(alloc);
    start.push_name(column.name.as_str());
    start.push(" is a text with offsets as ");
    let start = start.text()?;
    Ok(told.split('\n').any(|line| line.starts_with(start)))
}
