//! A row that is between those of a match.

use crate::case::Case;
use crate::extent::{Extent, Span, extent_of};
use crate::list::List;
use crate::seeking::{Wanted, seek};
use rp_eval::AllRows;
use rp_value::Row;
use rp_words::End;
use std::alloc::AllocError;

/// Of so many rows at most it is tried whether there is a match without them.
const MOST_ROWS: u64 = 100;

/// The first row behind one without which there is a match round its place that begins with that one or behind it, and the rows of
/// that match, numbered with that row among them.
pub(crate) fn row_between(case: &Case<'_>, from: u64) -> Result<(u64, Extent), AllocError> {
    let rows = (case.rows.rows.len() as u64).min(from.saturating_add(MOST_ROWS));
    for row in from.saturating_add(1)..rows {
        match extent_without(case, from, row)? {
            Extent::Nothing => {}
            Extent::GivenUp => return Ok((row, Extent::GivenUp)),
            Extent::Rows(Span { first, last }) => {
                if last >= row {
                    let last = last.saturating_add(1);
                    return Ok((row, Extent::Rows(Span { first, last })));
                }
            }
        }
    }
    Ok((rows, Extent::Nothing))
}

/// Which rows are found among all rows but one, from a row on and before that one.
fn extent_without(case: &Case<'_>, from: u64, left_out: u64) -> Result<Extent, AllocError> {
    let rows = AllRows {
        rows: rows_without(case, left_out)?,
        end: End::Closed,
    };
    let wanted = Wanted {
        first: from,
        last: case.wanted.last.min(left_out.saturating_sub(1)),
        ..case.wanted
    };
    let sought = seek(case.alloc, case.query, &rows, wanted)?;
    Ok(extent_of(&sought))
}

/// All rows but one.
fn rows_without(case: &Case<'_>, left_out: u64) -> Result<Vec<Row>, AllocError> {
    let mut rows = List::new(case.alloc);
    for (index, row) in case.rows.rows.iter().enumerate() {
        if (index as u64).saturating_add(1) != left_out {
            rows.push_made(row.share());
        }
    }
    rows.finish()
}
