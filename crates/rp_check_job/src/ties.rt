//! What `check` says of rows that ORDER BY doesn't tell apart.

use rp_job::shown_key;
use rp_numbering::{Part, order_rows};
use rp_query::{OrderColumn, Query};
use rp_value::{Cells, Row, Value};
use rp_wording::{Pieces, noun};
use std::alloc::{AllocError, Global};

/// Rows that have the same values of ORDER BY as the row before them in their partition, and other values than that elsewhere.
#[derive(Drop)]
struct Ties {
    count: usize,
    /// The values of the first of them, and its partition.
    first: Option<String>,
}

/// What is said of rows that a clause sees, where different ones of a partition have the same values of ORDER BY: their order is that of the
/// input. It doesn't matter for rows that are equal.
pub(crate) fn ties_told(
    alloc: Global,
    query: &Query,
    parts: Vec<Part>,
) -> Result<String, AllocError> {
    if query.order().is_empty() {
        return Ok(String::new(alloc));
    }
    let mut ties = Ties {
        count: 0,
        first: None,
    };
    for part in parts {
        add_part(alloc, query, part, &mut ties)?;
    }
    let Ties { count, first } = ties;
    match first {
        Some(first) => told_of(alloc, count, first.as_str()),
        None => Ok(String::new(alloc)),
    }
}

/// Adds the rows of a partition that tie.
fn add_part(alloc: Global, query: &Query, part: Part, ties: &mut Ties) -> Result<(), AllocError> {
    let Part { key, mut rows } = part;
    order_rows(query, &mut rows)?;
    for (one, other) in rows.iter().zip(rows.iter().skip(1)) {
        if !one.same(other) && tie(query.order(), one, other) {
            ties.count = ties.count.saturating_add(1);
            if ties.first.is_none() {
                ties.first = Some(place_of(alloc, query.order(), one, &key)?);
            }
        }
    }
    Ok(())
}

/// Whether two rows have the same values in the columns of ORDER BY.
fn tie(order: &[OrderColumn], one: &Row, other: &Row) -> bool {
    order
        .iter()
        .all(|by| one.cell(by.column) == other.cell(by.column))
}

/// The values of a row by which it is ordered, and its partition, as `[1] in partition ["x"]`.
fn place_of(
    alloc: Global,
    order: &[OrderColumn],
    row: &Row,
    key: &Cells,
) -> Result<String, AllocError> {
    let mut values = Vec::new(alloc);
    for by in order {
        values.push(match row.cell(by.column) {
            Some(value) => value.share()?,
            None => Value::Null,
        })?;
    }
    let mut place = Pieces::new(alloc);
    place.push_made(shown_key(alloc, &Cells::new(values)));
    if !key.as_slice().is_empty() {
        place.push(" in partition ");
        place.push_made(shown_key(alloc, key));
    }
    place.finish()
}

/// What is said of so many rows that tie, of which the first is there.
fn told_of(alloc: Global, count: usize, first: &str) -> Result<String, AllocError> {
    let mut told = Pieces::of(alloc, "ORDER BY doesn't tell all rows apart: ");
    told.push_count(count);
    told.push(noun(count, " row has", " rows have"));
    told.push(" the values of the row before, as ");
    told.push(first);
    told.push(noun(count, ", and stays", ", and stay"));
    told.push(" after it in the order of the input\n");
    told.finish()
}
