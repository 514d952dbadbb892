//! What `check` says of nulls by which rows are put into partitions and in order.

use rp_query::Query;
use rp_value::{Row, Value};
use rp_wording::{Pieces, noun};
use std::alloc::{AllocError, Global};

/// What is said of the rows that a clause sees where columns of PARTITION BY are null, which makes one key of them, and those of ORDER BY.
pub(crate) fn nulls_told(alloc: Global, query: &Query, rows: &[Row]) -> Result<String, AllocError> {
    let mut told = Pieces::new(alloc);
    for column in query.partition() {
        push_nulls(
            &mut told,
            query,
            rows,
            *column,
            ", and null is a key like any other\n",
        );
    }
    for by in query.order() {
        let place = if by.descending {
            ", which ORDER BY puts first\n"
        } else {
            ", which ORDER BY puts last\n"
        };
        push_nulls(&mut told, query, rows, by.column, place);
    }
    told.finish()
}

/// Adds in how many rows a column, by its number from 1, is null, if in any, and what that means.
fn push_nulls(told: &mut Pieces, query: &Query, rows: &[Row], number: usize, meaning: &str) {
    let count = rows
        .iter()
        .filter(|row| row.cell(number) == Some(&Value::Null))
        .count();
    let Some(column) = query.table().columns().get(number.saturating_sub(1)) else {
        return;
    };
    if count > 0 {
        told.push_name(column.name.as_str());
        told.push(" is null in ");
        told.push_count(count);
        told.push(noun(count, " row", " rows"));
        told.push(meaning);
    }
}
