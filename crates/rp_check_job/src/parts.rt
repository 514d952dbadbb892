//! What `check` says of the partitions of the rows that a clause sees.

use crate::near_keys::near_keys_told;
use crate::nulls::nulls_told;
use crate::ties::ties_told;
use rp_numbering::partitions;
use rp_query::Query;
use rp_value::Row;
use rp_wording::Pieces;
use std::alloc::{AllocError, Global};
use std::collections::hash_map::RandomState;

/// What is said of the keys of partitions, of the order of their rows, and of nulls among both. The hasher finds keys.
pub(crate) fn parts_told(
    alloc: Global,
    query: &Query,
    rows: Vec<Row>,
    hasher: RandomState,
) -> Result<String, AllocError> {
    if query.partition().is_empty() && query.order().is_empty() {
        return Ok(String::new(alloc));
    }
    let mut told = Pieces::new(alloc);
    told.push_made(nulls_told(alloc, query, rows.as_slice()));
    let parts = partitions(alloc, query, rows, hasher)?;
    told.push_made(near_keys_told(alloc, parts.as_slice(), hasher));
    told.push_made(ties_told(alloc, query, parts));
    told.finish()
}
