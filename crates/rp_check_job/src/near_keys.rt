//! What `check` says of partitions whose keys differ by capitals or blanks alone.

use indexmap::IndexMap;
use rp_job::shown_key;
use rp_numbering::Part;
use rp_value::{Cells, Text, Value};
use rp_wording::{Pieces, noun};
use std::alloc::{AllocError, Global};
use std::collections::hash_map::RandomState;

/// What is said of the first two partitions whose keys are the same but for capitals (A to Z) and for blanks at the ends of their texts, and
/// how many more are so. Rows of one of them may be meant for the other.
pub(crate) fn near_keys_told(
    alloc: Global,
    parts: &[Part],
    hasher: RandomState,
) -> Result<String, AllocError> {
    let mut told = Pieces::new(alloc);
    let mut folded = IndexMap::with_hasher(alloc, hasher);
    let mut more = 0usize;
    for (index, part) in parts.iter().enumerate() {
        let key = folded_key(alloc, part.key.as_slice())?;
        match folded.get(&key).copied() {
            None => add(&mut folded, key, index)?,
            Some(_) if !told.is_empty() => more = more.saturating_add(1),
            Some(first) => push_two(alloc, &mut told, parts, first, &part.key),
        }
    }
    push_more(&mut told, more);
    told.finish()
}

/// Adds the index of the first partition of a folded key.
fn add(
    folded: &mut IndexMap<Cells, usize, RandomState>,
    key: Cells,
    index: usize,
) -> Result<(), AllocError> {
    match folded.insert(key, index) {
        Ok(_) => Ok(()),
        Err(_) => Err(AllocError),
    }
}

/// A key with small letters, and without blanks at the ends of its texts.
fn folded_key(alloc: Global, key: &[Value]) -> Result<Cells, AllocError> {
    let mut values = Vec::with_capacity(alloc, key.len())?;
    for value in key {
        values.push(folded_value(alloc, value)?)?;
    }
    Ok(Cells::new(values))
}

fn folded_value(alloc: Global, value: &Value) -> Result<Value, AllocError> {
    let Value::Text(text) = value else {
        return value.share();
    };
    let mut folded = String::from_str(alloc, text.as_str().trim())?;
    folded.make_ascii_lowercase();
    Ok(Value::Text(Text::new(alloc, folded)?))
}

/// Adds the keys of two partitions, of which the first has this index.
fn push_two(alloc: Global, told: &mut Pieces, parts: &[Part], first: usize, other: &Cells) {
    if let Some(one) = parts.get(first) {
        told.push_made(shown_key(alloc, &one.key));
        told.push(" and ");
        told.push_made(shown_key(alloc, other));
        told.push(" are two partitions, since capitals and blanks count");
    }
}

/// Adds how many keys more are so, and ends the line, if there is one.
fn push_more(told: &mut Pieces, more: usize) {
    if told.is_empty() {
        return;
    }
    if more > 0 {
        told.push("; ");
        told.push_count(more);
        told.push(noun(more, " more key differs", " more keys differ"));
        told.push(" so from an earlier one");
    }
    told.push("\n");
}
