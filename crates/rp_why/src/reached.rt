//! How far the searches come.

use crate::case::Case;
use crate::parts::parts_of;
use crate::seeking::{Match, Sought};
use crate::tokens::Range;
use std::alloc::AllocError;

/// How far searches come: the most parts of the pattern that are found one after another.
pub struct Reached {
    /// The first match of these parts.
    pub found: Match,
    /// How many parts these are.
    pub parts: u64,
    /// How many the pattern has.
    pub of: u64,
    /// These parts as they are written.
    pub written: String,
    /// The next part as it is written.
    pub wanted: String,
}

/// It is let go of by a call, wherever it is held.
impl Drop for Reached {
    fn drop(self) {
        let Reached {
            found: _,
            parts: _,
            of: _,
            written: _,
            wanted: _,
        } = self;
    }
}

/// What comes behind the parts that are looked for, so that a match has them alone: the rest of the pattern after the end of the
/// partition, before its start.
const NEVER: &str = " | $ ^ ";

/// How far the searches come, where some parts are found with rows.
pub(crate) fn how_far(case: &Case<'_>) -> Result<Option<Reached>, AllocError> {
    let parts = parts_of(case.alloc, &case.tokens)?;
    most_found(case, parts.as_slice())
}

/// The most of these parts that are found, if not all of them need be.
fn most_found(case: &Case<'_>, parts: &[Range]) -> Result<Option<Reached>, AllocError> {
    for left_out in 1..parts.len() {
        let count = parts.len().saturating_sub(left_out);
        if let Sought::Found(found) = answer_by(case, parts, count)? {
            return reached_by(case, parts, count, found);
        }
    }
    Ok(None)
}

/// What is found by so many parts.
fn answer_by(case: &Case<'_>, parts: &[Range], count: usize) -> Result<Sought, AllocError> {
    let mut clause = case.edited();
    if let Some(last) = parts.get(count.saturating_sub(1)) {
        clause.insert_behind(*last, NEVER);
    }
    case.answer(clause)
}

/// What is said of so many parts that are found.
fn reached_by(
    case: &Case<'_>,
    parts: &[Range],
    count: usize,
    found: Match,
) -> Result<Option<Reached>, AllocError> {
    let (Some(first), Some(next)) = (parts.first(), parts.get(count)) else {
        return Ok(None);
    };
    let before = Range {
        from: first.from,
        to: next.from,
    };
    Ok(Some(Reached {
        found,
        parts: count as u64,
        of: parts.len() as u64,
        written: case.written(before)?,
        wanted: case.written(*next)?,
    }))
}
