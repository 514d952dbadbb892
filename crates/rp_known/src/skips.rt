//! Where the next search starts.
ghost use Rattle.std.specs.Prelude.{◌≡◌, ◌+◌, ◌-◌, ◌^◌, ◌≤◌, ◌<◌, length, IfSome};
ghost use Rattle.rp_query.specs.Scopes.{includes};
ghost use Rattle.rp_known.specs.Skips.{is_of, first_passing, last_passing, skipped, next_start};

use rp_query::{SkipFault, SkipTo, Variables};
use rp_words::Label;

/// The row at which the next search starts, after a match from the row `start` with these labels.
pub fn next_start(skip: &SkipTo, start: u64, labels: &[Label]) -> Result<u64, SkipFault>
    requires room { start < 2 ^ 64 - 1 }
    requires few { start + length labels.now < 2 ^ 64 }
    ensures { result ≡ next_start skip.now start labels.now }
{
    if labels.is_empty() {
        return Ok(start + 1);
    }
    match skipped(skip, labels) {
        None => Err(SkipFault::SkipNoRow),
        Some(rows) => {
            if rows == 0 {
                return Err(SkipFault::SkipSame);
            }
            Ok(start + rows as u64)
        }
    }
}

/// So many rows on from the match's first row, as the skip rule says.
fn skipped(skip: &SkipTo, labels: &[Label]) -> Option<usize>
    requires { 0 < length labels.now }
    ensures is { result ≡ skipped skip.now labels.now }
    ensures bound { IfSome result (λ rows. rows ≤ length labels.now) }
{
    match skip {
        SkipTo::NextRow => Some(1),
        SkipTo::PastLastRow => Some(labels.len()),
        SkipTo::First(variables) => first_place(variables, labels),
        SkipTo::Last(variables) => last_place(variables, labels),
    }
}

/// The place of the first label of one of the variables.
fn first_place(variables: &Variables, labels: &[Label]) -> Option<usize>
    ensures is { result ≡ first_passing (is_of variables.now) labels.now }
    ensures bound { IfSome result (λ place. place < length labels.now) }
{
    for (place, label) in labels.iter().enumerate() {
        if variables.includes(label.var) {
            return Some(place);
        }
    }
    None
}

/// The place of the last label of one of the variables.
fn last_place(variables: &Variables, labels: &[Label]) -> Option<usize>
    ensures is { result ≡ last_passing (is_of variables.now) labels.now }
    ensures bound { IfSome result (λ place. place < length labels.now) }
{
    let mut last = None;
    for (place, label) in labels.iter().enumerate() {
        if variables.includes(label.var) {
            last = Some(place);
        }
    }
    last
}
