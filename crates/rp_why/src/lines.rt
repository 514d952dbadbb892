//! What is found of a partition, in lines for people.

use crate::empty::may_be_empty;
use crate::reached::Reached;
use crate::reasons::{Finding, Reasons};
use crate::seeking::Match;
use crate::sides::Failure;
use crate::way::{Demand, Way};
use rp_query::Query;
use rp_value::{Comparison, Value};
use rp_wording::Pieces;
use rp_words::Label;
use std::alloc::{AllocError, Global};

/// Of so many runs of rows at most it is said which variable has them.
const MOST_RUNS: usize = 10;

/// What is found of a partition of so many rows, whose key is given as it is shown, in lines for people. Each line ends in LF. Where the
/// searches took more turns than these, that is said with their number.
pub fn told(
    alloc: Global,
    query: &Query,
    key: &str,
    rows: u64,
    most_turns: u32,
    finding: &Finding,
) -> Result<String, AllocError> {
    let mut out = Pieces::filled(alloc, "partition {}, ", &[key]);
    out.push_number(rows);
    out.push(if rows == 1 { " row: " } else { " rows: " });
    push_found(&mut out, query, most_turns, finding);
    out.finish()
}

/// Writes what is found of a partition.
fn push_found(out: &mut Pieces, query: &Query, most_turns: u32, finding: &Finding) {
    match finding {
        Finding::Matched(found) => {
            out.push("a match, ");
            push_runs(out, query, found);
            out.push("\n");
        }
        Finding::NoRow(row) => {
            out.push("there is no row ");
            out.push_number(*row);
            out.push("\n");
        }
        Finding::GivenUp => {
            out.push("its searches take ");
            push_more_turns(out, most_turns);
        }
        Finding::Unmatched(reasons) => push_reasons(out, query, most_turns, reasons),
    }
}

/// Writes that these turns don't suffice, and what to do.
fn push_more_turns(out: &mut Pieces, most_turns: u32) {
    out.push("more turns than --most-turns, which is ");
    out.push_number(u64::from(most_turns));
    out.push(": give more, or ask about one row with --row\n");
}

/// Writes why there is no match.
fn push_reasons(out: &mut Pieces, query: &Query, most_turns: u32, reasons: &Reasons) {
    out.push("no match");
    if may_be_empty(query.pattern().form()) {
        out.push(" with a row");
    }
    out.push("\n");
    if let Some(reached) = &reasons.reached {
        push_reached(out, query, reached);
    }
    for way in reasons.ways.as_slice() {
        push_way(out, way);
    }
    if reasons.ways.is_empty() {
        out.push(
            "  no demand alone is in the way: without each of them there is no match either\n",
        );
    }
    if reasons.untried > 0 {
        out.push("  not tried to the end: ");
        out.push_number(reasons.untried);
        out.push(", whose searches take ");
        push_more_turns(out, most_turns);
    }
}

/// Writes how far the searches come.
fn push_reached(out: &mut Pieces, query: &Query, reached: &Reached) {
    out.push_filled("  found {} (", &[reached.written.as_str()]);
    push_runs(out, query, &reached.found);
    out.push_filled(") and no {} after it: ", &[reached.wanted.as_str()]);
    out.push_number(reached.parts);
    out.push(" of ");
    out.push_number(reached.of);
    out.push(" parts\n");
}

/// Writes which variable has which rows of a match.
fn push_runs(out: &mut Pieces, query: &Query, found: &Match) {
    let labels = found.labels.as_slice();
    let mut from: usize = 0;
    for run in 0..labels.len() {
        if from >= labels.len() {
            return;
        }
        if run > 0 {
            out.push(", ");
        }
        if run >= MOST_RUNS {
            return out.push("..");
        }
        let length = run_length(labels.get(from..).unwrap_or(&[])).max(1);
        push_run(out, query, found, from, length);
        from = from.saturating_add(length);
    }
}

/// How many labels from the first on are of its variable.
fn run_length(labels: &[Label]) -> usize {
    let Some(first) = labels.first() else {
        return 0;
    };
    let mut length: usize = 0;
    for label in labels {
        if label.var != first.var {
            break;
        }
        length = length.saturating_add(1);
    }
    length
}

/// Writes a variable and its rows, so many from one on.
fn push_run(out: &mut Pieces, query: &Query, found: &Match, from: usize, length: usize) {
    let variable = match found.labels.as_slice().get(from) {
        Some(label) => query.variables().get(label.var),
        None => None,
    };
    if let Some(name) = variable {
        out.push(name.as_str());
    }
    let first = found.first.saturating_add(from as u64);
    out.push(" in ");
    push_rows(
        out,
        first,
        first.saturating_add(length as u64).saturating_sub(1),
    );
}

/// Writes rows by their numbers.
fn push_rows(out: &mut Pieces, first: u64, last: u64) {
    out.push(if first == last { "row " } else { "rows " });
    out.push_number(first);
    if first != last {
        out.push(" to ");
        out.push_number(last);
    }
}

/// Writes a demand without which there is a match.
fn push_way(out: &mut Pieces, way: &Way) {
    push_demand(out, &way.demand);
    out.push(" it matches, ");
    push_rows(out, way.first, way.last);
    if let Demand::Term(term) = &way.demand {
        if let Some(failure) = &term.failure {
            push_failure(out, failure);
        }
    }
    out.push("\n");
}

/// Writes what is left out or written anew.
fn push_demand(out: &mut Pieces, demand: &Demand) {
    match demand {
        Demand::Term(term) => {
            let values = [term.written.as_str(), term.variables.as_str()];
            out.push_filled("  without `{}` of {}", &values);
        }
        Demand::LowerBound(bound) => {
            let values = [
                bound.instead.as_str(),
                bound.written.as_str(),
                bound.part.as_str(),
            ];
            out.push_filled("  with {} in place of {} of {}", &values);
        }
        Demand::Anchor(anchor) => out.push_filled("  without {} in PATTERN", &[anchor.as_str()]),
        Demand::RowBetween(row) => {
            out.push("  without row ");
            out.push_number(*row);
        }
    }
}

/// Writes where a term isn't true, and its sides there.
fn push_failure(out: &mut Pieces, failure: &Failure) {
    out.push("; at row ");
    out.push_number(failure.row);
    match &failure.sides {
        None => out.push(" it isn't true"),
        Some(sides) => {
            out.push(" that is ");
            push_value(out, &sides.left);
            out.push_filled(" {} ", &[sign_of(sides.comparison)]);
            push_value(out, &sides.right);
        }
    }
    match failure.count.saturating_sub(1) {
        0 => {}
        1 => out.push(", and it isn't true at one more row"),
        others => {
            out.push(", and it isn't true at ");
            out.push_number(others);
            out.push(" more rows");
        }
    }
}

/// Writes a value as in a clause.
pub(crate) fn push_value(out: &mut Pieces, value: &Value) {
    match value {
        Value::Int(number) => push_integer(out, *number),
        Value::Null => out.push("NULL"),
        Value::Text(text) => {
            out.push("'");
            for (index, piece) in text.as_str().split('\'').enumerate() {
                if index > 0 {
                    out.push("''");
                }
                out.push(piece);
            }
            out.push("'");
        }
    }
}

/// Writes a whole number.
fn push_integer(out: &mut Pieces, number: i64) {
    if number < 0 {
        out.push("-");
    }
    out.push_number(number.unsigned_abs());
}

/// The sign of a comparison.
pub(crate) fn sign_of(comparison: Comparison) -> &'static str {
    match comparison {
        Comparison::Equal => "=",
        Comparison::NotEqual => "<>",
        Comparison::Less => "<",
        Comparison::LessOrEqual => "<=",
        Comparison::Greater => ">",
        Comparison::GreaterOrEqual => ">=",
    }
}
