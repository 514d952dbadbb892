//! Long matches. What a row costs doesn't go up with their length, which `.ci/cost` shows.
ghost use Rattle.std.specs.Prelude.{◌≡◌, ◌≤◌, length};
ghost use Rattle.rp_eval.specs.Entered.{AreTotals};

use super::plans::{is_number, push_labels, rows_of, totals_of};
use crate::support::{holds, query_of};
use rp_eval::{AllRows, Rows, Totals, View, condition};
use rp_query::Query;
use rp_words::{Label, Seen};
use std::alloc::Global;
use std::process::Abort;
use std::test::Fail;

/// At each row `FIRST(A.p, 2) = LAST(A.p, 3)` is true from the fourth row on, and `SUM(p)` is 7 more than before.
fn sevens_are_summed(
    rt: &impl Abort,
    query: &Query,
    rows: &AllRows,
    labels: &[Label],
    totals: &Totals,
) -> Result<(), Fail>
    requires on_rows { length labels.now ≤ length rows.now.rows.items }
    requires totals { AreTotals totals.now rows.now.rows.items 1 labels.now }
{
    let is_same = query.plan().conditions.first().ok_or("a condition")?;
    let sum = query.plan().measures.first().ok_or("a measure")?;
    let mut wanted = 0_i64;
    for current in 1..rows.last() + 1 {
        let view = View {
            rows,
            start: 1,
            labels,
            current,
            number: 1,
            totals,
        };
        let is_true = condition(is_same, &view) == Seen::True;
        holds(rt, is_true == (current >= 4));
        wanted = wanted.saturating_add(7);
        is_number(rt, sum, &view, wanted)?;
    }
    Ok(())
}

/// Each label of a match of sevens is entered.
fn match_of(rt: &impl Abort, alloc: Global, count: usize) -> Result<(), Fail> {
    let text = "MEASURES SUM(p) AS s PATTERN (A+) DEFINE A AS FIRST(A.p, 2) = LAST(A.p, 3)";
    let query = query_of(alloc, "p int", text)?;
    let rows = rows_of(alloc, &query, 7, count)?;
    let mut labels = Vec::new(alloc);
    push_labels(&mut labels, 0, count)?;
    holds(rt, labels.len() == rows.rows.len());
    let totals = totals_of(alloc, &query, &rows, &labels)?;
    sevens_are_summed(rt, &query, &rows, &labels, &totals)
}

#[test]
fn match_of_1_000_rows(rt: HostRuntime) -> Result<(), Fail> {
    match_of(&rt, rt.alloc(), 1_000)
}

#[test]
fn match_of_10_000_rows(rt: HostRuntime) -> Result<(), Fail> {
    match_of(&rt, rt.alloc(), 10_000)
}

#[test]
fn match_of_100_000_rows(rt: HostRuntime) -> Result<(), Fail> {
    match_of(&rt, rt.alloc(), 100_000)
}
