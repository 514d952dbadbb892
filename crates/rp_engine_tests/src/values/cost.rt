//! How many rows are asked for.
ghost use Rattle.std.specs.Prelude.{◌≡◌, ◌≤◌, length};
ghost use Rattle.rp_eval.specs.Entered.{AreTotals};

use super::plans::{is_number, push_labels, rows_of, totals_of};
use crate::support::{holds, query_of};
use rp_eval::{AllRows, Rows, Totals, View, condition};
use rp_query::Query;
use rp_value::Row;
use rp_words::{End, Label, Seen};
use std::alloc::Global;
use std::process::Abort;
use std::test::Fail;

/// Rows, and a count of the calls that asked for one.
#[derive(Drop)]
struct Counted {
    rows: AllRows,
    asked: std::cell::Cell<u64>,
}

impl Counted {
    fn new(rows: AllRows) -> Counted
        ensures { result.rows ≡ rows }
    {
        Counted {
            rows,
            asked: std::cell::Cell::new(0),
        }
    }
}

impl Rows for Counted {
    ghost use Rattle.rp_eval.specs.Dropped.{none_below_one};

    ghost known = { λ c. c.rows.rows.items };

    ghost lowest = { λ _. 1 };

    ghost ending = { λ c. c.rows.end };

    fn row(&self, number: u64) -> Option<&Row> {
        self.asked.set(self.asked.get().saturating_add(1));
        self.rows.row(number)
    }

    fn first(&self) -> u64 {
        self.rows.first()
    }

    fn last(&self) -> u64 {
        self.rows.last()
    }

    fn end(&self) -> End {
        self.rows.end()
    }

    ghost few = { λ c. c.rows.few };

    ghost dropped = { λ c row column low. none_below_one c.rows.rows.items row column low };
}

/// At each row of a match of ones, a sum of them is at hand.
fn ones_are_summed(
    rt: &impl Abort,
    query: &Query,
    rows: &Counted,
    labels: &[Label],
    totals: &Totals,
) -> Result<(), Fail>
    requires on_rows { length labels.now ≤ length rows.now.rows.rows.items }
    requires totals { AreTotals totals.now rows.now.rows.rows.items 1 labels.now }
{
    let at_most_10 = query.plan().conditions.first().ok_or("a condition")?;
    let sum = query.plan().measures.first().ok_or("a measure")?;
    let mut wanted = 0_i64;
    for current in 1..1001 {
        let view = View {
            rows,
            start: 1,
            labels,
            current,
            number: 1,
            totals,
        };
        let is_few = condition(at_most_10, &view) == Seen::True;
        holds(rt, is_few == (current <= 10));
        wanted = wanted.saturating_add(1);
        is_number(rt, sum, &view, wanted)?;
    }
    Ok(())
}

/// Asserts that sums over these rows of ones read no row.
fn no_row_is_read(
    rt: &impl Abort,
    alloc: Global,
    query: &Query,
    rows: &Counted,
    labels: &[Label],
) -> Result<(), Fail> {
    holds(rt, labels.len() == 1000);
    holds(rt, rows.last() == 1000);
    let totals = totals_of(alloc, query, rows, labels)?;
    rows.asked.set(0);
    ones_are_summed(rt, query, rows, labels, &totals)?;
    holds(rt, rows.asked.get() == 0);
    Ok(())
}

/// A sum of many rows is at hand without a row being read, at each row of the match.
#[test]
fn sum_reads_no_row(rt: HostRuntime) -> Result<(), Fail> {
    let alloc = rt.alloc();
    let text = "MEASURES SUM(p) AS s PATTERN (A+) DEFINE A AS SUM(A.p) <= 10";
    let query = query_of(alloc, "p int", text)?;
    let rows = Counted::new(rows_of(alloc, &query, 1, 1000)?);
    let mut labels = Vec::new(alloc);
    push_labels(&mut labels, 0, 1000)?;
    no_row_is_read(&rt, alloc, &query, &rows, &labels)
}

/// Asserts that the condition of the query, over these rows of fives, is one look.
fn one_row_is_read(
    rt: &impl Abort,
    alloc: Global,
    query: &Query,
    rows: &Counted,
    labels: &[Label],
) -> Result<(), Fail> {
    holds(rt, labels.len() == 1004);
    holds(rt, rows.last() == 1004);
    let totals = totals_of(alloc, query, rows, labels)?;
    let at_most_5 = query.plan().conditions.first().ok_or("a condition")?;
    let view = View {
        rows,
        start: 1,
        labels,
        current: 1004,
        number: 1,
        totals: &totals,
    };
    rows.asked.set(0);
    holds(rt, condition(at_most_5, &view) == Seen::True);
    holds(rt, rows.asked.get() == 1);
    Ok(())
}

/// `LAST(A.p, 3)` is one look, though the last row of A lies 1,000 rows back.
#[test]
fn last_reads_one_row(rt: HostRuntime) -> Result<(), Fail> {
    let alloc = rt.alloc();
    let query = query_of(
        alloc,
        "p int",
        "PATTERN (A+ B+) DEFINE B AS LAST(A.p, 3) <= 5",
    )?;
    let rows = Counted::new(rows_of(alloc, &query, 5, 1004)?);
    let mut labels = Vec::new(alloc);
    push_labels(&mut labels, 0, 4)?;
    push_labels(&mut labels, 1, 1000)?;
    one_row_is_read(&rt, alloc, &query, &rows, &labels)
}
