//! Rows of one number, labels, and the totals of a query.
ghost use Rattle.std.specs.Prelude.{◌≡◌, ◌≤◌, IfOk, length};
ghost use Rattle.rp_eval.specs.Entered.{AreTotals};
ghost use Rattle.rp_eval.specs.Looks.{Looks};

use crate::support::{holds, row_of};
use rp_eval::{AllRows, Cell, Rows, Totals, View, measure};
use rp_query::{Expr, Query};
use rp_value::Value;
use rp_words::{End, Label};
use std::alloc::{AllocError, AllocFailed, Global};
use std::process::Abort;
use std::test::Fail;

/// So many rows of one number, in a query's only column. They share their cells.
pub fn rows_of(alloc: Global, query: &Query, number: i64, count: usize) -> Result<AllRows, Fail> {
    let row = row_of(alloc, query.table(), number)?;
    let mut rows = Vec::new(alloc);
    for _row in 0..count {
        rows.push(row.share()?)?;
    }
    let end = End::Open;
    Ok(AllRows { rows, end })
}

/// Adds so many labels of a variable.
pub fn push_labels(
    labels: &mut Vec<Label>,
    var: usize,
    count: usize,
) -> Result<(), AllocFailed<Label>> {
    for _label in 0..count {
        labels.push(Label {
            var,
            excluded: false,
        })?;
    }
    Ok(())
}

/// The totals of these labels from row 1 on, by a query's plan. They are entered one by one.
pub fn totals_of<R: Rows>(
    alloc: Global,
    query: &Query,
    rows: &R,
    labels: &[Label],
) -> Result<Totals, AllocError>
    requires { length labels.now ≤ length (R.known rows.now) }
    ensures { IfOk result (λ totals. AreTotals totals (R.known rows.now) 1 labels.now) }
{
    let mut totals = Totals::of_plan(alloc, query.totals())?;
    for depth in 0..labels.len() {
        totals.enter(rows, 1, &labels[..depth + 1])?;
    }
    Ok(totals)
}

/// Asserts that a measure is this number at the current row.
pub fn is_number<'a, R: Rows>(
    rt: &impl Abort,
    expr: &'a Expr,
    view: &View<'a, R>,
    wanted: i64,
) -> Result<(), AllocError>
    requires { Looks R.known view.now }
{
    match measure(expr, view)? {
        Cell::Ready(value) => holds(rt, value == Value::Int(wanted)),
        _ => holds(rt, false),
    }
    Ok(())
}
