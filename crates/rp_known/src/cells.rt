//! The cells of an item.
ghost use Rattle.std.specs.Prelude.{◌≡◌, ◌++◌, Some, None, option_map, option_copied, IfOk, OnOk, if◌then◌else◌};
ghost use Rattle.rp_eval.specs.Looks.{setting_of, Looks};
ghost use Rattle.rp_eval.specs.Partition.{cell};
ghost use Rattle.rp_known.specs.Plans.{cells_alone, cells_in, measured, shown_alone, shown_in};

use rp_eval::{Cell, Rows, View, measure};
use rp_query::{Expr, OutputColumn, Query, Source};
use rp_value::Value;
use std::alloc::AllocError;

/// The value in a column of a row.
fn cell<R: Rows>(rows: &R, row: u64, column: usize) -> Result<Value, AllocError>
    ensures { IfOk result (λ value. value ≡ cell (R.known rows.now) column row) }
{
    match rows.row(row) {
        None => Ok(Value::Null),
        Some(cells) => match cells.cell(column) {
            None => Ok(Value::Null),
            Some(value) => value.share(),
        },
    }
}

/// What an output column has at a row that is in no match.
fn shown_alone<R: Rows>(rows: &R, row: u64, from: Source) -> Result<Value, AllocError>
    ensures { IfOk result (λ value. value ≡ shown_alone (R.known rows.now) row from) }
{
    match from {
        Source::Column(column) => cell(rows, row, column),
        Source::Measure(_) => Ok(Value::Null),
    }
}

/// Adds the cells of these output columns at a row that is in no match.
pub(crate) fn add_alone<R: Rows>(
    cells: &mut Vec<Value>,
    columns: &[OutputColumn],
    rows: &R,
    row: u64,
) -> Result<(), AllocError>
    ensures { OnOk result (cells.new.items ≡ cells.old.items ++ cells_alone (R.known rows.now) row columns.now) }
{
    for column in columns {
        cells.push(shown_alone(rows, row, column.from)?)?;
    }
    Ok(())
}

/// The value of a measure at the row that is looked at.
fn measured<'a, R: Rows>(expr: Option<&'a Expr>, view: &View<'a, R>) -> Result<Cell, AllocError>
    requires { Looks R.known view.now }
    ensures { IfOk result (λ cell.
        cell ≡ measured (setting_of R.known R.ending view.now) (option_copied expr.entry)) }
{
    match expr {
        Some(expr) => measure(expr, view),
        None => Ok(Cell::Ready(Value::Null)),
    }
}

/// What an output column has at the row of a match that is looked at.
fn shown_in<'a, R: Rows>(
    query: &'a Query,
    view: &View<'a, R>,
    from: Source,
) -> Result<Cell, AllocError>
    requires { Looks R.known view.now }
    ensures { IfOk result (λ cell.
        cell ≡ shown_in query.now (setting_of R.known R.ending view.now) from) }
{
    match from {
        Source::Column(column) => Ok(Cell::Ready(cell(view.rows, view.current, column)?)),
        Source::Measure(place) => { measured(query.plan().measures.as_slice().get(place), view) }
    }
}

/// Adds the cells of these output columns at the row of a match that is looked at, and tells whether they are all ready.
pub(crate) fn add_shown<'a, R: Rows>(
    cells: &mut Vec<Value>,
    query: &'a Query,
    columns: &[OutputColumn],
    view: &View<'a, R>,
) -> Result<bool, AllocError>
    requires { Looks R.known view.now }
    ensures { IfOk result (λ ready.
        option_map (λ vs. cells.old.items ++ vs)
        (cells_in query.now (setting_of R.known R.ending view.now) columns.now)
        ≡ (if ready then Some cells.new.items else None)) }
{
    for column in columns {
        match shown_in(query, view, column.from)? {
            Cell::Open => return Ok(false),
            Cell::Ready(value) => cells.push(value)?,
        }
    }
    Ok(true)
}
