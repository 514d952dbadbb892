//! What a term is at the rows of a match.
ghost use Rattle.std.specs.Prelude.{◌≡◌, ◌+◌, ◌≤◌, length, IfSome};
ghost use Rattle.rp_eval.specs.Entered.{AreTotals};

use crate::seeking::Match;
use rp_eval::{AllRows, Cell, Rows, Totals, View, condition, measure};
use rp_query::{Condition, Expr, Query};
use rp_value::{Comparison, Value};
use rp_words::{Label, Seen};
use std::alloc::{AllocError, Global};

/// A row of a match at which a term isn't true.
#[derive(Drop)]
pub struct Failure {
    /// The row.
    pub row: u64,
    /// How many rows of the match it isn't true at.
    pub count: u64,
    /// The sides of the term, where it is a comparison.
    pub sides: Option<Sides>,
}

/// The sides of a comparison.
#[derive(Drop)]
pub struct Sides {
    /// The value of the left one.
    pub left: Value,
    /// How they are compared.
    pub comparison: Comparison,
    /// The value of the right one.
    pub right: Value,
}

/// Rows of a match that are entered one after another, with their totals.
#[derive(Drop)]
struct Entered<'a> {
    rows: &'a AllRows,
    first: u64,
    labels: Vec<Label>,
    totals: Totals,
    ghost from_one: { 1 ≤ first },
    ghost on_rows: { first + length labels.items ≤ length rows.now.rows.items + 1 },
    ghost entered: { AreTotals totals rows.now.rows.items first labels.items },
}

impl<'a> Entered<'a> {
    /// No row of a match that begins at one.
    fn none(
        alloc: Global,
        query: &Query,
        rows: &'a AllRows,
        first: u64,
    ) -> Result<Option<Entered<'a>>, AllocError> {
        if first == 0 || first > rows.last() {
            return Ok(None);
        }
        Ok(Some(Entered {
            rows,
            first,
            labels: Vec::new(alloc),
            totals: Totals::new(alloc, query)?,
        }))
    }

    /// One row more, with this label. None where there is no such row.
    fn enter(self, label: Label) -> Result<Option<Entered<'a>>, AllocError> {
        let Some(row) = next_row(self.first, self.labels.len()) else {
            return Ok(None);
        };
        if row > self.rows.last() {
            return Ok(None);
        }
        let mut labels = self.labels;
        let mut totals = self.totals;
        labels.push(label)?;
        totals.enter(self.rows, self.first, labels.as_slice())?;
        Ok(Some(Entered {
            rows: self.rows,
            first: self.first,
            labels,
            totals,
        }))
    }

    /// The last row, which is looked from.
    fn last(&self) -> u64
        ensures { self.now.first ≤ result }
    {
        let before = (self.labels.len() as u64).saturating_sub(1);
        self.first.saturating_add(before)
    }

    /// What a condition says of the last row.
    fn says(&self, defined: &Condition) -> Seen {
        let view = View {
            rows: self.rows,
            start: self.first,
            labels: self.labels.as_slice(),
            current: self.last(),
            number: 0,
            totals: &self.totals,
        };
        condition(defined, &view)
    }

    /// The value of an expression at the last row. Where all rows have come none is open.
    fn value(&self, expr: &Expr) -> Result<Value, AllocError> {
        let view = View {
            rows: self.rows,
            start: self.first,
            labels: self.labels.as_slice(),
            current: self.last(),
            number: 0,
            totals: &self.totals,
        };
        match measure(expr, &view)? {
            Cell::Ready(value) => Ok(value),
            Cell::Open => Ok(Value::Null),
        }
    }

    /// The sides of a condition that is a comparison, at the last row.
    fn sides(&self, defined: &Condition) -> Result<Option<Sides>, AllocError> {
        let Condition::Compare(comparison, left, right) = defined else {
            return Ok(None);
        };
        Ok(Some(Sides {
            left: self.value(left)?,
            comparison: *comparison,
            right: self.value(right)?,
        }))
    }
}

/// The row behind so many from one on.
fn next_row(first: u64, count: usize) -> Option<u64>
    ensures { IfSome result (λ row. row ≡ first + count) }
{
    first.checked_add(count as u64)
}

/// The first row of a match at which the condition of its variable isn't true, if that variable is one of these. The query is that of
/// a clause in which their conditions are the term alone.
pub(crate) fn failure_of(
    alloc: Global,
    query: &Query,
    rows: &AllRows,
    found: &Match,
    variables: &[usize],
) -> Result<Option<Failure>, AllocError> {
    let mut failure = None;
    if let Some(none) = Entered::none(alloc, query, rows, found.first)? {
        let labels = found.labels.as_slice();
        enter_all(none, query, labels, variables, &mut failure)?;
    }
    Ok(failure)
}

/// Enters rows with these labels, as many as there are, and notes at which of them the condition of a label isn't true.
fn enter_all(
    none: Entered<'_>,
    query: &Query,
    labels: &[Label],
    variables: &[usize],
    failure: &mut Option<Failure>,
) -> Result<(), AllocError> {
    let mut before = none;
    for label in labels {
        let Some(entered) = before.enter(*label)? else {
            return Ok(());
        };
        note_last(&entered, asked(query, label, variables), failure)?;
        before = entered;
    }
    Ok(())
}

/// Notes a failure at the last row, where this condition isn't true of it.
fn note_last(
    entered: &Entered<'_>,
    asked: Option<&Condition>,
    failure: &mut Option<Failure>,
) -> Result<(), AllocError> {
    let Some(defined) = asked else {
        return Ok(());
    };
    if entered.says(defined) == Seen::True {
        return Ok(());
    }
    match failure {
        Some(earlier) => earlier.count = earlier.count.saturating_add(1),
        None => {
            *failure = Some(Failure {
                row: entered.last(),
                count: 1,
                sides: entered.sides(defined)?,
            });
        }
    }
    Ok(())
}

/// The condition of a label's variable, if that is one of these.
fn asked<'a>(query: &'a Query, label: &Label, variables: &[usize]) -> Option<&'a Condition> {
    if !variables.contains(&label.var) {
        return None;
    }
    query.definition(label.var)
}
