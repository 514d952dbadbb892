//! A condition, and the rows that meet it.
ghost use Rattle.std.specs.Prelude.{◌≡◌, ◌≤◌, ◌∷◌, ◌++◌, [], IfOk, OnOk, cond, length};
ghost use Rattle.std.specs.List.{filter};
ghost use Rattle.rp_words.specs.declared.word.End.TheVariants.{Closed};
ghost use Rattle.rp_query.specs.QueryView.{totals_in};
ghost use Rattle.rp_eval.specs.Entered.{AreTotals, plan_of};
ghost use Rattle.rp_filter.specs.Meets.{meets, only_label, was_true};

use rp_eval::{AllRows, Totals, View, condition};
use rp_query::Query;
use rp_value::Row;
use rp_words::{End, Label, Seen};
use std::alloc::{AllocError, Global};

/// A condition of a row.
#[derive(Drop)]
pub struct Filter {
    /// The condition as that of a pattern's only variable.
    pub(crate) query: Query,
}

/// The label of the only row of a match.
const ONLY_LABEL: Label = Label {
    var: 0,
    excluded: false,
};

impl Filter {
    /// The rows that meet the condition, in their order.
    pub fn keep(&self, alloc: Global, rows: Vec<Row>) -> Result<Vec<Row>, AllocError>
        ensures { IfOk result (λ kept. kept.items ≡ filter (meets self.now.query) rows.items) }
    {
        let mut kept = Vec::new(alloc);
        for row in rows {
            let met = self.is_met(alloc, &row)?;
            keep_if(&mut kept, row, met)?;
        }
        Ok(kept)
    }

    /// Whether a row meets the condition.
    fn is_met(&self, alloc: Global, row: &Row) -> Result<bool, AllocError>
        ensures { IfOk result (λ met. met ≡ meets self.now.query row.now) }
    {
        let Some(defined) = self.query.definition(0) else {
            return Ok(true);
        };
        let rows = alone(alloc, row)?;
        let labels = [ONLY_LABEL];
        let totals = totals_of(alloc, &self.query, &rows, &labels)?;
        let view = View {
            rows: &rows,
            start: 1,
            labels: &labels,
            current: 1,
            number: 0,
            totals: &totals,
        };
        Ok(was_true(condition(defined, &view)))
    }
}

/// Adds a row that meets the condition.
fn keep_if(kept: &mut Vec<Row>, row: Row, met: bool) -> Result<(), AllocError>
    ensures { OnOk result (kept.new.items ≡ kept.old.items ++ cond met (row ∷ []) []) }
{
    if !met {
        return Ok(());
    }
    match kept.push(row) {
        Ok(()) => Ok(()),
        Err(_) => Err(AllocError),
    }
}

/// A partition of this row alone.
fn alone(alloc: Global, row: &Row) -> Result<AllRows, AllocError>
    ensures rows { IfOk result (λ all. all.rows.items ≡ row.now ∷ []) }
    ensures end { IfOk result (λ all. all.end ≡ Closed) }
{
    let mut rows = Vec::new(alloc);
    rows.push(row.share()?)?;
    Ok(AllRows {
        rows,
        end: End::Closed,
    })
}

/// The totals of the only row.
fn totals_of(
    alloc: Global,
    query: &Query,
    rows: &AllRows,
    labels: &[Label],
) -> Result<Totals, AllocError>
    requires only { labels.now ≡ only_label ∷ [] }
    requires some { 1 ≤ length rows.now.rows.items }
    ensures plan { IfOk result (λ totals. plan_of totals ≡ totals_in query.now) }
    ensures entered { IfOk result (λ totals. AreTotals totals rows.now.rows.items 1 labels.now) }
{
    let mut totals = Totals::new(alloc, query)?;
    totals.enter(rows, 1, labels)?;
    Ok(totals)
}

/// Whether a condition was true.
fn was_true(seen: Seen) -> bool
    ensures { result ≡ was_true seen }
{
    match seen {
        Seen::True => true,
        _ => false,
    }
}
