//! Items are made one at a time.
ghost use Rattle.std.specs.Prelude.{◌≡◌, ◌+◌, ◌-◌, ◌^◌, ◌≤◌, ◌<◌, length, IfOk, Some};
ghost use Rattle.rp_search.specs.Found.{Match, NoMatch};
ghost use Rattle.rp_eval.specs.Entered.{AreTotals, plan_of};
ghost use Rattle.rp_query.specs.QueryView.{totals_in};
ghost use Rattle.rp_known.specs.Items.{item_at};
ghost use Rattle.rp_known.specs.Known.{known_in};

use crate::cells::{add_alone, add_shown};
use crate::place::Place;
use rp_eval::{Rows, Totals, View};
use rp_query::{Item, Query};
use rp_value::Cells;
use rp_words::Label;
use std::alloc::{AllocError, Global};

/// The item of a row that is in no match.
pub fn unmatched_item<R: Rows>(
    alloc: Global,
    query: &Query,
    rows: &R,
    place: Place,
    row: u64,
) -> Result<Item, AllocError>
    ensures { IfOk result (λ item.
        item_at query.now (known_in R.known R.ending rows.now) place NoMatch row ≡ Some item) }
{
    let mut cells = Vec::with_capacity(alloc, query.output().len())?;
    add_alone(&mut cells, query.output(), rows, row)?;
    Ok(Item::Row {
        number: None,
        cells: Cells::new(cells),
    })
}

/// The item at a row of a match with these labels. None where a measure is open.
pub fn match_item<R: Rows>(
    alloc: Global,
    query: &Query,
    rows: &R,
    totals: &Totals,
    place: Place,
    labels: &[Label],
    row: u64,
) -> Result<Option<Item>, AllocError>
    requires from_one { 1 ≤ place.start }
    requires on_rows { place.start + length labels.now ≤ length (R.known rows.now) + 1 }
    requires current { place.start ≤ row }
    requires few { place.matches < 2 ^ 64 - 1 }
    requires plan { plan_of totals.now ≡ totals_in query.now }
    requires totals { AreTotals totals.now (R.known rows.now) place.start labels.now }
    ensures { IfOk result (λ item.
        item ≡ item_at query.now (known_in R.known R.ending rows.now) place (Match labels.now) row) }
{
    let number = place.matches + 1;
    let view = View {
        rows,
        start: place.start,
        labels,
        current: row,
        number,
        totals,
    };
    let mut cells = Vec::with_capacity(alloc, query.output().len())?;
    if !add_shown(&mut cells, query, query.output(), &view)? {
        return Ok(None);
    }
    Ok(Some(Item::Row {
        number: Some(number),
        cells: Cells::new(cells),
    }))
}
