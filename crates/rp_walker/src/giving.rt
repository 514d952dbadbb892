//! The items of a search that has ended.
ghost use Rattle.std.specs.Prelude.{◌≡◌, ℕ, suc, ◌+◌, ◌^◌, ◌≤◌, ◌<◌, ◌-◌, IfOk, slice_get, length, max};
ghost use Rattle.rp_search.specs.Found.{Match};
ghost use Rattle.rp_search.specs.Search.{labels_of_search};
ghost use Rattle.rp_known.specs.Known.{known_in, count};
ghost use Rattle.rp_known.specs.Items.{item_at, item_rows};
ghost use Rattle.rp_known.specs.Walk.{after_found, last_row};
ghost use Rattle.rp_known.specs.WalkLaws.{AreKnown};
ghost use Rattle.rp_walker.specs.Given.{IsShort, is_hidden, is_excluded, result_of};
ghost use Rattle.rp_walker.specs.Nexts.{leg_by};
ghost use Rattle.rp_walker.specs.Records.{place_of};
ghost use Rattle.rp_walker.specs.Stages.{rows_ahead, MatchTotalled};

use crate::ahead::Ahead;
use crate::record::MatcherState;
use crate::stage::Ended;
use rp_eval::Rows;
use rp_known::{Place, match_item, next_start, unmatched_item};
use rp_query::{Item, Query, RowsPerMatch, SkipFault};
use rp_search::Search;
use rp_words::Label;
use std::alloc::{AllocError, Global};

/// Where the walk stands.
#[inline(always)]
pub(crate) fn place_of(state: &MatcherState) -> Place
    ensures { result ≡ place_of state.now }
{
    Place {
        start: state.at,
        matches: state.matches,
        covered: state.covered,
    }
}

/// Whether a row is one that isn't shown.
#[inline(always)]
pub(crate) fn is_hidden(query: &Query, start: u64, found: &Ended, row: u64) -> bool
    requires { start ≤ row }
    ensures { result ≡ is_hidden query.now.plan.rows start (result_of found.now) row }
{
    if query.plan().rows == RowsPerMatch::One {
        return false;
    }
    match found {
        Ended::NoMatch(_) => false,
        Ended::Match(run) => is_excluded(&run.search, (row - start) as usize),
    }
}

/// Whether a label of the match is excluded.
fn is_excluded(search: &Search, place: usize) -> bool
    ensures { result ≡ is_excluded (slice_get (labels_of_search search.now) place) }
{
    match search.labels().get(place) {
        None => false,
        Some(label) => label.excluded,
    }
}

/// The item at a row, or none where one of its measures is open.
pub(crate) fn make_item<R: Rows>(
    alloc: Global,
    query: &Query,
    rows: &R,
    place: Place,
    found: &Ended,
    row: u64,
) -> Result<Option<Item>, AllocError>
    requires one { 1 ≤ place.start }
    requires few { place.matches < 2 ^ 64 - 1 }
    requires low { place.start ≤ row }
    requires in_rows { AreKnown place.start (length (R.known rows.now)) (result_of found.now) }
    requires totals { MatchTotalled query.now (known_in R.known R.ending rows.now) place.start found.now }
    ensures { IfOk result (λ item.
        item ≡ item_at query.now (known_in R.known R.ending rows.now) place (result_of found.now) row) }
{
    match found {
        Ended::NoMatch(_) => {
            let item = unmatched_item(alloc, query, rows, place, row)?;
            Ok(Some(item))
        }
        Ended::Match(run) => match_item(
            alloc,
            query,
            rows,
            &run.totals,
            place,
            run.search.labels(),
            row,
        ),
    }
}

/// The rows at which what was found is shown.
#[inline(always)]
pub(crate) fn ahead_of(query: &Query, place: Place, last: u64, found: &Ended) -> Ahead
    requires few { last < 2 ^ 64 - 1 }
    requires known { place.start ≤ last }
    requires in_rows { AreKnown place.start last (result_of found.now) }
    ensures seen { result.seen ≡ 0 }
    ensures low { place.start ≤ result.next }
    ensures ordered { result.next ≤ result.end }
    ensures high { result.end ≤ last + 1 }
    ensures short { IsShort found.now result }
    ensures rows { item_rows query.now.plan.rows place (result_of found.now)
        ≡ rows_ahead query.now place.start (result_of found.now) result }
{
    match found {
        Ended::NoMatch(_) => {
            if query.plan().rows == RowsPerMatch::AllWithUnmatched && place.covered < place.start {
                return rows_from(place.start, 1);
            }
            rows_from(place.start, 0)
        }
        Ended::Match(run) => ahead_in(query, place, run.search.labels()),
    }
}

/// The rows at which a match is shown, hidden ones too.
fn ahead_in(query: &Query, place: Place, labels: &[Label]) -> Ahead
    requires few { place.start + length labels.now < 2 ^ 64 }
    requires start { place.start < 2 ^ 64 - 1 }
    ensures seen { result.seen ≡ 0 }
    ensures low { place.start ≤ result.next }
    ensures ordered { result.next ≤ result.end }
    ensures high { result.end ≤ max (place.start + 1) (place.start + length labels.now) }
    ensures rows { item_rows query.now.plan.rows place (Match labels.now)
        ≡ rows_ahead query.now place.start (Match labels.now) result }
{
    let rows = labels.len() as u64;
    if rows == 0 {
        if query.plan().rows == RowsPerMatch::AllOmitEmpty {
            return rows_from(place.start, 0);
        }
        return rows_from(place.start, 1);
    }
    match query.plan().rows {
        RowsPerMatch::One => rows_from(place.start + (rows - 1), 1),
        _ => rows_from(place.start, rows),
    }
}

/// So many rows from one on.
#[inline(always)]
fn rows_from(next: u64, rows: u64) -> Ahead
    requires { next + rows < 2 ^ 64 }
    ensures { result ≡ record { next = next; end = next + rows; seen = 0 } }
{
    Ahead {
        next,
        end: next + rows,
        seen: 0,
    }
}

/// Where the walk goes on after a search that has ended.
#[inline(always)]
pub(crate) fn next_of(
    query: &Query,
    place: Place,
    last: u64,
    found: &Ended,
) -> Result<Place, SkipFault>
    requires few { last < 2 ^ 64 - 1 }
    requires known { place.start ≤ last }
    requires fewer { place.matches < place.start }
    requires in_rows { AreKnown place.start last (result_of found.now) }
    ensures { after_found query.now place (result_of found.now) ≡ leg_by result }
{
    match found {
        Ended::NoMatch(_) => Ok(Place {
            start: place.start + 1,
            matches: place.matches,
            covered: place.covered,
        }),
        Ended::Match(run) => after_match(query, place, run.search.labels()),
    }
}

/// Where it goes on after a match.
fn after_match(query: &Query, place: Place, labels: &[Label]) -> Result<Place, SkipFault>
    requires few { place.start + length labels.now < 2 ^ 64 }
    requires start { place.start < 2 ^ 64 - 1 }
    requires fewer { place.matches < place.start }
    ensures { after_found query.now place (Match labels.now) ≡ leg_by result }
{
    match next_start(&query.plan().skip, place.start, labels) {
        Err(fault) => Err(fault),
        Ok(start) => Ok(Place {
            start,
            matches: place.matches + 1,
            covered: place.covered.max(last_row(place.start, labels)),
        }),
    }
}

/// The last row of a match, 0 where it has none.
fn last_row(start: u64, labels: &[Label]) -> u64
    requires { start + length labels.now < 2 ^ 64 }
    ensures { result ≡ last_row start labels.now }
{
    if labels.is_empty() {
        return 0;
    }
    start + (labels.len() as u64 - 1)
}
