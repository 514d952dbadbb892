//! Rows with ascending numbers.
ghost use Rattle.std.specs.Prelude.{◌≡◌, ◌+◌, ◌<◌, ◌≤◌, drop, length, nat_lt, IfOk, option_copied, is_some};
ghost use Rattle.rp_feed.specs.Limits.{greatest_number};
ghost use Rattle.rp_feed.specs.Fed.{AreUpTo, AscendFrom, first_missing};
ghost use Rattle.rp_feed.specs.HeldRows.{above_all, below, entry_at, number_at, row_with};
ghost use Rattle.rp_feed.specs.Answers.{compared};

use rp_value::Row;
use std::alloc::{AllocError, Global};
use std::collections::VecDeque;

/// How many rows have a number below this one: its row is in that place, or has to be put there. Of the rows, `ready` follow
/// one another from `first` on, so that only behind these a number is looked for.
pub(crate) fn place_of(rows: &VecDeque<(u64, Row)>, first: u64, ready: usize, number: u64) -> usize
    requires ascend { AscendFrom first rows.now.items }
    requires run { first + ready ≡ first_missing first rows.now.items }
    requires kept { first ≤ number }
    ensures { result ≡ below number rows.now.items }
{
    let distance = number - first;
    if distance <= ready as u64 {
        return distance as usize;
    }
    place_between(rows, ready, rows.len(), number)
}

/// The same, where the place is known to be from `low` to `high`.
fn place_between(rows: &VecDeque<(u64, Row)>, low: usize, high: usize, number: u64) -> usize
    requires ascend { AscendFrom 0 rows.now.items }
    requires low { low ≤ below number rows.now.items }
    requires high { below number rows.now.items ≤ high }
    requires within { high ≤ length rows.now.items }
    ensures { result ≡ below number rows.now.items }
{
    let mut low = low;
    let mut high = high;
    while low < high {
        let middle = low + (high - low) / 2;
        if is_below(rows, middle, number) {
            low = middle + 1;
        } else {
            high = middle;
        }
    }
    low
}

/// Whether the number in a place is below another.
fn is_below(rows: &VecDeque<(u64, Row)>, place: usize, number: u64) -> bool
    requires { place < length rows.now.items }
    ensures { result ≡ nat_lt (number_at rows.now.items place) number }
{
    rows[place].0 < number
}

/// The row in a place, if it has that number.
pub(crate) fn row_in(rows: &VecDeque<(u64, Row)>, place: usize, number: u64) -> Option<&Row>
    ensures row { option_copied result ≡ row_with number (entry_at rows.now.items place) }
    ensures variant { is_some result ≡ is_some (row_with number (entry_at rows.now.items place)) }
{
    let held = rows.get(place)?;
    if held.0 != number {
        return None;
    }
    Some(&held.1)
}

/// Whether the row in a place, if it has that number, is the same. None where there is none.
pub(crate) fn compare_at(
    rows: &VecDeque<(u64, Row)>,
    place: usize,
    number: u64,
    row: &Row,
) -> Option<bool>
    ensures { result ≡ compared ⟦<Row as PartialEq>⟧.eq (row_with number (entry_at rows.now.items place)) row.now }
{
    match row_in(rows, place, number) {
        Some(held) => Some(held == row),
        None => None,
    }
}

/// How many rows follow one another from `first` on, where so many are known to.
pub(crate) fn run_on(rows: &VecDeque<(u64, Row)>, first: u64, known: usize) -> usize
    requires known { first + known ≤ first_missing first rows.now.items }
    requires limit { first_missing first rows.now.items ≤ greatest_number + 1 }
    ensures { first + result ≡ first_missing first rows.now.items }
{
    let mut run = known;
    while row_in(rows, run, first + run as u64).is_some() {
        run += 1;
    }
    run
}

/// The number above that of the last row, or `first` where there is none.
pub(crate) fn above_all(rows: &VecDeque<(u64, Row)>, first: u64) -> u64
    requires { AreUpTo greatest_number rows.now.items }
    ensures { result ≡ above_all first rows.now.items }
{
    match rows.back() {
        Some(held) => held.0 + 1,
        None => first,
    }
}

/// Drops so many rows from the first on.
pub(crate) fn drop_first(rows: &mut VecDeque<(u64, Row)>, count: usize)
    ensures { rows.new.items ≡ drop count rows.old.items }
{
    for _place in 0..count {
        let _ = rows.pop_front();
    }
}

/// Gives back the room of a partition that is closed and holds no row: mostly none comes any more.
pub(crate) fn give_back(rows: &mut VecDeque<(u64, Row)>, closed: Option<u64>)
    ensures { rows.new.items ≡ rows.old.items }
{
    if closed.is_some() && rows.is_empty() {
        rows.shrink_to_fit();
    }
}

/// All rows with their numbers. Each row has one owner more.
pub(crate) fn shared(
    alloc: Global,
    rows: &VecDeque<(u64, Row)>,
) -> Result<Vec<(u64, Row)>, AllocError>
    ensures { IfOk result (λ shared. shared.items ≡ rows.now.items) }
{
    let mut list = Vec::with_capacity(alloc, rows.len())?;
    for place in 0..rows.len() {
        let held = &rows[place];
        list.push((held.0, held.1.share()?))?;
    }
    Ok(list)
}
