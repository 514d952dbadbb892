//! From what was kept of a partition to the partition.
ghost use Rattle.std.specs.Prelude.{◌≡◌, ◌≤◌, true, IfOk, Some, map};
ghost use Rattle.rp_feed.specs.Fed.{front_of, with_taken};
ghost use Rattle.rp_feed.specs.Limits.{greatest_number};
ghost use Rattle.rp_feed.specs.Answers.{row_answer};
ghost use Rattle.rp_feed.specs.Again.{close_with, is_new, take_all};
ghost use Rattle.rp_node.specs.Resuming.{Resumed, fits_table, feed_in, fits_all, has_kinds, has_place, numbered, state_in};

use rp_checkpoint::{HeldRow, PartitionData};
use rp_feed::{Feed, FeedFault, MAX_NUMBER, Taken};
use rp_partition::Partition;
use rp_query::Query;
use rp_value::Row;
use rp_walker::MatcherState;
use std::alloc::{AllocError, Global};

/// The partition that goes on from what was kept of it. None where a node may not go on from that.
pub(crate) fn resume(
    alloc: Global,
    query: &Query,
    kept: &PartitionData,
) -> Result<Option<Partition>, AllocError>
    ensures { IfOk result (Resumed query.now kept.now) }
{
    match feed_of(alloc, kept)? {
        None => Ok(None),
        Some(feed) => resume_over(alloc, query, kept, feed),
    }
}

/// The same, over the feed of the rows and the close that were kept.
fn resume_over(
    alloc: Global,
    query: &Query,
    kept: &PartitionData,
    feed: Feed,
) -> Result<Option<Partition>, AllocError>
    requires { feed_in kept.now ≡ Some feed }
    ensures { IfOk result (Resumed query.now kept.now) }
{
    rp_feed::law_again();
    rp_feed::law_same_rows();
    // It brings in that the numbers of rows that are kept ascend.
    let _rows = kept.rows.as_slice();
    let front = feed.front();
    if !has_kinds(query, kept) || !has_place(query, kept, front) {
        return Ok(None);
    }
    if !fits_all(alloc, query, kept)? {
        return Ok(None);
    }
    Ok(Some(Partition::resume(alloc, feed, state_of(kept))))
}

/// Whether the key has the kinds of the columns of PARTITION BY.
fn has_kinds(query: &Query, kept: &PartitionData) -> bool
    ensures { result ≡ has_kinds query.now kept.now }
{
    query.key_fault(kept.key.as_slice()).is_none()
}

/// Whether what was given and covered is in bounds, and the walk stands in the rows while the answer goes on.
fn has_place(query: &Query, kept: &PartitionData, front: u64) -> bool
    requires { front ≤ greatest_number }
    ensures { result ≡ has_place query.now front kept.now }
{
    kept.here as u128 <= kept.given
        && kept.covered <= front
        && (kept.over
            || 1 <= kept.at
                && kept.at <= front + 1
                && kept.matches < kept.at
                && kept.first <= kept.at.saturating_sub(query.reach()).max(1))
}

/// Whether each row fits the table and has the key in the columns of PARTITION BY.
fn fits_all(alloc: Global, query: &Query, kept: &PartitionData) -> Result<bool, AllocError>
    ensures { IfOk result (λ fit. fit ≡ fits_all query.now kept.now.key kept.now.rows) }
{
    for row in kept.rows.as_slice() {
        if !fits_table(alloc, query, kept, row)? {
            return Ok(false);
        }
    }
    Ok(true)
}

fn fits_table(
    alloc: Global,
    query: &Query,
    kept: &PartitionData,
    row: &HeldRow,
) -> Result<bool, AllocError>
    ensures { IfOk result (λ fits. fits ≡ fits_table query.now kept.now.key row.now) }
{
    if query.table().row_fault(row.cells.cells()).is_some() {
        return Ok(false);
    }
    let key = query.key(alloc, &row.cells)?;
    Ok(key.as_slice() == kept.key.as_slice())
}

/// The record of the walk.
fn state_of(kept: &PartitionData) -> MatcherState
    ensures { result ≡ state_in kept.now }
{
    MatcherState {
        first: kept.first,
        at: kept.at,
        matches: kept.matches,
        covered: kept.covered,
        here: kept.here,
        given: kept.given,
        over: kept.over,
    }
}

/// The feed of the rows and the close, if it takes each as new.
fn feed_of(alloc: Global, kept: &PartitionData) -> Result<Option<Feed>, AllocError>
    ensures { IfOk result (λ feed. feed ≡ feed_in kept.now) }
{
    if kept.first == 0 || kept.first > MAX_NUMBER + 1 {
        return Ok(None);
    }
    let feed = Feed::starting(alloc, kept.first);
    match take_all(feed, kept.rows.as_slice())? {
        None => Ok(None),
        Some(feed) => Ok(close_with(feed, kept.close)),
    }
}

/// The feed once it has taken all rows, if each is new.
fn take_all(feed: Feed, rows: &[HeldRow]) -> Result<Option<Feed>, AllocError>
    ensures { IfOk result (λ all. all ≡ take_all ⟦<Row as PartialEq>⟧.eq feed (map numbered rows.now)) }
{
    let mut feed = feed;
    for row in rows {
        if !take_new(&mut feed, row)? {
            return Ok(None);
        }
    }
    Ok(Some(feed))
}

/// Takes a row, and tells whether it is new.
fn take_new(feed: &mut Feed, row: &HeldRow) -> Result<bool, AllocError>
    ensures told { IfOk result (λ new.
        new ≡ is_new (row_answer ⟦<Row as PartialEq>⟧.eq feed.old row.now.number row.now.cells)) }
    ensures taken { IfOk result (λ new. new ≡ true → feed.new ≡ with_taken row.now.number row.now.cells feed.old) }
{
    let cells = row.cells.share()?;
    match feed.take(row.number, cells) {
        Ok(Taken::New) => Ok(true),
        Ok(_) => Ok(false),
        Err(FeedFault::OutOfMemory) => Err(AllocError),
        Err(_) => Ok(false),
    }
}

/// The feed once it has taken the close, if there is one and it is new.
fn close_with(feed: Feed, close: Option<u64>) -> Option<Feed>
    ensures { result ≡ close_with close feed }
{
    let mut feed = feed;
    let Some(count) = close else {
        return Some(feed);
    };
    match feed.close(count) {
        Ok(Taken::New) => Some(feed),
        _ => None,
    }
}
