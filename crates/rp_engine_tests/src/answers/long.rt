//! A long match, and a stream of short ones. What an item or a row costs doesn't go up with their number, which `.ci/cost`
//! shows.
ghost use Rattle.std.specs.Prelude.{◌≡◌, ◌<◌};

use super::driven::Driven;
use crate::support::{holds, query_of, row_of};
use rp_query::Query;
use rp_search::Steps;
use rp_value::{Row, Table};
use rp_walker::Poll;
use std::alloc::Global;
use std::marker::Brand;
use std::process::Abort;
use std::sync::ledger::{Blank, Ledger};
use std::test::Fail;

/// What came of a run.
#[derive(Clone, Copy)]
struct Ran {
    items: u64,
    /// The most rows that were kept once it was idle.
    kept: u64,
}

/// What came of a clause over rows whose numbers are 1 and 2 in turn, each polled as it comes, or all at once after the close.
fn run_clause(alloc: Global, text: &str, rows: u64, each: bool) -> Result<Ran, Fail> {
    let query = query_of(alloc, "p int", text)?;
    let in_turn = two_rows(alloc, query.table())?;
    run::<Brand>(Blank::new(1), alloc, query, &in_turn, rows, each)
}

fn run<L: Ledger>(
    blank: Blank,
    alloc: Global,
    query: Query,
    in_turn: &[Row],
    rows: u64,
    each: bool,
) -> Result<Ran, Fail>
    requires name { blank.name ≡ L.name }
    requires parts { blank.parts ≡ L.parts }
    requires shared { 0 < blank.parts }
{
    let mut driven = Driven::new(alloc, query);
    let mut steps = Steps::<L>::new(blank);
    feed(&mut driven, in_turn, rows, each, &mut steps)
}

/// A row of 1 and one of 2.
fn two_rows(alloc: Global, table: &Table) -> Result<Vec<Row>, Fail> {
    let mut rows = Vec::new(alloc);
    rows.push(row_of(alloc, table, 1)?)?;
    rows.push(row_of(alloc, table, 2)?)?;
    Ok(rows)
}

/// So many of these rows in turn, and then the close.
fn feed<L: Ledger>(
    driven: &mut Driven,
    in_turn: &[Row],
    rows: u64,
    each: bool,
    steps: &mut Steps<L>,
) -> Result<Ran, Fail> {
    let mut ran = Ran { items: 0, kept: 0 };
    for number in 0..rows {
        push_one(driven, in_turn, number)?;
        if each {
            drain(driven, steps, &mut ran)?;
        }
    }
    driven.close()?;
    drain(driven, steps, &mut ran)?;
    Ok(ran)
}

/// The next of the rows in turn.
fn push_one(driven: &mut Driven, in_turn: &[Row], number: u64) -> Result<(), Fail> {
    match in_turn.get((number % 2) as usize) {
        None => Err(Fail::from("two rows in turn")),
        Some(row) => driven.push(row.share()?),
    }
}

/// Polls until it is idle.
fn drain<L: Ledger>(driven: &mut Driven, steps: &mut Steps<L>, ran: &mut Ran) -> Result<(), Fail> {
    for _poll in 0..1_000_000 {
        match driven.poll(1_000, steps)? {
            Poll::Item(_place, _item) => ran.items = ran.items.saturating_add(1),
            Poll::Paused => {}
            Poll::Idle => {
                let kept = driven
                    .last()
                    .saturating_sub(driven.state().first)
                    .saturating_add(1);
                ran.kept = ran.kept.max(kept);
                return Ok(());
            }
        }
    }
    Err(Fail::from("idle after a million polls"))
}

/// One match of all rows, of which each gives an item, and the end.
fn long_match(rt: &impl Abort, alloc: Global, rows: u64) -> Result<(), Fail> {
    let text =
        "MEASURES COUNT(*) AS c, SUM(p) AS s ALL ROWS PER MATCH PATTERN (A+) DEFINE A AS p > 0";
    let ran = run_clause(alloc, text, rows, false)?;
    holds(rt, ran.items == rows.saturating_add(1));
    Ok(())
}

/// A match of each two rows, and the end. The row before a start row is still read.
fn stream(rt: &impl Abort, alloc: Global, rows: u64) -> Result<(), Fail> {
    let text = "MEASURES B.p AS b PATTERN (A B) DEFINE A AS p = 1, B AS PREV(p) = 1";
    let ran = run_clause(alloc, text, rows, true)?;
    holds(rt, ran.items == (rows / 2).saturating_add(1));
    holds(rt, ran.kept <= 2);
    Ok(())
}

#[test]
fn match_of_1_000_rows(rt: HostRuntime) -> Result<(), Fail> {
    long_match(&rt, rt.alloc(), 1_000)
}

#[test]
fn match_of_10_000_rows(rt: HostRuntime) -> Result<(), Fail> {
    long_match(&rt, rt.alloc(), 10_000)
}

#[test]
fn match_of_100_000_rows(rt: HostRuntime) -> Result<(), Fail> {
    long_match(&rt, rt.alloc(), 100_000)
}

#[test]
fn stream_of_10_000_rows(rt: HostRuntime) -> Result<(), Fail> {
    stream(&rt, rt.alloc(), 10_000)
}

#[test]
fn stream_of_100_000_rows(rt: HostRuntime) -> Result<(), Fail> {
    stream(&rt, rt.alloc(), 100_000)
}

#[test]
fn stream_of_1_000_000_rows(rt: HostRuntime) -> Result<(), Fail> {
    stream(&rt, rt.alloc(), 1_000_000)
}
