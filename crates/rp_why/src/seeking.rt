//! Searches from one start row after another.
ghost use Rattle.std.specs.Prelude.{◌≡◌, ℕ, ◌+◌, ◌<◌, ◌≤◌, false, [], length, IfOk, OnOk};
ghost use Rattle.rp_words.specs.declared.word.End.TheVariants.{Closed};
ghost use Rattle.rp_query.specs.declared.query.QueryData.{QueryData};
ghost use Rattle.rp_known.specs.Known.{Known};
ghost use Rattle.rp_search.specs.Search.{start_of_search, turns_of_run};
ghost use Rattle.rp_why.specs.Seeking.{CameTo, IsFoundAt, LooksAt, Searches, Serves, closed_by, look_of};
ghost use Rattle.rp_why.specs.Sought.{IsSought};

use rp_conditions::{Entries, Tester};
use rp_eval::{AllRows, Rows, Totals};
use rp_query::Query;
use rp_search::{Outcome, Search, Steps};
use rp_words::{End, Label};
use std::alloc::{AllocError, Global};
use std::marker::Brand;
use std::sync::ledger::{Blank, Ledger};

/// Which matches are looked for.
#[derive(Clone, Copy)]
pub struct Wanted {
    /// The first row that a match may begin with.
    pub first: u64,
    /// The last one.
    pub last: u64,
    /// Whether an empty match is none.
    pub with_rows: bool,
    /// The most turns of all searches together.
    pub most_turns: u32,
}

/// A match: the row that it begins with, and the labels of its rows.
#[derive(Drop)]
pub struct Match {
    /// The row that it begins with.
    pub first: u64,
    /// The labels of its rows, in order.
    pub labels: Vec<Label>,
}

/// What is found.
#[derive(Drop)]
pub enum Sought {
    /// The first match that is looked for.
    Found(Match),
    /// There is none.
    NotFound,
    /// The searches take more turns.
    GivenUp,
}

/// What a look from a row comes to.
#[derive(Clone, Copy)]
enum Look {
    /// A match that is looked for.
    Wanted,
    /// None.
    Unwanted,
    /// It takes more turns.
    GivenUp,
}

/// A search, with the totals of the rows that it has mapped.
#[derive(Drop)]
struct Run {
    search: Search,
    totals: Totals,
}

/// The first match that is looked for among rows that have all come.
pub(crate) fn seek(
    alloc: Global,
    query: &Query,
    rows: &AllRows,
    wanted: Wanted,
) -> Result<Sought, AllocError>
    requires closed { rows.now.end ≡ Closed }
    ensures { IfOk result (IsSought query.now (closed_by rows.now.rows.items) wanted) }
{
    if wanted.first == 0 || wanted.last > rows.last() {
        return Ok(Sought::GivenUp);
    }
    counted::<Brand>(Blank::new(1), alloc, query, rows, wanted)
}

/// The same, over a ledger that counts the turns.
fn counted<L: Ledger>(
    blank: Blank,
    alloc: Global,
    query: &Query,
    rows: &AllRows,
    wanted: Wanted,
) -> Result<Sought, AllocError>
    requires name { blank.name ≡ L.name }
    requires parts { blank.parts ≡ L.parts }
    requires some { 0 < blank.parts }
    requires closed { rows.now.end ≡ Closed }
    requires one { 1 ≤ wanted.first }
    requires known { wanted.last ≤ length rows.now.rows.items }
    ensures { IfOk result (IsSought query.now (closed_by rows.now.rows.items) wanted) }
{
    let mut steps = Steps::<L>::new(blank);
    if wanted.first > wanted.last {
        return Ok(Sought::NotFound);
    }
    let mut run = begin(alloc, query, wanted.first)?;
    let mut start = wanted.first;
    let mut left = wanted.most_turns;
    'rows: loop {
        let (look, ran) = look_from(query, rows, start, run, wanted.with_rows, left, &mut steps)?;
        match look {
            Look::GivenUp => return Ok(Sought::GivenUp),
            Look::Wanted => return found(alloc, start, ran.search.labels()),
            Look::Unwanted => {}
        }
        if start >= wanted.last {
            return Ok(Sought::NotFound);
        }
        left = left.saturating_sub(ran.search.turns_taken());
        start += 1;
        run = move_to(ran, start);
    }
}

/// A match of these labels.
fn found(alloc: Global, first: u64, labels: &[Label]) -> Result<Sought, AllocError>
    ensures { IfOk result (IsFoundAt first labels.now) }
{
    let labels = copied(alloc, labels)?;
    Ok(Sought::Found(Match { first, labels }))
}

/// The same labels, in a list of their own.
fn copied(alloc: Global, labels: &[Label]) -> Result<Vec<Label>, AllocError>
    ensures { IfOk result (λ copied. copied.items ≡ labels.now) }
{
    let mut copied = Vec::new(alloc);
    for label in labels {
        copied.push(*label)?;
    }
    Ok(copied)
}

/// A search for the query's pattern from a row.
fn begin(alloc: Global, query: &Query, start: u64) -> Result<Run, AllocError>
    requires { 1 ≤ start }
    ensures { IfOk result (λ run. (p : Known) → start ≤ length p.rows → Searches query.now p start run) }
{
    let search = Search::of(alloc, query.prepared(), start)?;
    let totals = Totals::new(alloc, query)?;
    Ok(Run { search, totals })
}

/// A run that goes to another row. It keeps the room that it has, and remembers where its search failed.
fn move_to(run: Run, start: u64) -> Run
    requires { 1 ≤ start }
    ensures { (q : QueryData) (p : Known) (from : ℕ) →
        Serves q p from run → start ≤ length p.rows → Searches q p start result }
{
    let mut search = run.search;
    let mut totals = run.totals;
    search.move_to(start);
    totals.cut(0);
    Run { search, totals }
}

/// Looks from a row for a match, by so many turns at most.
fn look_from<L: Ledger>(
    query: &Query,
    rows: &AllRows,
    start: u64,
    run: Run,
    with_rows: bool,
    budget: u32,
    steps: &mut Steps<L>,
) -> Result<(Look, Run), AllocError>
    requires closed { rows.now.end ≡ Closed }
    requires searches { Searches query.now (closed_by rows.now.rows.items) start run }
    ensures serves { IfOk result (λ r. Serves query.now (closed_by rows.now.rows.items) start r.1) }
    ensures looked { IfOk result (λ r. LooksAt query.now (closed_by rows.now.rows.items) start with_rows r.1 r.0) }
{
    let (outcome, ran) = run_on(query, rows, start, run, budget, steps)?;
    let look = look_of(outcome, with_rows, ran.search.labels());
    Ok((look, ran))
}

/// What an outcome is, with these labels where it is a match.
fn look_of(outcome: Outcome, with_rows: bool, labels: &[Label]) -> Look
    ensures { result ≡ look_of outcome with_rows labels.now }
{
    match outcome {
        Outcome::Waits | Outcome::Paused => Look::GivenUp,
        Outcome::NoMatch => Look::Unwanted,
        Outcome::Match => {
            if with_rows && labels.is_empty() {
                Look::Unwanted
            } else {
                Look::Wanted
            }
        }
    }
}

/// Takes at most `budget` turns of a search.
fn run_on<L: Ledger>(
    query: &Query,
    rows: &AllRows,
    start: u64,
    run: Run,
    budget: u32,
    steps: &mut Steps<L>,
) -> Result<(Outcome, Run), AllocError>
    requires closed { rows.now.end ≡ Closed }
    requires searches { Searches query.now (closed_by rows.now.rows.items) start run }
    ensures serves { IfOk result (λ r. Serves query.now (closed_by rows.now.rows.items) start r.1) }
    ensures came { IfOk result (λ r. CameTo query.now (closed_by rows.now.rows.items) start r.1 r.0) }
{
    rp_search::law_search();
    // It brings in that the query is sound.
    let _plan = query.plan();
    let mut search = run.search;
    let mut tester = Tester::new(rows, query, run.totals, Entries::new());
    let ran = search.run(&mut tester, budget, steps);
    let (totals, _entries) = tester.into_parts();
    let outcome = ran?;
    Ok((outcome, Run { search, totals }))
}
