//! Searches over lent rows.
ghost use Rattle.std.specs.Prelude.{◌≡◌, ℕ, ◌+◌, ◌<◌, ◌≤◌, length, IfOk, OnOk, IsOk, IsSome};
ghost use Rattle.rp_query.specs.declared.query.QueryData.{QueryData};
ghost use Rattle.rp_known.specs.Known.{Known, known_in, count};
ghost use Rattle.rp_walker.specs.Stages.{Searches, Serves, IsReady, IsSpare};
ghost use Rattle.rp_search.specs.Bound.{MovesWork};
ghost use Rattle.rp_search.specs.Search.{start_of_search, turns_of_run};
ghost use Rattle.rp_walker.specs.Bound.{BeginsBy, RunSpends};
ghost use Rattle.rp_walker.specs.Polls.{TurnsAreCounted};
ghost use Rattle.rp_walker.specs.Runs.{Ran};

use rp_conditions::{Entries, Tester};
use rp_eval::{Rows, Totals};
use rp_query::Query;
use rp_search::{Outcome, Search, Steps};
use std::alloc::{AllocError, Global};
use std::mem;
use std::sync::ledger::Ledger;

/// A search, with the totals of the rows that it has mapped. The search stays where it is when the run is handed on.
#[derive(Drop)]
pub(crate) struct Run {
    pub(crate) search: Box<Search>,
    pub(crate) totals: Totals,
}

/// A search for the query's pattern from a row, by the run of an earlier row where there is one: then no memory is taken.
#[inline(always)]
pub(crate) fn begin<R: Rows>(
    alloc: Global,
    query: &Query,
    rows: &R,
    start: u64,
    spare: Option<Run>,
) -> Result<Run, AllocError>
    requires one { 1 ≤ start }
    requires known { start ≤ length (R.known rows.now) }
    requires spare { IsSpare query.now (known_in R.known R.ending rows.now) start spare }
    ensures searches { IfOk result (Searches query.now (known_in R.known R.ending rows.now) start) }
    ensures reuses { IsSome spare → IsOk result }
    ensures works { IfOk result (BeginsBy spare) }
{
    match spare {
        Some(run) => Ok(begin_again(run)),
        None => {
            let search = Box::new(alloc, Search::of(alloc, query.prepared(), start)?)?;
            let totals = Totals::new(alloc, query)?;
            Ok(Run { search, totals })
        }
    }
}

/// A run that goes to another row. It takes no memory, keeps the room that it has, and remembers where its search failed.
#[inline(always)]
pub(crate) fn move_to(run: Run, start: u64) -> Run
    requires { 1 ≤ start }
    ensures ready { (q : QueryData) (p : Known) (from : ℕ) → Serves q p from run → IsReady q p start result }
    ensures works { MovesWork run.search.value result.search.value }
    ensures start { start_of_search result.search.value ≡ start }
{
    let mut search = run.search;
    search.move_to(start);
    Run {
        search,
        totals: run.totals,
    }
}

/// A run that begins at the row that it went to: it has entered no row.
#[inline(always)]
fn begin_again(run: Run) -> Run
    ensures searches { (q : QueryData) (p : Known) (start : ℕ) →
        start ≤ count p → IsReady q p start run → Searches q p start result }
    ensures same { result.search ≡ run.search }
{
    let mut totals = run.totals;
    totals.cut(0);
    Run {
        search: run.search,
        totals,
    }
}

/// Takes at most `budget` turns of a search, and adds the rows that it enters to their count.
#[inline(always)]
pub(crate) fn run_on<R: Rows, L: Ledger>(
    query: &Query,
    rows: &R,
    start: u64,
    run: Run,
    budget: u32,
    entered: &mut Entries,
    steps: &mut Steps<L>,
) -> Result<(Outcome, Run), AllocError>
    requires some { 0 < budget }
    requires searches { Searches query.now (known_in R.known R.ending rows.now) start run }
    ensures ran { IfOk result (λ r. Ran query.now (known_in R.known R.ending rows.now) start run r.1 r.0) }
    ensures works { IfOk result (λ r. RunSpends query.now (known_in R.known R.ending rows.now) run r.1 r.0) }
    ensures taken { IfOk result (λ r. steps.new ≡ steps.old + turns_of_run r.1.search.value) }
    ensures some { OnOk result (steps.old < steps.new) }
    ensures turns { TurnsAreCounted budget steps.old steps.new entered.old entered.new }
{
    rp_search::law_search();
    // It brings in that the query is sound.
    let _plan = query.plan();
    let mut search = run.search;
    let mut tester = Tester::new(
        rows,
        query,
        run.totals,
        mem::replace(entered, Entries::new()),
    );
    let ran = search.run(&mut tester, budget, steps);
    let (totals, counted) = tester.into_parts();
    *entered = counted;
    let outcome = ran?;
    Ok((outcome, Run { search, totals }))
}
