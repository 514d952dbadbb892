//! A matcher over the rows of one partition.
ghost use Rattle.std.specs.Prelude.{◌≡◌, ◌+◌, ◌-◌, ◌^◌, ◌<◌, ◌≤◌, length, ◌++◌, ◌∷◌, [], true, false, ◌↔◌, IsTrue, OnOk, OnErr, IfErr, IfOk};
ghost use Rattle.rp_words.specs.declared.word.End.TheVariants.{Open, Closed};
ghost use Rattle.rp_known.specs.Known.{Known, count};
ghost use Rattle.rp_walker.specs.FitLaws.{AgreesFrom};
ghost use Rattle.rp_walker.specs.LeftLaw.{HoldsNoMore};
ghost use Rattle.rp_walker.specs.Polls.{left_in, entered_by};
ghost use Rattle.rp_walker.specs.Walking.{record_of};
ghost use Rattle.rp_answer.specs.Matching.{known_by, Ready};

use crate::kept::Kept;
use rp_eval::Rows;
use rp_query::Query;
use rp_search::Steps;
use rp_value::Row;
use rp_walker::{MatcherState, Poll, Walker, law_drops, law_left, law_walkers};
use rp_words::End;
use std::alloc::{AllocError, AllocFailed, Global};
use std::marker::{Brand, Model};
use std::sync::ledger::{Blank, Ledger};

/// A matcher over the rows of one partition.
///
/// Contracts see it as its query, the rows that are known to it, its record, how many turns it has left at most, and
/// how many rows its searches have entered (`MatcherData`).
#[derive(Drop)]
pub struct Matcher {
    query: Query,
    rows: Kept,
    walker: Walker,
}

impl Model for Matcher {
    ghost use Rattle.rp_answer.specs.MatcherData.{MatcherData, matcher_code};
    ghost use Rattle.rp_answer.specs.Matching.{matcher_by, Ready};

    ghost Value = { MatcherData };

    ghost coded = { matcher_code };

    ghost view = { λ m. matcher_by m.query m.rows m.walker };

    ghost invariant = { λ m. Ready m.query m.rows m.walker };
}

impl Matcher {
    ghost use Rattle.rp_words.specs.PatternForm.{form_of};
    ghost use Rattle.rp_words.specs.Turns.{all_turns};
    ghost use Rattle.rp_walker.specs.Polls.{GoesAlong, StartsAgain, PollLowers};
    ghost use Rattle.rp_walker.specs.Records.{first_state, horizon_of};
    ghost use Rattle.rp_walker.specs.Walking.{CanGoOn};
    ghost use Rattle.rp_answer.specs.Matching.{Advances, PollComesTo, PollCounts};

    /// A matcher of no row yet.
    pub fn new(alloc: Global, query: Query) -> Matcher
        ensures query { result.query ≡ query }
        ensures state { result.state ≡ first_state }
        ensures entered { result.entered ≡ 0 }
        ensures count { count result.known ≡ 0 }
        ensures open { result.known.end ≡ Open }
    {
        Matcher {
            query,
            rows: Kept::new(alloc, 1),
            walker: Walker::new(alloc),
        }
    }

    /// A matcher that goes on from a record. The row `state.first` comes next.
    ///
    ///     let state = matcher.state();
    ///     let mut matcher = Matcher::resume(rt.alloc(), query, state);
    pub fn resume(alloc: Global, query: Query, state: MatcherState) -> Matcher
        requires one { 1 ≤ state.first }
        requires can { CanGoOn query state }
        ensures query { result.query ≡ query }
        ensures state { result.state ≡ state }
        ensures entered { result.entered ≡ 0 }
        ensures count { count result.known ≡ state.first - 1 }
        ensures open { result.known.end ≡ Open }
    {
        Matcher {
            query,
            rows: Kept::new(alloc, state.first),
            walker: Walker::resume(alloc, state),
        }
    }

    /// The record, from which a matcher can go on. No more turns are left than all starts of the known rows take.
    pub fn state(&self) -> MatcherState
        ensures state { result ≡ self.now.state }
        ensures one { 1 ≤ result.first }
        ensures can { CanGoOn self.now.query result }
        ensures bounded { self.now.left
            ≤ all_turns (count self.now.known) self.now.known.end (form_of self.now.query.pattern) }
    {
        law_walkers();
        law_left();
        self.walker.state()
    }

    /// Whether all rows are known.
    pub fn is_closed(&self) -> bool
        ensures { IsTrue result ↔ (self.now.known.end ≡ Closed) }
    {
        self.rows.end() == End::Closed
    }

    /// The first row that is still read.
    pub fn horizon(&self) -> u64
        ensures { result ≡ horizon_of self.now.query self.now.known self.now.state }
    {
        self.walker.horizon(&self.query, &self.rows)
    }

    /// The next row. Where memory is refused, it is handed back.
    pub fn push(&mut self, row: Row) -> Result<(), AllocFailed<Row>>
        requires open { self.old.known.end ≡ Open }
        requires room { length self.old.known.rows < 2 ^ 64 - 2 }
        ensures query { self.new.query ≡ self.old.query }
        ensures state { self.new.state ≡ self.old.state }
        ensures entered { self.new.entered ≡ self.old.entered }
        ensures end { self.new.known.end ≡ Open }
        ensures pushed { OnOk result (self.new.known.rows ≡ self.old.known.rows ++ row ∷ []) }
        ensures out_of_memory { OnErr result (self.new ≡ self.old) }
        ensures returned { IfErr result (λ back. back.value ≡ row) }
    {
        rp_known::law_legs();
        law_walkers();
        // It brings in that the query is sound.
        let _plan = self.query.plan();
        self.rows.push(row)
    }

    /// No further row comes.
    pub fn close(&mut self)
        requires { self.old.known.end ≡ Open }
        ensures query { self.new.query ≡ self.old.query }
        ensures state { self.new.state ≡ self.old.state }
        ensures entered { self.new.entered ≡ self.old.entered }
        ensures end { self.new.known.end ≡ Closed }
        ensures rows { self.new.known.rows ≡ self.old.known.rows }
    {
        rp_known::law_legs();
        law_walkers();
        // It brings in that the query is sound.
        let _plan = self.query.plan();
        self.rows.close();
    }

    /// Takes at most `budget` turns, until an item comes or nothing is left to give. A turn is one choice taken up, one
    /// start row ended, one row of a match looked at or one look past the last known row: `Paused` comes after just
    /// `budget` turns, an item after one at least, and so does `Idle` while the answer goes on.
    /// A budget of 0 answers `Paused`, changes nothing and takes no memory. After `AllocError` the same item is still
    /// to come, the record's search begins again, and no row is dropped; after any other answer to a budget of 1 or more
    /// the rows below the horizon are dropped.
    /// `next` does the same for a caller that keeps no count of turns.
    pub fn poll<L: Ledger>(&mut self, budget: u32, steps: &mut Steps<L>) -> Result<Poll, AllocError>
        ensures query { self.new.query ≡ self.old.query }
        ensures count { count self.new.known ≡ count self.old.known }
        ensures end { self.new.known.end ≡ self.old.known.end }
        ensures answers { IfOk result (PollComesTo self.old.query self.old.known self.old.state self.new.state) }
        ensures moves { GoesAlong self.old.query self.old.known self.old.state self.new.state }
        ensures out_of_memory { OnErr result (StartsAgain self.old.query self.old.known
            self.old.state.given self.new.state self.new.left) }
        ensures lowers { IfOk result (PollLowers budget self.old.left self.new.left) }
        ensures rows { (p : Known) → AgreesFrom self.old.state.first self.old.known p →
            AgreesFrom self.new.state.first self.new.known p }
        ensures held { OnOk result (1 ≤ budget → HoldsNoMore self.new.query self.new.known self.new.state) }
        ensures kept { OnErr result (self.new.known ≡ self.old.known) }
        ensures turns { PollCounts budget self.old.state steps.old steps.new self.old.entered self.new.entered result }
        ensures nothing { budget ≡ 0 → (result ≡ Ok Poll.Paused) × (self.new ≡ self.old) × (steps.new ≡ steps.old) }
    {
        if budget == 0 {
            return Ok(Poll::Paused);
        }
        law_walkers();
        let answer = self.walker.poll(&self.query, &self.rows, budget, steps)?;
        drop_rows(&self.query, &mut self.rows, &mut self.walker);
        Ok(answer)
    }

    /// The next item, or why there is none yet: what `poll` does with the same budget, for a caller that keeps no count
    /// of turns.
    ///
    ///     match matcher.next(1_000)? {
    ///         Poll::Item(place, item) => println!(rt; "    item {place}: {item:?}")?,
    ///         Poll::Paused => {}
    ///         Poll::Idle => break,
    ///     }
    pub fn next(&mut self, budget: u32) -> Result<Poll, AllocError>
        ensures { Advances budget self.old self.new result }
    {
        self.uncounted::<Brand>(budget, Blank::new(1))
    }

    /// Polls over a count of its own, which nobody reads.
    fn uncounted<L: Ledger>(&mut self, budget: u32, blank: Blank) -> Result<Poll, AllocError>
        requires fresh { (blank.name ≡ L.name) × (blank.parts ≡ L.parts) × (0 < blank.parts) }
        ensures { Advances budget self.old self.new result }
    {
        let mut steps = Steps::<L>::new(blank);
        self.poll(budget, &mut steps)
    }
}

/// Drops the rows below the horizon.
fn drop_rows(query: &Query, rows: &mut Kept, walker: &mut Walker)
    requires { Ready query.now rows.old walker.old }
    ensures ready { Ready query.now rows.new walker.new }
    ensures record { record_of walker.new ≡ record (record_of walker.old) { first = rows.new.first } }
    ensures count { count (known_by rows.new) ≡ count (known_by rows.old) }
    ensures end { rows.new.end ≡ rows.old.end }
    ensures agrees { AgreesFrom rows.new.first (known_by rows.old) (known_by rows.new) }
    ensures held { HoldsNoMore query.now (known_by rows.new) (record_of walker.new) }
    ensures low { rows.old.first ≤ rows.new.first }
    ensures entered { entered_by walker.new ≡ entered_by walker.old }
    ensures left { left_in query.now (known_by rows.new) walker.new
        ≡ left_in query.now (known_by rows.old) walker.old }
{
    law_drops();
    // It brings in that the query is sound.
    let _plan = query.plan();
    let horizon = walker.horizon(query, rows);
    rows.forget(horizon);
    walker.keep_from(rows.first());
}
