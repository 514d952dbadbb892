//! A walker gives the items of a partition's known answer, one after another, over rows that are lent.
ghost use Rattle.std.specs.Prelude.{◌≡◌, ◌≢◌, ◌+◌, ◌-◌, ◌^◌, ◌<◌, ◌≤◌, ℕ, Bool, true, false, length, Some, None, OnOk, OnErr, IfOk};
ghost use Rattle.rp_query.specs.declared.query.QueryData.{QueryData};
ghost use Rattle.rp_known.specs.Known.{Known, count, known_in};
ghost use Rattle.rp_known.specs.Plans.{first_read};
ghost use Rattle.rp_known.specs.Walk.{found_at};
ghost use Rattle.rp_walker.specs.declared.stage.Stage.TheVariants.{Begin as BeginStage, Searching as SearchingStage, Giving as GivingStage};
ghost use Rattle.rp_walker.specs.Given.{past_row, is_hidden, result_of, run_of};
ghost use Rattle.rp_walker.specs.Records.{at_place, gave_last, was_last, place_of, first_state, horizon_of, IsWithin, PlaceStays, StaysInRows};
ghost use Rattle.rp_walker.specs.Steps.{Moves};
ghost use Rattle.rp_search.specs.Fits.{left_by};
ghost use Rattle.rp_walker.specs.Stages.{left_with, asked_by, IsGoing, Searches, Gives, MatchTotalled, Serves, IsSpare, StageStands};
ghost use Rattle.rp_walker.specs.Walking.{KeepsGoing, GoesOnWell, stands_by, Stands, CanGoOn, record_of};
ghost use Rattle.rp_walker.specs.Bound.{BeginsGiving, PollWorks, RemembersBy, Spends, StepSpends, last_turn, search_seen, work_anew, work_in};
ghost use Rattle.rp_walker.specs.Polls.{left_in, entered_by, TurnsAreCounted, PollTakes, IdleTakes, GivenBy, PollLowers, Polled, Answers, StopsAtLast, GoesAlong, StartsAgain};

use crate::ahead::Ahead;
use crate::giving::{ahead_of, is_hidden, make_item, next_of, place_of};
use crate::laws::law_steps;
use crate::poll::Poll;
use crate::record::MatcherState;
use crate::run::{Run, begin, move_to, run_on};
use crate::stage::{Ended, Stage, Step};
use rp_conditions::Entries;
use rp_eval::Rows;
use rp_known::Place;
use rp_query::{Item, Query};
use rp_search::{Outcome, Steps};
use rp_words::End;
use std::alloc::{AllocError, Global};
use std::mem;
use std::sync::ledger::Ledger;

/// Where it stands in a partition's answer. It holds no rows.
pub struct Walker {
    alloc: Global,
    state: MatcherState,
    stage: Stage,
    /// How many rows its searches have entered. It is lent to each, and nothing is decided by it.
    entered: Entries,
}

/// It is let go of by a call, wherever it is held.
impl Drop for Walker {
    fn drop(self) {
        let Walker {
            alloc: _,
            state: _,
            stage: _,
            entered: _,
        } = self;
    }
}

#[tactic(auto, unfolding(crate::specs::Walking::record_of, crate::specs::Walking::Stands, crate::specs::Polls::left_in, crate::specs::Polls::entered_by, crate::specs::Bound::work_in, crate::specs::Bound::RemembersBy, crate::specs::Bound::search_seen))]
impl Walker {
    /// A walker that has known nothing.
    pub fn new(alloc: Global) -> Walker
        ensures record { record_of result ≡ first_state }
        ensures entered { entered_by result ≡ 0 }
        ensures stands { (q : QueryData) (p : Known) → Stands q p result }
        ensures work { (q : QueryData) (p : Known) (first row : ℕ) →
            work_in first row q p result ≡ work_anew first row (count p) first_state }
        ensures no_search { (q : QueryData) (p : Known) → search_seen q p result ≡ None }
    {
        Walker {
            alloc,
            state: MatcherState {
                first: 1,
                at: 1,
                matches: 0,
                covered: 0,
                here: 0,
                given: 0,
                over: false,
            },
            stage: Stage::Begin(None),
            entered: Entries::new(),
        }
    }

    /// A walker that goes on from a record.
    pub fn resume(alloc: Global, state: MatcherState) -> Walker
        ensures record { record_of result ≡ state }
        ensures entered { entered_by result ≡ 0 }
        ensures stands { (q : QueryData) (p : Known) → CanGoOn q state → Stands q p result }
        ensures work { (q : QueryData) (p : Known) (first row : ℕ) →
            work_in first row q p result ≡ work_anew first row (count p) state }
        ensures no_search { (q : QueryData) (p : Known) → search_seen q p result ≡ None }
    {
        Walker {
            alloc,
            state,
            stage: Stage::Begin(None),
            entered: Entries::new(),
        }
    }

    /// The record.
    pub fn state(&self) -> MatcherState
        ensures { result ≡ record_of self.now }
    {
        self.state
    }

    /// Rows were dropped: those from this one on are kept. Where the answer is over, its last search is let go of too.
    pub fn keep_from(&mut self, first: u64)
        ensures record { record_of self.new ≡ record (record_of self.old) { first = first } }
        ensures stands { (q : QueryData) (p : Known) →
            ((record_of self.old).over ≡ false → first ≤ first_read q (record_of self.old).at) →
            Stands q p self.old → Stands q p self.new }
        ensures left { (q : QueryData) (p : Known) → left_in q p self.new ≡ left_in q p self.old }
        ensures work { (q : QueryData) (p : Known) (first_choice row : ℕ) →
            work_in first_choice row q p self.new ≡ work_in first_choice row q p self.old }
        ensures search { (record_of self.old).over ≡ false → (first_choice row : ℕ) →
            RemembersBy first_choice row self.new → RemembersBy first_choice row self.old }
        ensures seen { (record_of self.old).over ≡ false → (q : QueryData) (p : Known) →
            search_seen q p self.new ≡ search_seen q p self.old }
        ensures let_go { (record_of self.old).over ≡ true → (q : QueryData) (p : Known) →
            search_seen q p self.new ≡ None }
        ensures entered { entered_by self.new ≡ entered_by self.old }
    {
        self.state.first = first;
        if self.state.over {
            self.stage = Stage::Begin(None);
        }
    }

    /// The first row that is still read.
    pub fn horizon<R: Rows>(&self, query: &Query, rows: &R) -> u64
        ensures { result
            ≡ horizon_of query.now (known_in R.known R.ending rows.now) (record_of self.now) }
    {
        if self.state.over {
            return rows.last() + 1;
        }
        self.state.at.saturating_sub(query.reach()).max(1)
    }

    /// Takes at most `budget` turns, until an item comes or nothing is left to give. A turn is one choice taken up, one
    /// start row ended, one row of a match looked at or one look past the last known row: `Paused` comes after just
    /// `budget` turns, an item after one at least, and so does `Idle` while the answer goes on.
    /// A budget of 0 answers `Paused`, changes nothing and takes no memory. After `AllocError` the same item is still
    /// to come, and the search begins again from its start row.
    /// Where each condition judges its row alone, no test is open and all that fails is remembered, a poll that finds no
    /// further match takes no more turns than what is left falls by, and one if it is idle.
    pub fn poll<R: Rows, L: Ledger>(
        &mut self,
        query: &Query,
        rows: &R,
        budget: u32,
        steps: &mut Steps<L>,
    ) -> Result<Poll, AllocError>
        requires stands { Stands query.now (known_in R.known R.ending rows.now) self.old }
        ensures stands { Stands query.now (known_in R.known R.ending rows.now) self.new }
        ensures answers { IfOk result (Answers query.now (known_in R.known R.ending rows.now)
            (record_of self.old) (record_of self.new)) }
        ensures moves { GoesAlong query.now (known_in R.known R.ending rows.now)
            (record_of self.old) (record_of self.new) }
        ensures stops { IfOk result (StopsAtLast query.now (known_in R.known R.ending rows.now)
            (record_of self.old) (record_of self.new)) }
        ensures stays { StaysInRows (known_in R.known R.ending rows.now)
            (record_of self.old) (record_of self.new) }
        ensures given { IfOk result (GivenBy (record_of self.old) (record_of self.new)) }
        ensures out_of_memory { OnErr result (StartsAgain query.now (known_in R.known R.ending rows.now)
            (record_of self.old).given (record_of self.new)
            (left_in query.now (known_in R.known R.ending rows.now) self.new)) }
        ensures lowers { IfOk result (PollLowers budget
            (left_in query.now (known_in R.known R.ending rows.now) self.old)
            (left_in query.now (known_in R.known R.ending rows.now) self.new)) }
        ensures works { IfOk result (PollWorks (steps.new - steps.old)
            query.now (known_in R.known R.ending rows.now) self.old self.new) }
        ensures turns { TurnsAreCounted budget steps.old steps.new (entered_by self.old) (entered_by self.new) }
        ensures takes { IfOk result (PollTakes budget steps.old steps.new) }
        ensures idles { IfOk result (IdleTakes (record_of self.old) steps.old steps.new) }
        ensures nothing { budget ≡ 0 → (result ≡ Ok Poll.Paused) × (self.new ≡ self.old) × (steps.new ≡ steps.old) }
    {
        if budget == 0 {
            return Ok(Poll::Paused);
        }
        if self.state.over {
            return Ok(Poll::Idle);
        }
        rp_known::law_known();
        rp_known::law_legs();
        law_steps();
        // It brings in that the query is sound.
        let _plan = query.plan();
        let mut entered = mem::replace(&mut self.entered, Entries::new());
        let answer = self.go_on(query, rows, budget, &mut entered, steps);
        self.entered = entered;
        answer
    }
}

impl Walker {
    /// The next row gives no item: it isn't shown, or its item was given before.
    #[inline(always)]
    fn pass(&mut self, found: Ended, ahead: Ahead, seen: u64) -> Step
        requires { ahead.next < 2 ^ 64 - 1 }
        ensures went { result ≡ Step.Went }
        ensures now { self.new ≡ record self.old { stage = GivingStage found (past_row ahead seen) } }
    {
        let next = ahead.next + 1;
        self.stage = Stage::Giving(
            found,
            Ahead {
                next,
                end: ahead.end,
                seen,
            },
        );
        Step::Went
    }

    /// The next row's item.
    fn give_item<R: Rows>(
        &mut self,
        query: &Query,
        rows: &R,
        found: Ended,
        ahead: Ahead,
    ) -> Result<Step, AllocError>
        requires going { IsGoing query.now self.old.state }
        requires gives { Gives query.now (known_in R.known R.ending rows.now)
            (place_of self.old.state) (result_of found) ahead }
        requires totals { MatchTotalled query.now (known_in R.known R.ending rows.now)
            self.old.state.at found }
        requires serves { Serves query.now (known_in R.known R.ending rows.now)
            self.old.state.at (run_of found) }
        requires due { ahead.seen ≡ self.old.state.here }
        requires more { ahead.next < ahead.end }
        requires shown { is_hidden query.now.plan.rows self.old.state.at (result_of found) ahead.next
            ≡ false }
        requires few { self.old.state.given < 2 ^ 128 - 1 }
        ensures kept { OnErr result (self.new ≡ self.old) }
        ensures keeps { IfOk result (KeepsGoing 1 query.now (known_in R.known R.ending rows.now)
            self.old.state (GivingStage found ahead) self.new) }
        ensures works { IfOk result (StepSpends 1 query.now (known_in R.known R.ending rows.now)
            self.old.state (GivingStage found ahead) self.new) }
    {
        // It brings in that row numbers have room for one more.
        let _last = rows.last();
        let place = place_of(&self.state);
        match make_item(self.alloc, query, rows, place, &found, ahead.next)? {
            None => {
                self.stage = Stage::Giving(found, ahead);
                Ok(Step::Idle)
            }
            Some(item) => {
                let next = ahead.next + 1;
                let seen = ahead.seen + 1;
                self.state.here = seen;
                self.state.given += 1;
                self.stage = Stage::Giving(
                    found,
                    Ahead {
                        next,
                        end: ahead.end,
                        seen,
                    },
                );
                Ok(Step::Gave(item))
            }
        }
    }

    /// The present start row has ended.
    #[inline(always)]
    fn end_row<R: Rows>(&mut self, query: &Query, rows: &R, found: Ended, ahead: Ahead) -> Step
        requires going { IsGoing query.now self.old.state }
        requires gives { Gives query.now (known_in R.known R.ending rows.now)
            (place_of self.old.state) (result_of found) ahead }
        requires serves { Serves query.now (known_in R.known R.ending rows.now)
            self.old.state.at (run_of found) }
        requires not_past { ahead.seen ≤ self.old.state.here }
        requires all { ahead.next ≡ ahead.end }
        requires few { self.old.state.given < 2 ^ 128 - 1 }
        ensures keeps { KeepsGoing 1 query.now (known_in R.known R.ending rows.now)
            self.old.state (GivingStage found ahead) self.new result }
        ensures works { StepSpends 1 query.now (known_in R.known R.ending rows.now)
            self.old.state (GivingStage found ahead) self.new result }
    {
        rp_known::law_legs();
        let place = place_of(&self.state);
        match next_of(query, place, rows.last(), &found) {
            Ok(next) => {
                let run = move_to(found.into_run(), next.start);
                self.go_to(next, run)
            }
            Err(fault) => {
                self.stage = Stage::Begin(Some(found.into_run()));
                self.end_with(Item::Fault(fault), ahead.seen)
            }
        }
    }

    /// The search from another row is next. It takes up this run.
    #[inline(always)]
    fn go_to(&mut self, next: Place, run: Run) -> Step
        ensures went { result ≡ Step.Went }
        ensures now { self.new ≡
            record self.old { state = at_place next self.old.state; stage = BeginStage (Some run) } }
    {
        self.state.at = next.start;
        self.state.matches = next.matches;
        self.state.covered = next.covered;
        self.state.here = 0;
        self.stage = Stage::Begin(Some(run));
        Step::Went
    }

    /// The answer ends with this item, which comes after so many of the present search. The search stays for now.
    fn end_with(&mut self, item: Item, before: u64) -> Step
        requires few { self.old.state.given < 2 ^ 128 - 1 }
        requires room { before < 2 ^ 64 - 1 }
        ensures given { self.old.state.here ≢ before → (result ≡ Step.Idle)
            × (self.new ≡ record self.old { state = was_last self.old.state }) }
        ensures gives { self.old.state.here ≡ before → (result ≡ Step.Gave item)
            × (self.new ≡ record self.old { state = gave_last before self.old.state }) }
    {
        self.state.over = true;
        if self.state.here != before {
            return Step::Idle;
        }
        self.state.here = before + 1;
        self.state.given += 1;
        Step::Gave(item)
    }

    /// Takes up the next row of a search that has ended.
    #[inline(always)]
    fn give<R: Rows, L: Ledger>(
        &mut self,
        query: &Query,
        rows: &R,
        found: Ended,
        ahead: Ahead,
        steps: &mut Steps<L>,
    ) -> Result<Step, AllocError>
        requires going { IsGoing query.now self.old.state }
        requires gives { Gives query.now (known_in R.known R.ending rows.now)
            (place_of self.old.state) (result_of found) ahead }
        requires totals { MatchTotalled query.now (known_in R.known R.ending rows.now)
            self.old.state.at found }
        requires serves { Serves query.now (known_in R.known R.ending rows.now)
            self.old.state.at (run_of found) }
        requires not_past { ahead.seen ≤ self.old.state.here }
        requires few { self.old.state.given < 2 ^ 128 - 1 }
        ensures kept { OnErr result (self.new ≡ self.old) }
        ensures keeps { IfOk result (KeepsGoing 1 query.now (known_in R.known R.ending rows.now)
            self.old.state (GivingStage found ahead) self.new) }
        ensures works { IfOk result (StepSpends 1 query.now (known_in R.known R.ending rows.now)
            self.old.state (GivingStage found ahead) self.new) }
        ensures steps { steps.new ≡ steps.old + 1 }
    {
        // It brings in that row numbers have room for one more.
        let _last = rows.last();
        steps.tick();
        if ahead.next == ahead.end {
            return Ok(self.end_row(query, rows, found, ahead));
        }
        if is_hidden(query, self.state.at, &found, ahead.next) {
            return Ok(self.pass(found, ahead, ahead.seen));
        }
        if ahead.seen < self.state.here {
            return Ok(self.pass(found, ahead, ahead.seen + 1));
        }
        self.give_item(query, rows, found, ahead)
    }

    /// The search has ended.
    #[inline(always)]
    fn begin_giving<R: Rows>(&mut self, query: &Query, rows: &R, found: Ended) -> Step
        requires going { IsGoing query.now self.old.state }
        requires known { self.old.state.at ≤ length (R.known rows.now) }
        requires found { found_at query.now (known_in R.known R.ending rows.now) self.old.state.at
            ≡ result_of found }
        requires totals { MatchTotalled query.now (known_in R.known R.ending rows.now)
            self.old.state.at found }
        requires serves { Serves query.now (known_in R.known R.ending rows.now)
            self.old.state.at (run_of found) }
        ensures keeps { (run : Run) (taken : ℕ) →
            taken ≤ left_by run.search.value (asked_by query.now (known_in R.known R.ending rows.now)) + 1 →
            KeepsGoing taken query.now (known_in R.known R.ending rows.now)
            self.old.state (SearchingStage run) self.new result }
        ensures went { result ≡ Step.Went }
        ensures gives { BeginsGiving (known_in R.known R.ending rows.now) found self.old self.new }
    {
        rp_known::law_legs();
        let place = place_of(&self.state);
        let ahead = ahead_of(query, place, rows.last(), &found);
        self.stage = Stage::Giving(found, ahead);
        Step::Went
    }

    /// Takes at most `budget` turns of the search, and tells how many.
    #[inline(always)]
    fn search<R: Rows, L: Ledger>(
        &mut self,
        query: &Query,
        rows: &R,
        run: Run,
        budget: u32,
        entered: &mut Entries,
        steps: &mut Steps<L>,
    ) -> Result<(Step, u32), AllocError>
        requires some { 0 < budget }
        requires going { IsGoing query.now self.old.state }
        requires searches { Searches query.now (known_in R.known R.ending rows.now) self.old.state.at run }
        ensures kept { OnErr result (self.new ≡ self.old) }
        ensures keeps { IfOk result (λ r. KeepsGoing r.1 query.now (known_in R.known R.ending rows.now)
            self.old.state (SearchingStage run) self.new r.0) }
        ensures works { IfOk result (λ r. StepSpends r.1 query.now (known_in R.known R.ending rows.now)
            self.old.state (SearchingStage run) self.new r.0) }
        ensures taken { IfOk result (λ r. (0 < r.1) × (steps.new ≡ steps.old + r.1)) }
        ensures turns { TurnsAreCounted budget steps.old steps.new entered.old entered.new }
    {
        let (outcome, run) = run_on(query, rows, self.state.at, run, budget, entered, steps)?;
        let taken = run.search.turns_taken();
        match outcome {
            Outcome::Paused => {
                self.stage = Stage::Searching(run);
                Ok((Step::Went, taken))
            }
            Outcome::Waits => {
                self.stage = Stage::Searching(run);
                Ok((Step::Idle, taken))
            }
            Outcome::Match => Ok((self.begin_giving(query, rows, Ended::Match(run)), taken)),
            Outcome::NoMatch => Ok((self.begin_giving(query, rows, Ended::NoMatch(run)), taken)),
        }
    }

    /// Past the last start row.
    fn at_last<R: Rows>(&mut self, query: &Query, rows: &R) -> Step
        requires going { IsGoing query.now self.old.state }
        requires stands { StageStands query.now (known_in R.known R.ending rows.now)
            self.old.state self.old.stage }
        requires past { length (R.known rows.now) < self.old.state.at }
        requires few { self.old.state.given < 2 ^ 128 - 1 }
        ensures keeps { KeepsGoing 1 query.now (known_in R.known R.ending rows.now)
            self.old.state self.old.stage self.new result }
        ensures works { StepSpends 1 query.now (known_in R.known R.ending rows.now)
            self.old.state self.old.stage self.new result }
    {
        match rows.end() {
            End::Open => Step::Idle,
            End::Closed => self.end_with(Item::End, 0),
        }
    }

    /// Begins at a start row, with at most `budget` turns, and tells how many.
    #[inline(always)]
    fn begin_row<R: Rows, L: Ledger>(
        &mut self,
        query: &Query,
        rows: &R,
        spare: Option<Run>,
        budget: u32,
        entered: &mut Entries,
        steps: &mut Steps<L>,
    ) -> Result<(Step, u32), AllocError>
        requires some { 0 < budget }
        requires going { IsGoing query.now self.old.state }
        requires stage { self.old.stage ≡ BeginStage None }
        requires spare { IsSpare query.now (known_in R.known R.ending rows.now) self.old.state.at spare }
        requires few { self.old.state.given < 2 ^ 128 - 1 }
        ensures kept { OnErr result (self.new ≡ self.old) }
        ensures keeps { IfOk result (λ r. KeepsGoing r.1 query.now (known_in R.known R.ending rows.now)
            self.old.state (BeginStage spare) self.new r.0) }
        ensures works { IfOk result (λ r. StepSpends r.1 query.now (known_in R.known R.ending rows.now)
            self.old.state (BeginStage spare) self.new r.0) }
        ensures taken { IfOk result (λ r. (0 < r.1) × (steps.new ≡ steps.old + r.1)) }
        ensures turns { TurnsAreCounted budget steps.old steps.new entered.old entered.new }
    {
        rp_search::law_search();
        if rows.last() < self.state.at {
            steps.tick();
            self.stage = Stage::Begin(spare);
            return Ok((self.at_last(query, rows), 1));
        }
        let run = begin(self.alloc, query, rows, self.state.at, spare)?;
        self.search(query, rows, run, budget, entered, steps)
    }

    /// Takes at most `budget` turns, those of a search at once, and tells how many. What a turn does is inlined, since its
    /// stage and the run would else be moved from call to call.
    #[inline(always)]
    fn advance<R: Rows, L: Ledger>(
        &mut self,
        query: &Query,
        rows: &R,
        budget: u32,
        entered: &mut Entries,
        steps: &mut Steps<L>,
    ) -> Result<(Step, u32), AllocError>
        requires some { 0 < budget }
        requires stands { GoesOnWell query.now (known_in R.known R.ending rows.now) self.old }
        requires few { self.old.state.given < 2 ^ 128 - 1 }
        ensures kept { OnErr result (self.new ≡ record self.old { stage = BeginStage None }) }
        ensures keeps { IfOk result (λ r. KeepsGoing r.1 query.now (known_in R.known R.ending rows.now)
            self.old.state self.old.stage self.new r.0) }
        ensures works { IfOk result (λ r. StepSpends r.1 query.now (known_in R.known R.ending rows.now)
            self.old.state self.old.stage self.new r.0) }
        ensures taken { IfOk result (λ r. (0 < r.1) × (steps.new ≡ steps.old + r.1)) }
        ensures turns { TurnsAreCounted budget steps.old steps.new entered.old entered.new }
    {
        match mem::replace(&mut self.stage, Stage::Begin(None)) {
            Stage::Begin(spare) => self.begin_row(query, rows, spare, budget, entered, steps),
            Stage::Searching(run) => self.search(query, rows, run, budget, entered, steps),
            Stage::Giving(found, ahead) => {
                let step = self.give(query, rows, found, ahead, steps)?;
                Ok((step, 1))
            }
        }
    }

    /// Takes at most so many turns, until an item comes or there is nothing to do.
    fn go_on<R: Rows, L: Ledger>(
        &mut self,
        query: &Query,
        rows: &R,
        budget: u32,
        entered: &mut Entries,
        steps: &mut Steps<L>,
    ) -> Result<Poll, AllocError>
        requires stands { GoesOnWell query.now (known_in R.known R.ending rows.now) self.old }
        ensures stands { stands_by self.new.state.over
            query.now (known_in R.known R.ending rows.now) self.new }
        ensures in_rows { PlaceStays (known_in R.known R.ending rows.now) self.old.state self.new.state }
        ensures first { self.new.state.first ≡ self.old.state.first }
        ensures given { IfOk result (GivenBy self.old.state self.new.state) }
        ensures kept { OnErr result
            ((self.new.state.given ≡ self.old.state.given) × (self.new.stage ≡ BeginStage None)) }
        ensures lowers { IfOk result (PollLowers budget
            (left_with query.now (known_in R.known R.ending rows.now) self.old.state self.old.stage)
            (left_with query.now (known_in R.known R.ending rows.now) self.new.state self.new.stage)) }
        ensures polled { IfOk result (λ answer.
            IsWithin query.now (known_in R.known R.ending rows.now) self.old.state →
            Polled query.now (known_in R.known R.ending rows.now) self.old.state self.new.state answer) }
        ensures moves { IsWithin query.now (known_in R.known R.ending rows.now) self.old.state →
            Moves query.now (known_in R.known R.ending rows.now) self.old.state self.new.state }
        ensures works { IfOk result (λ answer. Spends (steps.new - steps.old) (last_turn answer)
            query.now (known_in R.known R.ending rows.now)
            self.old.state self.old.stage self.new.state self.new.stage) }
        ensures turns { TurnsAreCounted budget steps.old steps.new entered.old entered.new }
        ensures takes { IfOk result (PollTakes budget steps.old steps.new) }
        ensures idles { IfOk result (IdleTakes self.old.state steps.old steps.new) }
    {
        rp_known::law_legs();
        let mut left = budget;
        while left > 0 {
            if self.state.over || self.state.given == u128::MAX {
                return Ok(Poll::Idle);
            }
            let (step, taken) = self.advance(query, rows, left, entered, steps)?;
            left -= taken;
            match step {
                Step::Went => {}
                Step::Gave(item) => return Ok(Poll::Item(self.state.given, item)),
                Step::Idle => return Ok(Poll::Idle),
            }
        }
        Ok(Poll::Paused)
    }
}
