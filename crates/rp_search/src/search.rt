//! A search takes up one choice a turn. Between its runs it keeps the choices that are not given up, and one list of labels
//! that is cut back to the choice at hand.
//!
//! While the test of the last label's row is open, the labels before it are tested true, and the search keeps an outlook
//! over what would follow that row: only if a word does is there anything to wait for. What is explored then counts as
//! left in place of the choice itself. A later run asks the open test again first.
ghost use Rattle.std.specs.Prelude.{◌≡◌, ◌-◌, ◌+◌, ◌<◌, ◌≤◌, [], None, IfOk, OnOk, OnErr};
ghost use Rattle.rp_words.specs.PatternForm.{form_of};

mod explore;

use crate::asking::{cut_back, enter_row, is_tested, settle};
use crate::conditions::Tests;
use crate::memo::{Mark, Memo, is_awake, mark_of, turns_asleep};
use crate::steps::Steps;
use rp_pattern::{Choices, Outlook, Prepared, Taken};
use rp_words::{Label, Pattern, Seen};
use std::alloc::{AllocError, Global};
use std::sync::ledger::Ledger;

/// What a run of a search came to.
#[derive(Clone, Copy, PartialEq, Eq)]
pub enum Outcome {
    /// The first word that the tests don't refuse is full, and all its rows are admitted.
    Match,
    /// The tests refuse each word.
    NoMatch,
    /// The first word that the tests don't refuse is undecided: it runs into the row after the last known one, or the
    /// test of one of its rows is open.
    Waits,
    /// The budget was used up.
    Paused,
}

/// A search for the first word of a pattern from a start row that the tests don't refuse. It may be paused and waits
/// for further rows, and goes on from where it stood.
pub struct Search {
    /// The choices not given up.
    choices: Choices,
    /// Where the test of the row that the preferred choice maps is open: what would follow that row. Only if there is
    /// such a word is the search undecided.
    outlook: Option<Outlook>,
    /// Where it failed, of tests that name their pattern.
    memo: Memo,
    /// The turns of the last run that had a budget and didn't run out of memory.
    taken: u32,
    /// Those of all such runs since it was made. Only after the first ones does it remember where it failed.
    turns: u32,
}

/// It is let go of by a call, wherever it is held.
impl Drop for Search {
    fn drop(self) {
        let Search {
            choices: _,
            outlook: _,
            memo: _,
            taken: _,
            turns: _,
        } = self;
    }
}

#[tactic(auto, unfolding(crate::specs::Search::start_of_search, crate::specs::Search::labels_of_search, crate::specs::Search::words_from, crate::specs::Search::turns_from, crate::specs::Search::turns_of_run, crate::specs::Fits::left_by, crate::specs::Fits::ChoicesStand, crate::specs::Fits::LabelsStand, crate::specs::Fits::LabelsBelow, crate::specs::Fits::MemoStands, crate::specs::Fits::MarksStand))]
impl Search {
    ghost use Rattle.rp_words.specs.declared.form.Form.{Form};
    ghost use Rattle.rp_pattern.specs.Prepared.{Prepares};
    ghost use Rattle.rp_words.specs.Numbers.{most_u64};
    ghost use Rattle.rp_pattern.specs.Choices.{kept, start_of, top_weight};
    ghost use Rattle.rp_pattern.specs.Ways.{IsNumbered, all_weight};
    ghost use Rattle.rp_search.specs.Bound.{BeginsWork, LastsForEver, MovesWork, RunWorks, Works, turns_before};
    ghost use Rattle.rp_search.specs.Fits.{MarksStand, MemoStands, SearchFits, left_by};
    ghost use Rattle.rp_search.specs.Lasting.{OpensAlike};
    ghost use Rattle.rp_search.specs.Memo.{IsDeadTop, MeantBy};
    ghost use Rattle.rp_search.specs.Search.{RunAnswers, CanRun, IsAtStart, HasMoved, IsSearchFor, IsForSamePattern, IsSameSearch, Lowers, TakesTurns, labels_of_search, start_of_search, turns_of_run};
    ghost use Rattle.rp_search.specs.Turned.{Anyway, CanMark, CanTurn, CountsTurns, Covers, FailsForEver, IsRunning, MapsNewRow, RisesAtMost, SearchSpent, TookTurn};
    ghost use Rattle.rp_search.specs.Work.{LastsAll, NoneIsOpen, added_by, unmarked};

    /// A search from the row `start`, which is at least 1.
    pub fn new(alloc: Global, pattern: &Pattern, start: u64) -> Result<Search, AllocError>
        requires { 1 ≤ start }
        ensures pattern { IfOk result (IsSearchFor (form_of pattern.now)) }
        ensures start { IfOk result (λ s. start_of_search s ≡ start) }
        ensures at_start { IfOk result IsAtStart }
        ensures works { IfOk result BeginsWork }
    {
        Ok(Search {
            choices: Choices::new(alloc, pattern, start)?,
            outlook: None,
            memo: Memo::new(alloc),
            taken: 0,
            turns: 0,
        })
    }

    /// The same, for a pattern that was made ready: searches share it.
    pub fn of(alloc: Global, prepared: &Prepared, start: u64) -> Result<Search, AllocError>
        requires { 1 ≤ start }
        ensures pattern { IfOk result (λ s. (f : Form) → Prepares f prepared.now → IsSearchFor f s) }
        ensures start { IfOk result (λ s. start_of_search s ≡ start) }
        ensures at_start { IfOk result IsAtStart }
        ensures works { IfOk result BeginsWork }
    {
        Ok(Search {
            choices: Choices::of(alloc, prepared, start)?,
            outlook: None,
            memo: Memo::new(alloc),
            taken: 0,
            turns: 0,
        })
    }

    /// Begins at another row, as a new search for the same pattern does, for which no turns are counted yet. It takes no
    /// memory, and keeps the room that it has. Tests that are used further are to be cut back to no label.
    pub fn restart(&mut self, start: u64)
        requires { 1 ≤ start }
        ensures pattern { IsForSamePattern self.old self.new }
        ensures start { start_of_search self.new ≡ start }
        ensures at_start { IsAtStart self.new }
        ensures works { BeginsWork self.new }
        ensures anew { turns_before self.new ≡ 0 }
    {
        self.choices.restart(start);
        self.outlook = None;
        self.memo.forget();
        self.turns = 0;
    }

    /// Begins at another row, as `restart` does, and remembers where it failed, for tests that go on.
    pub fn move_to(&mut self, start: u64)
        requires { 1 ≤ start }
        ensures pattern { IsForSamePattern self.old self.new }
        ensures start { start_of_search self.new ≡ start }
        ensures moved { HasMoved self.old self.new }
        ensures works { MovesWork self.old self.new }
    {
        self.memo.move_on(self.choices.start(), start);
        self.choices.restart(start);
        self.outlook = None;
    }

    /// Takes at most `budget` turns: a turn is one choice taken up.
    ///
    /// A budget of 0 answers `Paused`, changes nothing and takes no memory. After `Waits` a later run, over tests that
    /// extend these, goes on from the word where the search waited. After `AllocError` the search stands at its start
    /// row again, and the tests are cut back to no label.
    pub fn run<T: Tests, L: Ledger>(
        &mut self,
        tests: &mut T,
        budget: u32,
        steps: &mut Steps<L>,
    ) -> Result<Outcome, AllocError>
        requires { CanRun self.old (T.asked (T.subject tests.old)) (T.entered tests.old) }

        ensures same { IsSameSearch self.old self.new }
        ensures subject { T.subject tests.new ≡ T.subject tests.old }
        ensures fits { SearchFits self.new (T.asked (T.subject tests.old)) }
        ensures entered { T.entered tests.new (start_of_search self.new) (labels_of_search self.new) }
        ensures answers { IfOk result (RunAnswers self.old self.new (T.asked (T.subject tests.old))) }

        ensures turns { TakesTurns budget result steps.old steps.new (T.entries tests.old) (T.entries tests.new) }
        ensures left { IfOk result (Lowers (steps.new - steps.old) self.old self.new (T.asked (T.subject tests.old))) }
        ensures taken { 0 < budget → OnOk result (steps.new ≡ steps.old + turns_of_run self.new) }
        ensures works { IfOk result (λ outcome. T.always (T.subject tests.old) → NoneIsOpen (T.asked (T.subject tests.old)) →
            RunWorks (steps.new - steps.old) self.old self.new (T.asked (T.subject tests.old)) outcome) }

        ensures nothing { budget ≡ 0 →
            (result ≡ Ok Outcome.Paused) × (self.new ≡ self.old) × (tests.new ≡ tests.old) × (steps.new ≡ steps.old) }
        ensures after_refusal { OnErr result (IsAtStart self.new) }
        ensures lasts { OnOk result (T.always (T.subject tests.old) → LastsForEver self.old → LastsForEver self.new) }
    {
        if budget == 0 {
            return Ok(Outcome::Paused);
        }
        let before = self.turns;
        let rows = tests.known().saturating_sub(self.choices.start());
        let asleep = turns_asleep(rows, before);
        match self.go_on(tests, budget, asleep, steps) {
            Ok((outcome, taken)) => {
                self.taken = taken;
                self.turns = before.saturating_add(taken);
                Ok(outcome)
            }
            Err(refused) => {
                self.begin_again(tests);
                Err(refused)
            }
        }
    }

    /// After a match, its labels.
    pub fn labels(&self) -> &[Label]
        ensures { result.now ≡ labels_of_search self.now }
    {
        self.choices.labels()
    }

    /// The row that the search begins at.
    pub fn start(&self) -> u64
        ensures { result ≡ start_of_search self.now }
    {
        self.choices.start()
    }

    /// How many turns the last run took that had a budget and didn't run out of memory.
    pub fn turns_taken(&self) -> u32
        ensures { result ≡ turns_of_run self.now }
    {
        self.taken
    }

    fn begin_again<T: Tests>(&mut self, tests: &mut T)
        requires { 1 ≤ start_of_search self.old }
        ensures same { IsSameSearch self.old self.new }
        ensures subject { T.subject tests.new ≡ T.subject tests.old }
        ensures entries { T.entries tests.new ≡ T.entries tests.old }
        ensures entered { T.entered tests.new (start_of_search self.new) [] }
        ensures at_start { IsAtStart self.new }
    {
        self.choices.reset();
        self.outlook = None;
        self.memo.forget();
        tests.cut(0);
    }

    /// Takes at most `budget` turns, and tells how many. In so many of them nothing is remembered.
    fn go_on<T: Tests, L: Ledger>(
        &mut self,
        tests: &mut T,
        budget: u32,
        asleep: u64,
        steps: &mut Steps<L>,
    ) -> Result<(Outcome, u32), AllocError>
        requires some { 0 < budget }
        requires can_run { CanRun self.old (T.asked (T.subject tests.old)) (T.entered tests.old) }

        ensures same { IsSameSearch self.old self.new }
        ensures subject { T.subject tests.new ≡ T.subject tests.old }
        ensures running { OnOk result (IsRunning self.new (T.asked (T.subject tests.old)) (T.entered tests.new)) }
        ensures answers { IfOk result (λ r. RunAnswers self.old self.new (T.asked (T.subject tests.old)) r.0) }
        ensures left { IfOk result (λ r. Lowers r.1 self.old self.new (T.asked (T.subject tests.old)) r.0) }
        ensures counted { IfOk result (λ r. CountsTurns budget r.0 r.1 steps.old steps.new) }
        ensures within { RisesAtMost budget steps.old steps.new }
        ensures entries { (T.entries tests.old ≤ T.entries tests.new)
            × (T.entries tests.new + steps.old ≤ T.entries tests.old + steps.new) }
        ensures works { let s = T.subject tests.old in IfOk result (λ r. T.always s → NoneIsOpen (T.asked s) →
            Works asleep r.1 self.old self.new (T.asked s) r.0) }
        ensures lasts { OnOk result (T.always (T.subject tests.old) → LastsAll self.old.memo → LastsAll self.new.memo) }
    {
        self.resume(tests)?;
        for turn in 0..budget {
            steps.tick();
            let remembers = is_awake(asleep, turn);
            let outcome = self.turn(remembers, tests)?;
            if outcome != Outcome::Paused {
                return Ok((outcome, turn + 1));
            }
        }
        Ok((Outcome::Paused, budget))
    }

    /// Where a test was open, it is asked again.
    fn resume<T: Tests>(&mut self, tests: &mut T) -> Result<(), AllocError>
        requires { CanRun self.old (T.asked (T.subject tests.old)) (T.entered tests.old) }

        ensures same { IsSameSearch self.old self.new }
        ensures subject { T.subject tests.new ≡ T.subject tests.old }
        ensures entries { T.entries tests.new ≡ T.entries tests.old }
        ensures running { OnOk result (IsRunning self.new (T.asked (T.subject tests.old)) (T.entered tests.new)) }
        ensures left { OnOk result
            (left_by self.new (T.asked (T.subject tests.old)) ≤ left_by self.old (T.asked (T.subject tests.old))) }
        ensures spent { let a = T.asked (T.subject tests.old) in
            OnOk result (NoneIsOpen a → SearchSpent 0 0 self.old self.new a) }
        ensures lasts { OnOk result (T.always (T.subject tests.old) → LastsAll self.old.memo → LastsAll self.new.memo) }
    {
        let Some(outlook) = self.outlook.take() else {
            return Ok(());
        };
        let mut until = self.memo.looks(self.choices.start());
        match settle(&mut self.choices, tests, &mut until)? {
            Seen::Open => {
                self.outlook = Some(outlook);
                Ok(())
            }
            Seen::True | Seen::NotTrue => {
                self.memo.spend(self.choices.start(), until);
                self.memo.note_failures(until, &self.choices, tests);
                Ok(())
            }
        }
    }

    /// Takes up one choice. It answers `Paused` where the search isn't at its end.
    fn turn<T: Tests>(&mut self, remembers: bool, tests: &mut T) -> Result<Outcome, AllocError>
        requires can_turn { CanTurn self.old (T.asked (T.subject tests.old)) (T.entered tests.old) }

        ensures same { IsSameSearch self.old self.new }
        ensures subject { T.subject tests.new ≡ T.subject tests.old }
        ensures entries { RisesAtMost 1 (T.entries tests.old) (T.entries tests.new) }
        ensures running { OnOk result (IsRunning self.new (T.asked (T.subject tests.old)) (T.entered tests.new)) }
        ensures took { let s = T.subject tests.old in
            IfOk result (TookTurn (added_by remembers) (T.always s) (T.always s) self.old self.new (T.asked s)) }
    {
        // To take an outlook out moves it, so most turns only look whether there is one.
        if self.outlook.is_none() {
            return self.take_up(remembers, tests);
        }
        self.go_further(remembers, tests)
    }

    /// Takes up the preferred choice.
    #[inline(always)]
    fn take_up<T: Tests>(&mut self, remembers: bool, tests: &mut T) -> Result<Outcome, AllocError>
        requires can_turn { CanTurn self.old (T.asked (T.subject tests.old)) (T.entered tests.old) }
        requires none { self.old.outlook ≡ None }

        ensures same { IsSameSearch self.old self.new }
        ensures subject { T.subject tests.new ≡ T.subject tests.old }
        ensures entries { RisesAtMost 1 (T.entries tests.old) (T.entries tests.new) }
        ensures running { OnOk result (IsRunning self.new (T.asked (T.subject tests.old)) (T.entered tests.new)) }
        ensures took { let s = T.subject tests.old in
            IfOk result (TookTurn (added_by remembers) (T.always s) (T.always s) self.old self.new (T.asked s)) }
    {
        let mark = mark_of(remembers, &self.choices, tests);
        let until = self.memo.failed_until(mark);
        if self.choices.start() < until {
            self.pass_over(until, tests);
            return Ok(Outcome::Paused);
        }
        self.take_up_at(mark, tests)
    }

    /// Gives the preferred choice up, since each of its words is refused, as from each start row below that one.
    fn pass_over<T: Tests>(&mut self, until: u64, tests: &mut T)
        requires can_turn { CanTurn self.old (T.asked (T.subject tests.old)) (T.entered tests.old) }
        requires none { self.old.outlook ≡ None }
        requires dead { IsDeadTop until self.old.choices (T.asked (T.subject tests.old)) }
        requires alike { OpensAlike (MeantBy self.old.choices) (T.asked (T.subject tests.old)) }

        ensures same { IsSameSearch self.old self.new }
        ensures subject { T.subject tests.new ≡ T.subject tests.old }
        ensures entries { T.entries tests.new ≡ T.entries tests.old }
        ensures running { IsRunning self.new (T.asked (T.subject tests.old)) (T.entered tests.new) }
        ensures left { left_by self.new (T.asked (T.subject tests.old)) + 1 ≤ left_by self.old (T.asked (T.subject tests.old)) }
        ensures spent { SearchSpent 1 0 self.old self.new (T.asked (T.subject tests.old)) }
        ensures lasts { start_of self.old.choices < most_u64 → most_u64 ≤ until → LastsAll self.old.memo → LastsAll self.new.memo }
    {
        self.choices.give_up();
        cut_back(&self.choices, tests);
        self.memo.note_failures(until, &self.choices, tests);
    }

    /// Takes up the preferred choice, which leaves the mark, if there is one, when it is split.
    #[inline(always)]
    fn take_up_at<T: Tests>(
        &mut self,
        mark: Option<Mark>,
        tests: &mut T,
    ) -> Result<Outcome, AllocError>
        requires can_turn { CanTurn self.old (T.asked (T.subject tests.old)) (T.entered tests.old) }
        requires none { self.old.outlook ≡ None }
        requires can_mark { CanMark mark self.old (T.asked (T.subject tests.old)) }

        ensures same { IsSameSearch self.old self.new }
        ensures subject { T.subject tests.new ≡ T.subject tests.old }
        ensures entries { RisesAtMost 1 (T.entries tests.old) (T.entries tests.new) }
        ensures running { OnOk result (IsRunning self.new (T.asked (T.subject tests.old)) (T.entered tests.new)) }
        ensures took { let s = T.subject tests.old in
            IfOk result (TookTurn (unmarked mark) Anyway (T.always s × FailsForEver mark) self.old self.new (T.asked s)) }
        ensures most { IsNumbered (kept self.old.choices) → top_weight self.old.choices ≤ all_weight (kept self.old.choices) }
    {
        match self.choices.take_up(tests.known(), tests.end())? {
            Taken::Row => {
                self.map_row(tests)?;
                Ok(Outcome::Paused)
            }
            Taken::Split => {
                // Without the mark the search goes on as well, and remembers less.
                let _ = self.memo.set(mark);
                cut_back(&self.choices, tests);
                self.memo.note_failures(u64::MAX, &self.choices, tests);
                Ok(Outcome::Paused)
            }
            Taken::Full => {
                cut_back(&self.choices, tests);
                Ok(Outcome::Match)
            }
            Taken::Open => {
                cut_back(&self.choices, tests);
                Ok(Outcome::Waits)
            }
            Taken::Nothing => {
                cut_back(&self.choices, tests);
                Ok(Outcome::NoMatch)
            }
        }
    }

    /// The preferred choice maps a new row: its label is entered, and its test asked. No word has a label that isn't
    /// tested, so a choice that begins with one has no words and is given up.
    #[inline(always)]
    fn map_row<T: Tests>(&mut self, tests: &mut T) -> Result<(), AllocError>
        requires covers { Covers (T.asked (T.subject tests.old)) self.old }
        requires none { self.old.outlook ≡ None }
        requires maps { MapsNewRow self.old.choices (T.asked (T.subject tests.old)) (T.entered tests.old) }
        requires memo { MemoStands self.old (T.asked (T.subject tests.old)) }
        requires marks { MarksStand self.old (T.asked (T.subject tests.old)) }

        ensures same { IsSameSearch self.old self.new }
        ensures subject { T.subject tests.new ≡ T.subject tests.old }
        ensures entries { RisesAtMost 1 (T.entries tests.old) (T.entries tests.new) }
        ensures running { OnOk result (IsRunning self.new (T.asked (T.subject tests.old)) (T.entered tests.new)) }
        ensures left { OnOk result
            (left_by self.new (T.asked (T.subject tests.old)) + 1 ≤ left_by self.old (T.asked (T.subject tests.old))) }
        ensures spent { let a = T.asked (T.subject tests.old) in
            OnOk result (NoneIsOpen a → SearchSpent 1 0 self.old self.new a) }
        ensures lasts { OnOk result (T.always (T.subject tests.old) → LastsAll self.old.memo → LastsAll self.new.memo) }
    {
        if !is_tested(&self.choices, tests) {
            self.choices.give_up();
            cut_back(&self.choices, tests);
            self.memo.note_failures(u64::MAX, &self.choices, tests);
            return Ok(());
        }
        enter_row(&self.choices, tests)?;
        let mut until = self.memo.looks(self.choices.start());
        match settle(&mut self.choices, tests, &mut until)? {
            Seen::Open => {
                self.outlook = Some(self.choices.after_row()?);
                Ok(())
            }
            Seen::True | Seen::NotTrue => {
                self.memo.spend(self.choices.start(), until);
                self.memo.note_failures(until, &self.choices, tests);
                Ok(())
            }
        }
    }
}
