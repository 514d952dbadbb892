//! What a search remembers of where it failed: a memo table over places of the pattern and rows.
//!
//! Each choice that is split leaves a mark below the choices that it gives way to. When none of them is left, no word of its place
//! is left either: the place has failed at that row, and a choice that comes to it again is given up at once.
//!
//! It fails so for some time. Each row that is refused tells below which start row it is refused as well: all of them where the
//! test judges its row alone, the next ones as long as a bound on the first row's value is passed, this one alone, or not even
//! that. So a mark keeps the least of what was told above it, and the table keeps it with the place and the row.
//!
//! Only of tests that name their pattern anything is remembered, since what was noted is used from later start rows too.
//!
//! To remember is no duty: where memory is refused, a search goes on without. And it pays only where a search goes back, so nothing is
//! remembered of its first turns: a thousand, and some for each known row that it may go forward to. The choices that were split in
//! them have no mark.
ghost use Rattle.std.specs.Prelude.{◌≡◌, ℕ, suc, [], ◌+◌, ◌-◌, ◌<◌, ◌≤◌, ◌⊎◌, true, min, nat_le, length, None, IfSome, IsSome, MatchBool, OnErr, OnOk, OnSome};
ghost use Rattle.rp_words.specs.Numbers.{most_u64};
ghost use Rattle.rp_pattern.specs.Choices.{height, kept, start_of, top_weight};
ghost use Rattle.rp_pattern.specs.Ways.{IsNumbered};
ghost use Rattle.rp_search.specs.Lasting.{OfPattern, OpensAlike};
ghost use Rattle.rp_search.specs.Memo.{IsBlank, IsMarkOfTop, IsOf, Remembers, RemembersUpTo, StillRemembers, failed_until, lessened, marked_on};
ghost use Rattle.rp_search.specs.Table.{until_of};
ghost use Rattle.rp_search.specs.Work.{KeepsAll, LastsAll, NoneOrEver, NotesAll, TakeLess, first_turns};

use crate::conditions::Tests;
use crate::table::Table;
use rp_pattern::{Choices, Stack};
use std::alloc::{AllocError, Global};

/// So many turns of a search are taken before anything is remembered, however few rows there are.
const FIRST_TURNS: u64 = 1_000;

/// And so many for each known row after its start row. One that only goes forward takes fewer, so it has no mark to set.
const FIRST_TURNS_OF_A_ROW: u64 = 4;

/// Where a choice was split.
#[derive(Clone, Copy)]
pub(crate) struct Mark {
    /// So many choices are below it.
    height: usize,
    place: u32,
    row: u64,
    /// What failed above it fails from each start row below this one.
    until: u64,
}

/// Where a search has failed, and the marks of where it is about to.
#[derive(Drop)]
pub(crate) struct Memo {
    marks: Stack<Mark>,
    failed: Table,
    /// So many start rows may be looked at, to see how long a refusal lasts.
    allowed: u64,
    /// Since it forgot all, memory was refused or there was no room for more, so that something that failed isn't remembered.
    lost: bool,
    /// Since it forgot all, something failed that doesn't fail for ever.
    passing: bool,
}

/// How many turns of a run are taken before anything is remembered, with so many known rows after the start row and so many turns
/// before the run.
pub(crate) fn turns_asleep(rows: u64, before: u32) -> u64
    ensures { result ≡ min (first_turns rows) most_u64 - before }
{
    FIRST_TURNS_OF_A_ROW
        .saturating_mul(rows)
        .saturating_add(FIRST_TURNS)
        .saturating_sub(u64::from(before))
}

/// Whether a search remembers in the next turn of a run, after so many of it.
#[inline]
pub(crate) fn is_awake(asleep: u64, turns: u32) -> bool
    ensures { result ≡ nat_le asleep turns }
{
    asleep <= u64::from(turns)
}

/// The mark that the preferred choice leaves when it is split, or None where nothing is remembered, or may be.
#[inline]
pub(crate) fn mark_of<T: Tests>(remembers: bool, choices: &Choices, tests: &T) -> Option<Mark>
    ensures mark { IfSome result (λ mark. OpensAlike (OfPattern (T.asked (T.subject tests.now)).pattern) (T.asked (T.subject tests.now))
        × IsMarkOfTop choices.now mark) }
    ensures named { OnSome result (IsSome (T.asked (T.subject tests.now)).pattern) }
    ensures none { T.always (T.subject tests.now) → remembers ≡ true → IsNumbered (kept choices.now) →
        result ≡ None → top_weight choices.now ≡ 0 }
    ensures ever { IfSome result (λ mark. most_u64 ≤ mark.until) }
{
    if !remembers {
        return None;
    }
    if !tests.is_lasting() {
        return None;
    }
    match choices.split_point() {
        None => None,
        Some(split) => Some(Mark {
            height: split.height,
            place: split.place,
            row: split.row,
            until: u64::MAX,
        }),
    }
}

impl Memo {
    /// Nothing is remembered. It takes no memory.
    pub(crate) fn new(alloc: Global) -> Memo
        ensures blank { IsBlank result }
        ensures keeps { KeepsAll result }
        ensures lasts { LastsAll result }
    {
        Memo {
            marks: Stack::new(alloc),
            failed: Table::new(alloc),
            allowed: 0,
            lost: false,
            passing: false,
        }
    }

    /// Below which start row the place of the mark has failed at its row.
    #[inline]
    pub(crate) fn failed_until(&self, mark: Option<Mark>) -> u64
        ensures { result ≡ failed_until self.now mark }
    {
        match mark {
            None => 0,
            Some(mark) => self.failed.until(mark.place, mark.row),
        }
    }

    /// How many start rows may be looked at, to see how long a refusal lasts: a few a row that is mapped, less those that were, and no
    /// more than what failed above the last mark fails from. None where it needn't be known.
    pub(crate) fn looks(&mut self, start: u64) -> u64
        ensures marks { self.new.marks ≡ self.old.marks }
        ensures failed { self.new.failed ≡ self.old.failed }
        ensures keeps { KeepsAll self.new → KeepsAll self.old }
        ensures lasts { LastsAll self.old → LastsAll self.new }
        ensures asks { LastsAll self.old → (self.new.marks ≡ []) ⊎ (0 < result) }
    {
        let Some(mark) = self.marks.top() else {
            return 0;
        };
        let until = mark.until;
        self.allowed = self.allowed.saturating_add(4);
        if until == u64::MAX {
            return self.allowed;
        }
        self.allowed.min(until.saturating_sub(start))
    }

    /// From the start row to that one start rows were looked at.
    pub(crate) fn spend(&mut self, start: u64, until: u64)
        ensures marks { self.new.marks ≡ self.old.marks }
        ensures failed { self.new.failed ≡ self.old.failed }
        ensures keeps { KeepsAll self.new → KeepsAll self.old }
        ensures lasts { LastsAll self.old → LastsAll self.new }
    {
        if until < u64::MAX {
            self.allowed = self.allowed.saturating_sub(until.saturating_sub(start));
        }
    }

    /// Sets the mark. Where memory is refused it isn't set.
    #[inline]
    pub(crate) fn set(&mut self, mark: Option<Mark>) -> Result<(), AllocError>
        ensures set { OnOk result (self.new.marks ≡ marked_on mark self.old.marks) }
        ensures refused { OnErr result (self.new.marks ≡ self.old.marks) }
        ensures failed { self.new.failed ≡ self.old.failed }
        ensures keeps { KeepsAll self.new → KeepsAll self.old × (self.new.marks ≡ marked_on mark self.old.marks) }
        ensures lasts { IfSome mark (λ m. most_u64 ≤ m.until) → LastsAll self.old → LastsAll self.new }
    {
        match mark {
            None => Ok(()),
            Some(mark) => match self.marks.push(mark) {
                Ok(()) => Ok(()),
                Err(refused) => {
                    self.lost = true;
                    Err(refused)
                }
            },
        }
    }

    /// What was given up fails from each start row below that one. Takes the marks away above which no choice is left, and
    /// remembers that they failed. Most turns find no mark.
    #[inline(always)]
    pub(crate) fn note_failures<T: Tests>(&mut self, until: u64, choices: &Choices, tests: &T)
        requires { RemembersUpTo until self.old choices.now (T.asked (T.subject tests.now)) }
        ensures remembers { Remembers self.new choices.now (T.asked (T.subject tests.now)) }
        ensures less { TakeLess choices.now (T.asked (T.subject tests.now)) self.old.marks →
            TakeLess choices.now (T.asked (T.subject tests.now)) self.new.marks }
        ensures notes { NotesAll (kept choices.now) (start_of choices.now) self.old self.new }
        ensures lasts { start_of choices.now < most_u64 → NoneOrEver self.old.marks until → LastsAll self.old → LastsAll self.new }
    {
        if self.marks.height() == 0 {
            return;
        }
        self.note_marks(until, choices, tests);
    }

    /// The same, where there are marks.
    #[inline(never)]
    fn note_marks<T: Tests>(&mut self, until: u64, choices: &Choices, tests: &T)
        requires { RemembersUpTo until self.old choices.now (T.asked (T.subject tests.now)) }
        ensures remembers { Remembers self.new choices.now (T.asked (T.subject tests.now)) }
        ensures less { TakeLess choices.now (T.asked (T.subject tests.now)) self.old.marks →
            TakeLess choices.now (T.asked (T.subject tests.now)) self.new.marks }
        ensures notes { NotesAll (kept choices.now) (start_of choices.now) self.old self.new }
        ensures lasts { start_of choices.now < most_u64 → NoneOrEver self.old.marks until → LastsAll self.old → LastsAll self.new }
    {
        self.lessen(until);
        'marks: while self.note_top(choices, tests) {}
    }

    /// Takes the last mark away, if no choice is left above it.
    fn note_top<T: Tests>(&mut self, choices: &Choices, _tests: &T) -> bool
        requires { StillRemembers self.old choices.now (T.asked (T.subject _tests.now)) }
        ensures remembers { MatchBool result
            (StillRemembers self.new choices.now (T.asked (T.subject _tests.now))
            × (length self.new.marks < length self.old.marks))
            (Remembers self.new choices.now (T.asked (T.subject _tests.now))) }
        ensures less { TakeLess choices.now (T.asked (T.subject _tests.now)) self.old.marks →
            TakeLess choices.now (T.asked (T.subject _tests.now)) self.new.marks }
        ensures notes { NotesAll (kept choices.now) (start_of choices.now) self.old self.new }
        ensures lasts { start_of choices.now < most_u64 → LastsAll self.old → LastsAll self.new }
    {
        let Some(mark) = self.marks.top() else {
            return false;
        };
        let mark = *mark;
        if mark.height < choices.height() {
            return false;
        }
        self.marks.drop_top();
        if mark.until <= choices.start() {
            self.passing = true;
            self.lessen(mark.until);
            return true;
        }
        self.note(mark, choices.start());
        self.lessen(mark.until);
        true
    }

    /// The place of a mark has failed at its row, as from each start row below the one that the mark has.
    fn note(&mut self, mark: Mark, start: u64)
        requires some { start < mark.until }
        ensures marks { self.new.marks ≡ self.old.marks }
        ensures only { (q r : ℕ) → 0 < until_of self.new.failed q r →
            (until_of self.new.failed q r ≡ until_of self.old.failed q r)
            ⊎ ((q ≡ mark.place) × (r ≡ mark.row) × (until_of self.new.failed q r ≡ mark.until)) }
        ensures keeps { KeepsAll self.new → KeepsAll self.old }
        ensures noted { KeepsAll self.new → (q r : ℕ) → start ≤ r →
            (most_u64 ≤ until_of self.old.failed q r) ⊎ ((q ≡ mark.place) × (r ≡ mark.row)) →
            most_u64 ≤ until_of self.new.failed q r }
        ensures lasts { most_u64 ≤ mark.until → LastsAll self.old → LastsAll self.new }
    {
        if mark.until < u64::MAX {
            self.passing = true;
            let _ = self.failed.add(mark.place, mark.row, mark.until, start);
            return;
        }
        match self.failed.add(mark.place, mark.row, mark.until, start) {
            Ok(kept) => {
                if kept {
                    return;
                }
                self.lost = true;
            }
            Err(_) => {
                self.lost = true;
            }
        }
    }

    /// What failed above the last mark fails from start rows below that one.
    fn lessen(&mut self, until: u64)
        ensures marks { self.new.marks ≡ lessened until self.old.marks }
        ensures failed { self.new.failed ≡ self.old.failed }
        ensures keeps { KeepsAll self.new → KeepsAll self.old }
        ensures lasts { NoneOrEver self.old.marks until → LastsAll self.old → LastsAll self.new }
    {
        if let Some(mark) = self.marks.top() {
            let mark = Mark {
                height: mark.height,
                place: mark.place,
                row: mark.row,
                until: mark.until.min(until),
            };
            self.marks.set_top(mark);
        }
    }

    /// Drops the marks, for a search that goes from one row to another. Where it goes back it forgets all.
    pub(crate) fn move_on(&mut self, from: u64, to: u64)
        ensures of { IsOf from to self.old self.new }
        ensures keeps { KeepsAll self.new → KeepsAll self.old }
        ensures same { from ≤ to → self.new.failed ≡ self.old.failed }
        ensures lasts { LastsAll self.old → LastsAll self.new }
    {
        self.marks.clear();
        if to < from {
            self.failed.clear();
        }
    }

    /// Forgets all.
    pub(crate) fn forget(&mut self)
        ensures blank { IsBlank self.new }
        ensures keeps { KeepsAll self.new }
        ensures lasts { LastsAll self.new }
    {
        self.marks.clear();
        self.failed.clear();
        self.lost = false;
        self.passing = false;
    }
}
