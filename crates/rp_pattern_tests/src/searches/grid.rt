//! The tests' own rows, with a written answer for each.
ghost use Rattle.std.specs.Prelude.{◌≡◌, ℕ, ◌+◌, ◌-◌, ◌^◌, ◌<◌, ◌≤◌, [], IfOk, IfSome, IsTrue, None, OnOk, slice_get};
ghost use Rattle.rp_words.specs.PatternForm.{form_of};
ghost use Rattle.rp_words.specs.SameTree.{IsSameTree};
ghost use Rattle.rp_pattern_tests.specs.Grid.{grid_asked, may_go_on, row_answer, written};
ghost use Rattle.rp_pattern_tests.specs.GridDecides.{grid_decides};
ghost use Rattle.rp_search.specs.Asked.{AskedExtend};

use rp_search::Tests;
use rp_words::{End, Form, Label, Pattern, Seen};
use std::alloc::{AllocError, Global};
use std::cell::Cell;

/// Rows with an answer for A and one for B. An answer that is open becomes true with the close. A's test is also open
/// where it reaches past the known rows.
#[derive(Drop)]
pub struct Grid {
    first: Vec<Seen>,
    second: Vec<Seen>,
    reach: u64,
    known: u64,
    end: End,
    entered: Vec<Label>,
    /// The labels at each call of `enter`, as letters and a space.
    pub calls: String,
    pub entries: u64,
    /// How many calls of `test`.
    pub asked: Cell<u64>,
    /// Whether a search is to remember where it failed: the tests name their pattern then.
    pub remembers: bool,
    named: Option<Form>,
    ghost few: { known < 2 ^ 64 - 1 },
}

impl Grid {
    /// A grid of no known row. Each row is admitted for both.
    pub fn new(alloc: Global, reach: u64) -> Grid
        ensures none { result.entered.items ≡ [] }
        ensures unnamed { result.named ≡ None }
    {
        Grid::of(alloc, reach, Vec::new(alloc), Vec::new(alloc))
    }

    /// What is answered for A and for B at the rows from 1 on: `+` true, `-` not true, `?` open. Behind that each row is admitted.
    pub fn answering(
        alloc: Global,
        reach: u64,
        first: &str,
        second: &str,
    ) -> Result<Grid, AllocError>
        ensures none { IfOk result (λ grid. grid.entered.items ≡ []) }
    {
        let first = answers_of(alloc, first)?;
        Ok(Grid::of(alloc, reach, first, answers_of(alloc, second)?))
    }

    /// What is answered for the rows from 0 on.
    pub fn of(alloc: Global, reach: u64, first: Vec<Seen>, second: Vec<Seen>) -> Grid
        ensures none { result.entered.items ≡ [] }
        ensures unnamed { result.named ≡ None }
    {
        Grid {
            first,
            second,
            reach,
            known: 0,
            end: End::Open,
            entered: Vec::new(alloc),
            calls: String::new(alloc),
            entries: 0,
            asked: Cell::new(0),
            remembers: false,
            named: None,
        }
    }

    /// How many rows are known.
    pub fn rows(&self) -> u64
        ensures known { result ≡ self.now.known }
        ensures few { result < 2 ^ 64 - 1 }
    {
        self.known
    }

    /// No row is known again, and none is entered.
    pub fn begin(&mut self)
        ensures none { self.new.entered.items ≡ [] }
    {
        self.known = 0;
        self.end = End::Open;
        self.entered.clear();
        self.calls.clear();
    }

    /// The tests are of this pattern from now on. They name it if a search is to remember where it failed.
    pub fn name(&mut self, alloc: Global, pattern: &Pattern) -> Result<(), AllocError>
        ensures named { OnOk result (IfSome self.new.named (IsSameTree (form_of pattern.now))) }
        ensures none { self.new.entered ≡ self.old.entered }
    {
        self.named = None;
        if self.remembers {
            self.named = Some(pattern.form().share(alloc)?);
        }
        Ok(())
    }

    /// More rows, or the close. It answers whether these go on from what was known.
    pub fn advance(&mut self, known: u64, end: End) -> bool
        ensures none { self.new.entered ≡ self.old.entered }
        ensures named { self.new.named ≡ self.old.named }
        ensures some { IsTrue result → 1 ≤ self.new.known }
        ensures known { IsTrue result → self.new.known ≡ known }
        ensures extends { IsTrue result → (start : ℕ) →
            AskedExtend start (⟦<Grid as Tests>⟧.subject self.old) (⟦<Grid as Tests>⟧.subject self.new) }
    {
        if self.end == End::Closed || known < self.known || known == 0 || known == u64::MAX {
            return false;
        }
        self.known = known;
        self.end = end;
        true
    }

    /// The calls of `enter` are forgotten.
    pub fn forget(&mut self)
        ensures subject { ⟦<Grid as Tests>⟧.subject self.new ≡ ⟦<Grid as Tests>⟧.subject self.old }
        ensures entered { self.new.entered ≡ self.old.entered }
    {
        self.calls.clear();
    }

    /// What is answered for a row and a variable.
    pub fn answer(&self, row: u64, var: usize) -> Seen
        ensures { result ≡ row_answer self.now.first.items self.now.second.items
            self.now.reach self.now.known self.now.end row var }
    {
        let is_open = self.end == End::Open;
        if var != 0 {
            return written(&self.second, row, is_open);
        }
        if is_open && self.known.saturating_sub(row) < self.reach {
            return Seen::Open;
        }
        written(&self.first, row, is_open)
    }
}

impl Tests for Grid {
    ghost use Rattle.rp_search.specs.Asked.{Asked};

    ghost Subject = { Asked };

    ghost subject = { λ t. grid_asked t.first.items t.second.items t.reach t.known t.end t.named };

    ghost asked = { λ asked. asked };

    ghost entered = { λ t start labels. t.entered.items ≡ labels };

    ghost entries = { λ t. t.entries };

    ghost always = { λ t. ⊥ };

    fn known(&self) -> u64 {
        self.known
    }

    fn end(&self) -> End {
        self.end
    }

    fn variables(&self) -> usize {
        2
    }

    fn is_lasting(&self) -> bool {
        self.named.is_some()
    }

    fn refused_until(&self, _start: u64, _labels: &[Label], _most: u64) -> u64 {
        u64::MAX
    }

    fn test(&self, start: u64, labels: &[Label]) -> Seen {
        self.asked.set(self.asked.get().saturating_add(1));
        let Some(label) = labels.last() else {
            return Seen::NotTrue;
        };
        self.answer(start + labels.len() as u64 - 1, label.var)
    }

    fn enter(&mut self, _start: u64, labels: &[Label]) -> Result<(), AllocError> {
        self.entries = self.entries.saturating_add(1);
        write_letters(labels, &mut self.calls)?;
        if let Some(label) = labels.last() {
            self.entered.push(*label)?;
        }
        Ok(())
    }

    fn cut(&mut self, depth: usize) {
        self.entered.truncate(depth);
    }

    ghost few = { λ t. t.few };

    ghost decided = { λ t start labels. grid_decides t.first.items t.second.items t.reach t.known t.end start labels };
}

/// The answers of a text, behind one for row 0, which is never asked.
fn answers_of(alloc: Global, text: &str) -> Result<Vec<Seen>, AllocError> {
    let mut answers = vec![in alloc; Seen::True]?;
    for mark in text.bytes() {
        answers.push(match mark {
            b'+' => Seen::True,
            b'-' => Seen::NotTrue,
            _ => Seen::Open,
        })?;
    }
    Ok(answers)
}

/// The answer that is written down for a row.
fn written(answers: &[Seen], row: u64, is_open: bool) -> Seen
    ensures { result ≡ written is_open (slice_get answers.now row) }
{
    match answers.get(row as usize) {
        None => Seen::True,
        Some(Seen::True) => Seen::True,
        Some(Seen::NotTrue) => Seen::NotTrue,
        Some(Seen::Open) => { if is_open { Seen::Open } else { Seen::True } }
    }
}

/// A letter for each label, small where it is excluded, and a space.
pub fn write_letters(labels: &[Label], text: &mut String) -> Result<(), AllocError> {
    for label in labels {
        text.push(match (label.var, label.excluded) {
            (0, false) => 'A',
            (0, true) => 'a',
            (_, false) => 'B',
            (_, true) => 'b',
        })?;
    }
    text.push(' ')
}
