//! The words of a pattern listed lazily, by a stack of choices.
ghost use Rattle.std.specs.Prelude.{◌≡◌, ℕ, ◌∷◌, ◌++◌, ◌+◌, ◌^◌, ◌<◌, ◌≤◌, IfOk, IfSome, OnOk, IsTrue, false, List, [], map, length, drop};
ghost use Rattle.rp_pattern.specs.Rests.{rises};
ghost use Rattle.rp_pattern.specs.Ways.{stack_of};
ghost use Rattle.rp_words.specs.Numbers.{most_u64};

use crate::machine::split::Expansion;
use crate::outlook::Outlook;
use crate::prepared::Prepared;
use crate::ways::Ways;
use rp_words::{End, Label, Pattern};
use std::alloc::{AllocError, Global};

/// What the preferred choice came to when it was taken up.
#[derive(Clone, Copy, Debug)]
pub enum Taken {
    /// It maps a known row, the next one: the label is the last of `labels`. The choice stays until `admit` or `give_up`.
    Row,
    /// It was replaced by the choices that it gives way to, none to two.
    Split,
    /// It is a full word, of `labels`. The choice stays until `give_up`.
    Full,
    /// It runs into the row after the last known one. The choice stays until `give_up`.
    Open,
    /// There was no choice any more.
    Nothing,
}

/// Where the preferred choice gives way to two others, or may.
#[derive(Clone, Copy)]
pub struct SplitPoint {
    /// The place of the pattern that it is at, by its number.
    pub place: u32,
    /// The row that it goes on at.
    pub row: u64,
    /// How many choices are below it.
    pub height: usize,
}

/// The words of a pattern from a start row, listed lazily in preferment order.
pub struct Choices {
    start: u64,
    begun: bool,
    labels: Vec<Label>,
    ways: Ways,
    ghost rises: { IsTrue (rises (length labels.items) (stack_of ways)) },
    ghost ends: { start + length labels.items < 2 ^ 64 },
}

/// It is let go of by a call, wherever it is held.
impl Drop for Choices {
    fn drop(self) {
        let Choices {
            start: _,
            begun: _,
            labels: _,
            ways: _,
        } = self;
    }
}

impl Choices {
    ghost use Rattle.std.specs.Prelude.{OnOk, IfOk, None, take, ◌∷◌, ◌++◌, map};
    ghost use Rattle.rp_words.specs.declared.word.End.{End};
    ghost use Rattle.rp_words.specs.Words.{words};
    ghost use Rattle.rp_words.specs.Mapping.{preceded};
    ghost use Rattle.rp_words.specs.Turns.{turns};
    ghost use Rattle.rp_words.specs.PatternForm.{form_of};
    ghost use Rattle.rp_pattern.specs.Ways.{kept_of};
    ghost use Rattle.rp_pattern.specs.Choices.{start_of, entered, whole, whole_turns, whole_from, whole_turns_from, remaining, turns_left, height, of_top, before_top, above, above_below, below, turns_left_below, after, turns_left_after, HasTop, AtRow, AreFirstOf, AreStrictlyFirstOf, IsSameWhole, IsSamePattern, IsListOf, IsAtSplitPoint, TakenAs, HasBegun};
    ghost use Rattle.rp_pattern.specs.Choices.{costs, kept, top_weight, BeginsWith, KeepsUnder, Spends};
    ghost use Rattle.rp_pattern.specs.Ways.{IsNumbered, all_weight, whole_cost};
    ghost use Rattle.rp_words.specs.declared.form.Form.{Form};
    ghost use Rattle.rp_pattern.specs.Prepared.{Prepares};
    ghost use Rattle.rp_pattern.specs.Outlooks.{words_ahead, turns_ahead};

    /// The words of the pattern from the start row on.
    pub fn new(alloc: Global, pattern: &Pattern, start: u64) -> Result<Choices, AllocError>
        requires { 1 ≤ start }
        ensures start { IfOk result (λ c. start_of c ≡ start) }
        ensures labels { IfOk result (λ c. entered c ≡ []) }
        ensures from { IfOk result (λ c. (n : ℕ) (e : End) (row : ℕ) →
            whole_from c n e row ≡ words n e (form_of pattern.now) row) }
        ensures left_from { IfOk result (λ c. (n : ℕ) (e : End) (row : ℕ) →
            whole_turns_from c n e row ≡
            turns n e (form_of pattern.now) row + length (words n e (form_of pattern.now) row)) }
        ensures whole { IfOk result (λ c. (n : ℕ) (e : End) → whole c n e ≡ words n e (form_of pattern.now) start) }
        ensures whole_turns { IfOk result (λ c. (n : ℕ) (e : End) →
            whole_turns c n e ≡
            turns n e (form_of pattern.now) start + length (words n e (form_of pattern.now) start)) }
        ensures remaining { IfOk result (λ c. (n : ℕ) (e : End) → remaining c n e ≡ whole c n e) }
        ensures left { IfOk result (λ c. (n : ℕ) (e : End) → turns_left c n e ≡ whole_turns c n e) }
        ensures costs { IfOk result (λ c. costs c ≡ whole_cost (kept c)) }
    {
        Ok(Choices {
            start,
            begun: false,
            labels: Vec::new(alloc),
            ways: Ways::new(alloc, pattern)?,
        })
    }

    /// The same on linked parts: each open word is a choice of its own.
    pub fn linked(alloc: Global, pattern: &Pattern, start: u64) -> Result<Choices, AllocError>
        requires { 1 ≤ start }
        ensures linked { IfOk result (λ c. IsNumbered (kept c) → ⊥) }
        ensures remaining { IfOk result (λ c. (n : ℕ) (e : End) →
            remaining c n e ≡ words n e (form_of pattern.now) start) }
    {
        Ok(Choices {
            start,
            begun: false,
            labels: Vec::new(alloc),
            ways: Ways::linked(alloc, pattern)?,
        })
    }

    /// The same, of a pattern that was made ready: searches share it.
    pub fn of(alloc: Global, prepared: &Prepared, start: u64) -> Result<Choices, AllocError>
        requires { 1 ≤ start }
        ensures start { IfOk result (λ c. start_of c ≡ start) }
        ensures labels { IfOk result (λ c. entered c ≡ []) }
        ensures pattern { IfOk result (λ c. (f : Form) → Prepares f prepared.now → IsListOf f start c) }
        ensures remaining { IfOk result (λ c. (n : ℕ) (e : End) → remaining c n e ≡ whole c n e) }
        ensures left { IfOk result (λ c. (n : ℕ) (e : End) → turns_left c n e ≡ whole_turns c n e) }
        ensures costs { IfOk result (λ c. costs c ≡ whole_cost (kept c)) }
    {
        Ok(Choices {
            start,
            begun: false,
            labels: Vec::new(alloc),
            ways: prepared.ways()?,
        })
    }

    /// The labels of the rows before the choice that was taken up or given up last and, until that is given up, of the
    /// row that it maps. When the preferred choice is taken up, they are cut back to those before it.
    #[inline]
    pub fn labels(&self) -> &[Label]
        ensures { result.now ≡ entered self.now }
    {
        &self.labels
    }

    /// The start row.
    #[inline]
    pub fn start(&self) -> u64
        ensures { result ≡ start_of self.now }
    {
        self.start
    }

    /// How many choices are on the stack: none before the first is taken up. Those above some height are the last to have
    /// come.
    #[inline]
    pub fn height(&self) -> usize
        ensures height { result ≡ height self.now }
        ensures some { HasTop self.now → 0 < result }
        ensures none { (h n : ℕ) (e : End) → result ≤ h → above self.now h n e ≡ [] }
        ensures top { (h n : ℕ) (e : End) → h + 1 ≡ result → above self.now h n e ≡ of_top self.now n e }
    {
        if self.begun { self.ways.height() } else { 0 }
    }

    /// Where the preferred choice gives way to two others, if it does, or may; None elsewhere, and for a pattern whose places aren't
    /// numbered. Choices at one place have the same words from a row, whatever came before and whatever is called, also after
    /// `restart` at another row. So what fails from there once fails from there always, as far as the tests don't look back.
    #[inline]
    pub fn split_point(&self) -> Option<SplitPoint>
        ensures at { IfSome result (IsAtSplitPoint self.now) }
        ensures none { IsNumbered (kept self.now) → result ≡ None → top_weight self.now ≡ 0 }
    {
        if !self.begun {
            return None;
        }
        match self.ways.top_split() {
            None => None,
            Some(split) => Some(SplitPoint {
                place: split.place,
                row: self.start + split.depth as u64,
                height: split.height,
            }),
        }
    }

    /// Takes up the preferred choice, over the rows 1 to n and that end. Where memory is refused, nothing is said of the
    /// choices on the stack: `reset` them.
    #[inline(always)]
    pub fn take_up(&mut self, n: u64, end: End) -> Result<Taken, AllocError>
        requires { n < most_u64 }
        ensures whole { IsSameWhole self.old self.new }
        ensures taken { IfOk result (TakenAs self.old self.new n end) }
        ensures keeps { kept self.new ≡ kept self.old }
        ensures under { OnOk result (KeepsUnder self.old self.new) }
        ensures costs { IfOk result (Spends self.old self.new) }
        ensures most { IsNumbered (kept self.old) → top_weight self.old ≤ all_weight (kept self.old) }
    {
        self.begin()?;
        self.take_up_top(n, end)
    }

    /// Puts the whole on the stack, if nothing was taken up yet.
    #[inline(always)]
    fn begin(&mut self) -> Result<(), AllocError>
        ensures whole { IsSameWhole self.old self.new }
        ensures begun { OnOk result (HasBegun self.new) }
        ensures cut { OnOk result (AreFirstOf (entered self.new) (entered self.old)) }
        ensures remaining { OnOk result ((n : ℕ) (e : End) → remaining self.new n e ≡ remaining self.old n e) }
        ensures left { OnOk result ((n : ℕ) (e : End) → turns_left self.new n e ≡ turns_left self.old n e) }
        ensures height { OnOk result ((h : ℕ) → h < height self.old → h < height self.new) }
        ensures above { OnOk result ((h n : ℕ) (e : End) → h < height self.old →
            above self.new h n e ≡ above self.old h n e) }
        ensures keeps { kept self.new ≡ kept self.old }
        ensures under { OnOk result (KeepsUnder self.old self.new) }
        ensures costs { OnOk result (BeginsWith self.old self.new) }
    {
        if self.begun {
            return Ok(());
        }
        self.ways.clear();
        self.labels.clear();
        self.ways.begin(self.start)?;
        self.begun = true;
        Ok(())
    }

    /// Takes up the choice on the stack's top.
    #[inline(always)]
    fn take_up_top(&mut self, n: u64, end: End) -> Result<Taken, AllocError>
        requires rows { n < most_u64 }
        requires begun { HasBegun self.old }
        ensures whole { IsSameWhole self.old self.new }
        ensures taken { IfOk result (TakenAs self.old self.new n end) }
        ensures keeps { kept self.new ≡ kept self.old }
        ensures under { OnOk result (KeepsUnder self.old self.new) }
        ensures costs { IfOk result (Spends self.old self.new) }
    {
        let Some(depth) = self.ways.depth() else {
            return Ok(Taken::Nothing);
        };
        self.labels.truncate(depth);
        let row = self.start + depth as u64;
        match self.ways.take_up(row, n, end)? {
            Expansion::Full => Ok(Taken::Full),
            Expansion::Row(label) => {
                self.labels.push(label)?;
                Ok(Taken::Row)
            }
            Expansion::Open => Ok(Taken::Open),
            Expansion::Split => Ok(Taken::Split),
        }
    }

    /// The row is mapped as the preferred choice says.
    #[inline(always)]
    pub fn admit(&mut self) -> Result<(), AllocError>
        requires { AtRow self.old }
        ensures whole { IsSameWhole self.old self.new }
        ensures remaining { OnOk result ((n : ℕ) (e : End) →
            remaining self.new n e ≡ map (preceded (entered self.old)) (after self.old n e) ++ below self.old n e) }
        ensures height { OnOk result (height self.old ≤ height self.new + 1) }
        ensures above { OnOk result ((h n : ℕ) (e : End) → h < height self.old →
            above self.new h n e ≡ map (preceded (entered self.old)) (after self.old n e) ++ above_below self.old h n e) }
        ensures left { OnOk result ((n : ℕ) (e : End) →
            turns_left self.new n e ≡ turns_left_after self.old n e + turns_left_below self.old n e) }
        ensures labels { OnOk result (entered self.new ≡ entered self.old) }
        ensures keeps { kept self.new ≡ kept self.old }
        ensures under { OnOk result (KeepsUnder self.old self.new) }
        ensures costs { OnOk result (IsNumbered (kept self.old) → costs self.new < costs self.old) }
    {
        let depth = self.labels.len();
        self.ways.follow(depth, self.start + depth as u64)
    }

    /// The preferred choice is given up. It takes no memory.
    #[inline(always)]
    pub fn give_up(&mut self)
        requires { HasTop self.old }
        ensures whole { IsSameWhole self.old self.new }
        ensures remaining { (n : ℕ) (e : End) → remaining self.new n e ≡ below self.old n e }
        ensures left { (n : ℕ) (e : End) → turns_left self.new n e ≡ turns_left_below self.old n e }
        ensures height { height self.new + 1 ≡ height self.old }
        ensures above { (h n : ℕ) (e : End) → h < height self.old →
            above self.old h n e ≡ of_top self.old n e ++ above self.new h n e }
        ensures rest { (h n : ℕ) (e : End) → above_below self.old h n e ≡ above self.new h n e }
        ensures passed { (n : ℕ) (e : End) → remaining self.old n e ≡ of_top self.old n e ++ remaining self.new n e }
        ensures labels { AreFirstOf (entered self.new) (entered self.old) }
        ensures cut_off { AtRow self.old → AreStrictlyFirstOf (entered self.new) (entered self.old) }
        ensures keeps { kept self.new ≡ kept self.old }
        ensures under { KeepsUnder self.old self.new }
        ensures costs { costs self.new < costs self.old }
    {
        if let Some(depth) = self.ways.depth() {
            self.labels.truncate(depth);
            self.ways.drop_top();
        }
    }

    /// What would follow the row that the preferred choice maps.
    pub fn after_row(&self) -> Result<Outlook, AllocError>
        requires { AtRow self.now }
        ensures words { IfOk result (λ o. (n : ℕ) (e : End) → words_ahead o n e ≡ length (after self.now n e)) }
        ensures turns { IfOk result (λ o. (n : ℕ) (e : End) → turns_ahead o n e ≡ turns_left_after self.now n e) }
    {
        let row = self.start + self.labels.len() as u64;
        let ways = self.ways.ahead(row)?;
        Ok(Outlook::at(self.ways.alloc(), row, ways))
    }

    /// Begins again. It takes no memory, and keeps its room.
    pub fn reset(&mut self)
        ensures whole { IsSameWhole self.old self.new }
        ensures remaining { (n : ℕ) (e : End) → remaining self.new n e ≡ whole self.old n e }
        ensures left { (n : ℕ) (e : End) → turns_left self.new n e ≡ whole_turns self.old n e }
        ensures labels { entered self.new ≡ [] }
        ensures keeps { kept self.new ≡ kept self.old }
        ensures costs { costs self.new ≡ whole_cost (kept self.old) }
    {
        self.empty();
    }

    /// Begins at another row. It takes no memory, and keeps its room.
    pub fn restart(&mut self, start: u64)
        requires { 1 ≤ start }
        ensures pattern { IsSamePattern self.old self.new }
        ensures start { start_of self.new ≡ start }
        ensures labels { entered self.new ≡ [] }
        ensures whole { (n : ℕ) (e : End) → whole self.new n e ≡ whole_from self.old n e start }
        ensures whole_turns { (n : ℕ) (e : End) → whole_turns self.new n e ≡ whole_turns_from self.old n e start }
        ensures remaining { (n : ℕ) (e : End) → remaining self.new n e ≡ whole self.new n e }
        ensures left { (n : ℕ) (e : End) → turns_left self.new n e ≡ whole_turns self.new n e }
        ensures keeps { kept self.new ≡ kept self.old }
        ensures costs { costs self.new ≡ whole_cost (kept self.old) }
    {
        self.empty();
        self.start = start;
    }

    /// As before the first choice is taken up: the stack is empty.
    fn empty(&mut self)
        ensures begun { self.new.begun ≡ false }
        ensures start { self.new.start ≡ self.old.start }
        ensures kept { kept_of self.new.ways ≡ kept_of self.old.ways }
        ensures labels { self.new.labels.items ≡ [] }
    {
        self.begun = false;
        self.ways.clear();
        self.labels.clear();
    }
}
