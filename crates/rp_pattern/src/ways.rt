//! A stack of choices, by how the pattern is kept: as a program, or as linked parts where its program would be too large.
ghost use Rattle.std.specs.Prelude.{◌≡◌};

use crate::compiled::{Compiled, TopSplit};
use crate::linked::Linked;
use crate::machine::split::Expansion;
use rp_program::Program;
use rp_words::{End, Pattern};
use std::alloc::{AllocError, Global};
use std::rc::Rc;

/// The most places of a pattern's program.
const MOST_PLACES: u32 = 4096;

/// Choices on a stack, and the pattern that they begin with.
pub(crate) enum Ways {
    /// Its parts are linked.
    Linked(Linked),
    /// It has a program.
    Compiled(Compiled),
}

/// It is let go of by a call, wherever it is held.
impl Drop for Ways {
    fn drop(self) {
        match self {
            Ways::Linked(_) => {}
            Ways::Compiled(_) => {}
        }
    }
}

impl Ways {
    ghost use Rattle.std.specs.Prelude.{◌≡◌, ℕ, [], ◌+◌, ◌<◌, ◌≤◌, length, drop, None, IfOk, IfSome, OnOk, OnErr, MatchOption};
    ghost use Rattle.rp_words.specs.PatternForm.{form_of};
    ghost use Rattle.rp_words.specs.declared.form.Form.{Form};
    ghost use Rattle.rp_pattern.specs.Rests.{HasDepth, IsPut, SpendsWays, TakenUp, first_later, first_weight, stack_cost};
    ghost use Rattle.rp_pattern.specs.Ways.{IsAtWayPlace, IsNumbered, IsTopSplit, Keeps, kept_of, origin, stack_of, whole_cost};

    /// No choices, for this pattern.
    pub(crate) fn new(alloc: Global, pattern: &Pattern) -> Result<Ways, AllocError>
        ensures stack { IfOk result (λ w. stack_of w ≡ []) }
        ensures keeps { IfOk result (λ w. Keeps (form_of pattern.now) (kept_of w)) }
    {
        match Program::compile(alloc, pattern, MOST_PLACES)? {
            Some(program) => {
                let program = Rc::new(alloc, program)?;
                Ok(Ways::Compiled(Compiled::new(alloc, pattern, program)?))
            }
            None => Ways::linked(alloc, pattern),
        }
    }

    /// No choices, for this pattern on linked parts.
    pub(crate) fn linked(alloc: Global, pattern: &Pattern) -> Result<Ways, AllocError>
        ensures stack { IfOk result (λ w. stack_of w ≡ []) }
        ensures keeps { IfOk result (λ w. Keeps (form_of pattern.now) (kept_of w)) }
        ensures linked { IfOk result (λ w. IsNumbered (kept_of w) → ⊥) }
    {
        Ok(Ways::Linked(Linked::new(alloc, pattern)?))
    }

    /// No choices, for the same pattern, which is shared.
    pub(crate) fn share(&self) -> Result<Ways, AllocError>
        ensures stack { IfOk result (λ w. stack_of w ≡ []) }
        ensures keeps { IfOk result (λ w. (f : Form) → Keeps f (kept_of self.now) → Keeps f (kept_of w)) }
    {
        match self {
            Ways::Linked(linked) => Ok(Ways::Linked(linked.share()?)),
            Ways::Compiled(compiled) => Ok(Ways::Compiled(compiled.share()?)),
        }
    }

    /// What it takes memory from.
    pub(crate) fn alloc(&self) -> Global {
        match self {
            Ways::Linked(linked) => linked.alloc,
            Ways::Compiled(compiled) => compiled.alloc,
        }
    }

    /// How many choices there are.
    #[inline(always)]
    pub(crate) fn height(&self) -> usize
        ensures { result ≡ length (stack_of self.now) }
    {
        match self {
            Ways::Linked(linked) => linked.stack.height(),
            Ways::Compiled(compiled) => compiled.stack.height(),
        }
    }

    /// How many labels come before the preferred choice, if there is one.
    #[inline(always)]
    pub(crate) fn depth(&self) -> Option<usize>
        ensures { MatchOption result (stack_of self.now ≡ [])
            (λ depth. HasDepth depth (stack_of self.now) (drop 1 (stack_of self.now))) }
    {
        match self {
            Ways::Linked(linked) => linked.depth(),
            Ways::Compiled(compiled) => compiled.depth(),
        }
    }

    /// Where the preferred choice gives way to two others, if it does, or may, and its place is numbered.
    #[inline(always)]
    pub(crate) fn top_split(&self) -> Option<TopSplit>
        ensures at { IfSome result (IsTopSplit (kept_of self.now) (stack_of self.now)) }
        ensures none { IsNumbered (kept_of self.now) → result ≡ None → first_weight (stack_of self.now) ≡ 0 }
    {
        match self {
            Ways::Linked(_) => None,
            Ways::Compiled(compiled) => compiled.top_split(),
        }
    }

    /// The place of the preferred choice, if it has one and gives way to two others.
    #[inline(always)]
    pub(crate) fn place(&self) -> Option<u32>
        ensures at { IfSome result (λ place. IsAtWayPlace place (kept_of self.now) (stack_of self.now)) }
        ensures none { IsNumbered (kept_of self.now) → result ≡ None → first_weight (stack_of self.now) ≡ 0 }
    {
        match self.top_split() {
            None => None,
            Some(split) => Some(split.place),
        }
    }

    /// Drops the preferred choice, if there is one.
    #[inline(always)]
    pub(crate) fn drop_top(&mut self)
        ensures kept { kept_of self.new ≡ kept_of self.old }
        ensures dropped { stack_of self.new ≡ drop 1 (stack_of self.old) }
    {
        match self {
            Ways::Linked(linked) => linked.stack.drop_top(),
            Ways::Compiled(compiled) => compiled.stack.drop_top(),
        }
    }

    /// Drops all choices, and keeps their room.
    #[inline(never)]
    pub(crate) fn clear(&mut self)
        ensures kept { kept_of self.new ≡ kept_of self.old }
        ensures cleared { stack_of self.new ≡ [] }
    {
        match self {
            Ways::Linked(linked) => linked.stack.clear(),
            Ways::Compiled(compiled) => compiled.stack.clear(),
        }
    }

    /// Puts the whole pattern on the empty stack. Where memory is refused, the stack is empty.
    #[inline(never)]
    pub(crate) fn begin(&mut self, start: u64) -> Result<(), AllocError>
        requires { stack_of self.old ≡ [] }
        ensures kept { kept_of self.new ≡ kept_of self.old }
        ensures put { OnOk result (IsPut (origin (kept_of self.old)) start 0 [] (stack_of self.new)) }
        ensures costs { OnOk result
            (stack_cost (stack_of self.new) + first_weight (stack_of self.new) ≤ whole_cost (kept_of self.old)) }
        ensures refused { OnErr result (stack_of self.new ≡ []) }
    {
        match self.put_whole(start) {
            Ok(()) => Ok(()),
            Err(refused) => {
                self.clear();
                Err(refused)
            }
        }
    }

    fn put_whole(&mut self, start: u64) -> Result<(), AllocError>
        requires { stack_of self.old ≡ [] }
        ensures kept { kept_of self.new ≡ kept_of self.old }
        ensures put { OnOk result (IsPut (origin (kept_of self.old)) start 0 [] (stack_of self.new)) }
        ensures costs { OnOk result
            (stack_cost (stack_of self.new) + first_weight (stack_of self.new) ≤ whole_cost (kept_of self.old)) }
    {
        match self {
            Ways::Linked(linked) => linked.begin(start),
            Ways::Compiled(compiled) => compiled.begin(start),
        }
    }

    /// Takes up the preferred choice at its row, over the rows 1 to n and that end. Where memory is refused, the stack is
    /// empty.
    #[inline(always)]
    pub(crate) fn take_up(&mut self, row: u64, n: u64, end: End) -> Result<Expansion, AllocError>
        requires { 0 < length (stack_of self.old) }
        ensures kept { kept_of self.new ≡ kept_of self.old }
        ensures taken { IfOk result (TakenUp (self.new ≡ self.old) n end row (stack_of self.old) (stack_of self.new)) }
        ensures costs { IfOk result (SpendsWays (stack_of self.old) (stack_of self.new)) }
        ensures refused { OnErr result (stack_of self.new ≡ []) }
    {
        match self.take_up_top(row, n, end) {
            Ok(expansion) => Ok(expansion),
            Err(refused) => {
                self.clear();
                Err(refused)
            }
        }
    }

    #[inline(always)]
    fn take_up_top(&mut self, row: u64, n: u64, end: End) -> Result<Expansion, AllocError>
        requires { 0 < length (stack_of self.old) }
        ensures kept { kept_of self.new ≡ kept_of self.old }
        ensures taken { IfOk result (TakenUp (self.new ≡ self.old) n end row (stack_of self.old) (stack_of self.new)) }
        ensures costs { IfOk result (SpendsWays (stack_of self.old) (stack_of self.new)) }
    {
        match self {
            Ways::Linked(linked) => linked.take_up(row, n, end),
            Ways::Compiled(compiled) => compiled.take_up(row, n, end),
        }
    }

    /// What follows the row that the preferred choice maps, at the row after it, in the choice's place. Where memory is
    /// refused, the stack is empty.
    #[inline(always)]
    pub(crate) fn follow(&mut self, depth: usize, row: u64) -> Result<(), AllocError>
        requires { 0 < length (stack_of self.old) }
        ensures kept { kept_of self.new ≡ kept_of self.old }
        ensures put { OnOk result (IsPut (first_later (stack_of self.old)) row depth
            (drop 1 (stack_of self.old)) (stack_of self.new)) }
        ensures costs { OnOk result
            (IsNumbered (kept_of self.old) → stack_cost (stack_of self.new) < stack_cost (stack_of self.old)) }
        ensures refused { OnErr result (stack_of self.new ≡ []) }
    {
        match self.follow_top(depth, row) {
            Ok(()) => Ok(()),
            Err(refused) => {
                self.clear();
                Err(refused)
            }
        }
    }

    #[inline(always)]
    fn follow_top(&mut self, depth: usize, row: u64) -> Result<(), AllocError>
        requires { 0 < length (stack_of self.old) }
        ensures kept { kept_of self.new ≡ kept_of self.old }
        ensures put { OnOk result (IsPut (first_later (stack_of self.old)) row depth
            (drop 1 (stack_of self.old)) (stack_of self.new)) }
        ensures costs { OnOk result
            (IsNumbered (kept_of self.old) → stack_cost (stack_of self.new) < stack_cost (stack_of self.old)) }
    {
        match self {
            Ways::Linked(linked) => linked.follow(depth, row),
            Ways::Compiled(compiled) => {
                compiled.follow(depth, row);
                Ok(())
            }
        }
    }

    /// The same, on a stack of its own.
    pub(crate) fn ahead(&self, row: u64) -> Result<Ways, AllocError>
        requires { 0 < length (stack_of self.now) }
        ensures { IfOk result (λ w. IsPut (first_later (stack_of self.now)) row 0 [] (stack_of w)) }
    {
        match self {
            Ways::Linked(linked) => Ok(Ways::Linked(linked.ahead(row)?)),
            Ways::Compiled(compiled) => Ok(Ways::Compiled(compiled.ahead(row)?)),
        }
    }
}
