//! A stack of choices whose continuations are linked parts of the pattern.
ghost use Rattle.std.specs.Prelude.{◌≡◌, ℕ, ◌<◌, length, drop, OnOk};
ghost use Rattle.rp_pattern.specs.Continuations.{pushed};

use crate::machine::continuation::{Choice, Continuation};
use crate::machine::link::{Part, Tail, linked, reach_shared, share};
use crate::machine::node::Node;
use crate::machine::split::{Expansion, Split};
use crate::stack::Stack;
use rp_words::{End, Pattern};
use std::alloc::{AllocError, Global};
use std::rc::Rc;

/// Choices on a stack, and the pattern that they begin with.
#[derive(Drop)]
pub(crate) struct Linked {
    pub alloc: Global,
    pub origin: Tail,
    pub stack: Stack<Choice>,
}

impl Linked {
    ghost use Rattle.std.specs.Prelude.{◌≡◌, ℕ, [], length, drop, IfOk, OnOk, MatchOption};
    ghost use Rattle.rp_words.specs.declared.word.End.{End};
    ghost use Rattle.rp_words.specs.Words.{words};
    ghost use Rattle.rp_words.specs.Turns.{turns};
    ghost use Rattle.rp_words.specs.PatternForm.{form_of};
    ghost use Rattle.rp_pattern.specs.Continuations.{tail_links};
    ghost use Rattle.rp_pattern.specs.Linked.{linked_ways, tail_chain};
    ghost use Rattle.rp_pattern.specs.Rests.{HasDepth, IsPut, TakenUp, first_later};

    /// No choices, for this pattern.
    pub(crate) fn new(alloc: Global, pattern: &Pattern) -> Result<Linked, AllocError>
        ensures stack { IfOk result (λ l. l.stack ≡ []) }
        ensures words { IfOk result (λ l. (n : ℕ) (e : End) (row : ℕ) →
            (tail_chain l.origin n e).0 row ≡ words n e (form_of pattern.now) row) }
        ensures turns { IfOk result (λ l. (n : ℕ) (e : End) (row : ℕ) →
            (tail_chain l.origin n e).1 row ≡ turns n e (form_of pattern.now) row) }
    {
        let form = Rc::new(alloc, pattern.form().share(alloc)?)?;
        let part = Part::Whole(Node {
            form,
            excluded: false,
        });
        Ok(Linked {
            alloc,
            origin: linked(alloc, None, part, None)?,
            stack: Stack::new(alloc),
        })
    }

    /// No choices, for the same pattern, whose parts are shared.
    pub(crate) fn share(&self) -> Result<Linked, AllocError>
        ensures stack { IfOk result (λ l. l.stack ≡ []) }
        ensures origin { IfOk result (λ l. tail_links l.origin ≡ tail_links self.now.origin) }
    {
        Ok(Linked {
            alloc: self.alloc,
            origin: share(&self.origin)?,
            stack: Stack::new(self.alloc),
        })
    }

    /// How many labels come before the preferred choice, if there is one.
    #[inline(always)]
    pub(crate) fn depth(&self) -> Option<usize>
        ensures { MatchOption result (linked_ways self.now.stack ≡ [])
            (λ depth. HasDepth depth (linked_ways self.now.stack) (drop 1 (linked_ways self.now.stack))) }
    {
        match self.stack.top() {
            None => None,
            Some(choice) => Some(choice.depth),
        }
    }

    /// Puts the whole pattern on the empty stack.
    pub(crate) fn begin(&mut self, start: u64) -> Result<(), AllocError>
        requires { self.old.stack ≡ [] }
        ensures kept { self.new.origin ≡ self.old.origin }
        ensures put { OnOk result (IsPut (tail_chain self.old.origin) start 0 [] (linked_ways self.new.stack)) }
    {
        let first = reach_shared(&self.origin, start)?;
        push(&mut self.stack, 0, first)
    }

    /// Takes up the preferred choice at its row, over the rows 1 to n and that end. Known rows come up most often: such a choice stays as
    /// it is, and no others are made.
    #[inline(never)]
    pub(crate) fn take_up(&mut self, row: u64, n: u64, end: End) -> Result<Expansion, AllocError>
        requires { 0 < length self.old.stack }
        ensures kept { self.new.origin ≡ self.old.origin }
        ensures taken { IfOk result
            (TakenUp (self.new ≡ self.old) n end row (linked_ways self.old.stack) (linked_ways self.new.stack)) }
    {
        let Some(choice) = self.stack.top() else {
            unreachable!();
        };
        if row > n {
            return self.take_up_part(row, n, end);
        }
        match choice.continuation.label() {
            None => self.take_up_part(row, n, end),
            Some(label) => Ok(Expansion::Row(label)),
        }
    }

    /// The same, whatever the choice begins with, and whether or not its row is known.
    #[inline(never)]
    fn take_up_part(&mut self, row: u64, n: u64, end: End) -> Result<Expansion, AllocError>
        requires { 0 < length self.old.stack }
        ensures kept { self.new.origin ≡ self.old.origin }
        ensures taken { IfOk result
            (TakenUp (self.new ≡ self.old) n end row (linked_ways self.old.stack) (linked_ways self.new.stack)) }
    {
        let Some(choice) = self.stack.top() else {
            unreachable!();
        };
        let depth = choice.depth;
        let mut split = Split::none();
        match choice
            .continuation
            .take_up(self.alloc, row, n, end, &mut split)?
        {
            Expansion::Full => Ok(Expansion::Full),
            Expansion::Row(label) => Ok(Expansion::Row(label)),
            Expansion::Open => Ok(Expansion::Open),
            Expansion::Split => {
                set_top(&mut self.stack, depth, split.other);
                push(&mut self.stack, depth, split.preferred)?;
                Ok(Expansion::Split)
            }
        }
    }

    /// What follows the row that the preferred choice maps, at the row after it, in the choice's place.
    #[inline(never)]
    pub(crate) fn follow(&mut self, depth: usize, row: u64) -> Result<(), AllocError>
        requires { 0 < length self.old.stack }
        ensures kept { self.new.origin ≡ self.old.origin }
        ensures put { OnOk result (IsPut (first_later (linked_ways self.old.stack)) row depth
            (drop 1 (linked_ways self.old.stack)) (linked_ways self.new.stack)) }
    {
        let Some(choice) = self.stack.pop() else {
            unreachable!();
        };
        let continuation = choice.continuation.into_later(row)?;
        push(&mut self.stack, depth, continuation)
    }

    /// The same, on a stack of its own.
    pub(crate) fn ahead(&self, row: u64) -> Result<Linked, AllocError>
        requires { 0 < length self.now.stack }
        ensures { IfOk result (λ l. IsPut (first_later (linked_ways self.now.stack)) row 0 [] (linked_ways l.stack)) }
    {
        let Some(choice) = self.stack.top() else {
            unreachable!();
        };
        let continuation = choice.continuation.after_first(row)?;
        let mut stack = Stack::new(self.alloc);
        push(&mut stack, 0, continuation)?;
        Ok(Linked {
            alloc: self.alloc,
            origin: None,
            stack,
        })
    }
}

/// Puts another choice, if there is one, in the top one's place.
#[inline(always)]
fn set_top(stack: &mut Stack<Choice>, depth: usize, continuation: Option<Continuation>)
    requires { 0 < length stack.old }
    ensures { stack.new ≡ pushed depth continuation (drop 1 stack.old) }
{
    match continuation {
        None => stack.drop_top(),
        Some(continuation) => stack.set_top(Choice {
            depth,
            continuation,
        }),
    }
}

/// Puts a choice on a stack, if there is one.
#[inline(always)]
fn push(
    stack: &mut Stack<Choice>,
    depth: usize,
    continuation: Option<Continuation>,
) -> Result<(), AllocError>
    ensures { OnOk result (stack.new ≡ pushed depth continuation stack.old) }
{
    if let Some(continuation) = continuation {
        stack.push(Choice {
            depth,
            continuation,
        })?;
    }
    Ok(())
}
