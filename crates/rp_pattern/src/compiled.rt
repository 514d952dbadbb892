//! A stack of choices, each at a place of a program.
ghost use Rattle.std.specs.Prelude.{◌≡◌, ℕ, [], ◌<◌, ◌≤◌, length, drop, IfOk, IsTrue};
ghost use Rattle.rp_words.specs.declared.word.End.{End};
ghost use Rattle.rp_words.specs.Turns.{turns};
ghost use Rattle.rp_program.specs.Programs.{first_place, place_count, place_turns};
ghost use Rattle.rp_pattern.specs.Placed.{are_placed, placed};

use crate::machine::split::Expansion;
use crate::stack::Stack;
use rp_program::{Instruction, Program};
use rp_words::{End, Form, Label, Pattern};
use std::alloc::{AllocError, Global};
use std::rc::Rc;

/// A choice that isn't taken up: how many labels come before it, and its place.
#[derive(Clone, Copy)]
pub(crate) struct PlacedChoice {
    pub depth: usize,
    pub place: u32,
}

/// Where the preferred choice gives way to two others, or may.
#[derive(Clone, Copy)]
pub(crate) struct TopSplit {
    /// So many labels come before it.
    pub depth: usize,
    pub place: u32,
    /// So many choices are below it.
    pub height: usize,
}

/// Choices on a stack, and the program that they go through.
#[derive(Drop)]
pub(crate) struct Compiled {
    pub alloc: Global,
    pub program: Rc<Program>,
    /// What the program was made of.
    pub form: Rc<Form>,
    pub stack: Stack<PlacedChoice>,
    ghost placed: { IsTrue (are_placed (place_count program.value) stack) },
    ghost turns: { (n : ℕ) (e : End) (row : ℕ) →
        place_turns program.value n e (first_place program.value) row ≤ turns n e form.value row },
}

impl Compiled {
    ghost use Rattle.std.specs.Prelude.{◌≡◌, ℕ, [], ◌∷◌, ◌+◌, ◌<◌, ◌≤◌, length, drop, None, IfOk, IfSome, OnOk, MatchOption};
    ghost use Rattle.rp_words.specs.declared.word.End.{End};
    ghost use Rattle.rp_words.specs.Words.{words};
    ghost use Rattle.rp_words.specs.PatternForm.{form_of};
    ghost use Rattle.rp_program.specs.Programs.{IsPlace, IsProgramOf, IsRowSplit, place_words};
    ghost use Rattle.rp_pattern.specs.Placed.{IsAtSplit, place_rest, placed_ways};
    ghost use Rattle.rp_program.specs.Costs.{place_cost, place_weight};
    ghost use Rattle.rp_pattern.specs.Rests.{HasDepth, IsPut, SpendsWays, TakenUp, first_later, first_weight, stack_cost};

    /// No choices, for this pattern and its program.
    pub(crate) fn new(
        alloc: Global,
        pattern: &Pattern,
        program: Rc<Program>,
    ) -> Result<Compiled, AllocError>
        requires { IsProgramOf (form_of pattern.now) program.value }
        ensures stack { IfOk result (λ c. c.stack ≡ []) }
        ensures words { IfOk result (λ c. (n : ℕ) (e : End) (row : ℕ) →
            place_words c.program.value n e (first_place c.program.value) row ≡ words n e (form_of pattern.now) row) }
        ensures turns { IfOk result (λ c. (n : ℕ) (e : End) (row : ℕ) →
            turns n e c.form.value row ≡ turns n e (form_of pattern.now) row) }
    {
        let form = Rc::new(alloc, pattern.form().share(alloc)?)?;
        Ok(Compiled {
            alloc,
            program,
            form,
            stack: Stack::new(alloc),
        })
    }

    /// No choices, for the same pattern, whose program is shared.
    pub(crate) fn share(&self) -> Result<Compiled, AllocError>
        ensures stack { IfOk result (λ c. c.stack ≡ []) }
        ensures program { IfOk result (λ c. c.program.value ≡ self.now.program.value) }
        ensures form { IfOk result (λ c. c.form.value ≡ self.now.form.value) }
    {
        Ok(Compiled {
            alloc: self.alloc,
            program: self.program.clone()?,
            form: self.form.clone()?,
            stack: Stack::new(self.alloc),
        })
    }

    /// How many labels come before the preferred choice, if there is one.
    #[inline(always)]
    pub(crate) fn depth(&self) -> Option<usize>
        ensures { MatchOption result (placed_ways self.now.program.value self.now.stack ≡ [])
            (λ depth. HasDepth depth (placed_ways self.now.program.value self.now.stack)
            (drop 1 (placed_ways self.now.program.value self.now.stack))) }
    {
        match self.stack.top() {
            None => None,
            Some(choice) => Some(choice.depth),
        }
    }

    /// Where the preferred choice gives way to two others, if it does, or may.
    #[inline(always)]
    pub(crate) fn top_split(&self) -> Option<TopSplit>
        ensures at { IfSome result (IsAtSplit self.now.program.value self.now.stack) }
        ensures none { result ≡ None → first_weight (placed_ways self.now.program.value self.now.stack) ≡ 0 }
    {
        let Some(choice) = self.stack.top() else {
            return None;
        };
        match self.program.instruction(choice.place) {
            Instruction::Split { .. } | Instruction::RowSplit { .. } => Some(TopSplit {
                depth: choice.depth,
                place: choice.place,
                height: self.stack.height() - 1,
            }),
            _ => None,
        }
    }

    /// Puts the whole pattern on the empty stack.
    pub(crate) fn begin(&mut self, start: u64) -> Result<(), AllocError>
        requires { self.old.stack ≡ [] }
        ensures kept { (self.new.program ≡ self.old.program) × (self.new.form ≡ self.old.form) }
        ensures put { OnOk result (IsPut (place_rest self.old.program.value (first_place self.old.program.value)).left
            start 0 [] (placed_ways self.old.program.value self.new.stack)) }
        ensures costs { OnOk result (stack_cost (placed_ways self.old.program.value self.new.stack)
            + first_weight (placed_ways self.old.program.value self.new.stack)
            ≤ place_cost self.old.program.value (first_place self.old.program.value)
            + place_weight self.old.program.value (first_place self.old.program.value)) }
    {
        let place = self.program.first();
        self.stack.push(PlacedChoice { depth: 0, place })
    }

    /// Takes up the preferred choice at its row, over the rows 1 to n and that end.
    #[inline(always)]
    pub(crate) fn take_up(&mut self, row: u64, n: u64, end: End) -> Result<Expansion, AllocError>
        requires { 0 < length self.old.stack }
        ensures kept { (self.new.program ≡ self.old.program) × (self.new.form ≡ self.old.form) }
        ensures taken { IfOk result (TakenUp (self.new ≡ self.old) n end row
            (placed_ways self.old.program.value self.old.stack) (placed_ways self.old.program.value self.new.stack)) }
        ensures costs { IfOk result (SpendsWays
            (placed_ways self.old.program.value self.old.stack) (placed_ways self.old.program.value self.new.stack)) }
    {
        let Some(choice) = self.stack.top() else {
            unreachable!();
        };
        let PlacedChoice { depth, place } = *choice;
        match self.program.instruction(place) {
            Instruction::Match => Ok(Expansion::Full),
            Instruction::Row {
                var,
                excluded,
                next: _,
            } => {
                if row <= n {
                    return Ok(Expansion::Row(Label { var, excluded }));
                }
                match end {
                    End::Open => Ok(Expansion::Open),
                    End::Closed => {
                        self.stack.drop_top();
                        Ok(Expansion::Split)
                    }
                }
            }
            Instruction::Split { preferred, other } => {
                self.stack.set_top(PlacedChoice {
                    depth,
                    place: other,
                });
                self.stack.push(PlacedChoice {
                    depth,
                    place: preferred,
                })?;
                Ok(Expansion::Split)
            }
            Instruction::RowSplit { preferred, other } => {
                let choice = PlacedChoice { depth, place };
                self.take_row_split(choice, preferred, other, row, n, end)
            }
            Instruction::PartitionStart { next } => {
                if row == 1 {
                    self.stack.set_top(PlacedChoice { depth, place: next });
                    return Ok(Expansion::Split);
                }
                self.stack.drop_top();
                Ok(Expansion::Split)
            }
            Instruction::PartitionEnd { next } => {
                if row <= n {
                    self.stack.drop_top();
                    return Ok(Expansion::Split);
                }
                match end {
                    End::Open => Ok(Expansion::Open),
                    End::Closed => {
                        set_top(&mut self.stack, depth, next);
                        Ok(Expansion::Split)
                    }
                }
            }
        }
    }

    /// Takes up the preferred choice, which is one between two places that begin with a row.
    #[inline(always)]
    fn take_row_split(
        &mut self,
        choice: PlacedChoice,
        preferred: u32,
        other: u32,
        row: u64,
        n: u64,
        end: End,
    ) -> Result<Expansion, AllocError>
        requires top { self.old.stack ≡ choice ∷ drop 1 self.old.stack }
        requires stands { IsRowSplit self.old.program.value choice.place preferred other }
        requires takes { place_weight self.old.program.value choice.place
            ≡ place_cost self.old.program.value preferred + place_cost self.old.program.value other }
        ensures kept { (self.new.program ≡ self.old.program) × (self.new.form ≡ self.old.form) }
        ensures taken { IfOk result (TakenUp (self.new ≡ self.old) n end row
            (placed_ways self.old.program.value self.old.stack) (placed_ways self.old.program.value self.new.stack)) }
        ensures costs { IfOk result (SpendsWays
            (placed_ways self.old.program.value self.old.stack) (placed_ways self.old.program.value self.new.stack)) }
    {
        let depth = choice.depth;
        if row <= n {
            self.stack.set_top(PlacedChoice {
                depth,
                place: other,
            });
            self.stack.push(PlacedChoice {
                depth,
                place: preferred,
            })?;
            return Ok(Expansion::Split);
        }
        match end {
            End::Open => Ok(Expansion::Open),
            End::Closed => {
                self.stack.drop_top();
                Ok(Expansion::Split)
            }
        }
    }

    /// What follows the row that the preferred choice maps, at the row after it, in the choice's place.
    #[inline(always)]
    pub(crate) fn follow(&mut self, depth: usize, row: u64)
        requires { 0 < length self.old.stack }
        ensures kept { (self.new.program ≡ self.old.program) × (self.new.form ≡ self.old.form) }
        ensures put { IsPut (first_later (placed_ways self.old.program.value self.old.stack)) row depth
            (drop 1 (placed_ways self.old.program.value self.old.stack))
            (placed_ways self.old.program.value self.new.stack) }
        ensures costs { stack_cost (placed_ways self.old.program.value self.new.stack)
            < stack_cost (placed_ways self.old.program.value self.old.stack) }
    {
        let Some(choice) = self.stack.top() else {
            unreachable!();
        };
        let next = self.program.after_row(choice.place);
        set_top(&mut self.stack, depth, next);
    }

    /// The same, on a stack of its own.
    pub(crate) fn ahead(&self, row: u64) -> Result<Compiled, AllocError>
        requires { 0 < length self.now.stack }
        ensures { IfOk result (λ c. IsPut (first_later (placed_ways self.now.program.value self.now.stack)) row 0 []
            (placed_ways c.program.value c.stack)) }
    {
        let Some(choice) = self.stack.top() else {
            unreachable!();
        };
        let next = self.program.after_row(choice.place);
        Ok(Compiled {
            alloc: self.alloc,
            program: self.program.clone()?,
            form: self.form.clone()?,
            stack: stack_at(self.alloc, next)?,
        })
    }
}

/// Puts another choice, if there is one, in the top one's place.
#[inline(always)]
fn set_top(stack: &mut Stack<PlacedChoice>, depth: usize, place: Option<u32>)
    requires { 0 < length stack.old }
    ensures { stack.new ≡ placed depth place (drop 1 stack.old) }
{
    match place {
        None => stack.drop_top(),
        Some(place) => stack.set_top(PlacedChoice { depth, place }),
    }
}

/// A choice without labels before it, if there is a place, on a stack of its own.
fn stack_at(alloc: Global, place: Option<u32>) -> Result<Stack<PlacedChoice>, AllocError>
    ensures { IfOk result (λ stack. stack ≡ placed 0 place []) }
{
    let mut stack = Stack::new(alloc);
    let Some(place) = place else {
        return Ok(stack);
    };
    stack.push(PlacedChoice { depth: 0, place })?;
    Ok(stack)
}
