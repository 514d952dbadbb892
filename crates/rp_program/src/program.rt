//! Programs.
ghost use Rattle.std.specs.Prelude.{◌≡◌, ℕ, ◌<◌, ◌≤◌, length, IsTrue, IfOk, OnOk};
ghost use Rattle.rp_words.specs.declared.word.End.{End};
ghost use Rattle.rp_program.specs.Places.{at, made, parts};
ghost use Rattle.rp_program.specs.Drafts.{place_at, names_hold};

use crate::draft::{Draft, Refusal};
use crate::place::{Next, Place};
use rp_words::Pattern;
use std::alloc::{AllocError, Global};

/// What stands at a place of a program. Each place that it names is one of the program.
#[derive(Clone, Copy)]
pub enum Instruction {
    /// Nothing is left of the pattern: the labels are a full word.
    Match,
    /// One row, mapped to the variable of this number, and then `next`.
    Row {
        /// The variable.
        var: usize,
        /// Whether the row stands inside `{- .. -}`.
        excluded: bool,
        /// What follows the row.
        next: u32,
    },
    /// Either of two places, of which the first is preferred.
    Split {
        /// The one to take up first.
        preferred: u32,
        /// The one after it.
        other: u32,
    },
    /// Either of two places, which both begin with a row: past the last known row it waits for one.
    RowSplit {
        /// The one to take up first.
        preferred: u32,
        /// The one after it.
        other: u32,
    },
    /// `^`: no row, before row 1.
    PartitionStart {
        /// What follows.
        next: u32,
    },
    /// `$`: no row, after the last one.
    PartitionEnd {
        /// What follows, if anything may.
        next: Option<u32>,
    },
}

/// A pattern, compiled: a list of instructions, each at its place. It doesn't change, so that searches share it.
pub struct Program {
    places: Vec<Place>,
    first: u32,
    ghost first_there: { first < length places.items },
    ghost named: { (place : ℕ) → place < length places.items → IsTrue (names_hold (length places.items) place (place_at places.items place)) },
    ghost words: { (n : ℕ) (e : End) (place row : ℕ) → place < length places.items → (made n e (parts n e places.items) (place_at places.items place)).0 row ≡ (at (parts n e places.items) place).0 row },
    ghost turns: { (n : ℕ) (e : End) (place row : ℕ) → place < length places.items → (made n e (parts n e places.items) (place_at places.items place)).1 row ≤ (at (parts n e places.items) place).1 row },
}

/// It is let go of by a call, wherever it is held.
impl Drop for Program {
    fn drop(self) {
        let Program {
            places: _,
            first: _,
        } = self;
    }
}

#[tactic(auto, unfolding(crate::specs::Programs::place_count, crate::specs::Programs::next_place, crate::specs::Programs::first_place, crate::specs::Programs::place_words, crate::specs::Programs::place_turns))]
impl Program {
    ghost use Rattle.std.specs.Prelude.{◌≡◌, ℕ, ◌<◌, IfOk, IfSome, OnOk};
    ghost use Rattle.rp_words.specs.PatternForm.{form_of};
    ghost use Rattle.rp_program.specs.Programs.{IsProgramOf, IsPlace, IsPlaceOption, StandsAs, first_place, place_count, next_place};
    ghost use Rattle.rp_program.specs.Costs.{TakesAs, option_cost, place_cost};

    /// The program of a pattern. None where it would have more than `most` places, or take too long to make: so for a
    /// PERMUTE of many parts, or bounds within bounds.
    pub fn compile(
        alloc: Global,
        pattern: &Pattern,
        most: u32,
    ) -> Result<Option<Program>, AllocError>
        ensures { IfOk result (λ program. IfSome program (IsProgramOf (form_of pattern.now))) }
    {
        let mut draft = Draft::new(alloc, most);
        match draft.whole(pattern.form()) {
            Ok(first) => Ok(Some(Program {
                places: draft.places,
                first,
            })),
            Err(Refusal::TooLarge) => Ok(None),
            Err(Refusal::OutOfMemory) => Err(AllocError),
        }
    }

    /// The place that a search begins with.
    pub fn first(&self) -> u32
        ensures place { result ≡ first_place self.now }
        ensures there { IsPlace self.now result }
    {
        self.first
    }

    /// The number of its places, which are numbered from 0.
    pub fn size(&self) -> usize
        ensures { result ≡ place_count self.now }
    {
        self.places.len()
    }

    /// What stands at a place.
    #[inline(always)]
    pub fn instruction(&self, place: u32) -> Instruction
        requires { IsPlace self.now place }
        ensures stands { StandsAs self.now place result }
        ensures takes { TakesAs self.now place result }
    {
        match &self.places[place as usize] {
            Place::Match => Instruction::Match,
            Place::Row {
                var,
                excluded,
                next,
            } => Instruction::Row {
                var: *var,
                excluded: *excluded,
                next: *next,
            },
            Place::Split { preferred, other } => Instruction::Split {
                preferred: *preferred,
                other: *other,
            },
            Place::RowSplit {
                preferred,
                other,
                ..
            } => Instruction::RowSplit {
                preferred: *preferred,
                other: *other,
            },
            Place::PartitionStart { next } => Instruction::PartitionStart { next: *next },
            Place::PartitionEnd { next } => Instruction::PartitionEnd { next: *next },
            Place::Loop {
                preferred,
                other,
                ..
            } => Instruction::Split {
                preferred: *preferred,
                other: *other,
            },
        }
    }

    /// What follows the row that a place maps, if it maps one.
    #[inline(always)]
    pub fn after_row(&self, place: u32) -> Option<u32>
        requires { IsPlace self.now place }
        ensures next { result ≡ next_place self.now place }
        ensures there { IsPlaceOption self.now result }
        ensures takes { option_cost self.now result < place_cost self.now place }
    {
        match &self.places[place as usize] {
            Place::Row { next, .. } => Some(*next),
            _ => None,
        }
    }
}
