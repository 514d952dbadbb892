//! Iterations of a quantified part, and what they give way to.
ghost use Rattle.std.specs.Prelude.{◌≡◌};
ghost use Rattle.rp_words.specs.Movement.{always_moves};

use crate::machine::continuation::{Continuation, before};
use crate::machine::link::{Part, Tail, linked, reach_shared, share};
use crate::machine::node::Node;
use crate::machine::split::Split;
use rp_words::Form;
use std::alloc::{AllocError, Global};
use std::rc::Rc;

/// Iterations of a part. So many may follow the required ones, or any number.
#[derive(Drop)]
pub(crate) struct Iterations {
    pub body: Node,
    /// How many may follow the required ones. None: any number.
    pub further: Option<u32>,
    /// Whether to stop is preferred.
    pub reluctant: bool,
    /// Whether it is known that each iteration takes a row.
    pub moving: bool,
    ghost known: { moving ≡ always_moves body.form.value },
}

impl Iterations {
    ghost use Rattle.std.specs.Prelude.{◌≡◌, ℕ, ◌∷◌, ◌+◌, IfOk, OnOk, List, Option, Some, None};
    ghost use Rattle.rp_words.specs.declared.word.End.{End};
    ghost use Rattle.rp_words.specs.Words.{further};
    ghost use Rattle.rp_words.specs.Turns.{WordsAndTurns};
    ghost use Rattle.rp_pattern.specs.Continuations.{AreIterationsOf, IsNodeOf, IsOneLess, iterations_part, tail_parts, still};
    ghost use Rattle.rp_pattern.specs.Splits.{AlwaysSplits, SplitsAt, StandsFor, ComesAgain};

    /// The same iterations, of which another number may follow.
    #[inline(always)]
    pub(crate) fn with_further(&self, further: Option<u32>) -> Result<Iterations, AllocError>
        ensures { IfOk result (AreIterationsOf self.now further) }
    {
        Ok(Iterations {
            body: self.body.share()?,
            further,
            reluctant: self.reluctant,
            moving: self.moving,
        })
    }

    /// How many iterations may follow the required ones.
    #[inline(always)]
    pub(crate) fn further_after(lower: u32, upper: Option<u32>) -> Option<u32>
        ensures { (n : ℕ) → still n result ≡ further n lower upper }
    {
        match upper {
            None => None,
            Some(upper) => Some(upper.saturating_sub(lower)),
        }
    }

    /// The same as `take_up`, in a call of its own.
    #[inline(never)]
    pub(crate) fn take_apart(
        &self,
        alloc: Global,
        lower: u32,
        then: &Tail,
        row: u64,
    ) -> Result<Split, AllocError>
        ensures { IfOk result (AlwaysSplits row (λ n e. iterations_part n e lower self.now
            ∷ tail_parts n e then.now)) }
    {
        let mut split = Split::none();
        self.take_up(alloc, lower, then, row, &mut split)?;
        Ok(split)
    }

    /// A required iteration, or else another one and what comes after.
    #[inline(always)]
    fn take_up(
        &self,
        alloc: Global,
        lower: u32,
        then: &Tail,
        row: u64,
        split: &mut Split,
    ) -> Result<(), AllocError>
        ensures { OnOk result (AlwaysSplits row (λ n e. iterations_part n e lower self.now
            ∷ tail_parts n e then.now) split.new) }
    {
        if lower > 0 {
            return self.take_required(alloc, lower - 1, then, split);
        }
        let stop = reach_shared(then, row)?;
        match self.further {
            None => self.take_optional(alloc, None, then, row, stop, split),
            Some(further) => {
                if further == 0 {
                    *split = Split::one(stop);
                    return Ok(());
                }
                self.take_optional(alloc, Some(further - 1), then, row, stop, split)
            }
        }
    }

    /// An iteration, and then `lower` required ones.
    #[inline(always)]
    fn take_required(
        &self,
        alloc: Global,
        lower: u32,
        then: &Tail,
        split: &mut Split,
    ) -> Result<(), AllocError>
        ensures { OnOk result ((row : ℕ) →
            AlwaysSplits row (λ n e. iterations_part n e (lower + 1) self.now ∷ tail_parts n e then.now) split.new) }
    {
        let copy = self.with_further(self.further)?;
        let first = copy.into_first(alloc, &self.body.form, self.body.excluded, lower, then)?;
        *split = Split::one(Some(first));
        Ok(())
    }

    /// An iteration of `body`, and then `lower` required ones. `body` and `excluded` are those of these iterations, which move
    /// into what comes after.
    #[inline(always)]
    pub(crate) fn into_first(
        self,
        alloc: Global,
        body: &Rc<Form>,
        excluded: bool,
        lower: u32,
        then: &Tail,
    ) -> Result<Continuation, AllocError>
        requires { IsNodeOf body.now.value excluded self.body }
        ensures { IfOk result (λ first. (row : ℕ) →
            AlwaysSplits row (λ n e. iterations_part n e (lower + 1) self ∷ tail_parts n e then.now)
            (record { preferred = None; other = Some first })) }
    {
        let part = Part::Times {
            lower,
            iterations: self,
        };
        let later = linked(alloc, None, part, share(then)?)?;
        before(body, excluded, later)
    }

    /// An iteration that takes a row, before `further` others, or to stop.
    #[inline(always)]
    fn take_optional(
        &self,
        alloc: Global,
        further: Option<u32>,
        then: &Tail,
        row: u64,
        stop: Option<Continuation>,
        split: &mut Split,
    ) -> Result<(), AllocError>
        requires stop { (n : ℕ) (e : End) → StandsFor n e row (tail_parts n e then.now) stop }
        requires further { IsOneLess self.now.further further }
        ensures { OnOk result (AlwaysSplits row (λ n e. iterations_part n e 0 self.now
            ∷ tail_parts n e then.now) split.new) }
    {
        let again = self.again(alloc, further, then, row)?;
        self.another_or(self.reluctant, again, stop, split)
    }

    /// What comes after another iteration: `further` ones may follow, if it has taken a row.
    #[inline(always)]
    fn again(
        &self,
        alloc: Global,
        further: Option<u32>,
        then: &Tail,
        row: u64,
    ) -> Result<Tail, AllocError>
        ensures { IfOk result (λ tail. (n : ℕ) (e : End) →
            ComesAgain n e row self.now further (tail_parts n e then.now) (tail_parts n e tail)) }
    {
        let since = if self.moving { None } else { Some(row) };
        let iterations = self.with_further(further)?;
        let part = Part::Times {
            lower: 0,
            iterations,
        };
        linked(alloc, since, part, share(then)?)
    }

    /// Another iteration, with what comes after it, or to stop. The caller says which of them is preferred, since it knows.
    #[inline(always)]
    pub(crate) fn another_or(
        &self,
        reluctant: bool,
        again: Tail,
        stop: Option<Continuation>,
        split: &mut Split,
    ) -> Result<(), AllocError>
        requires { reluctant ≡ self.now.reluctant }
        ensures { OnOk result ((row : ℕ) (n : ℕ) (e : End) (further : Option ℕ) (ts : List WordsAndTurns) →
            IsOneLess self.now.further further →
            ComesAgain n e row self.now further ts (tail_parts n e again) → StandsFor n e row ts stop →
            SplitsAt n e row (iterations_part n e 0 self.now ∷ ts) split.new) }
    {
        let another = Some(before(&self.body.form, self.body.excluded, again)?);
        if reluctant {
            *split = Split {
                preferred: stop,
                other: another,
            };
            return Ok(());
        }
        *split = Split {
            preferred: another,
            other: stop,
        };
        Ok(())
    }
}
