//! A part of a pattern, and what it gives way to: an arm for each form.
ghost use Rattle.std.specs.Prelude.{◌≡◌, IsTrue};
ghost use Rattle.rp_words.specs.Bounds.{is_allowed};

use crate::machine::continuation::{Continuation, before};
use crate::machine::iterations::Iterations;
use crate::machine::link::{Part, Tail, linked, reach_shared, share};
use crate::machine::orders::Orders;
use crate::machine::split::{Expansion, Split, take_row};
use rp_words::{End, Form, Label, MAX_PARTS};
use std::alloc::{AllocError, Global};
use std::rc::Rc;

/// A part of a pattern, and whether it stands inside `{- .. -}`.
#[derive(Drop)]
pub(crate) struct Node {
    pub form: Rc<Form>,
    /// Whether its labels are excluded.
    pub excluded: bool,
    ghost allowed: { IsTrue (is_allowed form.value) },
}

impl Node {
    ghost use Rattle.std.specs.Prelude.{◌≡◌, ◌≢◌, ℕ, ◌∷◌, ◌<◌, ◌≤◌, ◌++◌, IfOk, IfSome, OnOk, IsTrue, List, Option, Some, None, map, length};
    ghost use Rattle.std.specs.List.{AllByRecursion};
    ghost use Rattle.std.specs.declared.vec.Vec.{Vec};
    ghost use Rattle.std.specs.declared.rc.Rc.{Rc};
    ghost use Rattle.std.specs.declared.alloc.Global.{Global};
    ghost use Rattle.rp_words.specs.declared.word.End.{End};
    ghost use Rattle.rp_words.specs.declared.form.Form.{Form};
    ghost use Rattle.rp_words.specs.Bounds.{is_allowed};
    ghost use Rattle.rp_pattern.specs.PermutedParts.{permuted_parts};
    ghost use Rattle.rp_words.specs.Variables.{all_true};
    ghost use Rattle.rp_program.specs.Parts.{in_order};
    ghost use Rattle.rp_pattern.specs.Continuations.{IsNodeOf, IsSamePart, tail_parts, node_part, iterations_part, permuted_form_parts};
    ghost use Rattle.rp_pattern.specs.Splits.{TakenUp, AlwaysSplits};

    /// A part, inside an exclusion or outside of one.
    #[inline(always)]
    pub(crate) fn of(form: &Rc<Form>, excluded: bool) -> Result<Node, AllocError>
        requires { IsTrue (is_allowed form.now.value) }
        ensures { IfOk result (IsNodeOf form.now.value excluded) }
    {
        Ok(Node {
            form: form.clone()?,
            excluded,
        })
    }

    /// A further owner.
    #[inline(always)]
    pub(crate) fn share(&self) -> Result<Node, AllocError>
        ensures { IfOk result (IsNodeOf self.now.form.value self.now.excluded) }
    {
        Node::of(&self.form, self.excluded)
    }

    /// The label of its row, if it is a variable.
    #[inline(always)]
    pub(crate) fn label(&self) -> Option<Label>
        ensures { IfSome result (λ label. IsNodeOf (Form.Variable label.var) label.excluded self.now) }
    {
        match &*self.form {
            Form::Variable(var) => Some(Label {
                var: *var,
                excluded: self.excluded,
            }),
            _ => None,
        }
    }

    /// Taken up at a row, before later parts. `form` is its own, as it stands in memory. What comes up most often is taken up
    /// in place. The rest has a call of its own, since the whole is too large to be inlined.
    #[inline(always)]
    pub(crate) fn take_up(
        &self,
        alloc: Global,
        form: &Form,
        then: &Tail,
        row: u64,
        n: u64,
        end: End,
        split: &mut Split,
    ) -> Result<Expansion, AllocError>
        requires { form.now ≡ self.now.form.value }
        ensures { IfOk result (TakenUp n end row (λ n e. node_part n e self.now
            ∷ tail_parts n e then.now) split.new) }
    {
        match form {
            Form::Concatenation(first, second) => {
                *split = Split::one(Some(self.first_part(alloc, first, second, then)?));
                Ok(Expansion::Split)
            }
            Form::Alternation(first, second) => {
                self.take_alternation(first, second, then, split)?;
                Ok(Expansion::Split)
            }
            _ => self.take_other(alloc, form, then, row, n, end, split),
        }
    }

    /// The same, with the choices that it stands for.
    pub(crate) fn take_apart(
        &self,
        alloc: Global,
        then: &Tail,
        row: u64,
        n: u64,
        end: End,
    ) -> Result<(Expansion, Split), AllocError>
        ensures { IfOk result (λ taken. TakenUp n end row (λ n e. node_part n e self.now
            ∷ tail_parts n e then.now) taken.1 taken.0) }
    {
        let mut split = Split::none();
        let expansion = self.take_up(alloc, &self.form, then, row, n, end, &mut split)?;
        Ok((expansion, split))
    }

    /// The same where it isn't two parts. A required iteration comes up more often than the rest, so it has a call that gives
    /// its one choice. `split` is set once, since that drops what it held, and twice would be too large to be inlined.
    #[inline(always)]
    fn take_other(
        &self,
        alloc: Global,
        form: &Form,
        then: &Tail,
        row: u64,
        n: u64,
        end: End,
        split: &mut Split,
    ) -> Result<Expansion, AllocError>
        requires form { form.now ≡ self.now.form.value }
        requires no_concatenation { (first second : Rc Form Global) → form.now ≢ Form.Concatenation first second }
        requires no_alternation { (first second : Rc Form Global) → form.now ≢ Form.Alternation first second }
        ensures { IfOk result (TakenUp n end row (λ n e. node_part n e self.now
            ∷ tail_parts n e then.now) split.new) }
    {
        let (expansion, other) = match form {
            Form::Quantified {
                body,
                lower,
                upper,
                reluctant,
            } if *lower > 0 => {
                let first = self.first_iteration(alloc, body, *lower, *upper, *reluctant, then)?;
                (Expansion::Split, Split::one(Some(first)))
            }
            _ => self.take_other_apart(alloc, form, then, row, n, end)?,
        };
        *split = other;
        Ok(expansion)
    }

    /// The same, in a call of its own.
    #[inline(never)]
    fn take_other_apart(
        &self,
        alloc: Global,
        form: &Form,
        then: &Tail,
        row: u64,
        n: u64,
        end: End,
    ) -> Result<(Expansion, Split), AllocError>
        requires form { form.now ≡ self.now.form.value }
        requires no_concatenation { (first second : Rc Form Global) → form.now ≢ Form.Concatenation first second }
        requires no_alternation { (first second : Rc Form Global) → form.now ≢ Form.Alternation first second }
        ensures { IfOk result (λ taken. TakenUp n end row (λ n e. node_part n e self.now
            ∷ tail_parts n e then.now) taken.1 taken.0) }
    {
        match form {
            Form::Variable(var) => {
                let mut split = Split::none();
                let expansion = take_row(*var, self.excluded, row, n, end, &mut split);
                Ok((expansion, split))
            }
            Form::Empty => Ok((Expansion::Split, self.take_empty(then, row)?)),
            Form::PartitionStart => Ok((Expansion::Split, self.take_start(then, row)?)),
            Form::PartitionEnd => self.take_end(then, row, n, end),
            Form::Permute(_) => Ok((Expansion::Split, self.take_permute(alloc, then, row)?)),
            Form::Exclusion(body) => Ok((Expansion::Split, self.take_exclusion(body, then)?)),
            Form::Quantified {
                body,
                lower,
                upper,
                reluctant,
            } => {
                let iterations = self.iterations(body, *lower, *upper, *reluctant)?;
                let split = iterations.take_apart(alloc, *lower, then, row)?;
                Ok((Expansion::Split, split))
            }
            Form::Concatenation(_, _) | Form::Alternation(_, _) => unreachable!(),
        }
    }

    /// The first of two parts, before the second one.
    #[inline(always)]
    fn first_part(
        &self,
        alloc: Global,
        first: &Rc<Form>,
        second: &Rc<Form>,
        then: &Tail,
    ) -> Result<Continuation, AllocError>
        requires { self.now.form.value ≡ Form.Concatenation first.now second.now }
        ensures { IfOk result (λ first. (row : ℕ) →
            AlwaysSplits row (λ n e. node_part n e self.now ∷ tail_parts n e then.now)
            (record { preferred = None; other = Some first })) }
    {
        let next = Node::of(second, self.excluded)?;
        let then = share(then)?;
        if let Form::Variable(var) = &**first {
            return Ok(Continuation::Row {
                var: *var,
                next,
                then,
            });
        }
        let later = linked(alloc, None, Part::Whole(next), then)?;
        before(first, self.excluded, later)
    }

    /// The first iteration of a quantified part that requires one, before the others, in a call of its own.
    #[inline(never)]
    fn first_iteration(
        &self,
        alloc: Global,
        body: &Rc<Form>,
        lower: u32,
        upper: Option<u32>,
        reluctant: bool,
        then: &Tail,
    ) -> Result<Continuation, AllocError>
        requires some { 0 < lower }
        requires form { self.now.form.value ≡ Form.Quantified body.now lower upper reluctant }
        ensures { IfOk result (λ first. (row : ℕ) →
            AlwaysSplits row (λ n e. node_part n e self.now ∷ tail_parts n e then.now)
            (record { preferred = None; other = Some first })) }
    {
        let iterations = self.iterations(body, lower, upper, reluctant)?;
        iterations.into_first(alloc, body, self.excluded, lower - 1, then)
    }

    /// Either part.
    #[inline(always)]
    fn take_alternation(
        &self,
        first: &Rc<Form>,
        second: &Rc<Form>,
        then: &Tail,
        split: &mut Split,
    ) -> Result<(), AllocError>
        requires { self.now.form.value ≡ Form.Alternation first.now second.now }
        ensures { OnOk result ((row : ℕ) →
            AlwaysSplits row (λ n e. node_part n e self.now ∷ tail_parts n e then.now) split.new) }
    {
        let preferred = before(first, self.excluded, share(then)?)?;
        let other = before(second, self.excluded, share(then)?)?;
        *split = Split {
            preferred: Some(preferred),
            other: Some(other),
        };
        Ok(())
    }

    /// No row.
    fn take_empty(&self, then: &Tail, row: u64) -> Result<Split, AllocError>
        requires { self.now.form.value ≡ Form.Empty }
        ensures { IfOk result (AlwaysSplits row (λ n e. node_part n e self.now ∷ tail_parts n e then.now)) }
    {
        Ok(Split::one(reach_shared(then, row)?))
    }

    /// No row, before row 1.
    fn take_start(&self, then: &Tail, row: u64) -> Result<Split, AllocError>
        requires { self.now.form.value ≡ Form.PartitionStart }
        ensures { IfOk result (AlwaysSplits row (λ n e. node_part n e self.now ∷ tail_parts n e then.now)) }
    {
        if row != 1 {
            return Ok(Split::none());
        }
        Ok(Split::one(reach_shared(then, row)?))
    }

    /// No row, after the last one.
    fn take_end(
        &self,
        then: &Tail,
        row: u64,
        n: u64,
        end: End,
    ) -> Result<(Expansion, Split), AllocError>
        requires { self.now.form.value ≡ Form.PartitionEnd }
        ensures { IfOk result (λ taken. TakenUp n end row (λ n e. node_part n e self.now
            ∷ tail_parts n e then.now) taken.1 taken.0) }
    {
        if row <= n {
            return Ok((Expansion::Split, Split::none()));
        }
        match end {
            End::Open => Ok((Expansion::Open, Split::none())),
            End::Closed => Ok((Expansion::Split, Split::one(reach_shared(then, row)?))),
        }
    }

    /// The part, whose labels are excluded.
    fn take_exclusion(&self, body: &Rc<Form>, then: &Tail) -> Result<Split, AllocError>
        requires { self.now.form.value ≡ Form.Exclusion body.now }
        ensures { IfOk result (λ split. (row : ℕ) →
            AlwaysSplits row (λ n e. node_part n e self.now ∷ tail_parts n e then.now) split) }
    {
        Ok(Split::one(Some(before(body, true, share(then)?)?)))
    }

    /// The iterations of a quantified part.
    #[inline(always)]
    fn iterations(
        &self,
        body: &Rc<Form>,
        lower: u32,
        upper: Option<u32>,
        reluctant: bool,
    ) -> Result<Iterations, AllocError>
        requires { self.now.form.value ≡ Form.Quantified body.now lower upper reluctant }
        ensures part { IfOk result (λ it. (n : ℕ) (e : End) →
            IsSamePart (iterations_part n e lower it) (node_part n e self.now)) }
        ensures body { IfOk result (λ it. IsNodeOf body.now.value self.now.excluded it.body) }
    {
        Ok(Iterations {
            body: Node::of(body, self.excluded)?,
            further: Iterations::further_after(lower, upper),
            reluctant,
            moving: body.always_moves(),
        })
    }

    /// The orders of the parts.
    fn take_permute(&self, alloc: Global, then: &Tail, row: u64) -> Result<Split, AllocError>
        requires { (parts : Vec (Rc Form Global) Global) × (self.now.form.value ≡ Form.Permute parts) }
        ensures { IfOk result (AlwaysSplits row (λ n e. node_part n e self.now ∷ tail_parts n e then.now)) }
    {
        let orders = Orders {
            permute: self.share()?,
            from: 0,
        };
        orders.take_apart(alloc, then, row)
    }

    /// The parts of a PERMUTE.
    pub(crate) fn parts(&self) -> &[Rc<Form>]
        ensures parts { map (λ f. f.value) result.now ≡ permuted_parts self.now.form.value }
        ensures few { length result.now ≤ MAX_PARTS }
        ensures allowed { IsTrue (all_true (map (λ f. is_allowed f.value) result.now)) }
    {
        match &*self.form {
            Form::Permute(parts) => parts,
            _ => &[],
        }
    }

    /// The parts in an order, before later ones.
    pub(crate) fn in_order(
        &self,
        alloc: Global,
        order: &[usize],
        then: &Tail,
    ) -> Result<Tail, AllocError>
        requires { AllByRecursion (λ k. k < length (permuted_parts self.now.form.value)) order.now }
        ensures { IfOk result (λ tail. (n : ℕ) (e : End) →
            tail_parts n e tail ≡ in_order (permuted_form_parts n e self.now) order.now ++ tail_parts n e then.now) }
    {
        let Some((place, places)) = order.split_first() else {
            return share(then);
        };
        let part = Part::Whole(Node::of(&self.parts()[*place], self.excluded)?);
        linked(alloc, None, part, self.in_order(alloc, places, then)?)
    }
}
