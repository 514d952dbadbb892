//! What is left of a pattern from a choice on.
ghost use Rattle.std.specs.Prelude.{◌≡◌, ℕ, ◌∷◌, IfOk, IfSome, IsTrue, Some};
ghost use Rattle.rp_words.specs.declared.word.End.{End};
ghost use Rattle.rp_words.specs.Bounds.{is_allowed};
ghost use Rattle.rp_program.specs.Parts.{form_part};
ghost use Rattle.rp_pattern.specs.Continuations.{BeginsWithRow, continuation_parts, later_parts, tail_parts};
ghost use Rattle.rp_pattern.specs.Splits.{Replaces, StandsFor, TakenUp};

use crate::machine::link::{Link, Part, Tail, reach, reach_shared, share, take_reached};
use crate::machine::node::Node;
use crate::machine::split::{Expansion, Split, take_row};
use rp_words::{End, Form, Label};
use std::alloc::{AllocError, Global};
use std::rc::Rc;

/// What is left of a pattern.
pub(crate) enum Continuation {
    /// Nothing is left.
    Done,
    /// A part as it stands in the pattern, before later ones.
    Then { node: Node, then: Tail },
    /// One row, mapped to the variable of this number, before a part and later ones. The label is excluded as the part is.
    Row { var: usize, next: Node, then: Tail },
    /// Later parts, the first of which is reached.
    Reached(Rc<Link>),
}

/// It is let go of by a call, wherever it is held.
impl Drop for Continuation {
    fn drop(self) {
        match self {
            Continuation::Done => {}
            Continuation::Then { node: _, then: _ } => {}
            Continuation::Row {
                var: _,
                next: _,
                then: _,
            } => {}
            Continuation::Reached(_) => {}
        }
    }
}

/// A choice that isn't taken up: how many labels come before it, and what is left of the pattern.
#[derive(Drop)]
pub(crate) struct Choice {
    pub depth: usize,
    pub continuation: Continuation,
}

impl Continuation {
    /// The label of the row that it maps first, where it is seen to begin with one.
    #[inline(always)]
    pub(crate) fn label(&self) -> Option<Label>
        ensures { IfSome result (λ label. BeginsWithRow label self.now) }
    {
        match self {
            Continuation::Done => None,
            Continuation::Then { node, then: _ } => node.label(),
            Continuation::Row { var, next, then: _ } => Some(Label {
                var: *var,
                excluded: next.excluded,
            }),
            Continuation::Reached(link) => match &link.part {
                Part::Whole(node) => node.label(),
                _ => None,
            },
        }
    }

    /// Taken up at a row, over the rows 1 to n and that end.
    #[inline(always)]
    pub(crate) fn take_up(
        &self,
        alloc: Global,
        row: u64,
        n: u64,
        end: End,
        split: &mut Split,
    ) -> Result<Expansion, AllocError>
        ensures { IfOk result (TakenUp n end row (λ n e. continuation_parts n e self.now) split.new) }
    {
        match self {
            Continuation::Done => Ok(Expansion::Full),
            Continuation::Then { node, then } => {
                node.take_up(alloc, &node.form, then, row, n, end, split)
            }
            Continuation::Row { var, next, then: _ } => {
                Ok(take_row(*var, next.excluded, row, n, end, split))
            }
            Continuation::Reached(link) => take_reached(alloc, link, row, n, end, split),
        }
    }

    /// What is left at a row when the first part is mapped before it.
    #[inline(always)]
    pub(crate) fn into_later(self, row: u64) -> Result<Option<Continuation>, AllocError>
        ensures { IfOk result (λ continuation. (n : ℕ) (e : End) →
            StandsFor n e row (later_parts n e self) continuation) }
    {
        match self {
            Continuation::Done => Ok(Some(Continuation::Done)),
            Continuation::Then { node: _, then } => Ok(reach(then, row)),
            Continuation::Row { var: _, next, then } => Ok(Some(Continuation::Then {
                node: next,
                then,
            })),
            Continuation::Reached(link) => reach_shared(&link.then, row),
        }
    }

    /// The same, of which the first part is kept.
    pub(crate) fn after_first(&self, row: u64) -> Result<Option<Continuation>, AllocError>
        ensures { IfOk result (λ continuation. (n : ℕ) (e : End) →
            StandsFor n e row (later_parts n e self.now) continuation) }
    {
        match self {
            Continuation::Done => Ok(Some(Continuation::Done)),
            Continuation::Then { node: _, then } => reach_shared(then, row),
            Continuation::Row { var: _, next, then } => Ok(Some(Continuation::Then {
                node: next.share()?,
                then: share(then)?,
            })),
            Continuation::Reached(link) => reach_shared(&link.then, row),
        }
    }
}

/// A part before later ones. Where it begins with a variable, it is that row before the rest of the part, so that no turn
/// is spent on coming to the row.
#[inline(always)]
pub(crate) fn before(
    form: &Rc<Form>,
    excluded: bool,
    then: Tail,
) -> Result<Continuation, AllocError>
    requires { IsTrue (is_allowed form.now.value) }
    ensures { IfOk result (λ continuation. (n : ℕ) (e : End) (i : ℕ) →
        Replaces n e i (form_part n e form.now.value excluded ∷ tail_parts n e then) (Some continuation)) }
{
    if let Form::Concatenation(first, second) = &**form {
        if let Form::Variable(var) = &**first {
            let next = Node::of(second, excluded)?;
            return Ok(Continuation::Row {
                var: *var,
                next,
                then,
            });
        }
    }
    let node = Node::of(form, excluded)?;
    Ok(Continuation::Then { node, then })
}
