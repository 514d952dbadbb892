//! What a choice comes to when it is taken up.
ghost use Rattle.std.specs.Prelude.{◌≡◌, ℕ, ◌∷◌, List};
ghost use Rattle.rp_words.specs.declared.word.End.{End};
ghost use Rattle.rp_program.specs.Parts.{form_part};
ghost use Rattle.rp_words.specs.Turns.{WordsAndTurns};
ghost use Rattle.rp_pattern.specs.Splits.{TakenUp};

use crate::machine::continuation::Continuation;
use rp_words::{End, Form, Label};

/// The choices that a choice stands for.
#[derive(Drop)]
pub(crate) struct Split {
    /// The one to take up first.
    pub preferred: Option<Continuation>,
    /// The one after it.
    pub other: Option<Continuation>,
}

/// What a choice came to.
#[derive(Clone, Copy)]
pub(crate) enum Expansion {
    /// Nothing is left: the labels are a full word.
    Full,
    /// The next row, which is known, is mapped.
    Row(Label),
    /// It runs into the row after the last known one.
    Open,
    /// It stands for other choices, those of `split`.
    Split,
}

impl Split {
    /// No choice.
    #[inline(always)]
    pub(crate) fn none() -> Split
        ensures { result ≡ record { preferred = None; other = None } }
    {
        Split {
            preferred: None,
            other: None,
        }
    }

    /// One choice, if any.
    #[inline(always)]
    pub(crate) fn one(continuation: Option<Continuation>) -> Split
        ensures { result ≡ record { preferred = None; other = continuation } }
    {
        Split {
            preferred: None,
            other: continuation,
        }
    }
}

/// One row, taken up.
#[inline(always)]
pub(crate) fn take_row(
    var: usize,
    excluded: bool,
    row: u64,
    n: u64,
    end: End,
    split: &mut Split,
) -> Expansion
    ensures { (later : ℕ → End → List WordsAndTurns) →
        TakenUp n end row (λ n e. form_part n e (Form.Variable var) excluded ∷ later n e) split.new result }
{
    if row <= n {
        return Expansion::Row(Label { var, excluded });
    }
    match end {
        End::Open => Expansion::Open,
        End::Closed => {
            *split = Split::none();
            Expansion::Split
        }
    }
}
