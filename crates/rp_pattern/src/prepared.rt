//! Patterns made ready for searches.
ghost use Rattle.std.specs.Prelude.{◌≡◌};

use crate::ways::Ways;
use rp_words::Pattern;
use std::alloc::{AllocError, Global};

/// A pattern made ready once, for searches that share it: as a program, or as linked parts where that would be too large.
pub struct Prepared {
    ways: Ways,
}

/// It is let go of by a call, wherever it is held.
impl Drop for Prepared {
    fn drop(self) {
        let Prepared { ways: _ } = self;
    }
}

impl Prepared {
    ghost use Rattle.std.specs.Prelude.{IfOk};
    ghost use Rattle.rp_words.specs.declared.form.Form.{Form};
    ghost use Rattle.rp_words.specs.PatternForm.{form_of};
    ghost use Rattle.rp_pattern.specs.Prepared.{Prepares};
    ghost use Rattle.rp_pattern.specs.Ways.{Keeps, kept_of, stack_of};
    ghost use Rattle.std.specs.Prelude.{[]};

    /// The pattern, made ready.
    pub fn new(alloc: Global, pattern: &Pattern) -> Result<Prepared, AllocError>
        ensures { IfOk result (Prepares (form_of pattern.now)) }
    {
        Ok(Prepared {
            ways: Ways::new(alloc, pattern)?,
        })
    }

    /// The same on linked parts, as a pattern whose program would be too large is kept. It has the same words.
    pub fn linked(alloc: Global, pattern: &Pattern) -> Result<Prepared, AllocError>
        ensures { IfOk result (Prepares (form_of pattern.now)) }
    {
        Ok(Prepared {
            ways: Ways::linked(alloc, pattern)?,
        })
    }

    /// The same, for a further owner.
    pub fn share(&self) -> Result<Prepared, AllocError>
        ensures { IfOk result (λ p. (f : Form) → Prepares f self.now → Prepares f p) }
    {
        Ok(Prepared {
            ways: self.ways.share()?,
        })
    }

    /// No choices, for the pattern.
    pub(crate) fn ways(&self) -> Result<Ways, AllocError>
        ensures stack { IfOk result (λ w. stack_of w ≡ []) }
        ensures keeps { IfOk result (λ w. (f : Form) → Prepares f self.now → Keeps f (kept_of w)) }
    {
        self.ways.share()
    }
}
