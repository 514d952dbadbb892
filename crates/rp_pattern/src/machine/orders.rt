//! The orders of a PERMUTE, and what they give way to.
ghost use Rattle.std.specs.Prelude.{◌<◌, length};
ghost use Rattle.rp_words.specs.Permutations.{factorial};
ghost use Rattle.rp_pattern.specs.PermutedParts.{permuted_parts};

use crate::machine::continuation::Continuation;
use crate::machine::link::{Part, Tail, link_of, reach_shared, share};
use crate::machine::node::Node;
use crate::machine::split::Split;
use rp_words::{factorial, permutation_at};
use std::alloc::{AllocError, Global};

/// The orders of a PERMUTE from this number on. The first order has the number 0.
#[derive(Drop)]
pub(crate) struct Orders {
    pub permute: Node,
    pub from: usize,
    ghost there: { from < factorial (length (permuted_parts permute.form.value)) },
}

impl Orders {
    ghost use Rattle.std.specs.Prelude.{◌≡◌, ℕ, ◌∷◌, ◌+◌, ◌<◌, IfOk, OnOk, length, drop};
    ghost use Rattle.std.specs.List.{AllByRecursion};
    ghost use Rattle.rp_words.specs.declared.word.End.{End};
    ghost use Rattle.rp_words.specs.Words.{orders};
    ghost use Rattle.rp_words.specs.Turns.{orders_from};
    ghost use Rattle.rp_words.specs.Permutations.{upto};
    ghost use Rattle.rp_pattern.specs.PermutedParts.{permuted_parts};
    ghost use Rattle.rp_pattern.specs.Continuations.{permuted_form_parts, tail_parts};
    ghost use Rattle.rp_pattern.specs.Splits.{AlwaysSplits, StandsFor};

    /// The same as `take_up`, in a call of its own.
    #[inline(never)]
    pub(crate) fn take_apart(
        &self,
        alloc: Global,
        then: &Tail,
        row: u64,
    ) -> Result<Split, AllocError>
        ensures { IfOk result (AlwaysSplits row (λ n e. orders_from self.now.from (permuted_form_parts n e
            self.now.permute) ∷ tail_parts n e then.now)) }
    {
        let mut split = Split::none();
        self.take_up(alloc, then, row, &mut split)?;
        Ok(split)
    }

    /// An order of the parts, and below it the orders after that one.
    fn take_up(
        &self,
        alloc: Global,
        then: &Tail,
        row: u64,
        split: &mut Split,
    ) -> Result<(), AllocError>
        ensures { OnOk result (AlwaysSplits row (λ n e. orders_from self.now.from (permuted_form_parts n e
            self.now.permute) ∷ tail_parts n e then.now) split.new) }
    {
        let order = self.order(alloc)?;
        let first = self.permute.in_order(alloc, &order, then)?;
        *split = Split {
            preferred: reach_shared(&first, row)?,
            other: self.after(alloc, then)?,
        };
        Ok(())
    }

    /// The places of the parts in the first of the orders.
    fn order(&self, alloc: Global) -> Result<Vec<usize>, AllocError>
        ensures order { IfOk result (λ v. drop self.now.from (orders (upto (length (permuted_parts
            self.now.permute.form.value))))
            ≡ v.items ∷ drop (self.now.from + 1)
            (orders (upto (length (permuted_parts self.now.permute.form.value))))) }
        ensures within { IfOk result (λ v. AllByRecursion (λ k. k < length (permuted_parts
            self.now.permute.form.value)) v.items) }
    {
        permutation_at(alloc, self.permute.parts().len(), self.from)
    }

    /// The orders after the first one, if there are any.
    fn after(&self, alloc: Global, then: &Tail) -> Result<Option<Continuation>, AllocError>
        ensures { IfOk result (λ continuation. (n : ℕ) (e : End) (i : ℕ) →
            StandsFor n e i (orders_from (self.now.from + 1) (permuted_form_parts n e self.now.permute)
            ∷ tail_parts n e then.now) continuation) }
    {
        let count = factorial(self.permute.parts().len());
        let from = self.from + 1;
        if from >= count {
            return Ok(None);
        }
        let part = Part::Orders(Orders {
            permute: self.permute.share()?,
            from,
        });
        let link = link_of(alloc, None, part, share(then)?)?;
        Ok(Some(Continuation::Reached(link)))
    }
}
