//! A list of values that clauses see as the list.
ghost use Rattle.std.specs.Prelude.{◌≡◌, ◌↔◌, IsTrue, IfOk, refl};
ghost use Rattle.std.specs.Hash as fed;
ghost use Rattle.std.specs.Hash.{items_Alike};
ghost use Rattle.std.specs.Cmp.{partial_order_from_agreeing_total};
ghost use Rattle.std.specs.Cmp.Lexicographic.{pointwise, slice_cmp, lists_per, lists_equiv, lists_total, lists_ties};
ghost use Rattle.std.specs.Ordering.{as_partial_cmp};
ghost use Rattle.rp_value.specs.contracts.value.ValuePartialEq.TheImpl.Laws.{laws-law as value_per};
ghost use Rattle.rp_value.specs.contracts.value.ValueEq.TheImpl.Laws.{laws-law as value_equiv};
ghost use Rattle.rp_value.specs.contracts.value.ValueOrd.TheImpl.Laws.{total-law as value_total, matches_eq-law as value_ties};
ghost use Rattle.rp_value.specs.contracts.value.ValueHash.TheImpl.Laws.{respects_eq-law as value_fed};

use crate::Value;
use std::alloc::{AllocError, Global};
use std::cmp::Ordering;
use std::hash::{Hash, Hasher};
use std::marker::Model;

/// The values of a partition's key, of an item or of a row to be, which contracts see as
/// their list.
#[derive(Debug)]
pub struct Cells {
    values: Vec<Value>,
}

/// It is let go of by a call, wherever it is held.
impl Drop for Cells {
    fn drop(self) {
        let Cells { values: _ } = self;
    }
}

impl Model for Cells {
    ghost use Rattle.std.specs.Prelude.{List};
    ghost use Rattle.rp_value.specs.declared.value.Value.{Value as Cell};

    ghost Value = { List Cell };

    ghost view = { λ c. c.values.items };
}

impl PartialEq for Cells {
    ghost eq = { pointwise ⟦<Value as PartialEq>⟧.eq };

    ghost laws = { lists_per value_per };

    fn eq(&self, other: &Cells) -> bool {
        self.values == other.values
    }
}

impl Eq for Cells {
    ghost laws = { lists_equiv value_equiv };
}

/// The order of the first values that differ; a list is above the lists that it begins with.
impl Ord for Cells {
    ghost cmp = { slice_cmp ⟦<Value as Ord>⟧.cmp };

    ghost total = { lists_total value_total };

    ghost matches_partial_cmp = { λ x y. refl };

    ghost matches_eq = { lists_ties ⟦<Value as Ord>⟧.cmp value_ties };

    fn cmp(&self, other: &Cells) -> Ordering {
        self.values.cmp(&other.values)
    }
}

impl PartialOrd for Cells {
    ghost partial_cmp = { as_partial_cmp (slice_cmp ⟦<Value as Ord>⟧.cmp) };

    ghost laws = { partial_order_from_agreeing_total (slice_cmp ⟦<Value as Ord>⟧.cmp) (lists_total value_total)
        (λ x y. refl) (lists_ties ⟦<Value as Ord>⟧.cmp value_ties) };

    fn partial_cmp(&self, other: &Cells) -> Option<Ordering> {
        Some(self.cmp(other))
    }
}

impl Hash for Cells {
    ghost hash_input = { fed.slice ⟦<Value as Hash>⟧.hash_input };

    ghost respects_eq = { (items_Alike (record { fed = value_fed })).fed };

    fn hash<H: Hasher>(&self, state: &mut H) {
        self.values.hash(state);
    }
}

impl Cells {
    /// The cells of a vector, which is kept as it is.
    pub fn new(values: Vec<Value>) -> Cells
        ensures { result ≡ values.items }
    {
        Cells { values }
    }

    /// Cells equal to these. No text is copied: each gets a further owner.
    pub fn of(alloc: Global, values: &[Value]) -> Result<Cells, AllocError>
        ensures { IfOk result (λ cells. cells ≡ values.now) }
    {
        let mut shared = Vec::with_capacity(alloc, values.len())?;
        for value in values {
            shared.push(value.share()?)?;
        }
        Ok(Cells { values: shared })
    }

    /// The cells as a slice.
    pub fn as_slice(&self) -> &[Value]
        ensures { result.now ≡ self.now }
    {
        self.values.as_slice()
    }

    /// The vector that the cells were made of.
    pub fn into_vec(self) -> Vec<Value>
        ensures { result.items ≡ self }
    {
        let Cells { values } = self;
        values
    }

    /// Equal cells. No text is copied: each gets a further owner.
    pub fn share(&self, alloc: Global) -> Result<Cells, AllocError>
        ensures { IfOk result (λ cells. cells ≡ self.now) }
    {
        Cells::of(alloc, self.as_slice())
    }

    /// Whether two lists of cells are equal.
    pub fn same(&self, other: &Cells) -> bool
        ensures { IsTrue result ↔ (self.now ≡ other.now) }
    {
        same_values(&self.values, &other.values)
    }
}

/// Whether two lists of values are equal, null being equal to null.
pub fn same_values(left: &[Value], right: &[Value]) -> bool
    ensures { IsTrue result ↔ (left.now ≡ right.now) }
{
    left == right
}
