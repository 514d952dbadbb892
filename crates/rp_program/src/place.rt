//! The places of a program.
ghost use Rattle.std.specs.Prelude.{◌≡◌, Some};

use rp_words::Form;
use std::rc::Rc;

/// What stands at a place. Each place that it names is an earlier one, but for the two choices of a `Loop`.
#[derive(Drop)]
pub(crate) enum Place {
    /// Nothing is left of the pattern.
    Match,
    /// One row, mapped to the variable of this number, and then `next`.
    Row {
        var: usize,
        excluded: bool,
        next: u32,
    },
    /// Either of two places.
    Split {
        preferred: u32,
        other: u32,
    },
    /// Either of two places, which both begin with a row. Past the last known row it waits for one, and stands for as
    /// many open words as there are orders: one and `others` more.
    RowSplit {
        preferred: u32,
        other: u32,
        others: u32,
    },
    /// `^`, and then `next`.
    PartitionStart {
        next: u32,
    },
    /// `$`, and then `next`, if anything may follow.
    PartitionEnd {
        next: Option<u32>,
    },
    /// Any number of iterations of a part, each of which takes a row, and then `next`: so it is either of two places, where
    /// another iteration leads back to here.
    Loop {
        preferred: u32,
        other: u32,
        body: Rc<Form>,
        excluded: bool,
        reluctant: bool,
        next: u32,
    },
}

/// The places that come next.
#[derive(Clone, Copy)]
pub(crate) struct Next {
    /// Where no row has been taken since. None: then nothing may follow, as behind an iteration that has to take a row.
    pub unmoved: Option<u32>,
    /// Where a row has been taken.
    pub moved: u32,
}

impl Next {
    ghost use Rattle.std.specs.Prelude.{◌≡◌, Some, IsTrue};

    /// The same place, whether a row has been taken or not.
    pub(crate) fn same(place: u32) -> Next
        ensures { result ≡ record { unmoved = Some place; moved = place } }
    {
        Next {
            unmoved: Some(place),
            moved: place,
        }
    }

    /// Whether it is the same place in both cases.
    pub(crate) fn is_same(&self) -> bool
        ensures { IsTrue result → self.now.unmoved ≡ Some self.now.moved }
    {
        match self.unmoved {
            None => false,
            Some(unmoved) => unmoved == self.moved,
        }
    }
}
