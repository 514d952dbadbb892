//! How many turns are taken, and may be.
ghost use Rattle.std.specs.Prelude.{◌≡◌, ◌<◌};
ghost use Rattle.rp_whole.specs.Answers.{limit_of};
ghost use Rattle.rp_whole.specs.Pauses.{CountsPause, IsAfterPause};

use crate::next::Next;
use rp_search::Steps;
use std::num::NonZeroU64;
use std::sync::ledger::{Blank, Ledger};

/// How many turns a poll may take, unless fewer are the limit. What was gathered by then is written, and another poll follows.
const BUDGET: u32 = 100_000;

/// How turns are counted: the most at one start row, and a ledger in which none is counted yet.
pub(crate) struct Counting {
    pub(crate) limit: Option<NonZeroU64>,
    pub(crate) blank: Blank,
}

/// The turns of a walk over partitions: those taken, and how many may be taken at one start row.
#[derive(Drop)]
pub(crate) struct Turns<L: Ledger> {
    pub(crate) steps: Steps<L>,
    /// The most turns at one start row.
    pub(crate) limit: Option<NonZeroU64>,
    /// The turns of a poll.
    pub(crate) budget: u32,
    /// The start row at which a poll paused last, and 0 before the first pause.
    pub(crate) row: u64,
    /// How many turns the further polls took that paused at it: all of them were taken there.
    pub(crate) taken: u64,
    ghost some: { 0 < budget },
}

impl<L: Ledger> Turns<L> {
    /// None is taken yet.
    pub(crate) fn new(counting: Counting) -> Turns<L>
        requires name { counting.blank.name ≡ L.name }
        requires parts { counting.blank.parts ≡ L.parts }
        requires counts { 0 < counting.blank.parts }
        ensures { result.limit ≡ counting.limit }
    {
        let Counting { limit, blank } = counting;
        Turns {
            steps: Steps::<L>::new(blank),
            limit,
            budget: budget_of(limit),
            row: 0,
            taken: 0,
        }
    }

    /// Another partition begins.
    pub(crate) fn begin_part(&mut self)
        ensures limit { self.new.limit ≡ self.old.limit }
        ensures row { self.new.row ≡ 0 }
        ensures taken { self.new.taken ≡ 0 }
    {
        self.row = 0;
        self.taken = 0;
    }

    /// A poll paused at this start row: whether another one follows.
    pub(crate) fn after_pause(&mut self, row: u64) -> Next
        ensures limit { self.new.limit ≡ self.old.limit }
        ensures counts { CountsPause self.old.budget row
            self.old.row self.old.taken self.new.row self.new.taken }
        ensures next { IsAfterPause (limit_of self.old.limit) row self.new.taken result }
    {
        self.count_pause(row);
        let Some(most) = self.limit else {
            return Next::More;
        };
        if self.taken < most.get() {
            return Next::More;
        }
        Next::GivenUp(row)
    }

    /// Counts the turns of a poll that paused at this start row, if the one before it that paused did so there too. Else some
    /// of them may have been taken at earlier start rows.
    fn count_pause(&mut self, row: u64)
        ensures limit { self.new.limit ≡ self.old.limit }
        ensures counts { CountsPause self.old.budget row
            self.old.row self.old.taken self.new.row self.new.taken }
    {
        if row != self.row {
            self.row = row;
            self.taken = 0;
            return;
        }
        self.taken = self.taken.saturating_add(u64::from(self.budget));
    }
}

/// The turns of a poll under a limit.
fn budget_of(limit: Option<NonZeroU64>) -> u32
    ensures { 0 < result }
{
    match limit {
        Some(most) => most.get().min(u64::from(BUDGET)) as u32,
        None => BUDGET,
    }
}
