//! A matcher that may be called in any order.
ghost use Rattle.std.specs.Prelude.{◌≡◌, ◌^◌, ◌<◌, ◌≤◌, false, IsTrue};
ghost use Rattle.rp_words.specs.declared.word.End.TheVariants.{Open};
ghost use Rattle.rp_known.specs.Known.{count};
ghost use Rattle.rp_walker.specs.Walking.{CanGoOn};

use crate::fault::EventFault;
use crate::refusals::Refusals;
use rp_answer::Matcher;
use rp_query::Query;
use rp_value::Row;
use rp_walker::{MatcherState, Poll};
use std::alloc::Global;

/// More rows than a partition may have.
const MANY_ROWS: u64 = 1 << 50;

/// A matcher and its last row. A call that is refused memory is made again after the first time.
#[derive(Drop)]
pub struct Driven {
    matcher: Matcher,
    /// The last row that it knows.
    last: u64,
    is_closed: bool,
    refusals: Refusals,
    ghost counted: { count matcher.known ≡ last },
    ghost open: { is_closed ≡ false → matcher.known.end ≡ Open },
}

impl Driven {
    pub fn new(alloc: Global, query: Query) -> Driven {
        Driven {
            matcher: Matcher::new(alloc, query),
            last: 0,
            is_closed: false,
            refusals: Refusals::none(),
        }
    }

    /// A matcher that goes on from a record.
    pub fn resume(alloc: Global, query: Query, state: MatcherState) -> Result<Driven, EventFault> {
        if !can_go_on(&query, &state) {
            return Err(EventFault::NoRecord);
        }
        Ok(Driven {
            matcher: Matcher::resume(alloc, query, state),
            last: state.first - 1,
            is_closed: false,
            refusals: Refusals::none(),
        })
    }

    pub fn state(&self) -> MatcherState {
        self.matcher.state()
    }

    pub fn horizon(&self) -> u64 {
        self.matcher.horizon()
    }

    pub fn last(&self) -> u64 {
        self.last
    }

    pub fn is_closed(&self) -> bool {
        self.is_closed
    }

    pub fn push(&mut self, row: Row) -> Result<(), EventFault> {
        if self.is_closed || self.last >= MANY_ROWS {
            return Err(EventFault::NoFurtherRow);
        }
        match self.matcher.push(row) {
            Ok(()) => {
                self.last += 1;
                Ok(())
            }
            Err(refused) => self.push_again(refused.value),
        }
    }

    /// A row that was handed back.
    fn push_again(&mut self, row: Row) -> Result<(), EventFault>
        requires open { self.old.is_closed ≡ false }
        requires room { self.old.last < 2 ^ 50 }
    {
        if !self.refusals.is_first() {
            return Err(EventFault::RefusedTwice);
        }
        match self.matcher.push(row) {
            Ok(()) => {
                self.last += 1;
                Ok(())
            }
            Err(_) => Err(EventFault::RefusedTwice),
        }
    }

    pub fn close(&mut self) -> Result<(), EventFault> {
        if self.is_closed {
            return Err(EventFault::NoFurtherRow);
        }
        self.matcher.close();
        self.is_closed = true;
        Ok(())
    }

    /// Polls once.
    pub fn poll(&mut self, budget: u32) -> Result<Poll, EventFault> {
        match self.matcher.next(budget) {
            Ok(answer) => Ok(answer),
            Err(_) => self.poll_again(budget),
        }
    }

    fn poll_again(&mut self, budget: u32) -> Result<Poll, EventFault> {
        if !self.refusals.is_first() {
            return Err(EventFault::RefusedTwice);
        }
        match self.matcher.next(budget) {
            Ok(answer) => Ok(answer),
            Err(_) => Err(EventFault::RefusedTwice),
        }
    }
}

/// The conditions of a matcher that begins from a record.
fn can_go_on(query: &Query, state: &MatcherState) -> bool
    ensures one { IsTrue result → 1 ≤ state.now.first }
    ensures can { IsTrue result → CanGoOn query.now state.now }
{
    if state.first == 0 {
        return false;
    }
    if state.here as u128 > state.given {
        return false;
    }
    if state.over {
        return true;
    }
    let first_read = state.at.saturating_sub(query.reach()).max(1);
    if state.first > first_read {
        return false;
    }
    state.matches < state.at
}
