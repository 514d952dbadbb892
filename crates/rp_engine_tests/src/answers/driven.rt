//! A matcher and its last row.
ghost use Rattle.std.specs.Prelude.{◌≡◌, false};
ghost use Rattle.rp_words.specs.declared.word.End.TheVariants.{Open};
ghost use Rattle.rp_known.specs.Known.{count};

use rp_answer::Matcher;
use rp_query::Query;
use rp_search::Steps;
use rp_value::Row;
use rp_walker::{MatcherState, Poll};
use std::alloc::{AllocError, Global};
use std::sync::ledger::Ledger;
use std::test::Fail;

/// More rows than a partition may have.
const MANY_ROWS: u64 = 1 << 50;

/// A matcher, which may be called in any order.
#[derive(Drop)]
pub struct Driven {
    matcher: Matcher,
    /// The last row that it knows.
    last: u64,
    is_closed: bool,
    ghost counted: { count matcher.known ≡ last },
    ghost open: { is_closed ≡ false → matcher.known.end ≡ Open },
}

impl Driven {
    pub fn new(alloc: Global, query: Query) -> Driven {
        Driven {
            matcher: Matcher::new(alloc, query),
            last: 0,
            is_closed: false,
        }
    }

    pub fn state(&self) -> MatcherState {
        self.matcher.state()
    }

    pub fn last(&self) -> u64 {
        self.last
    }

    pub fn push(&mut self, row: Row) -> Result<(), Fail> {
        if self.is_closed {
            return Err(Fail::from("no row after the close"));
        }
        if self.last >= MANY_ROWS {
            return Err(Fail::from("room for a row"));
        }
        match self.matcher.push(row) {
            Ok(()) => {
                self.last += 1;
                Ok(())
            }
            Err(refused) => Err(Fail::from(refused)),
        }
    }

    pub fn close(&mut self) -> Result<(), Fail> {
        if self.is_closed {
            return Err(Fail::from("one close"));
        }
        self.matcher.close();
        self.is_closed = true;
        if !self.matcher.is_closed() {
            return Err(Fail::from("a closed matcher"));
        }
        Ok(())
    }

    pub fn poll<L: Ledger>(
        &mut self,
        budget: u32,
        steps: &mut Steps<L>,
    ) -> Result<Poll, AllocError> {
        self.matcher.poll(budget, steps)
    }
}
