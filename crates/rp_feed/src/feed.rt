//! The feed of a partition.
ghost use Rattle.std.specs.Prelude.{◌≡◌, ◌+◌, ◌≤◌, IfOk, option_copied, if◌then◌else◌};
ghost use Rattle.rp_feed.specs.Fed.{IsFeed, IsFront, fed_from, forgotten, front_of, row_at, with_close, with_taken};
ghost use Rattle.rp_feed.specs.Limits.{greatest_number};
ghost use Rattle.rp_feed.specs.Answers.{after, close_answer, memory_aside, is_past, row_answer};

use crate::held_rows::{
    above_all, compare_at, drop_first, give_back, place_of, row_in, run_on, shared,
};
use crate::{FeedFault, MAX_BEYOND, MAX_NUMBER, Taken};
use rp_value::Row;
use std::alloc::{AllocError, Global};
use std::collections::VecDeque;
use std::marker::Model;

/// The rows of a partition, which come in any order, and its close.
///
/// Contracts see it as the rows that it holds with their numbers, the number below which all were taken and dropped,
/// and the count of its close (`Fed`).
///
/// A feed takes 72 bytes where it stands, and no other memory before its first row; with one row 96 bytes more, four
/// places of 24. Only rows take places, whatever their numbers are. Places grow by doubling and are used again; they are
/// given back where the partition is closed and its last row is dropped.
pub struct Feed {
    /// The least number whose row isn't dropped.
    first: u64,
    /// How many rows follow one another from `first` on.
    ready: usize,
    /// The rows that are held with their numbers, in order.
    rows: VecDeque<(u64, Row)>,
    /// The count of the close.
    closed: Option<u64>,
}

/// It is let go of by a call, wherever it is held.
impl Drop for Feed {
    fn drop(self) {
        let Feed {
            first: _,
            ready: _,
            rows: _,
            closed: _,
        } = self;
    }
}

impl Model for Feed {
    ghost use Rattle.rp_feed.specs.Consistent.{IsConsistent, fed_of};
    ghost use Rattle.rp_feed.specs.Fed.{Fed};

    ghost Value = { Fed };

    ghost view = { λ f. fed_of f.first f.rows.items f.closed };

    ghost invariant = { λ f. IsConsistent f.first f.ready f.rows.items f.closed };
}

impl Feed {
    /// A feed that has taken nothing. It takes no memory before its first row.
    pub fn new(alloc: Global) -> Feed
        ensures { result ≡ fed_from 1 }
    {
        Feed::starting(alloc, 1)
    }

    /// A feed that has taken all numbers below `first` and dropped their rows.
    pub fn starting(alloc: Global, first: u64) -> Feed
        requires least { 1 ≤ first }
        requires greatest { first ≤ greatest_number + 1 }
        ensures { result ≡ fed_from first }
    {
        Feed {
            first,
            ready: 0,
            rows: VecDeque::new(alloc),
            closed: None,
        }
    }

    /// Takes a row, if its number is in range, not above the close's count, neither dropped nor held, and not too far
    /// above the front: the first of these that fails decides the answer. `OutOfMemory` comes last.
    pub fn take(&mut self, number: u64, row: Row) -> Result<Taken, FeedFault>
        ensures answer { memory_aside result ≡ row_answer ⟦<Row as PartialEq>⟧.eq self.old number row }
        ensures changes { self.new ≡ after result (with_taken number row self.old) self.old }
    {
        if number == 0 || number > MAX_NUMBER {
            return Err(FeedFault::NumberRange);
        }
        if is_past(self.closed, number) {
            return Err(FeedFault::PastClose);
        }
        if number < self.first {
            return Ok(Taken::Old);
        }
        let place = place_of(&self.rows, self.first, self.ready, number);
        if let Some(same) = compare_at(&self.rows, place, number, &row) {
            return repeat_if(same);
        }
        if number - self.first >= self.ready as u64 + MAX_BEYOND {
            return Err(FeedFault::TooFar);
        }
        self.rows.insert(place, (number, row))?;
        self.ready = run_on(&self.rows, self.first, self.ready);
        Ok(Taken::New)
    }

    /// Takes the close, which says how many rows the partition has. It takes no memory.
    pub fn close(&mut self, count: u64) -> Result<Taken, FeedFault>
        ensures answer { result ≡ close_answer self.old count }
        ensures changes { self.new ≡ after result (with_close count self.old) self.old }
    {
        if count > MAX_NUMBER {
            return Err(FeedFault::NumberRange);
        }
        if let Some(earlier) = self.closed {
            if earlier == count {
                return Ok(Taken::Repeat);
            }
            return Err(FeedFault::CloseDiffers);
        }
        if count + 1 < above_all(&self.rows, self.first) {
            return Err(FeedFault::CloseBelow);
        }
        self.closed = Some(count);
        Ok(Taken::New)
    }

    /// Drops the rows below a number, which is at most one above the front. They count as taken.
    pub fn forget(&mut self, before: u64)
        requires { before ≤ front_of self.old + 1 }
        ensures none { before ≤ self.old.first → self.new ≡ self.old }
        ensures dropped { self.old.first ≤ before → self.new ≡ forgotten before self.old }
    {
        if before <= self.first {
            return;
        }
        let count = (before - self.first) as usize;
        drop_first(&mut self.rows, count);
        give_back(&mut self.rows, self.closed);
        self.ready -= count;
        self.first = before;
    }

    /// The least number whose row isn't dropped: all below it were taken.
    pub fn first(&self) -> u64
        ensures { result ≡ self.now.first }
    {
        self.first
    }

    /// The greatest number to which all from 1 on were taken; 0 where 1 wasn't.
    pub fn front(&self) -> u64
        ensures front { result ≡ front_of self.now }
        ensures run { IsFront self.now result }
        ensures feed { IsFeed self.now }
    {
        self.first - 1 + self.ready as u64
    }

    /// The count of the close, if it was taken.
    pub fn closed(&self) -> Option<u64>
        ensures { result ≡ self.now.closed }
    {
        self.closed
    }

    /// The row of a number, if it is held.
    pub fn row(&self, number: u64) -> Option<&Row>
        ensures { option_copied result ≡ row_at self.now.rows number }
    {
        if number < self.first {
            return None;
        }
        let place = place_of(&self.rows, self.first, self.ready, number);
        row_in(&self.rows, place, number)
    }

    /// All rows that are held with their numbers, in order, as a save needs them. No cell is copied.
    pub fn rows(&self, alloc: Global) -> Result<Vec<(u64, Row)>, AllocError>
        ensures { IfOk result (λ rows. rows.items ≡ self.now.rows) }
    {
        shared(alloc, &self.rows)
    }
}

/// Whether a number is above the close's count.
fn is_past(closed: Option<u64>, number: u64) -> bool
    ensures { result ≡ is_past closed number }
{
    match closed {
        Some(count) => number > count,
        None => false,
    }
}

/// The answer to a number whose row is held.
fn repeat_if(same: bool) -> Result<Taken, FeedFault>
    ensures { result ≡ (if same then Ok Taken.Repeat else Err FeedFault.Conflict) }
{
    if same {
        Ok(Taken::Repeat)
    } else {
        Err(FeedFault::Conflict)
    }
}
