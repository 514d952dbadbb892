//! A thousand orders of arrival at a feed, with repeats, losses and forgetting, beside a plain list of what was taken.
ghost use Rattle.std.specs.Prelude.{◌≤◌};

use crate::chance::Chance;
use rp_feed::{Feed, FeedFault, Taken};
use rp_value::{Row, Value};
use std::alloc::{AllocError, AllocFailed, Global};
use std::test::Fail;

/// How many rows the partition has.
const ROWS: u64 = 30;

/// The greatest number of a row, as the limit is documented.
const GREATEST: u64 = 1_099_511_627_776;

/// The numbers of all rows that were ever taken, in order, with their prices. Those below `begin` count as taken.
#[derive(Drop)]
struct Plain {
    taken: Vec<(u64, usize)>,
    begin: u64,
    first: u64,
    closed: Option<u64>,
}

impl Plain {
    fn new(alloc: Global, begin: u64) -> Plain {
        Plain {
            taken: Vec::new(alloc),
            begin,
            first: begin,
            closed: None,
        }
    }

    /// How many rows of lower numbers were taken.
    fn place(&self, number: u64) -> usize {
        let mut place = 0usize;
        for (taken, _) in &self.taken {
            place = place.saturating_add(usize::from(*taken < number));
        }
        place
    }

    /// The price of a row that was taken.
    fn price(&self, number: u64) -> Option<usize> {
        match self.taken.get(self.place(number)) {
            Some((taken, price)) if *taken == number => Some(*price),
            _ => None,
        }
    }

    /// The greatest number to which all were taken.
    fn front(&self) -> u64
        ensures { result ≤ ROWS }
    {
        let mut next = self.begin;
        for (number, _) in &self.taken {
            next = next.saturating_add(u64::from(*number == next));
        }
        next.saturating_sub(1).min(ROWS)
    }

    /// The greatest number that was taken.
    fn last(&self) -> u64 {
        match self.taken.last() {
            Some((number, _)) => *number,
            None => self.begin.saturating_sub(1),
        }
    }

    /// Takes a row, and says what it is.
    fn take(
        &mut self,
        number: u64,
        price: usize,
    ) -> Result<Result<Taken, FeedFault>, AllocFailed<(u64, usize)>> {
        if number == 0 || number > GREATEST {
            return Ok(Err(FeedFault::NumberRange));
        }
        if number > self.closed.unwrap_or(GREATEST) {
            return Ok(Err(FeedFault::PastClose));
        }
        if number < self.first {
            return Ok(Ok(Taken::Old));
        }
        match self.price(number) {
            Some(held) if held == price => return Ok(Ok(Taken::Repeat)),
            Some(_) => return Ok(Err(FeedFault::Conflict)),
            None => {}
        }
        if number.saturating_sub(4_096) > self.front() {
            return Ok(Err(FeedFault::TooFar));
        }
        let place = self.place(number).min(self.taken.len());
        self.taken.insert(place, (number, price))?;
        Ok(Ok(Taken::New))
    }

    /// Takes the close, and says what it is.
    fn close(&mut self, count: u64) -> Result<Taken, FeedFault> {
        if count > GREATEST {
            return Err(FeedFault::NumberRange);
        }
        match self.closed {
            Some(earlier) if earlier == count => return Ok(Taken::Repeat),
            Some(_) => return Err(FeedFault::CloseDiffers),
            None => {}
        }
        if self.last() > count {
            return Err(FeedFault::CloseBelow);
        }
        self.closed = Some(count);
        Ok(Taken::New)
    }
}

/// What comes next.
#[derive(Clone, Copy)]
enum Arrival {
    Row(u64, usize),
    Close(u64),
    Forget(u64),
}

/// A row of the partition, or of other cells, or one that is far beyond the front, as in every fourth order; a close, a
/// wrong one too; or the caller drops rows.
fn next_arrival(chance: &mut Chance, order: u64, front: u64) -> Arrival
    requires { front ≤ ROWS }
{
    let number = 1 + chance.below(ROWS);
    let price = 2 * number as usize;
    match chance.below(20) {
        0 => Arrival::Forget(chance.below(front + 2)),
        1 => Arrival::Close(ROWS + chance.below(2)),
        2 => Arrival::Close(number),
        3 => Arrival::Row(GREATEST + chance.below(2), 0),
        4 => Arrival::Row(0, 0),
        5 => Arrival::Row(number, price + 1),
        6 if order % 4 == 0 => Arrival::Row(front + 4_094 + chance.below(5), 5),
        _ => Arrival::Row(number, price),
    }
}

/// A row for each price below so many, so that a thousand orders make no row of their own.
fn rows_of_prices(alloc: Global, count: i64) -> Result<Vec<Row>, Fail> {
    let mut rows = Vec::new(alloc);
    for price in 0..count {
        let cells = vec![in alloc; Value::Int(price)]?;
        rows.push(Row::new(alloc, cells)?)?;
    }
    Ok(rows)
}

/// Whether the feed's answer to what comes is that of the list. Out of memory is no answer.
fn agree(feed: &mut Feed, plain: &mut Plain, rows: &[Row], arrival: Arrival) -> Result<bool, Fail> {
    match arrival {
        Arrival::Row(number, price) => {
            let Some(row) = rows.get(price) else {
                return Ok(false);
            };
            let expected = plain.take(number, price)?;
            match feed.take(number, row.share()?) {
                Err(FeedFault::OutOfMemory) => Err(FeedFault::OutOfMemory.into()),
                answer => Ok(answer == expected),
            }
        }
        Arrival::Close(count) => Ok(feed.close(count) == plain.close(count)),
        Arrival::Forget(before) => {
            let front = feed.front();
            if before > front + 1 {
                return Ok(false);
            }
            feed.forget(before);
            plain.first = plain.first.max(before);
            Ok(true)
        }
    }
}

/// Whether the feed holds the rows of the list that aren't dropped, and no other.
fn hold_the_same(alloc: Global, feed: &Feed, plain: &Plain, rows: &[Row]) -> Result<bool, Fail> {
    let numbered = feed.rows(alloc)?;
    let mut held = numbered.iter();
    for (number, price) in &plain.taken {
        if *number < plain.first {
            continue;
        }
        let (Some((other, row)), Some(expected)) = (held.next(), rows.get(*price)) else {
            return Ok(false);
        };
        if other != number || !row.same(expected) || !finds(feed, *number, expected) {
            return Ok(false);
        }
    }
    Ok(held.next().is_none())
}

/// Whether the feed gives this row by its number.
fn finds(feed: &Feed, number: u64, expected: &Row) -> bool {
    match feed.row(number) {
        Some(row) => row.same(expected),
        None => false,
    }
}

/// Whether the feed answers an order of arrivals as the list does, and holds the same then.
fn is_order_same(alloc: Global, order: u64, rows: &[Row]) -> Result<bool, Fail> {
    let mut chance = Chance::new(order);
    let begin = 1 + order % 3;
    let mut feed = Feed::starting(alloc, begin);
    let mut plain = Plain::new(alloc, begin);
    for _ in 0..150 {
        let next = next_arrival(&mut chance, order, plain.front());
        if !agree(&mut feed, &mut plain, rows, next)? || !stand_alike(&feed, &plain) {
            return Ok(false);
        }
    }
    Ok(feed.row(0).is_none() && hold_the_same(alloc, &feed, &plain, rows)?)
}

fn stand_alike(feed: &Feed, plain: &Plain) -> bool {
    feed.front() == plain.front() && feed.first() == plain.first && feed.closed() == plain.closed
}

#[test]
fn random_orders(rt: HostRuntime) -> Result<(), Fail> {
    let alloc = rt.alloc();
    let rows = rows_of_prices(alloc, 62)?;
    for order in 0..1_000 {
        assert!(rt;
            is_order_same(alloc, order, rows.as_slice())?,
            "order {order}"
        );
    }
    Ok(())
}
