//! A node of a schedule, and beside it what it took and gave.
use super::partition::{MANY_ROWS, Partition, row_of};
use crate::support::fixed_hasher;
use rp_feed::{Packet, Taken};
use rp_node::{Node, NodeFault};
use rp_query::{Item, Query};
use rp_reference::{Dice, item_text};
use rp_value::{Cells, Value};
use rp_walker::Poll;
use std::alloc::Global;
use std::test::Fail;

/// More polls than a node is idle after.
const MANY_POLLS: u32 = 100_000;

/// What a node took, and how many items it gave.
#[derive(Clone, Copy)]
struct Held {
    /// Whether the row of each number from 1 was taken.
    rows: [bool; MANY_ROWS],
    is_closed: bool,
    given: usize,
}

impl Held {
    const NOTHING: Held = Held {
        rows: [false; MANY_ROWS],
        is_closed: false,
        given: 0,
    };

    fn has(&self, number: usize) -> bool {
        matches!(self.rows.get(number.saturating_sub(1)), Some(true))
    }

    fn take(&mut self, number: usize) {
        if let Some(row) = self.rows.get_mut(number.saturating_sub(1)) {
            *row = true;
        }
    }

    /// The number of the first row that isn't there.
    fn next(&self) -> usize {
        for number in 1..MANY_ROWS {
            if !self.has(number) {
                return number;
            }
        }
        MANY_ROWS
    }

    fn is_nothing(&self) -> bool {
        !self.is_closed && !self.rows.contains(&true)
    }
}

/// What was saved, and what the node held then.
#[derive(Drop)]
struct Saved {
    bytes: Vec<u8>,
    held: Held,
}

/// What all nodes of a schedule are of, and what the schedule is called.
#[derive(Clone, Copy)]
pub struct Whole<'a> {
    pub alloc: Global,
    pub query: &'a Query,
    pub partition: &'a Partition,
    pub seed: u64,
    pub schedule: u64,
}

/// A node, in one of its lives.
#[derive(Drop)]
pub struct Simulated<'a> {
    whole: Whole<'a>,
    node: Node,
    held: Held,
    /// All saves of all lives.
    saves: Vec<Saved>,
    /// By how many turns it is polled at the end.
    last_budget: u32,
}

impl<'a> Simulated<'a> {
    pub fn new(whole: Whole<'a>, last_budget: u32) -> Result<Simulated<'a>, Fail> {
        let query = whole.query.share()?;
        Ok(Simulated {
            whole,
            node: Node::new(whole.alloc, query, fixed_hasher()?),
            held: Held::NOTHING,
            saves: Vec::new(whole.alloc),
            last_budget,
        })
    }

    /// Ends the test where something is not as it has to be.
    fn wants(&self, is_so: bool, what: &str) -> Result<(), Fail> {
        if is_so {
            return Ok(());
        }
        let clause = self.whole.query.text().as_str();
        let (seed, schedule) = (self.whole.seed, self.whole.schedule);
        let told = format!(in self.whole.alloc;
            "{clause}, seed {seed}, schedule {schedule}: {what}"
        )?;
        Err(Fail::from(told))
    }

    /// One event. Rows that come in their order are the most, so that a partition grows.
    pub fn act(&mut self, dice: &mut Dice) -> Result<(), Fail> {
        match dice.below(20) {
            0..=5 => self.take_next(),
            6..=8 => self.take_row(dice.below(MANY_ROWS as u64).saturating_add(1)),
            9 => self.take_other_row(dice.below(MANY_ROWS as u64).saturating_add(1)),
            10 => self.close(),
            11..=13 => self.poll(1, 1),
            14..=15 => self.poll(100_000, 1),
            16 => self.poll(100_000, MANY_POLLS),
            17..=18 => self.save(),
            _ => self.restart(dice),
        }
    }

    /// All rows and the close come, and polls until it is idle: then all was given.
    pub fn finish(&mut self) -> Result<(), Fail> {
        for number in 1..MANY_ROWS {
            self.take_row(number)?;
        }
        self.close()?;
        self.poll(self.last_budget, MANY_POLLS)?;
        let all = self.whole.partition.answer.len();
        self.wants(self.held.given == all, "not all was given")
    }

    /// The first row comes that isn't there.
    fn take_next(&mut self) -> Result<(), Fail> {
        let next = self.held.next();
        self.take_row(next)
    }

    /// The row of this number comes, if there is one.
    fn take_row(&mut self, number: usize) -> Result<(), Fail> {
        let Some(row) = self.whole.partition.row(number) else {
            return Ok(());
        };
        let packet = Packet::Row {
            number: number as u64,
            cells: row.share()?,
        };
        let was_there = self.held.has(number);
        self.held.take(number);
        let is_right = match self.node.accept(packet) {
            Ok(Taken::New) => !was_there,
            Ok(Taken::Repeat | Taken::Old) => was_there,
            Err(_) => false,
        };
        self.wants(is_right, "the answer to a row")
    }

    /// Another row of a number that was taken comes.
    fn take_other_row(&mut self, number: usize) -> Result<(), Fail> {
        if !self.held.has(number) {
            return Ok(());
        }
        let packet = Packet::Row {
            number: number as u64,
            cells: row_of(self.whole.alloc, number, Value::Int(9))?,
        };
        let answer = self.node.accept(packet);
        let is_right = matches!(answer, Err(NodeFault::Conflict) | Ok(Taken::Old));
        self.wants(is_right, "the answer to another row")
    }

    fn close(&mut self) -> Result<(), Fail> {
        let partition = self.whole.partition;
        let packet = Packet::Close {
            key: Cells::of(self.whole.alloc, partition.key.as_slice())?,
            count: partition.count() as u64,
        };
        let was_closed = self.held.is_closed;
        self.held.is_closed = true;
        let is_right = match self.node.accept(packet) {
            Ok(Taken::New) => !was_closed,
            Ok(Taken::Repeat) => was_closed,
            _ => false,
        };
        self.wants(is_right, "the answer to a close")
    }

    /// Polls until it is idle, at most so many times.
    fn poll(&mut self, budget: u32, polls: u32) -> Result<(), Fail> {
        for _poll in 0..polls {
            if self.is_idle(budget)? {
                return Ok(());
            }
        }
        self.wants(polls < MANY_POLLS, "it goes on after so many polls")
    }

    /// Polls once, and says whether nothing more comes for now.
    fn is_idle(&mut self, budget: u32) -> Result<bool, Fail> {
        let partition = self.whole.partition;
        match self.node.next(partition.key.as_slice(), budget) {
            Ok(Poll::Item(place, item)) => {
                self.give(place, &item)?;
                Ok(false)
            }
            Ok(Poll::Paused) => Ok(false),
            Ok(Poll::Idle) => {
                self.wants(self.has_given_all(), "something is held back")?;
                Ok(true)
            }
            Err(fault) => {
                let is_right = fault == NodeFault::UnknownPartition && self.held.is_nothing();
                self.wants(is_right, "the fault of a poll")?;
                Ok(true)
            }
        }
    }

    /// An item is the answer's next one.
    fn give(&mut self, place: u128, item: &Item) -> Result<(), Fail> {
        let text = item_text(self.whole.alloc, place, item)?;
        let is_next = match self.whole.partition.answer.get(self.held.given) {
            Some(next) => next.as_str() == text.as_str(),
            None => false,
        };
        self.held.given = self.held.given.saturating_add(1);
        self.wants(is_next, text.as_str())
    }

    /// Whether all items were given that are known of the rows up to the front.
    fn has_given_all(&self) -> bool {
        let front = self.held.next().saturating_sub(1);
        self.held.given == self.whole.partition.known(front, self.held.is_closed)
    }

    fn save(&mut self) -> Result<(), Fail> {
        self.saves.push(Saved {
            bytes: self.node.save()?,
            held: self.held,
        })?;
        Ok(())
    }

    /// It goes on from any of its saves, or from nothing.
    fn restart(&mut self, dice: &mut Dice) -> Result<(), Fail> {
        let (alloc, query) = (self.whole.alloc, self.whole.query.share()?);
        let saves = (self.saves.len() as u64).saturating_add(1);
        let Some(saved) = self.saves.get(dice.below(saves)) else {
            self.node = Node::new(alloc, query, fixed_hasher()?);
            self.held = Held::NOTHING;
            return Ok(());
        };
        match Node::restart(alloc, query, fixed_hasher()?, saved.bytes.as_slice()) {
            Ok(node) => {
                self.node = node;
                self.held = saved.held;
                Ok(())
            }
            Err(_) => self.wants(false, "a restart"),
        }
    }
}
