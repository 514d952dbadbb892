//! A node, and what is told of it. `KEY` is a partition's key, its cells in the order of PARTITION BY.
//!
//! - `row NUMBER CELL CELL ..` and `close COUNT KEY` are packets. Told is `new`, `repeat`, `old` or why it is refused.
//! - `poll BUDGET KEY` polls once, of which an item, `paused` or `idle` is told; `drain BUDGET KEY` polls until it is idle.
//! - `save` keeps what the node saves, and tells nothing. `show` tells what was saved behind its digest; `has PART` tells
//!   whether it has that part, `has` or `lacks`. With `saved OBJECT` it is this object, behind its digest.
//! - `restart` goes on from what was saved, and `restart LESS` from all but its last so many bytes. A fault is told, and then a
//!   new node goes on. A clause that is given in the midst of a case is that of the restarts behind it.
//! - `altered OLD => NEW` restarts another node from what was saved, with NEW in the place of OLD, behind its own digest. It
//!   tells `goes on` or the fault. `fronts` does so with each shorter front of what was saved, and tells an answer where the
//!   front before had another.
ghost use Rattle.std.specs.Prelude.{◌≡◌, ◌<◌};

use crate::digest::sealed;
use crate::fault::EventFault;
use crate::hasher::fixed_hasher;
use crate::line::{Line, budget, cells, no_words, number};
use crate::refusals::Refusals;
use crate::told::tell;
use rp_checkpoint::RestartFault;
use rp_feed::{Packet, Taken};
use rp_node::{Node, NodeFault, RestartRefused};
use rp_query::Query;
use rp_reference::item_text;
use rp_value::{Cells, Row, Value};
use rp_walker::Poll;
use std::alloc::{AllocError, Global};
use std::collections::hash_map::RandomState;

/// A node of a clause, and what is kept of it.
#[derive(Drop)]
pub struct NodePlayer {
    alloc: Global,
    query: Query,
    hasher: RandomState,
    node: Node,
    saved: Vec<u8>,
    refusals: Refusals,
}

impl NodePlayer {
    /// A node of which nothing was taken.
    pub fn new(alloc: Global, query: Query) -> Result<NodePlayer, AllocError> {
        let hasher = fixed_hasher()?;
        let node = Node::new(alloc, query.share()?, hasher);
        Ok(NodePlayer {
            alloc,
            query,
            hasher,
            node,
            saved: Vec::new(alloc),
            refusals: Refusals::none(),
        })
    }

    /// The clause of the restarts from here on. The node stays as it is.
    pub fn set_query(&mut self, query: Query) {
        self.query = query;
    }

    /// Plays an event, and adds what is told of it.
    pub fn act(&mut self, line: Line, told: &mut String) -> Result<(), EventFault> {
        match line.event {
            "row" | "close" => self.accept(line, told),
            "poll" => self.poll(line.rest, told),
            "drain" => self.drain(line.rest, told),
            "save" => self.save(line.rest),
            "show" => self.show(line.rest, told),
            "has" => self.has(line.rest, told),
            "saved" => self.set_saved(line.rest),
            "restart" => self.restart(line.rest, told),
            "altered" => self.altered(line.rest, told),
            "fronts" => self.fronts(line.rest, told),
            _ => Err(EventFault::NoEvent),
        }
    }

    fn accept(&mut self, line: Line, told: &mut String) -> Result<(), EventFault> {
        let packet = packet_of(self.alloc, line)?;
        let answer = self.node.accept(packet);
        if answer != Err(NodeFault::OutOfMemory) || !self.refusals.is_first() {
            return tell_taken(self.alloc, answer, told);
        }
        let packet = packet_of(self.alloc, line)?;
        let answer = self.node.accept(packet);
        tell_taken(self.alloc, answer, told)
    }

    fn polled(&mut self, key: &[Value], budget: u32) -> Result<Poll, NodeFault> {
        match self.node.next(key, budget) {
            Err(NodeFault::OutOfMemory) => self.polled_again(key, budget),
            answer => answer,
        }
    }

    fn polled_again(&mut self, key: &[Value], budget: u32) -> Result<Poll, NodeFault> {
        if self.refusals.is_first() {
            return self.node.next(key, budget);
        }
        Err(NodeFault::OutOfMemory)
    }

    fn poll(&mut self, words: &str, told: &mut String) -> Result<(), EventFault> {
        let (budget, words) = budget(words)?;
        let key = cells(self.alloc, words)?;
        match self.polled(key.as_slice(), budget) {
            Ok(Poll::Paused) => Ok(tell(told, "paused")?),
            Ok(poll) => tell_poll(self.alloc, &poll, told),
            Err(fault) => tell_fault(self.alloc, fault, told),
        }
    }

    fn drain(&mut self, words: &str, told: &mut String) -> Result<(), EventFault> {
        let (budget, words) = budget(words)?;
        let key = cells(self.alloc, words)?;
        for _poll in 0..100_000 {
            if self.is_drained(budget, key.as_slice(), told)? {
                return Ok(());
            }
        }
        Err(EventFault::NotIdle)
    }

    /// Polls once, and says whether no further item comes.
    fn is_drained(
        &mut self,
        budget: u32,
        key: &[Value],
        told: &mut String,
    ) -> Result<bool, EventFault> {
        match self.polled(key, budget) {
            Ok(poll) => {
                tell_poll(self.alloc, &poll, told)?;
                Ok(matches!(&poll, Poll::Idle))
            }
            Err(fault) => {
                tell_fault(self.alloc, fault, told)?;
                Ok(true)
            }
        }
    }

    fn save(&mut self, words: &str) -> Result<(), EventFault> {
        no_words(words)?;
        self.saved = match self.node.save() {
            Ok(bytes) => bytes,
            Err(_) => self.saved_again()?,
        };
        Ok(())
    }

    fn saved_again(&mut self) -> Result<Vec<u8>, EventFault> {
        if !self.refusals.is_first() {
            return Err(EventFault::RefusedTwice);
        }
        match self.node.save() {
            Ok(bytes) => Ok(bytes),
            Err(_) => Err(EventFault::RefusedTwice),
        }
    }

    fn set_saved(&mut self, object: &str) -> Result<(), EventFault> {
        self.saved = sealed(self.alloc, object)?;
        Ok(())
    }

    /// What was saved, behind its digest.
    fn object(&self) -> Result<&str, EventFault> {
        if self.saved.len() < 65 {
            return Err(EventFault::NothingSaved);
        }
        let (_digest, object) = self.saved.as_slice().split_at(65);
        match str::from_utf8(object) {
            Ok(text) => Ok(text),
            Err(_) => Err(EventFault::NothingSaved),
        }
    }

    fn show(&self, words: &str, told: &mut String) -> Result<(), EventFault> {
        no_words(words)?;
        Ok(tell(told, self.object()?)?)
    }

    fn has(&self, part: &str, told: &mut String) -> Result<(), EventFault> {
        let has = self.object()?.contains(part);
        Ok(tell(told, if has { "has" } else { "lacks" })?)
    }

    fn restart(&mut self, words: &str, told: &mut String) -> Result<(), EventFault> {
        let less = if words.is_empty() {
            0
        } else {
            number(words)?.0
        };
        let len = self.saved.len().saturating_sub(less as usize);
        let (bytes, _rest) = self.saved.as_slice().split_at(len);
        let query = self.query.share()?;
        match restarted(self.alloc, query, self.hasher, bytes, &mut self.refusals) {
            Ok(node) => {
                self.node = node;
                Ok(())
            }
            Err(refused) => {
                self.node = Node::new(self.alloc, refused.query, self.hasher);
                tell_refused(self.alloc, refused.fault, told)
            }
        }
    }

    fn altered(&mut self, words: &str, told: &mut String) -> Result<(), EventFault> {
        let Some((old, new)) = words.split_once(" =>") else {
            return Err(EventFault::NoAlteration);
        };
        let Some((before, after)) = self.object()?.split_once(old) else {
            return Err(EventFault::NoAlteration);
        };
        let new = new.trim();
        let object = format!(in self.alloc; "{before}{new}{after}")?;
        let bytes = sealed(self.alloc, object.as_str())?;
        let fault = self.restart_fault(bytes.as_slice())?;
        tell_restart(self.alloc, fault, told)
    }

    /// Why no node goes on from these bytes, or none where one does. The query that comes back is the next one's.
    fn restart_fault(&mut self, bytes: &[u8]) -> Result<Option<RestartFault>, EventFault> {
        let query = self.query.share()?;
        match restarted(self.alloc, query, self.hasher, bytes, &mut self.refusals) {
            Ok(node) => {
                self.query = node.into_query();
                Ok(None)
            }
            Err(refused) => {
                self.query = refused.query;
                Ok(Some(refused.fault))
            }
        }
    }

    fn fronts(&mut self, words: &str, told: &mut String) -> Result<(), EventFault> {
        no_words(words)?;
        let saved = self.saved.clone()?;
        let mut before = None;
        for len in 0..saved.len() {
            let (front, _rest) = saved.as_slice().split_at(len);
            let fault = self.restart_fault(front)?;
            if len == 0 || fault != before {
                tell_restart(self.alloc, fault, told)?;
            }
            before = fault;
        }
        Ok(())
    }
}

/// The packet of an event, `row` or `close`.
fn packet_of(alloc: Global, line: Line) -> Result<Packet, EventFault> {
    let (number, words) = number(line.rest)?;
    let cells = cells(alloc, words)?;
    if line.event == "close" {
        let key = Cells::new(cells);
        return Ok(Packet::Close { key, count: number });
    }
    let cells = Row::new(alloc, cells)?;
    Ok(Packet::Row { number, cells })
}

/// A node that goes on from bytes. After a first refusal of memory it is made of the query that came back.
fn restarted(
    alloc: Global,
    query: Query,
    hasher: RandomState,
    bytes: &[u8],
    refusals: &mut Refusals,
) -> Result<Node, RestartRefused> {
    match Node::restart(alloc, query, hasher, bytes) {
        Ok(node) => Ok(node),
        Err(refused) => {
            if refused.fault != RestartFault::OutOfMemory || !refusals.is_first() {
                return Err(refused);
            }
            Node::restart(alloc, refused.query, hasher, bytes)
        }
    }
}

fn tell_taken(
    alloc: Global,
    answer: Result<Taken, NodeFault>,
    told: &mut String,
) -> Result<(), EventFault> {
    match answer {
        Ok(Taken::New) => Ok(tell(told, "new")?),
        Ok(Taken::Repeat) => Ok(tell(told, "repeat")?),
        Ok(Taken::Old) => Ok(tell(told, "old")?),
        Err(fault) => tell_fault(alloc, fault, told),
    }
}

/// Tells an item, or that no further one comes.
fn tell_poll(alloc: Global, poll: &Poll, told: &mut String) -> Result<(), EventFault> {
    match poll {
        Poll::Item(place, item) => Ok(tell(told, item_text(alloc, *place, item)?.as_str())?),
        Poll::Paused => Ok(()),
        Poll::Idle => Ok(tell(told, "idle")?),
    }
}

fn tell_fault(alloc: Global, fault: NodeFault, told: &mut String) -> Result<(), EventFault> {
    if fault == NodeFault::OutOfMemory {
        return Err(EventFault::RefusedTwice);
    }
    Ok(tell(told, format!(in alloc; "{fault}")?.as_str())?)
}

fn tell_refused(alloc: Global, fault: RestartFault, told: &mut String) -> Result<(), EventFault> {
    if fault == RestartFault::OutOfMemory {
        return Err(EventFault::RefusedTwice);
    }
    Ok(tell(told, format!(in alloc; "{fault}")?.as_str())?)
}

fn tell_restart(
    alloc: Global,
    fault: Option<RestartFault>,
    told: &mut String,
) -> Result<(), EventFault> {
    match fault {
        Some(fault) => tell_refused(alloc, fault, told),
        None => Ok(tell(told, "goes on")?),
    }
}
