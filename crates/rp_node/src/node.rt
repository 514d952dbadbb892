//! Partitions by key.
ghost use Rattle.std.specs.Prelude.{◌≡◌, ◌≢◌, ◌⊎◌, ◌+◌, ◌-◌, ◌<◌, ◌≤◌, List, [], Ok, Err, Some, IfErr, IfOk, OnOk};
ghost use Rattle.indexmap.specs.IndexMap.{index_map_len};
ghost use Rattle.rp_value.specs.declared.value.Value.{Value as Cell};
ghost use Rattle.rp_feed.specs.declared.answer.Taken.TheVariants.{New};
ghost use Rattle.rp_feed.specs.declared.packet.Packet.TheVariants.{Row as RowPacket, Close as ClosePacket};
ghost use Rattle.rp_walker.specs.Polls.{PollLowers, PollTakes, TurnsAreCounted};
ghost use Rattle.rp_node.specs.NodeSeen.{AllBounded, AllJoined, work_at};
ghost use Rattle.rp_node.specs.Accepting.{Accepted, IsAnswered};
ghost use Rattle.rp_node.specs.Bound.{KeyWorks};
ghost use Rattle.rp_node.specs.Polling.{Advances, HoldsNoMoreAt, NodePolls};
ghost use Rattle.rp_checkpoint.specs.Checkpoints.{checkpoint};
ghost use Rattle.rp_node.specs.Keeping.{kept_of};
ghost use Rattle.rp_node.specs.Restarting.{IsRefused, RestartsTo};
ghost use Rattle.rp_node.specs.Taking.{AddedAs, IsJoinedAt, MapTakes, PolledPlace, TakenAt};

use crate::fault::{NodeFault, RestartRefused, told, told_poll};
use crate::partitions::Partitions;
use crate::restart::restored;
use crate::save::kept;
use indexmap::IndexMap;
use rp_checkpoint::checkpoint_of;
use rp_feed::{FeedFault, Packet, Taken};
use rp_partition::Partition;
use rp_query::Query;
use rp_search::Steps;
use rp_value::{Cells, Row, Value};
use rp_walker::Poll;
use std::alloc::{AllocError, Global};
use std::collections::hash_map::RandomState;
use std::marker::{Brand, Model};
use std::sync::ledger::{Blank, Ledger};

/// A node of one query: what was taken of each partition, and where the walk over its rows stands.
///
/// Contracts see it as its query and a record of each key, and beside it the turns that are left (`NodeSeen`).
#[derive(Drop)]
pub struct Node {
    alloc: Global,
    query: Query,
    hasher: RandomState,
    partitions: Partitions,
}

impl Model for Node {
    ghost use Rattle.rp_node.specs.NodeSeen.{AllJoined, NodeSeen, node_by, node_code};

    ghost Value = { NodeSeen };

    ghost coded = { node_code };

    ghost view = { λ n. node_by n.query n.partitions.entries };

    ghost invariant = { λ n. AllJoined n.query n.partitions.entries };
}

impl Node {
    /// A node of which nothing was taken. The hasher finds the partition of a key: what the node answers is the same with any.
    pub fn new(alloc: Global, query: Query, hasher: RandomState) -> Node
        ensures query { result.query ≡ query }
        ensures none { result.records ≡ [] }
        ensures no_work { result.work ≡ [] }
        ensures bounded { AllBounded result }
    {
        Node {
            alloc,
            query,
            hasher,
            partitions: IndexMap::with_hasher(alloc, hasher),
        }
    }

    /// What is kept of the node, as bytes that a node of the same query goes on from.
    pub fn save(&self) -> Result<Vec<u8>, AllocError>
        ensures bytes { IfOk result (λ bytes. bytes.items ≡ checkpoint (kept_of self.now)) }
        ensures back { IfOk result (λ bytes. RestartsTo self.now.query bytes.items self.now.records) }
    {
        rp_feed::law_again();
        rp_feed::law_same_rows();
        rp_walker::law_walkers();
        // It brings in that no two partitions have one key.
        let _unique = self.partitions.len();
        let kept = kept(self.alloc, &self.query, &self.partitions)?;
        checkpoint_of(self.alloc, &kept)
    }

    /// A node that goes on from what an earlier one saved. Where it is refused, the query comes back: for the
    /// bytes' fault, then `ClauseDiffers`, then `BadState`; `OutOfMemory` may come before.
    ///
    ///     match Node::restart(rt.alloc(), query, RandomState::new(rt)?, bytes) {
    ///         Ok(node) => Ok(node),
    ///         Err(refused) => Err(refused.fault.into()),
    ///     }
    pub fn restart(
        alloc: Global,
        query: Query,
        hasher: RandomState,
        bytes: &[u8],
    ) -> Result<Node, RestartRefused>
        ensures query { IfOk result (λ node. node.query ≡ query) }
        ensures restarts { IfOk result (λ node. RestartsTo query bytes.now node.records) }
        ensures bounded { IfOk result AllBounded }
        ensures refused { IfErr result (λ refused. IsRefused query bytes.now refused.fault) }
        ensures returned { IfErr result (λ refused. refused.query ≡ query) }
    {
        rp_walker::law_left();
        match restored(alloc, &query, hasher, bytes) {
            Ok(partitions) => Ok(Node {
                alloc,
                query,
                hasher,
                partitions,
            }),
            Err(fault) => Err(RestartRefused { query, fault }),
        }
    }

    /// Where its memory comes from.
    pub(crate) fn alloc(&self) -> Global {
        self.alloc
    }

    /// What finds the partition of a key.
    pub(crate) fn hasher(&self) -> RandomState {
        self.hasher
    }

    /// The query, as it was given.
    pub fn into_query(self) -> Query
        ensures { result ≡ self.query }
    {
        self.query
    }

    /// Takes a row or a close. `BadRow` comes first, then the feed's order; `OutOfMemory` may come before either.
    /// What isn't `New` changes nothing: a refused packet leaves no partition, no row and no close.
    ///
    ///     let taken = node.accept(Packet::Row { number, cells })?;
    ///     let taken = node.accept(Packet::Close { key, count: 4 })?;
    pub fn accept(&mut self, packet: Packet) -> Result<Taken, NodeFault>
        ensures answer { IsAnswered self.old packet result }
        ensures taken { result ≡ Ok New → Accepted self.old packet self.new }
        ensures unchanged { result ≢ Ok New → self.new ≡ self.old }
        ensures bounded { AllBounded self.new }
    {
        match packet {
            Packet::Row { number, cells } => self.accept_row(number, cells),
            Packet::Close { key, count } => self.accept_close(key, count),
        }
    }

    fn accept_row(&mut self, number: u64, row: Row) -> Result<Taken, NodeFault>
        ensures answer { IsAnswered self.old (RowPacket number row) result }
        ensures taken { result ≡ Ok New → Accepted self.old (RowPacket number row) self.new }
        ensures unchanged { result ≢ Ok New → self.new ≡ self.old }
        ensures bounded { AllBounded self.new }
    {
        rp_walker::law_left();
        if let Some(fault) = self.query.table().row_fault(row.cells()) {
            return Err(NodeFault::BadRow(fault));
        }
        let key = self.query.key(self.alloc, &row)?;
        let answer = take_row(
            self.alloc,
            &self.query,
            &mut self.partitions,
            key.into_vec(),
            number,
            row,
        );
        told(answer)
    }

    fn accept_close(&mut self, key: Cells, count: u64) -> Result<Taken, NodeFault>
        ensures answer { IsAnswered self.old (ClosePacket key count) result }
        ensures taken { result ≡ Ok New → Accepted self.old (ClosePacket key count) self.new }
        ensures unchanged { result ≢ Ok New → self.new ≡ self.old }
        ensures bounded { AllBounded self.new }
    {
        rp_walker::law_left();
        if let Some(fault) = self.query.key_fault(key.as_slice()) {
            return Err(NodeFault::BadRow(fault));
        }
        let answer = take_close(
            self.alloc,
            &self.query,
            &mut self.partitions,
            key.into_vec(),
            count,
        );
        told(answer)
    }

    /// Polls the partition of a key: takes at most `budget` turns, until an item comes or nothing is left to give. A
    /// budget of 0 answers `Paused` where the key is known, and changes nothing. After `OutOfMemory` the same item is
    /// still to come.
    /// Where each condition judges its row alone, no test of a known row is open and all that fails is remembered, a poll
    /// that finds no further match takes no more turns than what is left falls by, and one if it is idle.
    /// `next` does the same for a caller that keeps no count of turns.
    pub fn poll<L: Ledger>(
        &mut self,
        key: &[Value],
        budget: u32,
        steps: &mut Steps<L>,
    ) -> Result<Poll, NodeFault>
        ensures query { self.new.query ≡ self.old.query }
        ensures polls { NodePolls self.old self.new key.now result }
        ensures lowers { IfOk result (PollLowers budget (work_at self.old key.now).left
            (work_at self.new key.now).left) }
        ensures bounded { AllBounded self.new }
        ensures turns { TurnsAreCounted budget steps.old steps.new
            (work_at self.old key.now).entered (work_at self.new key.now).entered }
        ensures takes { IfOk result (PollTakes budget steps.old steps.new) }
        ensures works { IfOk result (KeyWorks (steps.new - steps.old) self.old self.new key.now) }
        ensures held { OnOk result (1 ≤ budget → HoldsNoMoreAt self.new key.now) }
        ensures paused { budget ≡ 0 → (result ≡ Ok Poll.Paused) ⊎ (result ≡ Err NodeFault.UnknownPartition) }
        ensures nothing { budget ≡ 0 → (self.new ≡ self.old) × (steps.new ≡ steps.old) }
    {
        rp_walker::law_left();
        rp_feed::law_same_rows();
        match self.partitions.get_index_of(key) {
            None => Err(NodeFault::UnknownPartition),
            Some(place) => {
                let answer = poll_at(&self.query, &mut self.partitions, place, budget, steps);
                told_poll(answer)
            }
        }
    }

    /// The next item of the partition of a key, or why there is none yet: what `poll` does with the same budget, for a
    /// caller that keeps no count of turns.
    ///
    ///     match node.next(key, 1_000)? {
    ///         Poll::Item(place, item) => println!(rt; "    item {place}: {item:?}")?,
    ///         Poll::Paused => {}
    ///         Poll::Idle => break,
    ///     }
    pub fn next(&mut self, key: &[Value], budget: u32) -> Result<Poll, NodeFault>
        ensures { Advances key.now budget self.old self.new result }
    {
        self.uncounted::<Brand>(key, budget, Blank::new(1))
    }

    /// Polls over a count of its own, which nobody reads.
    fn uncounted<L: Ledger>(
        &mut self,
        key: &[Value],
        budget: u32,
        blank: Blank,
    ) -> Result<Poll, NodeFault>
        requires name { blank.name ≡ L.name }
        requires parts { blank.parts ≡ L.parts }
        requires some { 0 < blank.parts }
        ensures { Advances key.now budget self.old self.new result }
    {
        let mut steps = Steps::<L>::new(blank);
        self.poll(key, budget, &mut steps)
    }
}

/// Takes a row of the partition of that key, which is new where nothing of it was taken.
fn take_row(
    alloc: Global,
    query: &Query,
    partitions: &mut Partitions,
    key: Vec<Value>,
    number: u64,
    row: Row,
) -> Result<Taken, FeedFault>
    requires joined { AllJoined query.now partitions.old.entries }
    ensures takes { MapTakes query.now (RowPacket number row) key.items partitions.old.entries
        partitions.new.entries result }
{
    rp_feed::law_same_rows();
    rp_query::law_keys();
    match partitions.get_index_of(key.as_slice()) {
        Some(place) => take_row_at(query, partitions, place, number, row),
        None => add_row(alloc, query, partitions, key, number, row),
    }
}

/// Takes a row of the partition at a place.
fn take_row_at(
    query: &Query,
    partitions: &mut Partitions,
    place: usize,
    number: u64,
    row: Row,
) -> Result<Taken, FeedFault>
    requires within { place < index_map_len partitions.old }
    requires joined { IsJoinedAt query.now partitions.old.entries place }
    ensures takes { TakenAt query.now (RowPacket number row) partitions.old.entries place
        partitions.new.entries result }
{
    match partitions.get_index_mut(place) {
        Some(partition) => partition.take(query, number, row),
        None => Err(FeedFault::OutOfMemory),
    }
}

/// Takes the first row of a partition, and adds the partition where it is accepted.
fn add_row(
    alloc: Global,
    query: &Query,
    partitions: &mut Partitions,
    key: Vec<Value>,
    number: u64,
    row: Row,
) -> Result<Taken, FeedFault>
    ensures added { AddedAs query.now (RowPacket number row) partitions.old.entries key
        partitions.new.entries result }
{
    let mut partition = Partition::new(alloc);
    let taken = partition.take(query, number, row)?;
    match partitions.insert(key, partition) {
        Ok(_) => Ok(taken),
        Err(_) => Err(FeedFault::OutOfMemory),
    }
}

/// Takes the close of the partition of that key, which is new where nothing of it was taken.
fn take_close(
    alloc: Global,
    query: &Query,
    partitions: &mut Partitions,
    key: Vec<Value>,
    count: u64,
) -> Result<Taken, FeedFault>
    requires joined { AllJoined query.now partitions.old.entries }
    ensures takes { MapTakes query.now (ClosePacket key.items count) key.items partitions.old.entries
        partitions.new.entries result }
{
    rp_feed::law_same_rows();
    rp_query::law_keys();
    match partitions.get_index_of(key.as_slice()) {
        Some(place) => take_close_at(query, partitions, place, count),
        None => add_close(alloc, query, partitions, key, count),
    }
}

/// Takes the close of the partition at a place.
fn take_close_at(
    query: &Query,
    partitions: &mut Partitions,
    place: usize,
    count: u64,
) -> Result<Taken, FeedFault>
    requires within { place < index_map_len partitions.old }
    requires joined { IsJoinedAt query.now partitions.old.entries place }
    ensures takes { (key : List Cell) → TakenAt query.now (ClosePacket key count)
        partitions.old.entries place partitions.new.entries result }
{
    match partitions.get_index_mut(place) {
        Some(partition) => partition.close(query, count),
        None => Err(FeedFault::OutOfMemory),
    }
}

/// Adds a partition of which the close alone is taken.
fn add_close(
    alloc: Global,
    query: &Query,
    partitions: &mut Partitions,
    key: Vec<Value>,
    count: u64,
) -> Result<Taken, FeedFault>
    ensures added { AddedAs query.now (ClosePacket key.items count) partitions.old.entries key
        partitions.new.entries result }
{
    let mut partition = Partition::new(alloc);
    let taken = partition.close(query, count)?;
    match partitions.insert(key, partition) {
        Ok(_) => Ok(taken),
        Err(_) => Err(FeedFault::OutOfMemory),
    }
}

/// Polls the partition at a place.
fn poll_at<L: Ledger>(
    query: &Query,
    partitions: &mut Partitions,
    place: usize,
    budget: u32,
    steps: &mut Steps<L>,
) -> Result<Poll, AllocError>
    requires within { place < index_map_len partitions.old }
    requires joined { IsJoinedAt query.now partitions.old.entries place }
    ensures polled { PolledPlace query.now partitions.old.entries place partitions.new.entries budget
        steps.old steps.new result }
{
    match partitions.get_index_mut(place) {
        Some(partition) => partition.poll(query, budget, steps),
        None => Err(AllocError),
    }
}
