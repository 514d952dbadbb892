//! A partition: a feed, and the walk over its rows.
ghost use Rattle.std.specs.Prelude.{◌≡◌, ◌-◌, ◌≤◌, true, false, None, List, OnOk, IfOk};
ghost use Rattle.rp_value.specs.declared.value.Value.{Value as Cell};
ghost use Rattle.rp_query.specs.declared.query.QueryData.{QueryData};
ghost use Rattle.rp_feed.specs.Answers.{close_answer, row_answer};
ghost use Rattle.rp_feed.specs.Fed.{with_close, with_taken};
ghost use Rattle.rp_walker.specs.Walking.{record_of};
ghost use Rattle.rp_walker.specs.Polls.{entered_by, PollLowers, PollTakes, TurnsAreCounted};
ghost use Rattle.rp_schedules.specs.Records.{fresh, Fits};
ghost use Rattle.rp_partition.specs.Feeds.{Feeds};
ghost use Rattle.rp_partition.specs.Joined.{CanResume, Joined, WorksBy, held_of, work_of};
ghost use Rattle.rp_partition.specs.Polling.{HoldsNoMore, OnlyDrops, PolledTo};
ghost use Rattle.rp_partition.specs.Taking.{TakenBy};

use crate::part_rows::PartRows;
use rp_feed::{Feed, FeedFault, Taken};
use rp_query::Query;
use rp_search::Steps;
use rp_value::Row;
use rp_walker::{MatcherState, Poll, Walker, law_drops, law_walkers, law_work};
use std::alloc::{AllocError, Global};
use std::sync::ledger::Ledger;

/// What was taken of a partition, and the walk over the rows up to the front, which the feed lends it at each poll.
pub struct Partition {
    feed: Feed,
    walker: Walker,
}

/// It is let go of by a call, wherever it is held.
impl Drop for Partition {
    fn drop(self) {
        let Partition { feed: _, walker: _ } = self;
    }
}

impl Partition {
    /// A partition of which nothing was taken.
    pub fn new(alloc: Global) -> Partition
        ensures joined { (q : QueryData) → Joined q result }
        ensures held { held_of result ≡ fresh }
        ensures entered { (q : QueryData) → (work_of q result).entered ≡ 0 }
        ensures no_search { (q : QueryData) → (work_of q result).search ≡ None }
    {
        let feed = Feed::new(alloc);
        // It brings in that what is held is a feed's.
        let _front = feed.front();
        let walker = Walker::new(alloc);
        Partition { feed, walker }
    }

    /// A partition that goes on from a record: from what its feed holds, and from where its walk was.
    pub fn resume(alloc: Global, feed: Feed, state: MatcherState) -> Partition
        ensures held { held_of result ≡ record { feed = feed; state = state } }
        ensures joined { (q : QueryData) → CanResume q (held_of result) → Joined q result }
        ensures entered { (q : QueryData) → (work_of q result).entered ≡ 0 }
        ensures no_search { (q : QueryData) → (work_of q result).search ≡ None }
    {
        // It brings in that what is held is a feed's.
        let _front = feed.front();
        let walker = Walker::resume(alloc, state);
        Partition { feed, walker }
    }

    /// What was taken of it.
    pub fn feed(&self) -> &Feed
        ensures { result.now ≡ (held_of self.now).feed }
    {
        &self.feed
    }

    /// The record of its walk.
    pub fn state(&self) -> MatcherState
        ensures { result ≡ (held_of self.now).state }
    {
        self.walker.state()
    }

    /// Takes a row, as its feed does. What isn't `New` changes nothing.
    pub fn take(&mut self, query: &Query, number: u64, row: Row) -> Result<Taken, FeedFault>
        requires joined { Joined query.now self.old }
        ensures taken { TakenBy query.now
            (row_answer ⟦<Row as PartialEq>⟧.eq (held_of self.old).feed number row)
            (with_taken number row (held_of self.old).feed) self.old self.new result }
    {
        rp_feed::law_new();
        law_feeds();
        law_walkers();
        law_work();
        // It brings in that the query is sound.
        let _plan = query.plan();
        let taken = self.feed.take(number, row);
        // It brings in that what is held is a feed's.
        let _front = self.feed.front();
        taken
    }

    /// Takes the close, which says how many rows the partition has, as its feed does.
    pub fn close(&mut self, query: &Query, count: u64) -> Result<Taken, FeedFault>
        requires joined { Joined query.now self.old }
        ensures taken { TakenBy query.now (close_answer (held_of self.old).feed count)
            (with_close count (held_of self.old).feed) self.old self.new result }
    {
        rp_feed::law_new();
        law_feeds();
        law_walkers();
        law_work();
        // It brings in that the query is sound.
        let _plan = query.plan();
        let taken = self.feed.close(count);
        // It brings in that what is held is a feed's.
        let _front = self.feed.front();
        taken
    }

    /// Takes at most `budget` turns, until an item comes or nothing is left to give, and drops the rows that aren't
    /// read any more.
    pub fn poll<L: Ledger>(
        &mut self,
        query: &Query,
        budget: u32,
        steps: &mut Steps<L>,
    ) -> Result<Poll, AllocError>
        requires joined { Joined query.now self.old }
        ensures joined { Joined query.now self.new }
        ensures polled { PolledTo query.now (held_of self.old) (held_of self.new) result }
        ensures lowers { IfOk result (PollLowers budget (work_of query.now self.old).left
            (work_of query.now self.new).left) }
        ensures turns { TurnsAreCounted budget steps.old steps.new (work_of query.now self.old).entered
            (work_of query.now self.new).entered }
        ensures takes { IfOk result (PollTakes budget steps.old steps.new) }
        ensures works { IfOk result (WorksBy query.now (steps.new - steps.old) self.old self.new) }
        ensures held { OnOk result (1 ≤ budget → HoldsNoMore query.now (held_of self.new)) }
        ensures nothing { budget ≡ 0 → (result ≡ Ok Poll.Paused) × (self.new ≡ self.old) × (steps.new ≡ steps.old) }
    {
        if budget == 0 {
            return Ok(Poll::Paused);
        }
        law_walkers();
        law_work();
        rp_schedules::law_schedules();
        law_feeds();
        // It brings in that the query is sound.
        let _plan = query.plan();
        let rows = PartRows::new(&self.feed);
        let answer = self.walker.poll(query, &rows, budget, steps)?;
        self.drop_rows(query);
        Ok(answer)
    }

    /// Drops the rows below the horizon.
    fn drop_rows(&mut self, query: &Query)
        requires joined { Joined query.now self.old }
        ensures joined { Joined query.now self.new }
        ensures state { record_of self.new.walker
            ≡ record (record_of self.old.walker) { first = self.new.feed.first } }
        ensures drops { OnlyDrops self.old.feed self.new.feed }
        ensures fits { (whole : List (List Cell)) → Fits query.now whole (held_of self.old) →
            Fits query.now whole (held_of self.new) }
        ensures left { (work_of query.now self.new).left ≡ (work_of query.now self.old).left }
        ensures entered { entered_by self.new.walker ≡ entered_by self.old.walker }
        ensures search { (record_of self.old.walker).over ≡ false →
            (work_of query.now self.new).search ≡ (work_of query.now self.old).search }
        ensures let_go { (record_of self.old.walker).over ≡ true → (work_of query.now self.new).search ≡ None }
        ensures held { HoldsNoMore query.now (held_of self.new) }
    {
        law_drops();
        law_work();
        law_feeds();
        rp_schedules::law_schedules();
        // It brings in that the query is sound.
        let _plan = query.plan();
        let rows = PartRows::new(&self.feed);
        let horizon = self.walker.horizon(query, &rows);
        let next = self.feed.front() + 1;
        self.feed.forget(horizon.min(next));
        // It brings in that what is held is a feed's.
        let _front = self.feed.front();
        self.walker.keep_from(self.feed.first());
    }
}

/// The laws of feeds that the walk over their rows rests on.
fn law_feeds()
    ensures { Feeds }
{
    rp_feed::law_rows();
    rp_feed::law_front();
}
