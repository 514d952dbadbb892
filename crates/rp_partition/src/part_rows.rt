//! The rows of a partition up to the front, as its walk reads them.
ghost use Rattle.std.specs.Prelude.{◌≡◌, ◌≤◌};
ghost use Rattle.rp_feed.specs.Limits.{greatest_number};
ghost use Rattle.rp_feed.specs.Fed.{front_of};
ghost use Rattle.rp_partition.specs.PartRows.{end_at, end_of};

use rp_eval::Rows;
use rp_feed::Feed;
use rp_value::Row;
use rp_words::End;

/// The rows that a feed holds up to its front. Nothing is copied.
#[derive(Clone, Copy)]
pub struct PartRows<'a> {
    feed: &'a Feed,
    end: End,
    ghost least: { 1 ≤ feed.now.first },
    ghost limit: { front_of feed.now ≤ greatest_number },
    ghost end_is: { end ≡ end_of feed.now },
}

impl<'a> Rows for PartRows<'a> {
    ghost use Rattle.rp_partition.specs.PartRows.{known_rows, few_known, none_dropped};

    ghost known = { λ p. known_rows p.feed.now };

    ghost lowest = { λ p. p.feed.now.first };

    ghost ending = { λ p. p.end };

    fn row(&self, number: u64) -> Option<&Row> {
        if number > self.feed.front() {
            return None;
        }
        self.feed.row(number)
    }

    fn first(&self) -> u64 {
        self.feed.first()
    }

    fn last(&self) -> u64 {
        self.feed.front()
    }

    fn end(&self) -> End {
        self.end
    }

    ghost few = { λ p. few_known p.feed.now p.least p.limit };

    ghost dropped = { λ p row column low. none_dropped p.feed.now row column low };
}

impl<'a> PartRows<'a> {
    /// The rows that a feed holds up to its front.
    pub(crate) fn new(feed: &'a Feed) -> PartRows<'a>
        ensures feed { result.feed.now ≡ feed.now }
        ensures end { result.end ≡ end_of feed.now }
    {
        PartRows {
            feed,
            end: end_of(feed.closed(), feed.front()),
        }
    }
}

/// A close of so many rows is the end where all of them were taken.
fn end_of(closed: Option<u64>, front: u64) -> End
    ensures { result ≡ end_at closed front }
{
    match closed {
        Some(count) if count == front => End::Closed,
        _ => End::Open,
    }
}
