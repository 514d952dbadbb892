//! The rows that are kept of a partition.
ghost use Rattle.std.specs.Prelude.{◌≡◌, ◌+◌, ◌-◌, ◌^◌, ◌<◌, ◌≤◌, [], ◌∷◌, ◌++◌, length, drop, max, ◌⊎◌, OnOk, OnErr, IfErr};
ghost use Rattle.rp_words.specs.declared.word.End.TheVariants.{Open as OpenEnd, Closed as ClosedEnd};

use rp_eval::Rows;
use rp_value::Row;
use rp_words::End;
use std::alloc::{AllocFailed, Global};
use std::collections::VecDeque;

/// The rows from one on.
#[derive(Drop)]
pub(crate) struct Kept {
    first: u64,
    rows: VecDeque<Row>,
    end: End,
    ghost from_one: { 1 ≤ first },
    ghost few: { first + length rows.items < 2 ^ 64 },
}

#[tactic(auto, unfolding(crate::specs::Kept::kept_rows))]
impl Rows for Kept {
    ghost use Rattle.rp_answer.specs.Kept.{kept_rows, few_kept, none_dropped};

    ghost known = { λ k. kept_rows k };

    ghost lowest = { λ k. k.first };

    ghost ending = { λ k. k.end };

    fn row(&self, number: u64) -> Option<&Row> {
        if number < self.first {
            return None;
        }
        let place = (number - self.first) as usize;
        if place < self.rows.len() {
            return Some(&self.rows[place]);
        }
        None
    }

    fn first(&self) -> u64 {
        self.first
    }

    fn last(&self) -> u64 {
        self.first - 1 + self.rows.len() as u64
    }

    fn end(&self) -> End {
        self.end
    }

    ghost few = { λ k. few_kept k };

    ghost dropped = { λ k row column low. none_dropped k row column low };
}

impl Kept {
    pub(crate) fn new(alloc: Global, first: u64) -> Kept
        requires one { 1 ≤ first }
        requires few { first < 2 ^ 64 }
        ensures first { result.first ≡ first }
        ensures none { result.rows.items ≡ [] }
        ensures end { result.end ≡ OpenEnd }
    {
        Kept {
            first,
            rows: VecDeque::new(alloc),
            end: End::Open,
        }
    }

    /// A further row. Where memory is refused, it is handed back.
    pub(crate) fn push(&mut self, row: Row) -> Result<(), AllocFailed<Row>>
        requires { self.old.first + length self.old.rows.items < 2 ^ 64 - 1 }
        ensures first { self.new.first ≡ self.old.first }
        ensures end { self.new.end ≡ self.old.end }
        ensures pushed { OnOk result (self.new.rows.items ≡ self.old.rows.items ++ row ∷ []) }
        ensures out_of_memory { OnErr result (self.new.rows.items ≡ self.old.rows.items) }
        ensures returned { IfErr result (λ back. back.value ≡ row) }
    {
        self.rows.push_back(row)
    }

    /// No further row comes.
    pub(crate) fn close(&mut self)
        ensures first { self.new.first ≡ self.old.first }
        ensures end { self.new.end ≡ ClosedEnd }
        ensures rows { self.new.rows ≡ self.old.rows }
    {
        self.end = End::Closed;
    }

    /// Drops the rows below one, as far as they are known.
    pub(crate) fn forget(&mut self, before: u64)
        ensures low { self.old.first ≤ self.new.first }
        ensures not_past { self.new.first ≤ max self.old.first before }
        ensures all { before ≤ self.new.first ⊎ (self.new.rows.items ≡ []) }
        ensures rows { self.new.rows.items ≡ drop (self.new.first - self.old.first) self.old.rows.items }
        ensures last { self.new.first + length self.new.rows.items ≡ self.old.first + length self.old.rows.items }
        ensures end { self.new.end ≡ self.old.end }
    {
        while self.first < before {
            match self.rows.pop_front() {
                None => return,
                Some(_row) => self.first += 1,
            }
        }
    }
}
