//! A matcher of one partition, and what is told of it.
//!
//! - `push P` brings a row of `x`, the row's own number and P, for a table such as `sym text, t int, p int`, and
//!   `push P 40 times` forty of them; `row CELL CELL ..` brings a row of any cells. `close` says that no further row comes, and
//!   tells a bar, `|`.
//! - `poll BUDGET` polls once, of which an item, `paused` or `idle` is told. `next BUDGET` polls until an item comes, and
//!   `drain BUDGET` until it is idle.
//! - `compare` asks that all items so far are those that the plain program of rp_reference knows. It tells nothing where they
//!   are, and else what the plain program knows.
//! - `save` keeps the record, and tells it with the first row that is still read. `restart` begins a matcher from the record
//!   that was kept, and `resume ROW MATCHES ITEMS` one at a start row, after so many matches and items.
//! - `items P P ..` tells the items over rows of these numbers: those that come while the partition is open, and behind a bar
//!   those that come with its close. They are the plain program's, and the same by polls of budget 1 and of 100,000, with
//!   polls behind each row, behind the last row and the close, and behind the close alone.
//! - `measure M` tells the value of M in each item over the rows that came, or `none` where no item does. The clause has no
//!   MEASURES, and MEASURES M is put before it.
use crate::driven::Driven;
use crate::fault::EventFault;
use crate::line::{
    Line, budget, cell, cells, first_word, large_number, no_words, number, text_cell,
};
use crate::told::tell;
use rp_compile::compile;
use rp_eval::AllRows;
use rp_query::{Item, Query};
use rp_reference::{item_text, known_items, write_cell};
use rp_value::{Row, Value};
use rp_walker::{MatcherState, Poll};
use rp_words::End;
use std::alloc::{AllocError, Global};

/// A matcher of a clause, and what it was told and gave.
#[derive(Drop)]
pub struct MatcherPlayer {
    alloc: Global,
    query: Query,
    driven: Driven,
    /// The rows, for the plain program.
    rows: AllRows,
    saved: MatcherState,
    /// The items alone.
    items: Vec<String>,
}

/// When a partition is polled.
#[derive(Clone, Copy, PartialEq, Eq)]
enum When {
    EachRow,
    LastRow,
    Close,
}

impl MatcherPlayer {
    /// A matcher of no row yet.
    pub fn new(alloc: Global, query: Query) -> Result<MatcherPlayer, AllocError> {
        let driven = Driven::new(alloc, query.share()?);
        let saved = driven.state();
        Ok(MatcherPlayer {
            alloc,
            query,
            driven,
            rows: AllRows {
                rows: Vec::new(alloc),
                end: End::Open,
            },
            saved,
            items: Vec::new(alloc),
        })
    }

    /// Plays an event, and adds what is told of it.
    pub fn act(&mut self, line: Line, told: &mut String) -> Result<(), EventFault> {
        match line.event {
            "push" => self.push_all(line.rest),
            "row" => self.push_row(line.rest),
            "close" => self.close(line.rest, told),
            "poll" => self.poll(line.rest, told),
            "next" => self.next(line.rest, told),
            "drain" => self.drain(line.rest, told),
            "compare" => self.compare(line.rest, told),
            "save" => self.save(line.rest, told),
            "restart" => self.restart(line.rest),
            "resume" => self.resume(line.rest),
            "items" => self.tell_items(line.rest, told),
            "measure" => self.measure(line.rest, told),
            _ => Err(EventFault::NoEvent),
        }
    }

    fn push_all(&mut self, words: &str) -> Result<(), EventFault> {
        let (word, times) = first_word(words);
        if times.is_empty() {
            return self.push(word);
        }
        let (count, times) = number(times)?;
        if times != "times" {
            return Err(EventFault::TooManyWords);
        }
        for _time in 0..count {
            self.push(word)?;
        }
        Ok(())
    }

    /// The row of x, its own number and this one.
    fn push(&mut self, p: &str) -> Result<(), EventFault> {
        let Ok(t) = i64::try_from(self.driven.last().saturating_add(1)) else {
            return Err(EventFault::NoFurtherRow);
        };
        let symbol = text_cell(self.alloc, "x")?;
        let cells = vec![in self.alloc; symbol, Value::Int(t), cell(self.alloc, p)?]?;
        self.take(cells)
    }

    fn push_row(&mut self, words: &str) -> Result<(), EventFault> {
        self.take(cells(self.alloc, words)?)
    }

    fn take(&mut self, cells: Vec<Value>) -> Result<(), EventFault> {
        let row = self.query.table().row(self.alloc, cells)?;
        self.rows.rows.push(row.share()?)?;
        self.driven.push(row)
    }

    fn close(&mut self, words: &str, told: &mut String) -> Result<(), EventFault> {
        no_words(words)?;
        self.driven.close()?;
        self.rows.end = End::Closed;
        Ok(tell(told, "|")?)
    }

    fn poll(&mut self, words: &str, told: &mut String) -> Result<(), EventFault> {
        let (budget, words) = budget(words)?;
        no_words(words)?;
        match self.driven.poll(budget)? {
            Poll::Item(place, item) => self.give(place, &item, told),
            Poll::Paused => Ok(tell(told, "paused")?),
            Poll::Idle => Ok(tell(told, "idle")?),
        }
    }

    /// Tells an item, and keeps it.
    fn give(&mut self, place: u128, item: &Item, told: &mut String) -> Result<(), EventFault> {
        let text = item_text(self.alloc, place, item)?;
        tell(told, text.as_str())?;
        self.items.push(text)?;
        Ok(())
    }

    fn next(&mut self, words: &str, told: &mut String) -> Result<(), EventFault> {
        let (budget, words) = budget(words)?;
        no_words(words)?;
        for _poll in 0..100_000 {
            match self.driven.poll(budget)? {
                Poll::Item(place, item) => return self.give(place, &item, told),
                Poll::Paused => {}
                Poll::Idle => return Ok(tell(told, "idle")?),
            }
        }
        Err(EventFault::NotIdle)
    }

    fn drain(&mut self, words: &str, told: &mut String) -> Result<(), EventFault> {
        let (budget, words) = budget(words)?;
        no_words(words)?;
        self.drain_by(budget, told)?;
        Ok(tell(told, "idle")?)
    }

    /// Polls of this budget until it is idle, of which the items are told.
    fn drain_by(&mut self, budget: u32, told: &mut String) -> Result<(), EventFault> {
        for _poll in 0..100_000 {
            match self.driven.poll(budget)? {
                Poll::Item(place, item) => self.give(place, &item, told)?,
                Poll::Paused => {}
                Poll::Idle => return Ok(()),
            }
        }
        Err(EventFault::NotIdle)
    }

    fn compare(&mut self, words: &str, told: &mut String) -> Result<(), EventFault> {
        no_words(words)?;
        let known = known_items(self.alloc, &self.query, &self.rows)?;
        if known.as_slice() == self.items.as_slice() {
            return Ok(());
        }
        tell(told, "the plain program knows")?;
        for item in &known {
            tell(told, item.as_str())?;
        }
        Ok(())
    }

    fn save(&mut self, words: &str, told: &mut String) -> Result<(), EventFault> {
        no_words(words)?;
        self.saved = self.driven.state();
        let text = record_text(self.alloc, self.saved, self.driven.horizon())?;
        Ok(tell(told, text.as_str())?)
    }

    fn restart(&mut self, words: &str) -> Result<(), EventFault> {
        no_words(words)?;
        self.go_on(self.saved)
    }

    fn resume(&mut self, words: &str) -> Result<(), EventFault> {
        let (at, words) = number(words)?;
        let (matches, words) = number(words)?;
        self.go_on(MatcherState {
            first: at,
            at,
            matches,
            covered: at.saturating_sub(1),
            here: 0,
            given: large_number(words)?,
            over: false,
        })
    }

    fn go_on(&mut self, state: MatcherState) -> Result<(), EventFault> {
        let query = self.query.share()?;
        self.driven = Driven::resume(self.alloc, query, state)?;
        Ok(())
    }

    fn tell_items(&self, numbers: &str, told: &mut String) -> Result<(), EventFault> {
        let items = self.items_of(numbers, 100_000, When::LastRow)?;
        let items = items.as_str();
        tell(told, items)?;
        for budget in [1, 100_000] {
            self.tell_other(numbers, budget, When::EachRow, items, told)?;
            self.tell_other(numbers, budget, When::LastRow, items, told)?;
            self.tell_other(numbers, budget, When::Close, items, told)?;
        }
        Ok(())
    }

    /// Where other items come by such polls, they are told too.
    fn tell_other(
        &self,
        numbers: &str,
        budget: u32,
        when: When,
        items: &str,
        told: &mut String,
    ) -> Result<(), EventFault> {
        let other = self.items_of(numbers, budget, when)?;
        if is_same(self.alloc, items, other.as_str(), when)? {
            return Ok(());
        }
        tell(told, "and by other polls")?;
        Ok(tell(told, other.as_str())?)
    }

    /// The items of a matcher of this clause over rows of these numbers.
    fn items_of(&self, numbers: &str, budget: u32, when: When) -> Result<String, EventFault> {
        let mut player = MatcherPlayer::new(self.alloc, self.query.share()?)?;
        let mut told = String::new(self.alloc);
        for number in numbers.split(' ') {
            if !number.is_empty() {
                player.push(number)?;
                player.drain_when(when == When::EachRow, budget, &mut told)?;
            }
        }
        player.drain_when(when != When::Close, budget, &mut told)?;
        player.close("", &mut told)?;
        player.drain_when(true, budget, &mut told)?;
        Ok(told)
    }

    /// Polls until it is idle and compares, where this is a time for it.
    fn drain_when(
        &mut self,
        is_time: bool,
        budget: u32,
        told: &mut String,
    ) -> Result<(), EventFault> {
        if !is_time {
            return Ok(());
        }
        self.drain_by(budget, told)?;
        self.compare("", told)
    }

    fn measure(&self, measure: &str, told: &mut String) -> Result<(), EventFault> {
        let clause = self.query.text().as_str();
        let text = format!(in self.alloc; "MEASURES {measure} AS measured {clause}")?;
        let query = compile(self.alloc, text.as_str(), self.query.table())?;
        let mut driven = Driven::new(self.alloc, query);
        for row in &self.rows.rows {
            driven.push(row.share()?)?;
        }
        if self.driven.is_closed() {
            driven.close()?;
        }
        let before = told.len();
        tell_measured(self.alloc, &mut driven, told)?;
        if told.len() == before {
            tell(told, "none")?;
        }
        Ok(())
    }
}

/// Whether the same items come, and at the same times where this is told.
fn is_same(alloc: Global, items: &str, other: &str, when: When) -> Result<bool, AllocError> {
    if when != When::Close {
        return Ok(items == other);
    }
    Ok(without_bar(alloc, items)?.as_str() == without_bar(alloc, other)?.as_str())
}

/// All items that were told, whether before the close or behind it.
fn without_bar(alloc: Global, items: &str) -> Result<String, AllocError> {
    let mut all = String::new(alloc);
    for letter in items.chars() {
        if letter != '|' && letter != ' ' {
            all.push(letter)?;
        }
    }
    Ok(all)
}

/// Tells the first cell of each item.
fn tell_measured(alloc: Global, driven: &mut Driven, told: &mut String) -> Result<(), EventFault> {
    for _poll in 0..100_000 {
        match driven.poll(1_000)? {
            Poll::Item(_place, item) => tell_first_cell(alloc, &item, told)?,
            Poll::Paused => {}
            Poll::Idle => return Ok(()),
        }
    }
    Err(EventFault::NotIdle)
}

fn tell_first_cell(alloc: Global, item: &Item, told: &mut String) -> Result<(), EventFault> {
    let Item::Row { cells, .. } = item else {
        return Ok(());
    };
    match cells.as_slice().first() {
        None => Ok(()),
        Some(value) => Ok(tell(told, value_text(alloc, value)?.as_str())?),
    }
}

/// A value as a script has it.
fn value_text(alloc: Global, value: &Value) -> Result<String, AllocError> {
    let mut text = String::new(alloc);
    write_cell(alloc, value, &mut text)?;
    if text.is_empty() {
        text.push_str("''")?;
    }
    Ok(text)
}

/// A record, and the first row that is still read.
fn record_text(alloc: Global, state: MatcherState, horizon: u64) -> Result<String, AllocError> {
    let MatcherState {
        first,
        at,
        matches,
        covered,
        here,
        given,
        over,
    } = state;
    format!(in alloc;
        "[first {first}, at {at}, matches {matches}, covered {covered}, here {here}, given {given}, over {over}, horizon {horizon}]"
    )
}
