//! A matcher and the plain program over the same rows.
use super::driven::Driven;
use rp_eval::AllRows;
use rp_query::{Item, Query};
use rp_reference::{item_text, known_items};
use rp_search::Steps;
use rp_value::{Row, Text, Value};
use rp_walker::Poll;
use rp_words::End;
use std::alloc::Global;
use std::sync::ledger::Ledger;
use std::test::Fail;

/// Stands for null in the column p.
pub const NULL: i64 = i64::MIN;

/// A matcher, and the items that it gave.
#[derive(Drop)]
pub struct Player {
    alloc: Global,
    query: Query,
    driven: Driven,
    /// The rows, for the plain program.
    rows: AllRows,
    items: Vec<String>,
}

impl Player {
    pub fn new(alloc: Global, query: &Query) -> Result<Player, Fail> {
        let driven = Driven::new(alloc, query.share()?);
        let rows = AllRows {
            rows: Vec::new(alloc),
            end: End::Open,
        };
        Ok(Player {
            alloc,
            query: query.share()?,
            driven,
            rows,
            items: Vec::new(alloc),
        })
    }

    /// The next row comes: x, its number and this number, in the columns sym, t and p.
    pub fn push(&mut self, number: i64) -> Result<(), Fail> {
        let next = self.driven.last().saturating_add(1);
        let row = row_of(self.alloc, &self.query, next, number)?;
        self.rows.rows.push(row.share()?)?;
        self.driven.push(row)
    }

    /// No further row comes.
    pub fn close(&mut self) -> Result<(), Fail> {
        self.driven.close()?;
        self.rows.end = End::Closed;
        Ok(())
    }

    /// Polls until it is idle. All items so far are then those that the plain program knows.
    pub fn compare<L: Ledger>(&mut self, budget: u32, steps: &mut Steps<L>) -> Result<(), Fail> {
        self.drain(budget, steps)?;
        let known = known_items(self.alloc, &self.query, &self.rows)?;
        if known.as_slice() == self.items.as_slice() {
            return Ok(());
        }
        self.differ(&known)
    }

    /// Polls of this budget until it is idle.
    fn drain<L: Ledger>(&mut self, budget: u32, steps: &mut Steps<L>) -> Result<(), Fail> {
        for _poll in 0..100_000 {
            match self.driven.poll(budget, steps)? {
                Poll::Item(place, item) => self.take(place, &item)?,
                Poll::Paused => {}
                Poll::Idle => return Ok(()),
            }
        }
        Err(Fail::from("idle after 100,000 polls"))
    }

    fn take(&mut self, place: u128, item: &Item) -> Result<(), Fail> {
        self.items.push(item_text(self.alloc, place, item)?)?;
        Ok(())
    }

    /// The items aren't those that are known.
    fn differ(&self, known: &[String]) -> Result<(), Fail> {
        let text = self.query.text().as_str();
        let told = format!(in self.alloc; "{text}: known {known:?}, given {:?}", self.items)?;
        Err(Fail::from(told))
    }
}

/// The row of x and these numbers.
fn row_of(alloc: Global, query: &Query, row: u64, p: i64) -> Result<Row, Fail> {
    let symbol = Text::new(alloc, String::from_str(alloc, "x")?)?;
    let t = Value::Int(i64::try_from(row)?);
    let p = if p == NULL {
        Value::Null
    } else {
        Value::Int(p)
    };
    let cells = vec![in alloc; Value::Text(symbol), t, p]?;
    Ok(query.table().row(alloc, cells)?)
}
