//! A whole partition, and what the plain program knows of it.
use rp_eval::AllRows;
use rp_query::Query;
use rp_reference::{Dice, known_items};
use rp_value::{Row, Text, Value};
use rp_words::End;
use std::alloc::{AllocError, Global};
use std::test::Fail;

/// A partition has fewer rows than this.
pub const MANY_ROWS: usize = 8;

#[derive(Drop)]
pub struct Partition {
    pub key: Vec<Value>,
    pub rows: AllRows,
    /// All items.
    pub answer: Vec<String>,
    /// How many items are known of none of the rows, of the first, and so on, while more may come.
    known: Vec<usize>,
}

impl Partition {
    pub fn new(alloc: Global, query: &Query, dice: &mut Dice) -> Result<Partition, Fail> {
        let mut partition = Partition {
            key: key_of(alloc, query)?,
            rows: AllRows {
                rows: Vec::new(alloc),
                end: End::Open,
            },
            answer: Vec::new(alloc),
            known: Vec::new(alloc),
        };
        partition.fill(alloc, query, dice)?;
        Ok(partition)
    }

    /// Rows come, one after another, and then the close.
    fn fill(&mut self, alloc: Global, query: &Query, dice: &mut Dice) -> Result<(), Fail> {
        self.count_known(alloc, query)?;
        for place in 0..dice.below(MANY_ROWS as u64) {
            let row = row_of(alloc, place.saturating_add(1), cell(dice))?;
            self.rows.rows.push(row)?;
            self.count_known(alloc, query)?;
        }
        self.rows.end = End::Closed;
        self.answer = known_items(alloc, query, &self.rows)?;
        Ok(())
    }

    /// Counts the items that are known of the rows so far.
    fn count_known(&mut self, alloc: Global, query: &Query) -> Result<(), Fail> {
        let items = known_items(alloc, query, &self.rows)?;
        self.known.push(items.len())?;
        Ok(())
    }

    pub fn count(&self) -> usize {
        self.rows.rows.len()
    }

    /// The row of a number from 1, if there is one.
    pub fn row(&self, number: usize) -> Option<&Row> {
        self.rows.rows.get(number.saturating_sub(1))
    }

    /// How many items are known of the rows up to the front.
    pub fn known(&self, front: usize, is_closed: bool) -> usize {
        if is_closed && front == self.count() {
            return self.answer.len();
        }
        self.known.get(front).copied().unwrap_or(0)
    }
}

fn symbol(alloc: Global) -> Result<Value, AllocError> {
    let text = Text::new(alloc, String::from_str(alloc, "x")?)?;
    Ok(Value::Text(text))
}

/// The key of the only partition.
fn key_of(alloc: Global, query: &Query) -> Result<Vec<Value>, AllocError> {
    let mut key = Vec::new(alloc);
    if !query.partition().is_empty() {
        key.push(symbol(alloc)?)?;
    }
    Ok(key)
}

/// The row of a number, at this price.
pub fn row_of(alloc: Global, number: usize, price: Value) -> Result<Row, Fail> {
    let mut cells = Vec::new(alloc);
    cells.push(symbol(alloc)?)?;
    cells.push(Value::Int(i64::try_from(number)?))?;
    cells.push(price)?;
    Ok(Row::new(alloc, cells)?)
}

fn cell(dice: &mut Dice) -> Value {
    match dice.below(6) {
        0 => Value::Null,
        1 | 2 => Value::Int(1),
        3 | 4 => Value::Int(2),
        _ => Value::Int(3),
    }
}
