//! A plain program for the items of a partition that are known: at each start row it lists all words of the pattern, and
//! takes the first that the conditions don't refuse. Of the engine it uses the word list, and the values of conditions
//! and measures, for which the rows of each word are entered anew.
ghost use Rattle.std.specs.Prelude.{◌≡◌, ◌+◌, ◌<◌, ◌≤◌, length, IfOk, OnOk};
ghost use Rattle.rp_eval.specs.Entered.{AreTotals};

use crate::fault::PlainFault;
use crate::text::row_text;
use rp_eval::{AllRows, Cell, Rows, Totals, View, condition, measure};
use rp_query::{Query, RowsPerMatch, SkipTo, Variables};
use rp_value::Value;
use rp_word_lists::list_words;
use rp_words::{End, Label, Mark, Seen, Word};
use std::alloc::Global;

/// More words than a pattern of the tests has over their rows.
const MANY_WORDS: usize = 100_000;

/// The items that are known, each as text.
pub fn known_items(
    alloc: Global,
    query: &Query,
    rows: &AllRows,
) -> Result<Vec<String>, PlainFault> {
    let plain = Plain { alloc, query, rows };
    let mut given = Given {
        items: Vec::new(alloc),
        count: 0,
        matches: 0,
        covered: 0,
    };
    let mut next = 1;
    for row in 1..rows.last() + 1 {
        if row == next {
            match plain.search_from(row, &mut given)? {
                None => return Ok(given.items),
                Some(row) => next = row,
            }
        }
    }
    if rows.end() == End::Closed {
        plain.give_word("End", &mut given)?;
    }
    Ok(given.items)
}

/// What was given up to a start row.
#[derive(Drop)]
struct Given {
    items: Vec<String>,
    /// How many items.
    count: u128,
    /// How many matches were found.
    matches: u64,
    /// The greatest row of a match.
    covered: u64,
}

/// What the search at a row finds.
#[derive(Drop)]
enum Found {
    Match(Vec<Label>),
    NoMatch,
    Waits,
}

/// A query over rows.
#[derive(Clone, Copy)]
struct Plain<'a> {
    alloc: Global,
    query: &'a Query,
    rows: &'a AllRows,
}

impl<'a> Plain<'a> {
    /// Gives the items of the search at a row. It answers the next start row, or none where the answer ends or waits.
    fn search_from(&self, start: u64, given: &mut Given) -> Result<Option<u64>, PlainFault>
        requires from_one { 1 ≤ start }
        requires known { start ≤ length self.now.rows.now.rows.items }
    {
        match self.found(start)? {
            Found::Waits => Ok(None),
            Found::NoMatch => self.give_unmatched(start, given),
            Found::Match(labels) => self.give_match(start, &labels, given),
        }
    }

    /// The first word that isn't refused.
    fn found(&self, start: u64) -> Result<Found, PlainFault>
        requires from_one { 1 ≤ start }
        requires known { start ≤ length self.now.rows.now.rows.items }
    {
        let last = self.rows.last();
        if last > 1_000 {
            return Err(PlainFault::TooMany);
        }
        let end = self.rows.end();
        let pattern = self.query.pattern();
        for word in list_words(self.alloc, pattern, start, last, end, MANY_WORDS)? {
            match self.seen(start, &word)? {
                Seen::NotTrue => {}
                Seen::True => return Ok(Found::Match(word.labels)),
                Seen::Open => return Ok(Found::Waits),
            }
        }
        Ok(Found::NoMatch)
    }

    /// Whether a word is admitted. The first condition that isn't true decides, and the mark where there is none.
    fn seen(&self, start: u64, word: &Word) -> Result<Seen, PlainFault>
        requires from_one { 1 ≤ start }
        requires known { start ≤ length self.now.rows.now.rows.items }
    {
        for depth in 0..word.labels.len() {
            let front = &word.labels[..depth + 1];
            let totals = self.totals(start, front)?;
            match self.test(start, front, &totals) {
                Seen::True => {}
                seen => return Ok(seen),
            }
        }
        match word.mark {
            Mark::Full => Ok(Seen::True),
            Mark::Open => Ok(Seen::Open),
        }
    }

    /// The totals of labels, entered one by one.
    fn totals(&self, start: u64, labels: &[Label]) -> Result<Totals, PlainFault>
        requires from_one { 1 ≤ start }
        requires known { start ≤ length self.now.rows.now.rows.items }
        ensures on_rows { OnOk result (start + length labels.now ≤ length self.now.rows.now.rows.items + 1) }
        ensures totals { IfOk result (λ totals. AreTotals totals self.now.rows.now.rows.items start labels.now) }
    {
        if labels.len() as u64 > self.rows.last() - start + 1 {
            return Err(PlainFault::TooMany);
        }
        let mut totals = Totals::new(self.alloc, self.query)?;
        for depth in 0..labels.len() {
            totals.enter(self.rows, start, &labels[..depth + 1])?;
        }
        Ok(totals)
    }

    /// What the condition of the last label says of its row.
    fn test(&self, start: u64, labels: &[Label], totals: &Totals) -> Seen
        requires from_one { 1 ≤ start }
        requires some { 0 < length labels.now }
        requires on_rows { start + length labels.now ≤ length self.now.rows.now.rows.items + 1 }
        requires totals { AreTotals totals.now self.now.rows.now.rows.items start labels.now }
    {
        let last = labels.len() - 1;
        match self.query.definition(labels[last].var) {
            None => Seen::True,
            Some(defined) => {
                let view = View {
                    rows: self.rows,
                    start,
                    labels,
                    current: start.saturating_add(last as u64),
                    number: 0,
                    totals,
                };
                condition(defined, &view)
            }
        }
    }

    /// A row without a match is given where the clause asks for it and no earlier match has it.
    fn give_unmatched(&self, start: u64, given: &mut Given) -> Result<Option<u64>, PlainFault>
        requires known { start ≤ length self.now.rows.now.rows.items }
    {
        let plan = self.query.plan();
        if plan.rows == RowsPerMatch::AllWithUnmatched && given.covered < start {
            let mut nulls = Vec::new(self.alloc);
            for _measure in plan.measures.as_slice() {
                nulls.push(Value::Null)?;
            }
            self.give_row(start, None, nulls, given)?;
        }
        Ok(Some(start.saturating_add(1)))
    }

    /// Gives the items of a match up to the first that isn't ready.
    fn give_match(
        &self,
        start: u64,
        labels: &[Label],
        given: &mut Given,
    ) -> Result<Option<u64>, PlainFault>
        requires from_one { 1 ≤ start }
        requires known { start ≤ length self.now.rows.now.rows.items }
    {
        let totals = self.totals(start, labels)?;
        given.matches = given.matches.saturating_add(1);
        for place in 0..labels.len().max(1) {
            if shows(self.query.plan().rows, labels, place) {
                let row = start.saturating_add(place as u64);
                match self.measures(start, labels, &totals, row, given.matches)? {
                    None => return Ok(None),
                    Some(values) => self.give_row(row, Some(given.matches), values, given)?,
                }
            }
        }
        if labels.is_empty() {
            return Ok(Some(start.saturating_add(1)));
        }
        let last = start.saturating_add(labels.len() as u64 - 1);
        given.covered = given.covered.max(last);
        self.skip(start, labels, given)
    }

    /// The values of the measures at a row, or none where one is open.
    fn measures(
        &self,
        start: u64,
        labels: &[Label],
        totals: &Totals,
        current: u64,
        number: u64,
    ) -> Result<Option<Vec<Value>>, PlainFault>
        requires from_one { 1 ≤ start }
        requires on_rows { start + length labels.now ≤ length self.now.rows.now.rows.items + 1 }
        requires current { start ≤ current }
        requires totals { AreTotals totals.now self.now.rows.now.rows.items start labels.now }
    {
        let view = View {
            rows: self.rows,
            start,
            labels,
            current,
            number,
            totals,
        };
        let mut values = Vec::new(self.alloc);
        for expr in self.query.plan().measures.as_slice() {
            match measure(expr, &view)? {
                Cell::Open => return Ok(None),
                Cell::Ready(value) => values.push(value)?,
            }
        }
        Ok(Some(values))
    }

    /// Where the next search starts, after a match with a row.
    fn skip(
        &self,
        start: u64,
        labels: &[Label],
        given: &mut Given,
    ) -> Result<Option<u64>, PlainFault> {
        let place = match &self.query.plan().skip {
            SkipTo::NextRow => Some(1),
            SkipTo::PastLastRow => Some(labels.len()),
            SkipTo::First(variables) => places(self.alloc, variables, labels)?.first().copied(),
            SkipTo::Last(variables) => places(self.alloc, variables, labels)?.last().copied(),
        };
        match place {
            None => self.give_word("SkipNoRow", given)?,
            Some(0) => self.give_word("SkipSame", given)?,
            Some(place) => return Ok(Some(start.saturating_add(place as u64))),
        }
        Ok(None)
    }

    fn give_word(&self, word: &str, given: &mut Given) -> Result<(), PlainFault> {
        given.count = given.count.saturating_add(1);
        let text = format!(in self.alloc; "({}, {word})", given.count)?;
        given.items.push(text)?;
        Ok(())
    }

    /// A row's item: the columns of the keys, the measures, and the other columns.
    fn give_row(
        &self,
        row: u64,
        number: Option<u64>,
        measures: Vec<Value>,
        given: &mut Given,
    ) -> Result<(), PlainFault> {
        let mut cells = Vec::new(self.alloc);
        self.add_cells(&mut cells, row, true)?;
        for value in measures {
            cells.push(value)?;
        }
        if self.shows_all() {
            self.add_cells(&mut cells, row, false)?;
        }
        given.count = given.count.saturating_add(1);
        let text = row_text(self.alloc, given.count, number, &cells)?;
        given.items.push(text)?;
        Ok(())
    }

    /// The cells of a row in the columns that are keys, or in those that are none. In the tests' clauses keys stand in the
    /// order of the table's columns.
    fn add_cells(&self, cells: &mut Vec<Value>, row: u64, keys: bool) -> Result<(), PlainFault> {
        for column in 1..4 {
            if self.is_key(column) == keys {
                cells.push(self.cell(row, column)?)?;
            }
        }
        Ok(())
    }

    fn cell(&self, row: u64, column: usize) -> Result<Value, PlainFault> {
        let Some(cells) = self.rows.row(row) else {
            return Err(PlainFault::NoColumn);
        };
        match cells.cell(column) {
            None => Err(PlainFault::NoColumn),
            Some(value) => Ok(value.share()?),
        }
    }

    fn is_key(&self, column: usize) -> bool {
        let is_ordered = self
            .query
            .order()
            .iter()
            .any(|ordered| ordered.column == column);
        self.query.partition().contains(&column) || (self.shows_all() && is_ordered)
    }

    fn shows_all(&self) -> bool {
        self.query.plan().rows != RowsPerMatch::One
    }
}

/// Whether a match's row at this place, from 0, gives an item. An empty match has one such place.
fn shows(rows: RowsPerMatch, labels: &[Label], place: usize) -> bool {
    match rows {
        RowsPerMatch::One => place >= labels.len().saturating_sub(1),
        RowsPerMatch::AllOmitEmpty => !labels.is_empty() && !is_excluded(labels, place),
        _ => !is_excluded(labels, place),
    }
}

fn is_excluded(labels: &[Label], place: usize) -> bool {
    match labels.get(place) {
        None => false,
        Some(label) => label.excluded,
    }
}

/// The places of the rows of these variables.
fn places(
    alloc: Global,
    variables: &Variables,
    labels: &[Label],
) -> Result<Vec<usize>, PlainFault> {
    let mut places = Vec::new(alloc);
    for (place, label) in labels.iter().enumerate() {
        if variables.includes(label.var) {
            places.push(place)?;
        }
    }
    Ok(places)
}
