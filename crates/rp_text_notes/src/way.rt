//! A way to read the texts of a column as whole numbers.

use crate::texts::{ColumnTexts, NumberReader};
use crate::times::IN_UTC;
use rp_columns::{Columns, ColumnsFault, Reading, read_columns};
use rp_wording::Pieces;
use std::alloc::{AllocError, Global};

/// A way to read the texts of a column as whole numbers.
pub(crate) struct Way {
    pub(crate) reading: Reading,
    /// The name of the field from which the column is read; it is empty where that is the column's.
    pub(crate) source: String,
    /// The word of the reading, as `decimal`.
    word: &'static str,
    /// What is behind the source in its brackets, as `, 2`.
    behind: String,
    /// How many places a decimal number has.
    places: usize,
    /// Whether the texts have finer digits, which are cut.
    pub(crate) is_cut: bool,
    /// When it is meant, where another way may be: it begins with a blank, or is empty.
    pub(crate) condition: &'static str,
    /// When another way is meant; it may be empty.
    pub(crate) otherwise: &'static str,
    /// What is behind the source then.
    other: String,
    /// Whether it takes times without an offset for such of UTC, which may be in a time zone.
    pub(crate) is_in_utc: bool,
}

/// It is let go of by a call, wherever it is held.
impl Drop for Way {
    fn drop(self) {
        let Way {
            reading: _,
            source: _,
            word: _,
            behind: _,
            places: _,
            is_cut: _,
            condition: _,
            otherwise: _,
            other: _,
            is_in_utc: _,
        } = self;
    }
}

impl Way {
    /// The way of this word with this behind the source, if it reads all texts of a column.
    pub(crate) fn reading_all(
        alloc: Global,
        reader: &mut NumberReader,
        column: ColumnTexts<'_>,
        word: &'static str,
        behind: String,
    ) -> Result<Option<Way>, AllocError> {
        let Some(reading) = reading_of(alloc, word, behind.as_str())? else {
            return Ok(None);
        };
        if !reader.reads_all(&reading, column) {
            return Ok(None);
        }
        Ok(Some(Way::by(alloc, reading, word, behind)))
    }

    /// The way of dates, as days.
    pub(crate) fn of_days(alloc: Global) -> Way {
        Way::by(alloc, Reading::Day, "date", String::new(alloc))
    }

    /// The way of times that are digits alone, as seconds: in UTC, or in a time zone.
    pub(crate) fn of_compact_times(alloc: Global) -> Result<Option<Way>, AllocError> {
        let behind = String::from_str(alloc, ", '%Y%m%d%H%M%S', 'UTC'")?;
        let Some(reading) = reading_of(alloc, "seconds", behind.as_str())? else {
            return Ok(None);
        };
        let way = Way::by(alloc, reading, "seconds", behind);
        Ok(Some(way.in_utc()))
    }

    /// The way of decimal numbers with so many places, and a point before these.
    pub(crate) fn of_places(alloc: Global, places: usize) -> Result<Option<Way>, AllocError> {
        let mut behind = Pieces::of(alloc, ", ");
        behind.push_count(places);
        let behind = behind.finish()?;
        let Some(reading) = reading_of(alloc, "decimal", behind.as_str())? else {
            return Ok(None);
        };
        let way = Way::by(alloc, reading, "decimal", behind);
        Ok(Some(way.with_places(places)))
    }

    /// The way of a reading that this word means with this behind the source.
    fn by(alloc: Global, reading: Reading, word: &'static str, behind: String) -> Way {
        Way {
            reading,
            source: String::new(alloc),
            word,
            behind,
            places: 0,
            is_cut: false,
            condition: "",
            otherwise: "",
            other: String::new(alloc),
            is_in_utc: false,
        }
    }

    /// The same, where it is meant on a condition, and another one otherwise.
    pub(crate) fn or(self, condition: &'static str, otherwise: &'static str, other: String) -> Way {
        let mut way = self;
        way.condition = condition;
        way.otherwise = otherwise;
        way.other = other;
        way
    }

    /// The same, where it takes times without an offset for such of UTC.
    pub(crate) fn in_utc(self) -> Way {
        let mut way = self;
        if way.condition.is_empty() {
            way.condition = IN_UTC;
        }
        way.is_in_utc = true;
        way
    }

    /// The same of decimal numbers with so many places.
    pub(crate) fn with_places(self, places: usize) -> Way {
        let mut way = self;
        way.places = places;
        way
    }

    /// The same of texts some of which may have finer digits.
    pub(crate) fn cutting(self, is_cut: bool) -> Way {
        let mut way = self;
        way.is_cut = is_cut;
        way
    }

    /// Whether it reads numbers, and no dates or times.
    pub(crate) fn is_of_numbers(&self) -> bool {
        matches!(self.word, "decimal" | "int")
    }

    /// How fine its unit is: the places of numbers, or the place of the word among those of dates and times.
    pub(crate) fn fineness(&self) -> usize {
        if self.is_of_numbers() {
            self.places
        } else {
            fineness_of(self.word)
        }
    }

    /// What is behind the source.
    pub(crate) fn behind(&self) -> &str {
        self.behind.as_str()
    }

    /// The reading of a column of this name as it is written, as `decimal(p, 2)`.
    pub(crate) fn written(&self, alloc: Global, name: &str) -> Result<String, AllocError> {
        called(alloc, self.word, self.source_of(name), self.behind.as_str())
    }

    /// The reading that is meant otherwise.
    pub(crate) fn written_otherwise(
        &self,
        alloc: Global,
        name: &str,
    ) -> Result<String, AllocError> {
        called(alloc, self.word, self.source_of(name), self.other.as_str())
    }

    /// The name of the field from which a column of this name is read.
    fn source_of<'a>(&'a self, name: &'a str) -> &'a str {
        if self.source.is_empty() {
            return name;
        }
        self.source.as_str()
    }

    /// Whether its numbers are written as the texts are.
    pub(crate) fn is_as_written(&self) -> bool {
        self.word == "int"
    }

    /// What the texts are.
    pub(crate) fn texts(&self) -> &'static str {
        match self.word {
            "decimal" | "int" => "numbers",
            "date" => "dates",
            _ => "times",
        }
    }

    /// What one of the texts is.
    pub(crate) fn one_text(&self) -> &'static str {
        match self.word {
            "decimal" | "int" => "number",
            "date" => "date",
            _ => "time",
        }
    }

    /// What the differences of their values count, where they are dates or times.
    pub(crate) fn unit(&self) -> &'static str {
        match self.word {
            "date" => "days",
            _ => "seconds",
        }
    }

    /// What one second is in their values, where these are parts of seconds; it is empty where they aren't.
    pub(crate) fn one_second(&self) -> &'static str {
        match self.word {
            "millis" => "1000",
            "micros" => "1000000",
            _ => "",
        }
    }

    /// What their values are.
    pub(crate) fn values(&self) -> &'static str {
        match self.word {
            "decimal" | "int" => "whole numbers",
            "date" => "days since 1970",
            "seconds" => "seconds since 1970",
            "millis" => "thousandths of a second since 1970",
            _ => "millionths of a second since 1970",
        }
    }
}

/// The words of readings of dates and times, the coarsest first.
const TIME_WORDS: [&str; 4] = ["date", "seconds", "millis", "micros"];

/// How fine the unit of a word of dates or times is.
fn fineness_of(word: &str) -> usize {
    match word {
        "date" => 0,
        "seconds" => 1,
        "millis" => 2,
        _ => 3,
    }
}

/// The word of dates or times whose unit is at least so fine.
pub(crate) fn as_fine(word: &'static str, least: usize) -> &'static str {
    match TIME_WORDS.get(least) {
        Some(finer) if least > fineness_of(word) => *finer,
        _ => word,
    }
}

/// The reading of a word over a source with this behind it, as it is written.
fn called(alloc: Global, word: &str, source: &str, behind: &str) -> Result<String, AllocError> {
    let mut text = Pieces::of(alloc, word);
    text.push("(");
    text.push(source);
    text.push(behind);
    text.push(")");
    text.finish()
}

/// The reading that a text of columns means by a word with this behind the source; None where it means none.
fn reading_of(alloc: Global, word: &str, behind: &str) -> Result<Option<Reading>, AllocError> {
    let mut text = Pieces::of(alloc, "c = ");
    text.push_made(called(alloc, word, "c", behind));
    let text = text.finish()?;
    match read_columns(alloc, text.as_str()) {
        Ok(columns) => first_reading(&columns),
        Err(ColumnsFault::OutOfMemory) => Err(AllocError),
        Err(_) => Ok(None),
    }
}

/// The reading of the first column.
fn first_reading(columns: &Columns) -> Result<Option<Reading>, AllocError> {
    match columns.as_slice().first() {
        Some(column) => Ok(Some(column.reading.share()?)),
        None => Ok(None),
    }
}
