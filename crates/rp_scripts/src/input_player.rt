//! A CSV input by columns: what a text of columns means, what fields are by a reading, and the rows of a text.
//!
//! - `columns TEXT` gives the columns from there on, and tells nothing; of a text that has none it tells the fault. `each` tells
//!   each column, as `[NAME READING SOURCE]`.
//! - `rules NAME [BYTES]` gives the rules of a time zone that the columns name, the bytes of its TZif file.
//! - `nulls [WORD] [WORD] ..` gives the words for null, `delimiter [;]` the delimiter, and `headless` leaves out the header.
//! - `field [FIELD]` tells the value of a field of record 7 by the first column: `null`, a number, a text in square brackets, or
//!   the fault. `rows [TEXT]` tells the rows of a CSV as `(CELL CELL ..)`, or the fault. `\x0a` stands for the byte of that number.
ghost use Rattle.std.specs.Prelude.{◌<◌, IfOk};

use crate::fault::EventFault;
use crate::line::{Line, no_words};
use crate::reading_text::reading_text;
use crate::told::tell;
use rp_columns::{
    Columns, ColumnsFault, InputColumn, ReadingFault, Texts, ZoneFault, read, read_columns,
};
use rp_input::{ColumnsCsvFault, CsvLayout, rows_by};
use rp_reference::write_cell;
use rp_value::{Row, Text, Value};
use std::alloc::{AllocError, Global};

/// Reads the texts and fields of cases.
#[derive(Drop)]
pub struct InputPlayer {
    alloc: Global,
    columns: Option<Columns>,
    nulls: Vec<Text>,
    layout: CsvLayout,
}

impl InputPlayer {
    /// No columns yet, an empty field for null, commas, and a header.
    pub fn new(alloc: Global) -> Result<InputPlayer, EventFault> {
        Ok(InputPlayer {
            alloc,
            columns: None,
            nulls: words_of(alloc, "[]")?,
            layout: CsvLayout::plain(),
        })
    }

    /// Plays an event, and adds what is told of it.
    pub fn act(&mut self, line: Line, told: &mut String) -> Result<(), EventFault> {
        match line.event {
            "columns" => self.set_columns(line.rest, told),
            "each" => self.tell_each(line.rest, told),
            "rules" => self.set_rules(line.rest, told),
            "nulls" => self.set_nulls(line.rest),
            "delimiter" => self.set_delimiter(line.rest),
            "headless" => self.leave_header(line.rest),
            "field" => self.tell_field(line.rest, told),
            "rows" => self.tell_rows(line.rest, told),
            _ => Err(EventFault::NoEvent),
        }
    }

    fn set_columns(&mut self, text: &str, told: &mut String) -> Result<(), EventFault> {
        self.columns = None;
        match read_columns(self.alloc, text) {
            Ok(columns) => self.columns = Some(columns),
            Err(ColumnsFault::OutOfMemory) => return Err(EventFault::OutOfMemory),
            Err(fault) => tell(told, format!(in self.alloc; "{fault}")?.as_str())?,
        }
        Ok(())
    }

    fn set_rules(&mut self, words: &str, told: &mut String) -> Result<(), EventFault> {
        let Some((name, bytes)) = words.split_once(" ") else {
            return Err(EventFault::NoBytes);
        };
        let bytes = bytes_of(self.alloc, bytes)?;
        let Some(columns) = self.columns.take() else {
            return Err(EventFault::NoColumns);
        };
        match columns.with_rules(self.alloc, name, bytes.as_slice()) {
            Ok(columns) => self.columns = Some(columns),
            Err(ZoneFault::OutOfMemory) => return Err(EventFault::OutOfMemory),
            Err(fault) => tell(told, format!(in self.alloc; "{fault}")?.as_str())?,
        }
        Ok(())
    }

    fn tell_each(&self, words: &str, told: &mut String) -> Result<(), EventFault> {
        no_words(words)?;
        let Some(columns) = &self.columns else {
            return Err(EventFault::NoColumns);
        };
        for column in columns.as_slice() {
            tell(told, column_text(self.alloc, column)?.as_str())?;
        }
        Ok(())
    }

    fn set_nulls(&mut self, words: &str) -> Result<(), EventFault> {
        self.nulls = words_of(self.alloc, words)?;
        Ok(())
    }

    fn set_delimiter(&mut self, words: &str) -> Result<(), EventFault> {
        let bytes = bytes_of(self.alloc, words)?;
        let Some(delimiter) = bytes.first() else {
            return Err(EventFault::NoBytes);
        };
        self.layout.delimiter = *delimiter;
        Ok(())
    }

    fn leave_header(&mut self, words: &str) -> Result<(), EventFault> {
        no_words(words)?;
        self.layout.has_header = false;
        Ok(())
    }

    fn tell_field(&self, words: &str, told: &mut String) -> Result<(), EventFault> {
        let bytes = bytes_of(self.alloc, words)?;
        let value = field_text(
            self.alloc,
            self.reading()?,
            self.nulls.as_slice(),
            bytes.as_slice(),
        )?;
        Ok(tell(told, value.as_str())?)
    }

    /// The first column, whose reading fields are read by.
    fn reading(&self) -> Result<&InputColumn, EventFault> {
        let Some(columns) = &self.columns else {
            return Err(EventFault::NoColumns);
        };
        match columns.as_slice().first() {
            Some(column) => Ok(column),
            None => Err(EventFault::NoColumns),
        }
    }

    fn tell_rows(&self, words: &str, told: &mut String) -> Result<(), EventFault> {
        let Some(columns) = &self.columns else {
            return Err(EventFault::NoColumns);
        };
        let text = bytes_of(self.alloc, words)?;
        match rows_by(
            self.alloc,
            text.as_slice(),
            self.layout,
            columns,
            self.nulls.as_slice(),
        ) {
            Ok(rows) => tell_each_row(self.alloc, rows.as_slice(), told),
            Err(ColumnsCsvFault::OutOfMemory) => Err(EventFault::OutOfMemory),
            Err(fault) => Ok(tell(told, format!(in self.alloc; "{fault}")?.as_str())?),
        }
    }
}

fn column_text(alloc: Global, column: &InputColumn) -> Result<String, AllocError> {
    let name = column.name.as_str();
    let reading = reading_text(alloc, &column.reading)?;
    let reading = reading.as_str();
    let source = column.source.as_str();
    format!(in alloc; "[{name} {reading} {source}]")
}

fn field_text(
    alloc: Global,
    column: &InputColumn,
    nulls: &[Text],
    field: &[u8],
) -> Result<String, EventFault> {
    let mut texts = Texts::new(alloc)?;
    match read(alloc, &mut texts, nulls, &column.reading, 7, field) {
        Ok(value) => value_text(alloc, &value),
        Err(ReadingFault::OutOfMemory) => Err(EventFault::OutOfMemory),
        Err(fault) => Ok(format!(in alloc; "{fault}")?),
    }
}

fn value_text(alloc: Global, value: &Value) -> Result<String, EventFault> {
    match value {
        Value::Text(text) => {
            let text = text.as_str();
            Ok(format!(in alloc; "[{text}]")?)
        }
        _ => cell_text(alloc, value),
    }
}

fn cell_text(alloc: Global, value: &Value) -> Result<String, EventFault> {
    let mut text = String::new(alloc);
    write_cell(alloc, value, &mut text)?;
    Ok(text)
}

fn tell_each_row(alloc: Global, rows: &[Row], told: &mut String) -> Result<(), EventFault> {
    for row in rows {
        tell(told, row_text(alloc, row.cells())?.as_str())?;
    }
    Ok(())
}

fn row_text(alloc: Global, cells: &[Value]) -> Result<String, EventFault> {
    let mut text = String::from_str(alloc, "(")?;
    for (index, cell) in cells.iter().enumerate() {
        if 0 < index {
            text.push(' ')?;
        }
        write_cell(alloc, cell, &mut text)?;
    }
    text.push(')')?;
    Ok(text)
}

/// The words in square brackets, with a space between.
fn words_of(alloc: Global, text: &str) -> Result<Vec<Text>, EventFault> {
    let mut words = Vec::new(alloc);
    for word in inside(text)?.split("] [") {
        words.push(Text::new(alloc, String::from_str(alloc, word)?)?)?;
    }
    Ok(words)
}

/// The bytes in square brackets.
fn bytes_of(alloc: Global, text: &str) -> Result<Vec<u8>, EventFault> {
    let mut bytes = Vec::new(alloc);
    for (index, piece) in inside(text)?.split("\\x").enumerate() {
        if index == 0 {
            bytes.extend_from_slice(piece.as_bytes())?;
        } else {
            push_piece(&mut bytes, piece.as_bytes())?;
        }
    }
    Ok(bytes)
}

/// What stands between square brackets.
fn inside<'a>(text: &'a str) -> Result<&'a str, EventFault> {
    let Some(text) = text.strip_prefix("[") else {
        return Err(EventFault::NoBytes);
    };
    match text.strip_suffix("]") {
        Some(text) => Ok(text),
        None => Err(EventFault::NoBytes),
    }
}

/// A byte by its number, and what stands behind it.
fn push_piece(bytes: &mut Vec<u8>, piece: &[u8]) -> Result<(), EventFault> {
    match piece {
        [high, low, rest @ ..] => {
            bytes.push(digit(*high)? * 16 + digit(*low)?)?;
            Ok(bytes.extend_from_slice(rest)?)
        }
        _ => Err(EventFault::NoBytes),
    }
}

/// A digit of base 16.
fn digit(byte: u8) -> Result<u8, EventFault>
    ensures { IfOk result (λ digit. digit < 16) }
{
    match byte {
        b'0'..=b'9' => Ok(byte - b'0'),
        b'a'..=b'f' => Ok(byte - b'a' + 10),
        _ => Err(EventFault::NoBytes),
    }
}
