//! The texts of a column, and what readings make of them.

use crate::signs::without_sign;
use rp_columns::{Reading, ReadingFault, Texts, read};
use rp_value::{Row, Value};
use rp_wording::{count_digits, is_null_word};
use std::alloc::{AllocError, Global};

/// Fewer digits than a date has.
const FEW_DIGITS: usize = 3;

/// No word that other programs write for a null has more bytes. Longer texts, which most are, aren't compared with these.
const MOST_NULL_BYTES: usize = 4;

/// A column of rows, by its number from 1.
#[derive(Clone, Copy)]
pub(crate) struct ColumnTexts<'a> {
    pub(crate) rows: &'a [Row],
    pub(crate) number: usize,
    /// A sign that texts have besides their numbers; empty where they are read as they are.
    pub(crate) sign: &'static str,
}

impl<'a> ColumnTexts<'a> {
    /// The text that a row has in the column, without the sign; None where that is null, or a word that another program wrote for a null.
    pub(crate) fn of_row(self, row: &'a Row) -> Option<&'a str> {
        let text = self.written(row)?;
        if means_null(text) {
            return None;
        }
        Some(without_sign(text, self.sign))
    }

    /// The word that another program wrote for a null in a row, if there is one.
    pub(crate) fn null_word(self, row: &'a Row) -> Option<&'a str> {
        let text = self.written(row)?;
        if means_null(text) { Some(text) } else { None }
    }

    /// What a row has in the column; None where that is null.
    fn written(self, row: &'a Row) -> Option<&'a str> {
        match row.cell(self.number) {
            Some(Value::Text(text)) => Some(text.as_str()),
            _ => None,
        }
    }

    /// The first text.
    pub(crate) fn first(self) -> Option<&'a str> {
        for row in self.rows {
            if let Some(text) = self.of_row(row) {
                return Some(text);
            }
        }
        None
    }
}

/// Reads texts as whole numbers.
pub(crate) struct NumberReader {
    alloc: Global,
    texts: Texts,
}

/// It is let go of by a call, wherever it is held.
impl Drop for NumberReader {
    fn drop(self) {
        let NumberReader { alloc: _, texts: _ } = self;
    }
}

impl NumberReader {
    pub(crate) fn new(alloc: Global) -> Result<NumberReader, AllocError> {
        let texts = Texts::new(alloc)?;
        Ok(NumberReader { alloc, texts })
    }

    /// The whole number that a text is by a reading; None where it is null, as blanks are.
    pub(crate) fn number(
        &mut self,
        reading: &Reading,
        text: &str,
    ) -> Result<Option<i64>, ReadingFault> {
        let value = read(
            self.alloc,
            &mut self.texts,
            &[],
            reading,
            1,
            text.as_bytes(),
        )?;
        Ok(number_in(&value))
    }

    /// Whether a reading reads all texts of a column, and one of them is a number by it.
    pub(crate) fn reads_all(&mut self, reading: &Reading, column: ColumnTexts<'_>) -> bool {
        let mut is_any = false;
        for row in column.rows {
            if let Some(text) = column.of_row(row) {
                match self.number(reading, text) {
                    Ok(number) => is_any = is_any || number.is_some(),
                    Err(_) => return false,
                }
            }
        }
        is_any
    }
}

/// Whether a text has fewer digits than a date or a time.
pub(crate) fn is_word(text: &str) -> bool {
    count_digits(text) < FEW_DIGITS
}

/// Whether a text is a word that other programs write for a null; none of these begins with a digit, as numbers and times do, and none is long.
fn means_null(text: &str) -> bool {
    !text.starts_with(|first: char| first.is_ascii_digit())
        && text.trim().len() <= MOST_NULL_BYTES
        && is_null_word(text.as_bytes())
}

/// The number that a value is.
fn number_in(value: &Value) -> Option<i64> {
    match value {
        Value::Int(number) => Some(*number),
        _ => None,
    }
}
