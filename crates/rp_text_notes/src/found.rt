//! Columns of texts that are numbers or times, and how they are read as such.

use crate::decimals::decimal_way;
use crate::null_words::NullWords;
use crate::signs::sign_of;
use crate::texts::{ColumnTexts, NumberReader};
use crate::times::{any_time_way, time_way};
use crate::uses::Asked;
use crate::way::Way;
use crate::whole::whole_way;
use rp_value::Row;
use std::alloc::{AllocError, Global};

/// A column, by its number from 1, and the way in which it is to be read.
pub(crate) struct Found {
    pub(crate) number: usize,
    pub(crate) way: Way,
    /// The words for null among its texts, which aren't read.
    pub(crate) words: NullWords,
    /// The sign of its numbers that no reading takes; it may be empty.
    pub(crate) sign: &'static str,
}

/// It is let go of by a call, wherever it is held.
impl Drop for Found {
    fn drop(self) {
        let Found {
            number: _,
            way: _,
            words: _,
            sign: _,
        } = self;
    }
}

impl Found {
    /// The texts of the column in rows, as they are read.
    pub(crate) fn texts<'a>(&self, rows: &'a [Row]) -> ColumnTexts<'a> {
        ColumnTexts {
            rows,
            number: self.number,
            sign: self.sign,
        }
    }
}

/// The columns of which there is a note, each with its way.
pub(crate) fn columns_found(
    alloc: Global,
    reader: &mut NumberReader,
    asked: Asked<'_>,
    rows: &[Row],
) -> Result<Vec<Found>, AllocError> {
    let mut found = Vec::new(alloc);
    for number in 1..asked.query.table().columns().len().saturating_add(1) {
        let texts = ColumnTexts {
            rows,
            number,
            sign: "",
        };
        if asked.is_text(number) && asked.asks_of(number) {
            if let Some(one) = found_in(alloc, reader, asked, texts)? {
                found.push(one)?;
            }
        }
    }
    Ok(found)
}

/// A column of texts with the way to read it; None where it may stay what it is.
fn found_in(
    alloc: Global,
    reader: &mut NumberReader,
    asked: Asked<'_>,
    texts: ColumnTexts<'_>,
) -> Result<Option<Found>, AllocError> {
    let words = NullWords::of(alloc, texts)?;
    let has_words = !words.is_empty();
    if !has_words && !asked.asks_values(texts.number) {
        return Ok(None);
    }
    let (way, sign) = match way_for(alloc, reader, asked, texts, has_words)? {
        Some(way) => (Some(way), ""),
        None => signed_way(alloc, reader, texts)?,
    };
    Ok(way.map(|way| Found {
        number: texts.number,
        way,
        words,
        sign,
    }))
}

/// The way to read a column of texts, which may have words for null.
fn way_for(
    alloc: Global,
    reader: &mut NumberReader,
    asked: Asked<'_>,
    texts: ColumnTexts<'_>,
    has_words: bool,
) -> Result<Option<Way>, AllocError> {
    if let Some(way) = number_way(alloc, reader, texts, has_words)? {
        return Ok(Some(way));
    }
    if asked.wants_numbers(texts.number) {
        return any_time_way(alloc, reader, texts, 0);
    }
    if !asked.asks_order(texts.number) {
        return Ok(None);
    }
    time_way(alloc, reader, texts, 0)
}

/// The way to read a column of numbers, which are whole between words for null or blanks alone.
fn number_way(
    alloc: Global,
    reader: &mut NumberReader,
    texts: ColumnTexts<'_>,
    has_words: bool,
) -> Result<Option<Way>, AllocError> {
    match decimal_way(alloc, reader, texts, 0)? {
        Some(way) => Ok(Some(way)),
        None => whole_way(alloc, reader, texts, has_words),
    }
}

/// The way to read a column of numbers without a sign that each of them may have, and the sign.
fn signed_way(
    alloc: Global,
    reader: &mut NumberReader,
    texts: ColumnTexts<'_>,
) -> Result<(Option<Way>, &'static str), AllocError> {
    let Some(sign) = sign_of(texts) else {
        return Ok((None, ""));
    };
    let way = number_way(alloc, reader, ColumnTexts { sign, ..texts }, true)?;
    Ok((way, sign))
}
