//! Columns of dates, times or other texts that stay texts, and have words for null, which are no nulls there.

use crate::found::Found;
use crate::null_words::NullWords;
use crate::texts::{ColumnTexts, NumberReader};
use crate::times::any_time_way;
use crate::uses::Asked;
use rp_value::Row;
use rp_wording::{Pieces, noun};
use std::alloc::{AllocError, Global};

/// Such a column, by its number from 1.
pub(crate) struct NullTexts {
    pub(crate) number: usize,
    /// Its words for null.
    pub(crate) words: NullWords,
}

/// It is let go of by a call, wherever it is held.
impl Drop for NullTexts {
    fn drop(self) {
        let NullTexts {
            number: _,
            words: _,
        } = self;
    }
}

/// The columns of texts, besides those that are found, whose words for null are to be read as such.
pub(crate) fn null_texts(
    alloc: Global,
    reader: &mut NumberReader,
    asked: Asked<'_>,
    rows: &[Row],
    found: &[Found],
) -> Result<Vec<NullTexts>, AllocError> {
    let mut texts = Vec::new(alloc);
    for number in 1..asked.query.table().columns().len().saturating_add(1) {
        let column = ColumnTexts {
            rows,
            number,
            sign: "",
        };
        if asked.is_text(number) && !asked.wants_numbers(number) && !has(found, number) {
            let words = words_in(alloc, reader, asked, column)?;
            if !words.is_empty() {
                texts.push(NullTexts { number, words })?;
            }
        }
    }
    Ok(texts)
}

/// Whether a column, by its number, is among those that are found.
fn has(found: &[Found], number: usize) -> bool {
    for one in found {
        if one.number == number {
            return true;
        }
    }
    false
}

/// The words for null of a column that stays text: of dates or times where their order is asked for, or which are null; of other texts where it
/// is asked which are null, and these are hardly ever texts.
fn words_in(
    alloc: Global,
    reader: &mut NumberReader,
    asked: Asked<'_>,
    column: ColumnTexts<'_>,
) -> Result<NullWords, AllocError> {
    let (asks_null, asks_order) = (
        asked.asks_null(column.number),
        asked.asks_order(column.number),
    );
    if !asks_null && !asks_order {
        return Ok(NullWords::new(alloc));
    }
    let words = NullWords::of(alloc, column)?;
    if words.is_empty() || any_time_way(alloc, reader, column, 0)?.is_some() {
        return Ok(words);
    }
    if asks_null {
        NullWords::sure_of(alloc, column)
    } else {
        Ok(NullWords::new(alloc))
    }
}

/// What is to be known of a column of this name that has these words, and the options to write.
pub(crate) fn line_of_nulls(
    alloc: Global,
    name: &str,
    words: &NullWords,
    options: &str,
) -> Result<String, AllocError> {
    let mut line = Pieces::of(alloc, name);
    line.push(" is text, and ");
    words.push_count(&mut line);
    line.push(noun(
        words.count(),
        ", which is a text and not null. To read it as null: ",
        ", which are texts and not null. To read them as null: ",
    ));
    line.push(options);
    line.finish()
}
