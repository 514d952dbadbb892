//! What is said of the quotes of a text.
use crate::watch::{QuoteWatch, Stray};
use rp_wording::Pieces;
use std::alloc::{AllocError, Global};

/// What is to be known of the quotes of a CSV text, of which csv takes some otherwise than is meant, most likely: a line for each, without
/// its end. There may be none.
pub fn remarks_on(alloc: Global, quotes: &QuoteWatch) -> Result<Vec<String>, AllocError> {
    let mut remarks = Vec::new(alloc);
    if let Some(line) = quotes.behind_blank() {
        remarks.push(behind_blank_remark(alloc, line)?)?;
    }
    if let Some(stray) = quotes.stray() {
        remarks.push(stray_remark(alloc, stray)?)?;
    }
    if let Some(line) = quotes.open_line() {
        remarks.push(open_remark(alloc, line)?)?;
    }
    Ok(remarks)
}

/// What is said of a quote behind blanks.
fn behind_blank_remark(alloc: Global, line: u64) -> Result<String, AllocError> {
    let mut remark = Pieces::of(alloc, "a field of line ");
    remark.push_number(line);
    remark.push(
        " begins with a blank, so that the quote after it is a part of the text: leave the blank out",
    );
    remark.finish()
}

/// What is said of a field that goes on behind its closing quote.
fn stray_remark(alloc: Global, stray: Stray) -> Result<String, AllocError> {
    let mut remark = Pieces::of(alloc, "the quote that begins in line ");
    remark.push_number(stray.begins);
    remark.push(" closes in line ");
    remark.push_number(stray.goes_on);
    remark.push(
        ", and more of its field follows: write a quote in a text twice and the text in quotes",
    );
    remark.finish()
}

/// What is said of a quote that never closes.
fn open_remark(alloc: Global, line: u64) -> Result<String, AllocError> {
    let mut remark = Pieces::of(alloc, "the quote that begins in line ");
    remark.push_number(line);
    remark.push(
        " never closes, and takes all that follows: close it, or write a quote in a text twice and the text in quotes",
    );
    remark.finish()
}
