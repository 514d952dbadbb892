//! What rows have of the texts with which a column is compared.

use rp_value::{Row, Value};

/// A text with which a column is compared, and what the rows have of it.
#[derive(Clone, Copy)]
pub(crate) struct Compared<'a> {
    /// The text of the clause.
    pub(crate) text: &'a str,
    /// The same without the blanks at its ends.
    core: &'a str,
    /// How many rows have it.
    pub(crate) count: usize,
    /// What rows have in its place, if they do.
    pub(crate) near: Option<NearMiss<'a>>,
}

/// A text that is another one but for capitals and for blanks at its ends.
#[derive(Clone, Copy)]
pub(crate) struct NearMiss<'a> {
    /// The first one in the order of the rows.
    pub(crate) text: &'a str,
    /// How many rows have it.
    pub(crate) count: usize,
}

impl<'a> Compared<'a> {
    /// Before any row.
    pub(crate) fn new(text: &'a str) -> Compared<'a> {
        Compared {
            text,
            core: text.trim(),
            count: 0,
            near: None,
        }
    }

    /// Takes a text of a row that is near to it, unless another one came first.
    fn take_near(&mut self, text: &'a str) {
        match &mut self.near {
            None => self.near = Some(NearMiss { text, count: 1 }),
            Some(near) if near.text == text => near.count = near.count.saturating_add(1),
            Some(_) => {}
        }
    }
}

/// Takes the texts that rows have in a column, by its number from 1.
pub(crate) fn take_rows<'a>(rows: &'a [Row], column: usize, texts: &mut [Compared<'a>]) {
    for row in rows {
        if let Some(Value::Text(text)) = row.cell(column) {
            take_text(text.as_str(), texts);
        }
    }
}

/// Takes a text of a row. One with which the column is compared, too, is no near miss.
fn take_text<'a>(text: &'a str, texts: &mut [Compared<'a>]) {
    if !take_equal(text, texts) {
        take_near(text, texts);
    }
}

/// Counts a text with which the column is compared, and says whether it is one.
fn take_equal<'a>(text: &'a str, texts: &mut [Compared<'a>]) -> bool {
    for one in texts.iter_mut() {
        if one.text == text {
            one.count = one.count.saturating_add(1);
            return true;
        }
    }
    false
}

/// Takes a text with which the column isn't compared for each to which it is near.
fn take_near<'a>(text: &'a str, texts: &mut [Compared<'a>]) {
    let core = text.trim();
    for one in texts.iter_mut() {
        if one.core.eq_ignore_ascii_case(core) {
            one.take_near(text);
        }
    }
}
