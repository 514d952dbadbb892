//! What is reported of inputs that have rows, though they aren't what is meant, most likely: quotes that csv takes otherwise, paths that no
//! line of JSON has, and texts that are nearly what they are compared with.
use crate::input::InputForm;
use crate::never_found::columns_never_found;
use crate::telling::tell;
use crate::texts::condition_query;
use rp_command::InputFormat;
use rp_near_misses::near_misses;
use rp_query::Query;
use rp_question::InputShape;
use rp_quotes::{QuoteWatch, remarks_on};
use rp_value::Row;
use rp_wording::{Pieces, shown_line};
use std::alloc::AllocError;

/// Reports the quotes of the bytes of an input of this form, with the name of its file where it has one.
pub(crate) fn tell_quotes_of(
    rt: &HostRuntime,
    form: &InputForm,
    bytes: &[u8],
    name: Option<&str>,
) -> Result<(), AllocError> {
    if form.from != InputFormat::Csv || !bytes.contains(&b'"') {
        return Ok(());
    }
    let mut quotes = QuoteWatch::new(form.layout.delimiter);
    quotes.take(bytes);
    for remark in remarks_on(rt.alloc(), &quotes)? {
        tell_remark(rt, "csv: ", remark.as_str(), name)?;
    }
    Ok(())
}

/// Reports the columns for which no line of an input of objects has a value.
pub(crate) fn tell_never_found(
    rt: &HostRuntime,
    shape: &InputShape,
    rows: &[Row],
    name: Option<&str>,
) -> Result<(), AllocError> {
    for remark in columns_never_found(rt.alloc(), shape, rows)? {
        tell_remark(rt, "json: ", remark.as_str(), name)?;
    }
    Ok(())
}

/// Reports texts of the rows that are nearly what a condition that leaves rows out, or a query, compares them with.
pub(crate) fn tell_near_misses(
    rt: &HostRuntime,
    query: &Query,
    condition: &Option<String>,
    rows: &[Row],
) -> Result<(), AllocError> {
    if let Some(filter) = condition_query(rt.alloc(), condition, query.table())? {
        tell_near_misses_of(rt, "where: ", &filter, rows)?;
    }
    tell_near_misses_of(rt, "", query, rows)
}

/// Reports those of a query, each behind a word that says what that is the query of.
fn tell_near_misses_of(
    rt: &HostRuntime,
    word: &str,
    query: &Query,
    rows: &[Row],
) -> Result<(), AllocError> {
    for note in near_misses(rt.alloc(), query, rows)? {
        tell_remark(rt, word, note.as_str(), None)?;
    }
    Ok(())
}

/// Reports a remark, behind a word for what it is about.
fn tell_remark(
    rt: &HostRuntime,
    word: &str,
    remark: &str,
    name: Option<&str>,
) -> Result<(), AllocError> {
    let mut line = Pieces::new(rt.alloc());
    if let Some(name) = name {
        line.push(name);
        line.push(": ");
    }
    line.push(word);
    line.push(remark);
    tell(rt, &shown_line(rt.alloc(), line.text()?)?);
    Ok(())
}
