//! Why the text of a table is refused.

use crate::table_kinds::KINDS;
use rp_hints::push_new;
use rp_lexer::{Mark, TokenKind};
use rp_syntax::TableTextFault;
use rp_value::{MAX_NAME_LEN, TableFault};
use rp_wording::{
    Advice, Hint, Pieces, Reading, Report, Source, TextReport, explain_lex, is_one_of, look_up,
    meant, said, text_of,
};
use std::alloc::{AllocError, Global};

/// What a table looks like.
const LIKE: &str = "write a name and a kind, int or text, for each column: sym text, t int, p int";

/// Explains why `read_table` refuses a text, by the fault that it gave.
///
/// The first line is the fault's own, `table: Expected at byte 6`; each line ends in LF. Where memory ran out that line is all
/// there is.
pub fn explain_table(
    alloc: Global,
    text: &str,
    fault: &TableTextFault,
) -> Result<Report, AllocError> {
    let mut report = TextReport::new(alloc, "table", Source::whole(text), fault)?;
    explain(&mut report, fault)?;
    Ok(report.finish())
}

/// Adds where a fault is, and what to write.
fn explain(report: &mut TextReport<'_>, fault: &TableTextFault) -> Result<(), AllocError> {
    match fault {
        TableTextFault::Lex(why) => explain_lex(report, *why),
        TableTextFault::Expected(at) => explain_expected(report, *at),
        TableTextFault::Table(why) => explain_columns(report, *why),
        TableTextFault::OutOfMemory => Ok(()),
    }
}

/// Explains a token that can't stand in a table.
fn explain_expected(report: &mut TextReport<'_>, offset: usize) -> Result<(), AllocError> {
    let tokens = report.tokens()?;
    let reading = Reading::new(report.source.shown, tokens.as_slice(), offset);
    let advice = of_place(report.alloc(), &reading);
    report.point(reading.span(), &advice)
}

/// What is wrong at a token, with the words of the table where they tell what to write.
fn of_place(alloc: Global, reading: &Reading<'_>) -> Advice {
    if reading.is_keyword() && !is_one_of(reading.here(), "NOT NULL") {
        return reserved(alloc, reading);
    }
    if is_file_name(reading) {
        return Advice::with_help(
            alloc,
            "a table lists its columns",
            Pieces::filled(
                alloc,
                "is it a file's name? write --table-file {}",
                &[reading.text.trim()],
            ),
        );
    }
    if let Some(end) = name_with_blanks(reading) {
        let name = text_of(reading, reading.at.saturating_sub(1), end);
        return Advice::with_help(
            alloc,
            "a name with a blank is written in quotes",
            Pieces::filled(alloc, "write \"{}\" {}", &[name, reading.written(end)]),
        );
    }
    Advice::of(alloc, of_token(reading))
}

/// Whether the table is two names with a point between, as a file's name.
fn is_file_name(reading: &Reading<'_>) -> bool {
    reading.tokens.len() == 3 && reading.at == 1 && reading.here() == "." && reading.touches()
}

/// The index of the kind behind two names or more side by side, of which the second is at the place.
fn name_with_blanks(reading: &Reading<'_>) -> Option<usize> {
    if reading.at == 0 || !begins_column(reading, reading.at.saturating_sub(1)) {
        return None;
    }
    for (index, token) in reading.tokens.iter().enumerate().skip(reading.at) {
        if token.kind != TokenKind::Name {
            return None;
        }
        if index > reading.at && is_kind(reading.written(index)) {
            return Some(index);
        }
    }
    None
}

/// A reserved word as a column's name, or as its kind.
fn reserved(alloc: Global, reading: &Reading<'_>) -> Advice {
    let mut what = Pieces::new(alloc);
    what.push_upper(reading.here());
    what.push(" is a reserved word");
    let mut help = Pieces::of(alloc, "as a name write \"");
    help.push_upper(reading.here());
    help.push("\", in quotes and in upper case");
    Advice::of_pieces(what, help)
}

/// What is wrong at a token.
fn of_token(reading: &Reading<'_>) -> Hint {
    of_shape(reading)
        .or(look_up(&KINDS, reading.here()))
        .or(of_words(reading))
        .unwrap_or(Hint {
            what: "this can't come here",
            help: LIKE,
        })
}

/// What is wrong by the tokens round the place alone.
fn of_shape(reading: &Reading<'_>) -> Option<Hint> {
    if reading.tokens.is_empty() {
        return said("the table is empty", LIKE);
    }
    if is_one_of(reading.back(1), "CREATE") || is_one_of(reading.next(1), "TABLE") {
        return said(
            "only the columns are read",
            "leave CREATE TABLE and the brackets out: sym text, t int, p int",
        );
    }
    if reading.here() == "(" {
        return of_bracket(reading);
    }
    if reading.is_end() && reading.back(1) == "," {
        return said(
            "a column is missing after the comma",
            "leave the last comma out",
        );
    }
    if reading.is_end() || reading.here() == "," {
        return of_missing(reading);
    }
    None
}

/// A bracket behind a kind, or in front.
fn of_bracket(reading: &Reading<'_>) -> Option<Hint> {
    if reading.at == 0 {
        return said("there is no bracket round a table", LIKE);
    }
    said(
        "a kind has no length",
        "leave the bracket out: sym text, p int",
    )
}

/// A name without a kind.
fn of_missing(reading: &Reading<'_>) -> Option<Hint> {
    if reading.here() == "," && begins_column(reading, reading.at) {
        return said("a column is missing before the comma", LIKE);
    }
    said(
        "this column has no kind",
        "write int or text after its name: sym text, t int",
    )
}

/// What is wrong by the words round the place.
fn of_words(reading: &Reading<'_>) -> Option<Hint> {
    if is_kind(reading.back(1)) {
        return behind_kind(reading);
    }
    match reading.kind_here() {
        Some(TokenKind::Number) => said(
            "a name that begins with a digit is written in quotes",
            "write \"2nd\" int, as the header has it",
        ),
        Some(TokenKind::Text) => said(
            "a name is written in double quotes",
            "write \"net price\" int; without quotes where it has letters, digits and _ alone",
        ),
        Some(TokenKind::Mark(Mark::Asterisk)) => said("the columns are all listed", LIKE),
        Some(TokenKind::Name) => said(
            "there is no such kind",
            "the kinds are int (integer, bigint) and text (varchar); a name with a blank is written in double quotes",
        ),
        _ => None,
    }
}

/// What is wrong behind a kind.
fn behind_kind(reading: &Reading<'_>) -> Option<Hint> {
    if reading.back(2).is_empty() || reading.back(2) == "," {
        return said(
            "the name comes before the kind",
            "write sym text in place of text sym",
        );
    }
    said(
        "a comma is missing",
        "write a comma between columns: sym text, t int",
    )
}

/// Whether the word is a kind.
fn is_kind(word: &str) -> bool {
    is_one_of(word, "INT INTEGER BIGINT TEXT VARCHAR")
}

/// Explains columns that make no table.
fn explain_columns(report: &mut TextReport<'_>, fault: TableFault) -> Result<(), AllocError> {
    let alloc = report.alloc();
    let tokens = report.tokens()?;
    let mut reading = Reading::new(report.source.shown, tokens.as_slice(), 0);
    reading.at = bad_column(alloc, &reading, fault)?;
    report.point(reading.span(), &of_column(alloc, &reading, fault))
}

/// The index of the name of the column for which there is no table.
fn bad_column(
    alloc: Global,
    reading: &Reading<'_>,
    fault: TableFault,
) -> Result<usize, AllocError> {
    match fault {
        TableFault::DoubleName => second_of_a_name(alloc, reading),
        _ => long_name(alloc, reading),
    }
}

/// What is wrong with a column's name: that it was given before, or is too long.
fn of_column(alloc: Global, reading: &Reading<'_>, fault: TableFault) -> Advice {
    match fault {
        TableFault::DoubleName => Advice::with_what(
            alloc,
            Pieces::filled(alloc, "a column before is called {} too", &[reading.here()]),
            "upper and lower case are one without quotes; a name in quotes is taken letter for letter",
        ),
        _ => Advice::new(
            alloc,
            "a name has at most 128 bytes",
            "shorten it, in the header too",
        ),
    }
}

/// The index of the first column's name that stands before too.
fn second_of_a_name(alloc: Global, reading: &Reading<'_>) -> Result<usize, AllocError> {
    let mut names = Vec::new(alloc);
    for index in 0..reading.tokens.len() {
        if begins_column(reading, index) && !push_new(&mut names, reading.written(index))? {
            return Ok(index);
        }
    }
    Ok(0)
}

/// The index of the first name that is too long.
fn long_name(alloc: Global, reading: &Reading<'_>) -> Result<usize, AllocError> {
    for index in 0..reading.tokens.len() {
        if begins_column(reading, index) && is_long(alloc, reading.written(index))? {
            return Ok(index);
        }
    }
    Ok(0)
}

/// Whether a name that is written so is too long.
fn is_long(alloc: Global, written: &str) -> Result<bool, AllocError> {
    let name = meant(alloc, written)?;
    Ok(name.len() > MAX_NAME_LEN)
}

/// Whether a column begins at a token: the first, or one behind a comma.
fn begins_column(reading: &Reading<'_>, index: usize) -> bool {
    match index.checked_sub(1) {
        Some(before) => reading.written(before) == ",",
        None => true,
    }
}
