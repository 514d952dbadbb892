//! Why a condition of `--where` is refused.

use crate::dates::of_typed_date;
use crate::meaning::meaning;
use crate::tried::{is_value, looks_elsewhere};
use rp_compile::CompileFault;
use rp_grammar::ParseFault;
use rp_hints::{ends_value, unexpected, unknown_column};
use rp_lexer::{Keyword, Token, TokenKind};
use rp_place::Span;
use rp_resolution::CheckKind;
use rp_value::Table;
use rp_wording::{
    Advice, Hint, Pieces, Reading, Report, Source, TextReport, closing, explain_lex, is_one_of,
    part_of, said, text_of, tokens_of,
};
use std::alloc::{AllocError, Global};
use std::fmt::Display;

/// What a condition is called.
const NAME: &str = "where";

/// What comes before a condition in a clause.
const FRONT: &str = "DEFINE R AS";

/// How many tokens that has.
const FRONT_TOKENS: usize = 3;

/// The functions that may look at other rows.
const FUNCTIONS: &str = "PREV NEXT FIRST LAST COUNT SUM MIN MAX";

/// Words that a clause has, and a condition of a row alone hasn't.
const OF_CLAUSES: &str =
    "PREV NEXT FIRST LAST COUNT SUM MIN MAX CLASSIFIER MATCH_NUMBER PARTITION ORDER MEASURES PATTERN SUBSET DEFINE AS clause \
    definition definitions variable variables";

/// What to write where nothing better is known.
const USUAL: &str =
    "write comparisons of the row's own columns, joined by AND or OR: p > 5 AND q IS NOT NULL";

/// What is said of what looks at other rows.
const OTHER_ROWS: &str = "this looks at other rows, and --where looks at each row alone";

/// What to do about that.
const IN_DEFINE: &str = "leave it out here: a condition in DEFINE may look at other rows";

/// What is said behind a comma.
const ONE_CONDITION: &str = "--where takes one condition, and a comma is before this";

/// What to write in place of the comma.
const JOINED: &str = "join the two conditions by AND or OR";

/// Explains why a text is no condition of a row over a table, by the fault, whose offsets are those in the condition.
///
/// The first line is the fault's own, `where: UnknownColumn at byte 12`; each line ends in LF. Where the fault is that memory is out,
/// that line is all.
pub fn explain_condition(
    alloc: Global,
    table: &Table,
    condition: &str,
    fault: &CompileFault,
) -> Result<Report, AllocError> {
    let mut report = TextReport::new(alloc, NAME, Source::whole(condition), fault)?;
    match fault {
        CompileFault::Lex(why) => explain_lex(&mut report, *why)?,
        CompileFault::Parse(ParseFault::Expected(at)) => point(&mut report, table, fault, *at)?,
        CompileFault::Parse(ParseFault::Deep(at)) => point(&mut report, table, fault, *at)?,
        CompileFault::Check(why) => point(&mut report, table, fault, why.offset)?,
        CompileFault::Parse(ParseFault::OutOfMemory) | CompileFault::OutOfMemory => {}
    }
    Ok(report.finish())
}

/// Explains that a condition over a table looks at other rows than its own, which this fault says of it.
pub fn explain_other_rows<F: Display>(
    alloc: Global,
    table: &Table,
    condition: &str,
    fault: &F,
) -> Result<Report, AllocError> {
    let mut report = Report::new(alloc, NAME, fault)?;
    let advice = Advice::new(alloc, OTHER_ROWS, IN_DEFINE);
    match call_elsewhere(alloc, table, condition)? {
        Some(span) => report.point(NAME, condition, span, &advice)?,
        None => report.advise(NAME, &advice)?,
    }
    Ok(report)
}

/// The first call in a condition that looks at other rows.
fn call_elsewhere(
    alloc: Global,
    table: &Table,
    condition: &str,
) -> Result<Option<Span>, AllocError> {
    let tokens = tokens_of(alloc, condition)?;
    for at in 0..tokens.len() {
        let reading = Reading {
            text: condition,
            tokens: tokens.as_slice(),
            at,
        };
        if let Some(span) = call_at(&reading) {
            let call = condition.get(span.start..span.end).unwrap_or("");
            if looks_elsewhere(alloc, table, call)? {
                return Ok(Some(span));
            }
        }
    }
    Ok(None)
}

/// Where the call of a function is that begins at the place.
fn call_at(reading: &Reading<'_>) -> Option<Span> {
    if reading.next(1) != "(" || !is_one_of(reading.here(), FUNCTIONS) {
        return None;
    }
    let close = closing(reading, reading.at.saturating_add(1))?;
    Some(Span {
        start: reading.span().start,
        end: reading.tokens.get(close)?.end,
    })
}

/// Adds that a fault is at a token of the condition, and what to write there.
fn point(
    report: &mut TextReport<'_>,
    table: &Table,
    fault: &CompileFault,
    offset: usize,
) -> Result<(), AllocError> {
    let (alloc, condition) = (report.alloc(), report.source.shown);
    let text = Pieces::filled(alloc, "{}\n{}", &[condition, FRONT]).finish()?;
    let tokens = tokens_in_clause(alloc, text.as_str())?;
    let reading = reading_at(text.as_str(), tokens.as_slice(), offset);
    let advice = advice_of(alloc, table, &reading, fault)?;
    report.point(span_of(&reading), &advice)
}

/// The tokens of a condition and of what comes before it in a clause, which is behind it in the text, so that each place in the
/// condition is its own: first the latter ones.
fn tokens_in_clause(alloc: Global, text: &str) -> Result<Vec<Token>, AllocError> {
    let written = tokens_of(alloc, text)?;
    let behind = written.len().saturating_sub(FRONT_TOKENS);
    let mut tokens = Vec::new(alloc);
    tokens.extend_from_slice(written.as_slice().get(behind..).unwrap_or(&[]))?;
    tokens.extend_from_slice(written.as_slice().get(..behind).unwrap_or(&[]))?;
    Ok(tokens)
}

/// The reading at the first token of the condition from an offset on.
fn reading_at<'a>(text: &'a str, tokens: &'a [Token], offset: usize) -> Reading<'a> {
    let mut at = tokens.len();
    for (index, token) in tokens.iter().enumerate().skip(FRONT_TOKENS) {
        if token.start >= offset {
            at = index;
            break;
        }
    }
    Reading { text, tokens, at }
}

/// Where the token at the place is; of a condition without any its beginning.
fn span_of(reading: &Reading<'_>) -> Span {
    if is_empty(reading) {
        return Span { start: 0, end: 0 };
    }
    reading.span()
}

/// Whether the condition has no token.
fn is_empty(reading: &Reading<'_>) -> bool {
    reading.tokens.len() <= FRONT_TOKENS
}

/// What is wrong at the token of the reading, and what to write.
fn advice_of(
    alloc: Global,
    table: &Table,
    reading: &Reading<'_>,
    fault: &CompileFault,
) -> Result<Advice, AllocError> {
    match fault {
        CompileFault::Check(why) => of_meaning(alloc, table, reading, why.kind),
        CompileFault::Parse(ParseFault::Deep(_)) => Ok(Advice::new(
            alloc,
            "a hundred brackets are open before this one",
            "leave out brackets that group nothing",
        )),
        _ => of_words(alloc, table, reading),
    }
}

/// What is wrong with a condition that can be read and means nothing.
fn of_meaning(
    alloc: Global,
    table: &Table,
    reading: &Reading<'_>,
    kind: CheckKind,
) -> Result<Advice, AllocError> {
    match kind {
        CheckKind::UnknownColumn => unknown_column(alloc, table, reading),
        CheckKind::KindMismatch if !is_one_of(reading.here(), FUNCTIONS) => {
            mismatch(alloc, table, reading)
        }
        CheckKind::UnknownVariable | CheckKind::DoubleName => Ok(of_variable(alloc, reading)),
        CheckKind::MeasureOnly => Ok(Advice::new(
            alloc,
            "this asks of a match, and --where looks at each row alone",
            "leave it out here: it is for MEASURES",
        )),
        _ => Ok(Advice::new(alloc, OTHER_ROWS, IN_DEFINE)),
    }
}

/// A value or a condition of another kind.
fn mismatch(alloc: Global, table: &Table, reading: &Reading<'_>) -> Result<Advice, AllocError> {
    let condition = text_of(reading, FRONT_TOKENS, reading.tokens.len());
    if is_value(alloc, table, condition)? {
        let what = "this is a value, and --where takes a condition";
        let help = "compare it: p > 5, p <> 0, p IS NOT NULL";
        return Ok(Advice::new(alloc, what, help));
    }
    meaning(alloc, table, reading, CheckKind::KindMismatch)
}

/// A name that is taken for a variable's: that of a definition behind a comma, or one before a point.
fn of_variable(alloc: Global, reading: &Reading<'_>) -> Advice {
    if has_comma(reading) {
        return Advice::new(alloc, ONE_CONDITION, JOINED);
    }
    if reading.next(2) == "*" {
        return Advice::new(alloc, OTHER_ROWS, IN_DEFINE);
    }
    let help = Pieces::filled(alloc, "write {} alone", &[reading.next(2)]);
    Advice::with_help(alloc, "--where has no variables: this isn't one", help)
}

/// What is wrong at a token that can't be here.
fn of_words(alloc: Global, table: &Table, reading: &Reading<'_>) -> Result<Advice, AllocError> {
    if let Some(advice) = of_typed_date(alloc, table, reading)? {
        return Ok(advice);
    }
    if is_thousands(reading) {
        return unexpected(alloc, reading);
    }
    if let Some(found) = of_conditions(reading) {
        return Ok(Advice::of(alloc, found));
    }
    let advice = unexpected(alloc, reading)?;
    let usual = if reading.is_end() {
        "the condition ends too early"
    } else {
        "this can't come here"
    };
    let what = if is_of_clauses(advice.what()?) {
        usual
    } else {
        advice.what()?
    };
    Ok(Advice::with_help(alloc, what, help_in(alloc, &advice)?))
}

/// Whether three digits stand at the place, behind a comma and digits, as in 1,000: that is told as it is of a clause.
fn is_thousands(reading: &Reading<'_>) -> bool {
    let number = Some(TokenKind::Number);
    reading.kind_here() == number
        && reading.here().len() == 3
        && reading.touches()
        && reading.back(1) == ","
        && reading.kind_back(2) == number
}

/// The lines of an advice on clauses that hold for a condition too.
fn help_in(alloc: Global, advice: &Advice) -> Result<Pieces, AllocError> {
    let mut help = Pieces::new(alloc);
    for line in advice.help()?.lines() {
        if !is_of_clauses(line) {
            help.push(line);
            help.push("\n");
        }
    }
    if help.is_empty() {
        help.push(USUAL);
    }
    Ok(help)
}

/// Whether a line has a word that a condition of a row alone hasn't.
fn is_of_clauses(line: &str) -> bool {
    line.as_bytes()
        .split(|byte| !byte.is_ascii_alphanumeric() && *byte != b'_')
        .any(|word| is_word_of_clauses(word))
}

fn is_word_of_clauses(word: &[u8]) -> bool {
    OF_CLAUSES.split(' ').any(|one| one.as_bytes() == word)
}

/// What is wrong with a condition of `--where` as no clause has it.
fn of_conditions(reading: &Reading<'_>) -> Option<Hint> {
    if is_empty(reading) {
        return said(
            "the condition is empty",
            "write one, as p > 5, or leave --where out",
        );
    }
    if reading.at == FRONT_TOKENS.saturating_add(1) && is_one_of(reading.back(1), "WHERE") {
        return said(
            "--where takes the condition alone, and WHERE is before it",
            "leave the word WHERE out",
        );
    }
    if is_one_of(reading.back(1), FUNCTIONS) && reading.here() != "(" {
        return said(
            "a reserved word is before this, without its brackets",
            "a column of that name is written in double quotes and in upper case",
        );
    }
    if has_comma(reading) && reading.is_end() {
        return said(ONE_CONDITION, "leave the last comma out");
    }
    if has_comma(reading) {
        return said(ONE_CONDITION, JOINED);
    }
    if begins_part(reading) {
        return said(
            "this begins a part of a clause, and --where takes a condition alone",
            "leave it out, with what comes after it",
        );
    }
    None
}

/// Whether a comma is before the place, outside of brackets.
fn has_comma(reading: &Reading<'_>) -> bool {
    let mut comma = *reading;
    for index in FRONT_TOKENS..reading.at {
        comma.at = index;
        if comma.here() == "," && comma.open_bracket().is_none() {
            return true;
        }
    }
    false
}

/// Whether a part of a clause begins behind a value.
fn begins_part(reading: &Reading<'_>) -> bool {
    let Some(kind) = reading.kind_here() else {
        return false;
    };
    let begins = part_of(kind).is_some() || kind == TokenKind::Keyword(Keyword::MatchRecognize);
    begins && ends_value(reading)
}
