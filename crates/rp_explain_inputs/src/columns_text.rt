//! Why a text of columns is refused.

use rp_columns::ColumnsFault;
use rp_value::{MAX_NAME_LEN, TableFault};
use rp_wording::{
    Advice, Pieces, Reading, Report, Source, TextReport, explain_lex, index_of, is_one_of, meant,
    text_of, tokens_of,
};
use std::alloc::{AllocError, Global};

/// What columns look like.
const LIKE: &str =
    "write a name and a reading for each column: sym text, t = seconds(\"Booked At\"), cents = decimal(Amount, 2)";

/// The words that call a reading.
const READINGS: &str =
    "TEXT VARCHAR LOWER INT INTEGER BIGINT DATE SECONDS MILLIS MICROS DECIMAL RECORD";

/// Explains why `read_columns` refuses a text, by the fault that it gave.
///
/// The first line is the fault's own, `columns: Reading at byte 4`; each line ends in LF. Where memory ran out that line is all there is.
pub fn explain_columns(
    alloc: Global,
    text: &str,
    fault: &ColumnsFault,
) -> Result<Report, AllocError> {
    let mut report = TextReport::new(alloc, "columns", Source::whole(text), fault)?;
    explain(&mut report, fault)?;
    Ok(report.finish())
}

/// Adds where a fault is, and what to write.
fn explain(report: &mut TextReport<'_>, fault: &ColumnsFault) -> Result<(), AllocError> {
    match fault {
        ColumnsFault::Lex(why) => explain_lex(report, *why),
        ColumnsFault::Expected(at) => expected_at(report, *at),
        ColumnsFault::Reading(at) => no_reading_at(report, *at),
        ColumnsFault::Table(why) => no_table(report, *why),
        ColumnsFault::OutOfMemory => Ok(()),
    }
}

/// Explains that the system has no time zone of this name, which a text of columns has as a text.
///
/// The first line is `columns: Zone Europe/Berln`.
pub fn explain_zone(alloc: Global, text: &str, name: &str) -> Result<Report, AllocError> {
    let told = Pieces::filled(alloc, "Zone {}", &[name]);
    let fault = told.text()?;
    let mut report = TextReport::new(alloc, "columns", Source::whole(text), &fault)?;
    no_zone(&mut report, name)?;
    Ok(report.finish())
}

/// Adds where the name of a time zone stands, and what to write.
fn no_zone(report: &mut TextReport<'_>, name: &str) -> Result<(), AllocError> {
    let tokens = report.tokens()?;
    let mut reading = Reading::new(report.source.shown, tokens.as_slice(), 0);
    reading.at = place_of_text(&reading, name);
    let advice = Advice::new(
        report.alloc(),
        "this system has no time zone of this name",
        "write its identifier in the IANA Time Zone Database, as 'Europe/Berlin', or an offset, as '+01:00'",
    );
    report.point(reading.span(), &advice)
}

/// The index of the token that has this text between single quotes; the number of tokens where none has.
fn place_of_text(reading: &Reading<'_>, name: &str) -> usize {
    for index in 0..reading.tokens.len() {
        if inside_single_quotes(reading.written(index)) == Some(name) {
            return index;
        }
    }
    reading.tokens.len()
}

/// What stands between single quotes.
fn inside_single_quotes(written: &str) -> Option<&str> {
    let behind = written.strip_prefix('\'')?;
    behind.strip_suffix('\'')
}

/// Explains a token that can't stand where it is.
fn expected_at(report: &mut TextReport<'_>, at: usize) -> Result<(), AllocError> {
    let tokens = report.tokens()?;
    let reading = Reading::new(report.source.shown, tokens.as_slice(), at);
    let advice = unexpected(report.alloc(), &reading);
    report.point(reading.span(), &advice)
}

/// What is wrong at a token.
fn unexpected(alloc: Global, reading: &Reading<'_>) -> Advice {
    if reading.is_keyword() {
        let mut what = Pieces::new(alloc);
        what.push_upper(reading.here());
        what.push(" is a reserved word");
        let mut help = Pieces::of(alloc, "as a name write \"");
        help.push_upper(reading.here());
        help.push("\", in quotes and in upper case");
        return Advice::of_pieces(what, help);
    }
    if reading.is_end() || reading.here() == "," {
        return Advice::new(alloc, "this column isn't complete", LIKE);
    }
    if reading.here() == "." && reading.touches() {
        return of_path(alloc, reading);
    }
    if reading.here() == "(" {
        return Advice::new(
            alloc,
            "a reading with brackets is after an equals sign",
            "write t = seconds(Time), or t seconds where the header has the name t",
        );
    }
    Advice::new(alloc, "this can't come here", LIKE)
}

/// What is said of a point between two names, as in the path of a field of JSON.
fn of_path(alloc: Global, reading: &Reading<'_>) -> Advice {
    let end = path_end(reading);
    let path = text_of(reading, reading.at.saturating_sub(1), end);
    let what = "a name with a point, and a path of JSON, is in double quotes";
    let mut help = Pieces::of(alloc, "write ");
    match (reading.function(), reading.written(end)) {
        ("", "" | ",") => help.push_filled("{} = text", &[last_name(reading, end)]),
        ("", word) => help.push_filled("{} = {}", &[last_name(reading, end), word]),
        (word, _) => help.push(word),
    }
    help.push_filled("(\"{}\")", &[path]);
    Advice::with_help(alloc, what, help)
}

/// The last name of a path that ends before a token; another where that is a reserved word.
fn last_name<'a>(reading: &Reading<'a>, end: usize) -> &'a str {
    let last = Reading {
        at: end.saturating_sub(1),
        ..*reading
    };
    if last.is_name() { last.here() } else { "field" }
}

/// The index behind the names with points between of which the first point is at the place.
fn path_end(reading: &Reading<'_>) -> usize {
    for at in reading.at..reading.tokens.len() {
        let token = Reading { at, ..*reading };
        let is_of_path = token.here() == "." || token.is_name() || token.is_keyword();
        if !token.touches() || !is_of_path {
            return at;
        }
    }
    reading.tokens.len()
}

/// Explains a word that calls no reading.
fn no_reading_at(report: &mut TextReport<'_>, at: usize) -> Result<(), AllocError> {
    let tokens = report.tokens()?;
    let reading = Reading::new(report.source.shown, tokens.as_slice(), at);
    let advice = no_reading(report.alloc(), reading.here());
    report.point(reading.span(), &advice)
}

/// What is said of a word that calls no reading, or none with what is behind it.
fn no_reading(alloc: Global, word: &str) -> Advice {
    if is_one_of(word, READINGS) {
        let what = Pieces::filled(alloc, "{} doesn't take what follows it", &[word]);
        return Advice::with_what(alloc, what, form_of(word));
    }
    let what = Pieces::filled(alloc, "there is no reading {}", &[word]);
    Advice::with_what(
        alloc,
        what,
        "the readings are text, lower, int, date, seconds, millis, micros, decimal and record()",
    )
}

/// How a reading is written.
fn form_of(word: &str) -> &'static str {
    if is_one_of(word, "DECIMAL") {
        return "write decimal(Amount, 2), or decimal(Amount, 2, ',') with a comma between thousands, or decimal(Amount, 2, '.', ',') with a comma as the point";
    }
    if is_one_of(word, "SECONDS MILLIS MICROS") {
        return "write seconds(Time), or seconds(Time, 'Europe/Berlin') or seconds(Time, '+01:00') where the times have no offset from UTC, or with a format seconds(Time, '%d/%m/%Y %H:%M:%S', 'UTC')";
    }
    if is_one_of(word, "RECORD") {
        return "write n = record()";
    }
    if is_one_of(word, "DATE") {
        return "write date(Day), or with a format date(Day, '%d.%m.%Y')";
    }
    "write it with the header's name alone: text(Name)"
}

/// Explains columns that make no table.
fn no_table(report: &mut TextReport<'_>, fault: TableFault) -> Result<(), AllocError> {
    let alloc = report.alloc();
    let tokens = report.tokens()?;
    let mut reading = Reading::new(report.source.shown, tokens.as_slice(), 0);
    reading.at = blamed(alloc, &reading, fault)?;
    let advice = of_table(alloc, reading.here(), fault);
    report.point(reading.span(), &advice)
}

/// What is said of columns that make no table, by the name that is to blame.
fn of_table(alloc: Global, written: &str, fault: TableFault) -> Advice {
    match fault {
        TableFault::DoubleName => Advice::with_what(
            alloc,
            Pieces::filled(alloc, "a column before is called {} too", &[written]),
            "upper and lower case are one without quotes; a name in quotes is taken letter for letter",
        ),
        TableFault::NoColumns => Advice::new(alloc, "there are no columns", LIKE),
        _ => Advice::new(
            alloc,
            "a name has 1 to 128 bytes",
            "give the column a name of its own: name = text(\"..\")",
        ),
    }
}

/// The index of the name that is to blame: the first one that was given before, or that is empty or too long.
fn blamed(alloc: Global, reading: &Reading<'_>, fault: TableFault) -> Result<usize, AllocError> {
    let mut names = Vec::new(alloc);
    let mut depth = 0usize;
    for index in 0..reading.tokens.len() {
        depth = depth_behind(depth, reading.written(index));
        if depth > 0 || !begins_column(reading, index) {
            continue;
        }
        let name = meant(alloc, reading.written(index))?;
        let is_double = index_of(names.as_slice(), name.as_str()).is_some();
        let is_bad = name.is_empty() || name.len() > MAX_NAME_LEN;
        if (fault == TableFault::DoubleName && is_double)
            || (fault != TableFault::DoubleName && is_bad)
        {
            return Ok(index);
        }
        names.push(name)?;
    }
    Ok(0)
}

/// How many brackets are open behind a token.
fn depth_behind(depth: usize, token: &str) -> usize {
    match token {
        "(" => depth.saturating_add(1),
        ")" => depth.saturating_sub(1),
        _ => depth,
    }
}

/// Whether a column begins at a token outside of brackets: the first, or one behind a comma.
fn begins_column(reading: &Reading<'_>, index: usize) -> bool {
    match index.checked_sub(1) {
        Some(before) => reading.written(before) == ",",
        None => true,
    }
}
