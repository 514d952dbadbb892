//! Columns and variables that aren't there.

use crate::words::{is_missing_function, misplaced_behind};
use rp_lexer::{Keyword, TokenKind};
use rp_value::{Kind, Table};
use rp_wording::{
    Advice, Part, Pieces, Reading, column_names, index_of, inside_quotes, is_comparison, is_name,
    is_one_of, meant, nearest, part_of, text_literal, upper_case,
};
use std::alloc::{AllocError, Global};

/// The table has no column of the name at the place.
pub fn unknown_column(
    alloc: Global,
    table: &Table,
    reading: &Reading<'_>,
) -> Result<Advice, AllocError> {
    let names = column_names(alloc, table.columns())?;
    let mut help = column_guess(alloc, reading, names.as_slice())?;
    if is_beside_text(alloc, table, reading)? {
        help.push_filled(
            "a text is written in single quotes: '{}'\n",
            &[reading.here()],
        );
    }
    help.push("the columns are ");
    help.push_names(names.as_slice());
    let what = Pieces::filled(alloc, "the table has no column {}", &[reading.here()]);
    Ok(Advice::of_pieces(what, help))
}

/// Whether the name at the place, which has no quotes, is compared with a column of texts.
fn is_beside_text(alloc: Global, table: &Table, reading: &Reading<'_>) -> Result<bool, AllocError> {
    if !reading.is_name() {
        return Ok(false);
    }
    if is_comparison(reading.back(1)) {
        return is_text(alloc, table, reading.back(2));
    }
    if is_comparison(reading.next(1)) && reading.back(1) != "." {
        let behind = if reading.next(3) == "." { 4 } else { 2 };
        return is_text(alloc, table, reading.next(behind));
    }
    Ok(false)
}

/// Whether the table has a column of texts whose name is written so.
fn is_text(alloc: Global, table: &Table, written: &str) -> Result<bool, AllocError> {
    let name = meant(alloc, written)?;
    Ok(kind_of(table, name.as_str()) == Some(Kind::Text))
}

/// The kind of the column of this name.
fn kind_of(table: &Table, name: &str) -> Option<Kind> {
    for column in table.columns() {
        if column.name.as_str() == name {
            return Some(column.kind);
        }
    }
    None
}

/// A line that guesses what is meant in place of a column; nothing where there is no guess.
fn column_guess(
    alloc: Global,
    reading: &Reading<'_>,
    names: &[String],
) -> Result<Pieces, AllocError> {
    let written = reading.here();
    if let Some(inside) = inside_quotes(written) {
        return quoted_guess(alloc, inside, names);
    }
    if is_one_of(written, "TRUE FALSE") {
        return Ok(Pieces::of(alloc, in_place_of_true(reading)));
    }
    if is_variable(alloc, reading, written)? {
        return Ok(variable_help(alloc, written));
    }
    if let Some(name) = nearest_name(alloc, written, names)? {
        return Ok(name_line(alloc, name));
    }
    match misplaced_behind(written) {
        Some(found) => Ok(Pieces::filled(alloc, "{}\n", &[found.help])),
        None => Ok(Pieces::new(alloc)),
    }
}

/// What to write in place of TRUE and FALSE.
fn in_place_of_true(reading: &Reading<'_>) -> &'static str {
    if reading.part() == Part::Measures {
        return "there are no TRUE and FALSE: write 1 or 0\n";
    }
    "there are no TRUE and FALSE: write 1 = 1, or 1 = 0\n"
}

/// What to write in place of a variable that stands where a column comes.
fn variable_help(alloc: Global, written: &str) -> Pieces {
    Pieces::filled(
        alloc,
        "{} is a variable: write a column of its rows, as {}.p, or COUNT({}.*)\n",
        &[written, written, written],
    )
}

/// Lines that guess what a name in quotes means.
fn quoted_guess(alloc: Global, inside: &str, names: &[String]) -> Result<Pieces, AllocError> {
    let upper = upper_case(alloc, inside)?;
    if index_of(names, upper.as_str()).is_none() {
        return text_guess(alloc, inside, names);
    }
    Ok(Pieces::filled(
        alloc,
        "a name in quotes is taken letter for letter: write {}, or \"{}\"\n",
        &[inside, upper.as_str()],
    ))
}

/// The same of what may be meant as a text.
fn text_guess(alloc: Global, inside: &str, names: &[String]) -> Result<Pieces, AllocError> {
    let mut help = match nearest_name(alloc, inside, names)? {
        Some(name) => name_line(alloc, name),
        None => Pieces::new(alloc),
    };
    help.push("a name is written in double quotes; a text is written in single ones: ");
    let text = text_literal(alloc, inside);
    help.push_made(text);
    help.push("\n");
    Ok(help)
}

/// The name that differs least from what is written, where it differs little.
fn nearest_name<'a>(
    alloc: Global,
    written: &str,
    names: &'a [String],
) -> Result<Option<&'a str>, AllocError> {
    let Some(index) = nearest(alloc, written, names)? else {
        return Ok(None);
    };
    match names.get(index) {
        Some(name) => Ok(Some(name.as_str())),
        None => Ok(None),
    }
}

/// A line with the name of a column.
fn name_line(alloc: Global, name: &str) -> Pieces {
    let mut line = Pieces::of(alloc, "write ");
    line.push_name(name);
    line.push("\n");
    line
}

/// A line with the name that is nearly what is written; nothing where none is.
pub(crate) fn near_line(
    alloc: Global,
    written: &str,
    names: &[String],
) -> Result<Pieces, AllocError> {
    match nearest_name(alloc, written, names)? {
        Some(name) => Ok(Pieces::filled(alloc, "write {}\n", &[name])),
        None => Ok(Pieces::new(alloc)),
    }
}

/// Whether the pattern has a variable of this name.
fn is_variable(alloc: Global, reading: &Reading<'_>, written: &str) -> Result<bool, AllocError> {
    let variables = variables(alloc, reading)?;
    let name = meant(alloc, written)?;
    Ok(index_of(variables.as_slice(), name.as_str()).is_some())
}

/// The variables of the pattern, by first appearance.
pub(crate) fn variables(alloc: Global, reading: &Reading<'_>) -> Result<Vec<String>, AllocError> {
    let mut names = Vec::new(alloc);
    let mut inside = false;
    for token in reading.tokens {
        inside = is_in_pattern(inside, token.kind);
        if inside && is_name(Some(token.kind)) {
            let written = reading.text.get(token.start..token.end).unwrap_or("");
            push_new(&mut names, written)?;
        }
    }
    Ok(names)
}

/// Whether the pattern goes on at a token, by whether it did before.
fn is_in_pattern(inside: bool, kind: TokenKind) -> bool {
    match kind {
        TokenKind::Keyword(Keyword::Pattern) => true,
        TokenKind::Keyword(Keyword::Subset | Keyword::Define) => false,
        _ => inside,
    }
}

/// Adds a name that is written so, if it isn't there; whether it wasn't.
pub fn push_new(names: &mut Vec<String>, written: &str) -> Result<bool, AllocError> {
    let name = meant(*names.allocator(), written)?;
    if index_of(names.as_slice(), name.as_str()).is_some() {
        return Ok(false);
    }
    names.push(name)?;
    Ok(true)
}

/// The pattern has no variable of the name at the place.
pub fn unknown_variable(
    alloc: Global,
    table: &Table,
    reading: &Reading<'_>,
) -> Result<Advice, AllocError> {
    if is_defined_union(alloc, reading)? {
        return Ok(union_definition(alloc, reading.here()));
    }
    let variables = variables(alloc, reading)?;
    let mut help = variable_guess(alloc, table, reading, variables.as_slice())?;
    push_variables(&mut help, reading, variables.as_slice());
    let what = Pieces::filled(alloc, "the pattern has no variable {}", &[reading.here()]);
    Ok(Advice::of_pieces(what, help))
}

/// Whether the name at the place is that of a union of SUBSET, and is given a definition.
fn is_defined_union(alloc: Global, reading: &Reading<'_>) -> Result<bool, AllocError> {
    if reading.part() != Part::Define || !is_one_of(reading.next(1), "AS") {
        return Ok(false);
    }
    let unions = unions(alloc, reading)?;
    let name = meant(alloc, reading.here())?;
    Ok(index_of(unions.as_slice(), name.as_str()).is_some())
}

/// The unions of SUBSET.
fn unions(alloc: Global, reading: &Reading<'_>) -> Result<Vec<String>, AllocError> {
    let mut names = Vec::new(alloc);
    let mut part = Part::Front;
    for (index, token) in reading.tokens.iter().enumerate() {
        part = part_of(token.kind).unwrap_or(part);
        let is_first = reading.written(index.saturating_add(1)) == "=";
        if part == Part::Subset && is_first && is_name(Some(token.kind)) {
            push_new(&mut names, reading.written(index))?;
        }
    }
    Ok(names)
}

/// What is told of a union that is given a definition.
fn union_definition(alloc: Global, name: &str) -> Advice {
    let what = "{} is a union of SUBSET, which has no definition of its own";
    Advice::with_what(
        alloc,
        Pieces::filled(alloc, what, &[name]),
        "give each of its variables the condition",
    )
}

/// A line that guesses what is meant in place of a variable; nothing where there is no guess.
fn variable_guess(
    alloc: Global,
    table: &Table,
    reading: &Reading<'_>,
    variables: &[String],
) -> Result<Pieces, AllocError> {
    let line = near_line(alloc, reading.here(), variables)?;
    if line.is_empty() {
        return table_guess(alloc, table, reading);
    }
    Ok(line)
}

/// The same by the columns of the table, and by the words that people know from elsewhere.
fn table_guess(alloc: Global, table: &Table, reading: &Reading<'_>) -> Result<Pieces, AllocError> {
    let written = reading.here();
    if is_column(alloc, table, written)? {
        return Ok(Pieces::filled(
            alloc,
            "{} is a column: a variable comes before the point, A.{}\n",
            &[written, written],
        ));
    }
    if reading.next(1) == "." && is_column(alloc, table, reading.next(2))? {
        return Ok(Pieces::filled(
            alloc,
            "is {} a table? a column is written without its table: {}\n",
            &[written, reading.next(2)],
        ));
    }
    if is_missing_function(written) {
        let line = "there are no functions but COUNT, SUM, MIN, MAX, FIRST, LAST, PREV, NEXT\n";
        return Ok(Pieces::of(alloc, line));
    }
    Ok(Pieces::new(alloc))
}

/// Whether the table has a column whose name is written so.
fn is_column(alloc: Global, table: &Table, written: &str) -> Result<bool, AllocError> {
    let name = meant(alloc, written)?;
    Ok(has_column(table, name.as_str()))
}

/// Whether the table has a column of this name.
fn has_column(table: &Table, name: &str) -> bool {
    kind_of(table, name).is_some()
}

/// Adds which variables there are; where there is none, what to write with the name at the place.
fn push_variables(help: &mut Pieces, reading: &Reading<'_>, names: &[String]) {
    if names.is_empty() {
        let form = "a pattern without variables can't stand alone: write (() | {})";
        help.push_filled(form, &[reading.here()]);
        return;
    }
    help.push("the variables are ");
    push_listed(help, names);
}

/// Adds variables with commas between.
fn push_listed(help: &mut Pieces, names: &[String]) {
    for (index, name) in names.iter().enumerate() {
        if index > 0 {
            help.push(", ");
        }
        help.push(name.as_str());
    }
}
