//! The line of a note.

use crate::example::{Example, Numbered};
use crate::found::Found;
use crate::times::IN_ZONE;
use crate::way::Way;
use rp_wording::Pieces;
use std::alloc::{AllocError, Global};

/// What is to be known of a column of this name, of which numbers may be needed, and the options to write.
pub(crate) fn line_of(
    alloc: Global,
    name: &str,
    found: &Found,
    is_number: bool,
    example: Option<Example<'_>>,
    options: &str,
) -> Result<String, AllocError> {
    let mut line = Pieces::of(alloc, name);
    line.push(" is text, ");
    push_reason(&mut line, found);
    if is_number {
        line.push("and numbers are needed");
    } else {
        line.push_filled("and its {} are compared as texts", &[found.way.texts()]);
        push_order(&mut line, example);
    }
    if found.sign.is_empty() {
        push_reading(alloc, &mut line, name, &found.way, example, options);
        if is_number {
            push_scale(&mut line, &found.way);
        }
    } else {
        line.push_filled(
            ". No reading takes '{}': take it out of the input",
            &[found.sign],
        );
    }
    line.finish()
}

/// What is to be known of a column of this name whose whole numbers are dates or times, and the options to write.
pub(crate) fn line_of_dates(
    alloc: Global,
    name: &str,
    way: &Way,
    one: Numbered<'_>,
    options: &str,
) -> Result<String, AllocError> {
    let mut line = Pieces::of(alloc, name);
    line.push_filled(" has {}, as ", &[way.texts()]);
    line.push(one.text);
    line.push_filled(
        ", and sums and differences of such numbers count no {}",
        &[way.unit()],
    );
    let example = Example { one, before: None };
    push_reading(alloc, &mut line, name, way, Some(example), options);
    line.finish()
}

/// Adds why a column is text, where it is for words for null, or for a sign that no reading takes.
fn push_reason(line: &mut Pieces, found: &Found) {
    if !found.sign.is_empty() {
        line.push_filled("since its fields have '{}', ", &[found.sign]);
    } else if !found.words.is_empty() {
        line.push("since ");
        found.words.push_count(line);
        line.push(", ");
    }
}

/// Adds how a column of this name is read, and the options to write.
fn push_reading(
    alloc: Global,
    line: &mut Pieces,
    name: &str,
    way: &Way,
    example: Option<Example<'_>>,
    options: &str,
) {
    line.push(". As ");
    line.push(way.values());
    if way.is_cut {
        line.push(" (finer digits are cut)");
    }
    line.push(way.condition);
    push_value(alloc, line, way, example);
    line.push(": ");
    line.push(options);
    push_otherwise(alloc, line, name, way);
}

/// Adds how a number is written that is compared with values which are parts of one, as hundredths, or with their differences.
fn push_scale(line: &mut Pieces, way: &Way) {
    let second = way.one_second();
    if !second.is_empty() {
        line.push_filled("; a difference of one second is {}", &[second]);
    }
    if way.is_of_numbers() && way.fineness() > 0 {
        line.push("; to compare it with 1, write 1");
        for _place in 0..way.fineness() {
            line.push("0");
        }
    }
}

/// Adds two texts in their order, where it isn't that of the numbers.
pub(crate) fn push_order(line: &mut Pieces, example: Option<Example<'_>>) {
    let Some(example) = example else {
        return;
    };
    if let Some(before) = example.before {
        line.push(", by which '");
        line.push_start(example.one.text.as_bytes());
        line.push("' comes after '");
        line.push_start(before.as_bytes());
        line.push("'");
    }
}

/// Adds what a text is as a number, where that is written otherwise.
fn push_value(alloc: Global, line: &mut Pieces, way: &Way, example: Option<Example<'_>>) {
    if way.is_as_written() {
        return;
    }
    if let Some(example) = example {
        let number = example.one.number;
        line.push(", ");
        line.push_made(format!(in alloc; "{number}"));
        line.push(" for ");
        line.push_start(example.one.text.as_bytes());
    }
}

/// Adds what is written in another case.
fn push_otherwise(alloc: Global, line: &mut Pieces, name: &str, way: &Way) {
    if !way.otherwise.is_empty() {
        line.push("; ");
        line.push(way.otherwise);
        line.push(": ");
        line.push(name);
        line.push(" = ");
        line.push_made(way.written_otherwise(alloc, name));
    }
    if way.is_in_utc {
        line.push(IN_ZONE);
    }
}
