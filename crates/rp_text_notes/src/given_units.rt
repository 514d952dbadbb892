//! Notes on columns that are given in different units, where a clause takes them for values of one.

use crate::notes::{Note, name_of};
use crate::uses::Asked;
use rp_columns::{InputColumn, Reading, Unit};
use rp_query::Query;
use rp_wording::Pieces;
use std::alloc::{AllocError, Global};

/// The units of dates and times, the coarsest first, each with the word of its reading.
const TIMES: [(&str, &str); 4] = [
    ("days since 1970", "date"),
    ("seconds since 1970", "seconds"),
    ("thousandths of a second since 1970", "millis"),
    ("millionths of a second since 1970", "micros"),
];

/// A column of whole numbers, and what it counts.
#[derive(Clone, Copy)]
struct Scaled {
    /// Its number, from 1.
    number: usize,
    /// Whether it counts time since 1970.
    is_time: bool,
    /// The place of its unit among those of times; of numbers, the places of their fractions.
    fineness: usize,
}

/// A note on each two columns whose readings have different units, and that the query, or that of a condition which leaves rows out,
/// compares with each other, adds or subtracts. Whole numbers beside decimal ones count as numbers without places.
pub fn notes_on_units(
    alloc: Global,
    query: &Query,
    filter: Option<&Query>,
    columns: &[InputColumn],
) -> Result<Vec<Note>, AllocError> {
    let asked = Asked {
        query,
        filter,
        numbers: &[],
    };
    let mut notes = Vec::new(alloc);
    for coarse in 1..columns.len().saturating_add(1) {
        for fine in 1..columns.len().saturating_add(1) {
            push_note(alloc, asked, columns, (coarse, fine), &mut notes)?;
        }
    }
    Ok(notes)
}

/// Adds a note on two columns, by their numbers, where the first has a coarser unit than the other.
fn push_note(
    alloc: Global,
    asked: Asked<'_>,
    columns: &[InputColumn],
    pair: (usize, usize),
    notes: &mut Vec<Note>,
) -> Result<(), AllocError> {
    let (Some(coarse), Some(fine)) = (scale_of(columns, pair.0), scale_of(columns, pair.1)) else {
        return Ok(());
    };
    let is_coarser = coarse.is_time == fine.is_time && coarse.fineness < fine.fineness;
    if is_coarser && asked.compares_both(coarse.number, fine.number) {
        let line = line_of_units(alloc, asked.query, coarse, fine)?;
        notes.push(Note {
            column: coarse.number,
            line,
        })?;
    }
    Ok(())
}

/// What a column counts, by its number; None where it has texts, or numbers of records.
fn scale_of(columns: &[InputColumn], number: usize) -> Option<Scaled> {
    let column = columns.get(number.checked_sub(1)?)?;
    let (is_time, fineness) = match &column.reading {
        Reading::Text | Reading::Lower | Reading::Record => return None,
        Reading::Int => (false, 0),
        Reading::Decimal(places, _) => (false, *places as usize),
        Reading::Day | Reading::FormattedDay(_) => (true, 0),
        Reading::Instant(unit, _) | Reading::Formatted(unit, _, _) => (true, fineness_of(*unit)),
    };
    Some(Scaled {
        number,
        is_time,
        fineness,
    })
}

/// The place of a unit among those of times.
fn fineness_of(unit: Unit) -> usize {
    match unit {
        Unit::Second => 1,
        Unit::Millisecond => 2,
        Unit::Microsecond => 3,
    }
}

/// What is said of two columns.
fn line_of_units(
    alloc: Global,
    query: &Query,
    coarse: Scaled,
    fine: Scaled,
) -> Result<String, AllocError> {
    let name = name_of(alloc, query, coarse.number)?;
    let other = name_of(alloc, query, fine.number)?;
    let mut line = Pieces::of(alloc, name.as_str());
    line.push(" is in ");
    push_unit(&mut line, coarse);
    line.push_filled(" and {} in ", &[other.as_str()]);
    push_unit(&mut line, fine);
    line.push(", and they are compared or added as they are: read both ");
    push_reading(&mut line, fine);
    line.finish()
}

/// Adds the unit of a column.
fn push_unit(line: &mut Pieces, column: Scaled) {
    if column.is_time {
        line.push(time_at(column.fineness).0);
        return;
    }
    line.push("units of 1");
    if column.fineness > 0 {
        line.push("/1");
    }
    for _place in 0..column.fineness {
        line.push("0");
    }
}

/// Adds how two columns are read in the unit of this one.
fn push_reading(line: &mut Pieces, column: Scaled) {
    if column.is_time {
        line.push_filled("by {}", &[time_at(column.fineness).1]);
    } else {
        line.push("as decimal numbers with ");
        line.push_count(column.fineness);
        line.push(if column.fineness == 1 {
            " place"
        } else {
            " places"
        });
    }
}

/// The unit of times at a place.
fn time_at(place: usize) -> (&'static str, &'static str) {
    TIMES.get(place).copied().unwrap_or(("", ""))
}
