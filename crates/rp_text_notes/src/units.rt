//! One unit for columns that are compared with each other.

use crate::compact_dates::reads_all;
use crate::decimals::decimal_way;
use crate::found::Found;
use crate::null_words::NullWords;
use crate::texts::{ColumnTexts, NumberReader};
use crate::times::time_way;
use crate::uses::Asked;
use crate::way::Way;
use rp_value::Row;
use std::alloc::{AllocError, Global};

/// Reads columns that are compared with each other in one unit, that of the finest: numbers with as many places, times as parts of a second
/// that are as small. A column of times that could stay text by itself is read, too, where it is compared with one that is read; and one of
/// whole numbers, where it is compared with numbers that have places.
pub(crate) fn share_units(
    alloc: Global,
    reader: &mut NumberReader,
    asked: Asked<'_>,
    rows: &[Row],
    found: &mut Vec<Found>,
) -> Result<(), AllocError> {
    for _pass in 0..found.len() {
        for number in 1..asked.query.table().columns().len().saturating_add(1) {
            let texts = ColumnTexts {
                rows,
                number,
                sign: "",
            };
            refine(alloc, reader, asked, texts, found)?;
        }
    }
    Ok(())
}

/// Reads a column as finely as those that it is compared with.
fn refine(
    alloc: Global,
    reader: &mut NumberReader,
    asked: Asked<'_>,
    texts: ColumnTexts<'_>,
    found: &mut Vec<Found>,
) -> Result<(), AllocError> {
    let Some(finest) = finest_beside(asked, texts.number, found.as_slice()) else {
        return Ok(());
    };
    if !is_coarser(asked, texts.number, found.as_slice(), finest) {
        return Ok(());
    }
    if let Some(way) = way_as_fine(alloc, reader, asked, texts, finest)? {
        let words = NullWords::of(alloc, texts)?;
        put(found, texts.number, way, words)?;
    }
    Ok(())
}

/// What a column is to be read as, since it is compared with another.
#[derive(Clone, Copy)]
struct Finest {
    is_of_numbers: bool,
    fineness: usize,
}

/// The finest of the columns that one is compared with, if there is any.
fn finest_beside(asked: Asked<'_>, number: usize, found: &[Found]) -> Option<Finest> {
    let mut finest: Option<Finest> = None;
    for one in found {
        if one.sign.is_empty() && one.number != number && asked.compares_both(one.number, number) {
            let fineness = one.way.fineness();
            if fineness >= least_of(finest) {
                finest = Some(Finest {
                    is_of_numbers: one.way.is_of_numbers(),
                    fineness,
                });
            }
        }
    }
    finest
}

/// How fine a unit is; 0 where there is none.
fn least_of(finest: Option<Finest>) -> usize {
    match finest {
        Some(finest) => finest.fineness,
        None => 0,
    }
}

/// Whether a column is read in a coarser unit, or isn't read, while it has texts beside times, or whole numbers beside those with places.
fn is_coarser(asked: Asked<'_>, number: usize, found: &[Found], finest: Finest) -> bool {
    for one in found {
        if one.number == number {
            return one.sign.is_empty()
                && one.way.is_of_numbers() == finest.is_of_numbers
                && one.way.fineness() < finest.fineness;
        }
    }
    finest.fineness > 0 && asked.is_text(number) != finest.is_of_numbers
}

/// The way to read a column in a unit that is at least so fine.
fn way_as_fine(
    alloc: Global,
    reader: &mut NumberReader,
    asked: Asked<'_>,
    texts: ColumnTexts<'_>,
    finest: Finest,
) -> Result<Option<Way>, AllocError> {
    if !asked.is_text(texts.number) {
        way_of_whole(alloc, reader, texts, finest.fineness)
    } else if finest.is_of_numbers {
        decimal_way(alloc, reader, texts, finest.fineness)
    } else {
        time_way(alloc, reader, texts, finest.fineness)
    }
}

/// The way to read a column of whole numbers as numbers with so many places; None where one of them has too many digits for that.
fn way_of_whole(
    alloc: Global,
    reader: &mut NumberReader,
    column: ColumnTexts<'_>,
    places: usize,
) -> Result<Option<Way>, AllocError> {
    let Some(way) = Way::of_places(alloc, places)? else {
        return Ok(None);
    };
    if !reads_all(alloc, reader, &way.reading, column.rows, column.number)? {
        return Ok(None);
    }
    Ok(Some(way))
}

/// Puts a column in its place, in the order of the columns.
pub(crate) fn put(
    found: &mut Vec<Found>,
    number: usize,
    way: Way,
    words: NullWords,
) -> Result<(), AllocError> {
    let one = Found {
        number,
        way,
        words,
        sign: "",
    };
    let place = place_of(found.as_slice(), number);
    if let Some(there) = found.get_mut(place) {
        if there.number == number {
            *there = one;
            return Ok(());
        }
    }
    let place = place.min(found.len());
    found.insert(place, one)?;
    Ok(())
}

/// The place of a column among those that are found, or the place for it.
fn place_of(found: &[Found], number: usize) -> usize {
    for (place, one) in found.iter().enumerate() {
        if one.number >= number {
            return place;
        }
    }
    found.len()
}
