//! What is written in a clause in place of BETWEEN and IN.

use crate::instead::told;
use crate::words::misplaced_behind;
use rp_wording::{
    Advice, Part, Pieces, Reading, begins_condition, closing, ends_condition, is_behind_not,
    is_one_of, said, short_text, value_end, value_start,
};
use std::alloc::Global;

/// So many values of an IN are written out.
const VALUES: usize = 16;

/// A BETWEEN or an IN.
#[derive(Clone, Copy)]
struct Test<'a> {
    /// What is compared.
    value: &'a str,
    /// The index of the word.
    word: usize,
    /// Whether a NOT stands right before the word.
    is_opposite: bool,
    /// Whether a NOT stands right before what is compared.
    is_behind_not: bool,
}

/// The comparisons that the BETWEEN or IN at the place stands for, perhaps behind a NOT there; where what is compared, and with what,
/// isn't certain, how they are written.
pub(crate) fn rewritten(alloc: Global, reading: &Reading<'_>) -> Option<Advice> {
    if !matches!(reading.part(), Part::Measures | Part::Define) {
        return None;
    }
    let is_opposite = is_one_of(reading.here(), "NOT");
    let word = reading.at.saturating_add(usize::from(is_opposite));
    if !is_one_of(reading.written(word), "BETWEEN IN") {
        return None;
    }
    if is_query(reading, word) {
        return Some(Advice::of(alloc, misplaced_behind("SELECT")?));
    }
    if let Some(advice) = fully(alloc, reading, word, is_opposite) {
        return Some(advice);
    }
    opposite(alloc, reading.written(word), is_opposite)
}

/// Whether a SELECT stands in the brackets behind a word.
fn is_query(reading: &Reading<'_>, word: usize) -> bool {
    reading.written(word.saturating_add(1)) == "("
        && is_one_of(reading.written(word.saturating_add(2)), "SELECT")
}

/// The comparisons with the words of the clause.
fn fully(alloc: Global, reading: &Reading<'_>, word: usize, is_opposite: bool) -> Option<Advice> {
    let start = value_start(reading, reading.at)?;
    if !begins_condition(reading, start) {
        return None;
    }
    let test = Test {
        value: short_text(reading, start, reading.at)?,
        word,
        is_opposite,
        is_behind_not: is_behind_not(reading, start),
    };
    if is_one_of(reading.written(word), "BETWEEN") {
        return between(alloc, reading, test);
    }
    one_of(alloc, reading, test)
}

/// How a NOT BETWEEN and a NOT IN are written. (Of those without a NOT the same is said wherever they are.)
fn opposite(alloc: Global, word: &str, is_opposite: bool) -> Option<Advice> {
    if !is_opposite {
        return None;
    }
    let found = if is_one_of(word, "BETWEEN") {
        said(
            "there is no BETWEEN",
            "write (x < 3 OR x > 7), with what is compared in place of x",
        )
    } else {
        said(
            "there is no IN",
            "write x <> 'a' AND x <> 'b', with what is compared in place of x",
        )
    };
    Some(Advice::of(alloc, found?))
}

/// What a BETWEEN stands for.
fn between<'a>(alloc: Global, reading: &Reading<'a>, test: Test<'a>) -> Option<Advice> {
    let lower = test.word.saturating_add(1);
    let and = value_end(reading, lower)?;
    let upper = and.saturating_add(1);
    let end = value_end(reading, upper)?;
    if !is_one_of(reading.written(and), "AND") || !ends_condition(reading, end) {
        return None;
    }
    let least = short_text(reading, lower, and)?;
    let most = short_text(reading, upper, end)?;
    let form = match (test.is_opposite, test.is_behind_not) {
        (true, _) => "write ({} < {} OR {} > {})",
        (false, true) => "write ({} >= {} AND {} <= {})",
        (false, false) => "write {} >= {} AND {} <= {}",
    };
    let values = &[test.value, least, test.value, most];
    told(alloc, "there is no BETWEEN", form, values)
}

/// What an IN stands for.
fn one_of<'a>(alloc: Global, reading: &Reading<'a>, test: Test<'a>) -> Option<Advice> {
    let open = test.word.saturating_add(1);
    let close = closing(reading, open)?;
    if reading.written(open) != "(" || !ends_condition(reading, close.saturating_add(1)) {
        return None;
    }
    let first = open.saturating_add(1);
    let is_alone = value_end(reading, first)? == close;
    let is_bracketed = !is_alone && (!test.is_opposite || test.is_behind_not);
    let (front, end) = if is_bracketed {
        ("write (", ")")
    } else {
        ("write ", "")
    };
    let mut help = Pieces::of(alloc, front);
    push_comparisons(&mut help, reading, test, first)?;
    help.push(end);
    Some(Advice::with_help(alloc, "there is no IN", help))
}

/// Adds a comparison with each value of a list from its first token on; nothing is certain where one is something else, or where
/// there are many.
fn push_comparisons<'a>(
    help: &mut Pieces,
    reading: &Reading<'a>,
    test: Test<'a>,
    first: usize,
) -> Option<()> {
    let (sign, between) = if test.is_opposite {
        ("<>", " AND ")
    } else {
        ("=", " OR ")
    };
    let mut start = first;
    for _ in 0..VALUES {
        let end = value_end(reading, start)?;
        let one = short_text(reading, start, end)?;
        help.push_filled("{} {} {}", &[test.value, sign, one]);
        if reading.written(end) == ")" {
            return Some(());
        }
        if reading.written(end) != "," {
            return None;
        }
        help.push(between);
        start = end.saturating_add(1);
    }
    None
}
