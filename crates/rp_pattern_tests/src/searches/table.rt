//! A table of patterns: what a search finds beside the words that are listed.
ghost use Rattle.std.specs.Prelude.{◌≡◌, ◌<◌, true};
ghost use Rattle.rp_words.specs.PatternForm.{form_of};
ghost use Rattle.rp_words.specs.Variables.{are_below};

use super::grid::Grid;
use super::script::{MANY, created, decide};
use crate::notation::{form_of, pattern_of};
use rp_search::{Outcome, Steps};
use rp_word_lists::{ListFault, list_words};
use rp_words::{End, Form, Label, Mark, Pattern, Seen, Word};
use std::alloc::{AllocError, Global};
use std::marker::Brand;
use std::process::Abort;
use std::sync::ledger::{Blank, Ledger};
use std::test::Fail;

/// More words than any pattern of the table has over four rows.
const CAP: usize = 100_000;

/// What is answered for A and for B at the rows from 1 on.
const WAYS: [(&str, &str); 6] = [
    ("++++", "++++"),
    ("+-+-", "-+-+"),
    ("-+++", "++-+"),
    ("++++", "----"),
    ("?++-", "+?++"),
    ("++?+", "?-++"),
];

/// Patterns, and the first word of each over no row, while the partition is open and once it is closed: `.` where it is the empty word,
/// `?` where it is open, `-` where there is none.
const FORMS: [&[(&str, char, char)]; 4] = [
    // One row after another, choices and the places that take no row.
    &[
        ("()", '.', '.'),
        ("$", '?', '.'),
        ("A B then A or", '?', '-'),
        ("A $ then A or", '?', '-'),
        ("^ A $ then then", '?', '-'),
        ("A () or B then", '?', '-'),
    ],
    // Quantifiers, greedy and reluctant, with bounds and without.
    &[
        ("A *", '?', '.'),
        ("A *?", '.', '.'),
        ("A {1,3}?", '?', '-'),
        ("A *? B then", '?', '-'),
        ("A () or {2,3}", '?', '.'),
    ],
    // Quantifiers within quantifiers, and places that take no row within them.
    &[
        ("A {0,1}? *", '?', '.'),
        ("A * * $ then", '?', '.'),
        ("A B or *? *?", '.', '.'),
        ("() {3,}", '.', '.'),
        ("^ A or *", '?', '.'),
        ("A $ or *", '?', '.'),
    ],
    // PERMUTE and exclusion.
    &[
        ("A B A &3", '?', '-'),
        ("A * B &2", '?', '-'),
        ("B A B A &4 B or", '?', '-'),
        ("A $ &2", '?', '-'),
        ("A B &2 *", '?', '.'),
        ("A * {-} B then", '?', '-'),
        ("A B or {-} *", '?', '.'),
    ],
];

/// The patterns of this place in the table.
fn forms(place: usize) -> &'static [(&'static str, char, char)] {
    FORMS.get(place).copied().unwrap_or(&[])
}

fn grids(alloc: Global, ways: &[(&str, &str)]) -> Result<Vec<Grid>, AllocError> {
    let mut grids = Vec::new(alloc);
    for (first, second) in ways {
        grids.push(Grid::answering(alloc, 0, first, second)?)?;
    }
    Ok(grids)
}

/// Whether a search finds what the definition says of each pattern of this place in the table: over 8 lists of words, and by 6 ways to
/// answer.
fn all_agree(rt: &impl Abort, alloc: Global, place: usize) -> Result<(), Fail> {
    let mut grids = grids(alloc, &WAYS)?;
    for (text, _, _) in forms(place) {
        let count = over_rows(alloc, form_of(alloc, text)?, &mut grids)?;
        assert!(rt; count == 8 * 6, "{text}: {count}");
    }
    Ok(())
}

/// Over 1 to 4 rows, open and closed.
fn over_rows(alloc: Global, form: Form, grids: &mut [Grid]) -> Result<u64, Fail> {
    if !form.is_allowed() || !form.are_below(2) {
        return Ok(0);
    }
    let pattern = Pattern::new(form);
    let mut count: u64 = 0;
    for place in 2..10 {
        let known = place / 2;
        let end = if place % 2 == 0 {
            End::Open
        } else {
            End::Closed
        };
        let words = list_words(alloc, &pattern, 1, known, end, CAP)?;
        count = count.saturating_add(over_ways(alloc, &pattern, &words, grids, known, end)?);
    }
    Ok(count)
}

/// In one run, and with one turn a run.
fn over_ways(
    alloc: Global,
    pattern: &Pattern,
    words: &[Word],
    grids: &mut [Grid],
    known: u64,
    end: End,
) -> Result<u64, Fail>
    requires { are_below 2 (form_of pattern.now) ≡ true }
{
    let mut count: u64 = 0;
    for grid in grids {
        let at_once = agrees(alloc, pattern, words, grid, known, end, 100_000)?;
        if at_once && agrees(alloc, pattern, words, grid, known, end, 1)? {
            count = count.saturating_add(1);
        }
    }
    Ok(count)
}

fn agrees(
    alloc: Global,
    pattern: &Pattern,
    words: &[Word],
    grid: &mut Grid,
    known: u64,
    end: End,
    budget: u32,
) -> Result<bool, Fail>
    requires { are_below 2 (form_of pattern.now) ≡ true }
{
    counted::<Brand>(
        Blank::new(1),
        alloc,
        pattern,
        words,
        grid,
        known,
        end,
        budget,
    )
}

fn counted<L: Ledger>(
    blank: Blank,
    alloc: Global,
    pattern: &Pattern,
    words: &[Word],
    grid: &mut Grid,
    known: u64,
    end: End,
    budget: u32,
) -> Result<bool, Fail>
    requires variables { are_below 2 (form_of pattern.now) ≡ true }
    requires name { blank.name ≡ L.name }
    requires parts { blank.parts ≡ L.parts }
    requires shared { 0 < blank.parts }
{
    grid.begin();
    grid.name(alloc, pattern)?;
    if !grid.advance(known, end) {
        return Ok(false);
    }
    let mut steps = Steps::<L>::new(blank);
    let mut search = created(alloc, pattern)?;
    let decided = decide(&mut search, grid, budget, MANY, &mut steps)?;
    Ok(is_found(grid, 1, words, decided.outcome, search.labels()))
}

/// Whether this is what the words from a row say, in their order: a refused word is passed over, and the first other one is waited
/// for, if a test or the word itself is open, or else the match.
pub fn is_found(
    grid: &Grid,
    start: u64,
    words: &[Word],
    outcome: Outcome,
    labels: &[Label],
) -> bool {
    for word in words {
        match first_not_true(grid, start, &word.labels) {
            Seen::NotTrue => {}
            Seen::Open => return outcome == Outcome::Waits,
            Seen::True => {
                return match word.mark {
                    Mark::Open => outcome == Outcome::Waits,
                    Mark::Full => outcome == Outcome::Match && labels == word.labels.as_slice(),
                };
            }
        }
    }
    outcome == Outcome::NoMatch
}

/// The first answer that isn't true, for the labels from a row on.
fn first_not_true(grid: &Grid, start: u64, labels: &[Label]) -> Seen {
    let mut row = start;
    for label in labels {
        let seen = grid.answer(row, label.var);
        if seen != Seen::True {
            return seen;
        }
        row = row.saturating_add(1);
    }
    Seen::True
}

#[test]
fn plain_forms_agree(rt: HostRuntime) -> Result<(), Fail> {
    all_agree(&rt, rt.alloc(), 0)
}

#[test]
fn quantified_forms_agree(rt: HostRuntime) -> Result<(), Fail> {
    all_agree(&rt, rt.alloc(), 1)
}

#[test]
fn nested_forms_agree(rt: HostRuntime) -> Result<(), Fail> {
    all_agree(&rt, rt.alloc(), 2)
}

#[test]
fn other_forms_agree(rt: HostRuntime) -> Result<(), Fail> {
    all_agree(&rt, rt.alloc(), 3)
}

#[test]
fn no_row_is_known(rt: HostRuntime) -> Result<(), Fail> {
    for place in 0..4 {
        all_begin(&rt, rt.alloc(), place)?;
    }
    Ok(())
}

/// Whether the first words of the patterns of this place in the table are these.
fn all_begin(rt: &impl Abort, alloc: Global, place: usize) -> Result<(), Fail> {
    for (text, open, closed) in forms(place) {
        let pattern = pattern_of(rt, alloc, text)?;
        let first = (
            first_word(alloc, &pattern, End::Open)?,
            first_word(alloc, &pattern, End::Closed)?,
        );
        assert!(rt; first == (*open, *closed), "{text}: {first:?}");
    }
    Ok(())
}

/// The first word over no row, as the table has it.
fn first_word(alloc: Global, pattern: &Pattern, end: End) -> Result<char, ListFault> {
    let words = list_words(alloc, pattern, 1, 0, end, CAP)?;
    Ok(match words.first() {
        None => '-',
        Some(word) => match (word.mark, word.labels.is_empty()) {
            (Mark::Full, true) => '.',
            (Mark::Open, true) => '?',
            (_, false) => '!',
        },
    })
}
