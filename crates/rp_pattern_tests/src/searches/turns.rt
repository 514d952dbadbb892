//! How many turns a search takes. Each choice that is taken up is one: where parts are chosen from, a row, a place that takes
//! none, a full word, and that nothing is left. To join parts, to exclude one and to require an iteration takes none.

use super::grid::Grid;
use super::script::{MANY, play};
use crate::support::{holds, same};
use std::alloc::Global;
use std::process::Abort;
use std::test::Fail;

/// Patterns, what is answered for A and for B, the last known row, with a `$` where the partition is closed, and the turns until a search
/// from row 1 is at its end.
const TURNS: [(&str, &str, &str, &str, u64); 19] = [
    // The row, the word.
    ("A", "", "", "1$", 2),
    // The row, nothing left.
    ("A", "-", "", "1$", 2),
    // A, B, the word.
    ("A B then", "", "", "2$", 3),
    // Chosen from, A, B, the word.
    ("A B or", "-", "", "1$", 4),
    // Where r rows are left, `(A | A)* B` takes t(r) turns: another iteration or B, the choice of two A, each A and after it
    // t(r - 1), and B. So t(0) = 5 and t(r) = 5 + 2 t(r - 1), which gives 15, 35, 75. Finding that nothing is left is one more.
    ("A A or * B then", "", "---", "1$", 16),
    ("A A or * B then", "", "---", "2$", 36),
    ("A A or * B then", "", "---", "3$", 76),
    // Three times another iteration or none, two rows, an A past the last row, the word.
    ("A *", "", "", "2$", 7),
    // Another iteration or none, A, B, another or none, an A past the last row, the word.
    ("A B then *", "", "", "2$", 6),
    // A, B, and again, the word.
    ("A B then {2,2}", "", "", "4$", 5),
    // Two rows, another iteration or none, the word.
    ("A {2,3}?", "", "", "3$", 4),
    // An order, A, B, the word.
    ("A B &2", "", "", "2$", 4),
    // An order, A refused, in the other order B, A, the word.
    ("A B &2", "-", "", "2$", 5),
    // A, excluded, B, the word.
    ("A {-} B then", "", "", "2$", 3),
    // A, B, both excluded, the word.
    ("A B then {-}", "", "", "2$", 3),
    // The start, A, the end, the word.
    ("^ A $ then then", "", "", "1$", 4),
    // A, whose test is open, B past the known row.
    ("A B then", "?", "", "1", 2),
    // Chosen from, A, the start, which isn't there, B in place of finding nothing behind A, the word.
    ("A ^ then B or", "?", "", "1", 5),
    // A, whose test is open, B, B, a word behind it.
    ("A B B then then", "?", "", "3", 4),
];

#[test]
fn turns_are_counted(rt: HostRuntime) -> Result<(), Fail> {
    all_take(&rt, rt.alloc(), &TURNS)
}

/// Whether each search takes so many turns, so runs of one turn.
fn all_take(
    rt: &impl Abort,
    alloc: Global,
    cases: &[(&str, &str, &str, &str, u64)],
) -> Result<(), Fail> {
    for (pattern, first, second, stage, turns) in cases {
        let grid = Grid::answering(alloc, 0, first, second)?;
        let played = play(alloc, pattern, grid, stage, 1, MANY)?;
        assert!(rt;
            played.runs == *turns,
            "{pattern} over {stage}: {}",
            played.runs
        );
    }
    Ok(())
}

/// Eight As in any order, and then a B that never comes, over nine rows. There are 40,320 orders of them, but 256 sets of those that are
/// still to be mapped: after the first 1,000 turns, of which nothing is remembered, each fails once.
#[test]
fn turns_of_eight_in_any_order(rt: HostRuntime) -> Result<(), Fail> {
    let mut grid = Grid::answering(rt.alloc(), 0, "", "----------")?;
    grid.remembers = true;
    let pattern = "A A A A A A A A &8 B then";
    let played = play(rt.alloc(), pattern, grid, "9$", 1, MANY)?;
    holds(&rt, played.runs < 4_000);
    Ok(())
}

/// A, whose test is open, and behind it `(A | B){30} $`, which fails only after 30 rows, at the end of each of 2^30 paths.
/// Where r rows are left it takes 4 * 2^r - 3 turns, so that the first 1,000 turns, of which nothing is remembered, go
/// through the last 8 rows at most. Then a row takes 6 turns: the choice of the row before it, the choice of two, and of
/// each the row and a place that was come to before. So it fails within 1,000 turns, 6 for each of 30 rows, and those of
/// the way down, 60. As long as rows may come that make a word, it waits.
#[test]
fn turns_of_dead_ends_behind_an_open_test(rt: HostRuntime) -> Result<(), Fail> {
    let grid = Grid::answering(rt.alloc(), 0, "?", "")?;
    let pattern = "A A B or {30,30} $ then then";
    let played = play(rt.alloc(), pattern, grid, "20 31 41", 1, 5_000)?;
    same(&rt, played.outcomes.as_str(), "waits waits none ");
    holds(&rt, played.runs < 1_300);
    Ok(())
}
