//! Clauses and rows that are put together by a fixed seed. What is known after each row and after the close is compared
//! with the plain program.
ghost use Rattle.std.specs.Prelude.{◌≡◌, ◌<◌, length};

use super::player::{NULL, Player};
use crate::support::query_of;
use rp_reference::Dice;
use rp_search::Steps;
use std::alloc::Global;
use std::marker::Brand;
use std::sync::ledger::{Blank, Ledger};
use std::test::Fail;

/// Each has a row of A and one of B in some word.
const PATTERNS: [&str; 24] = [
    "A B",
    "A B+",
    "A* B*",
    "A+? B",
    "A | A B",
    "A B | A",
    "(A B?)+",
    "A?? B{1,2}",
    "PERMUTE(A, B)",
    "PERMUTE(A?, B, C)",
    "^ A* B",
    "A* B $",
    "A $ | B | A C",
    "(A | B)*",
    "A B C | A B | A",
    "A B*? C",
    "(A* | B)*",
    "(A | ()) B{0,2}?",
    "^ A | B $",
    "(A?? B??)*",
    "A {- B+ -} C?",
    "({- A -} B)*",
    "{- A* -} B",
    "A {- C? -} B*",
];

/// The patterns from here on exclude rows.
const EXCLUDING: usize = 20;

const DEFINITIONS: [&str; 8] = [
    "A AS p = 1, B AS p >= 2",
    "A AS p < 3, B AS p > PREV(p)",
    "A AS p <= NEXT(p), B AS p <> 2",
    "A AS SUM(A.p) <= 4, B AS COUNT(B.*) < 3 AND p > 1",
    "A AS NOT p = 2, B AS FIRST(A.p) <= p OR p IS NULL",
    "A AS p = 1 OR NEXT(p) = 1, B AS LAST(A.p, 1) IS NULL",
    "B AS p > 1",
    "A AS PREV(p, 2) IS NULL, B AS MAX(p) = p AND NEXT(p, 2) > 1",
];

const SKIPS: [&str; 8] = [
    "PAST LAST ROW",
    "PAST LAST ROW",
    "PAST LAST ROW",
    "TO NEXT ROW",
    "TO NEXT ROW",
    "TO FIRST B",
    "TO LAST A",
    "TO LAST U",
];

/// The last two are no choice for patterns that exclude rows.
const SHOWN: [&str; 6] = [
    "ONE ROW PER MATCH",
    "ALL ROWS PER MATCH",
    "ALL ROWS PER MATCH SHOW EMPTY MATCHES",
    "ALL ROWS PER MATCH OMIT EMPTY MATCHES",
    "ALL ROWS PER MATCH WITH UNMATCHED ROWS",
    "ALL ROWS PER MATCH WITH UNMATCHED ROWS",
];

const MEASURES: [&str; 6] = [
    "MATCH_NUMBER() AS n, CLASSIFIER() AS c, COUNT(*) AS k",
    "FIRST(A.p) AS a, LAST(B.p) AS b, LAST(p, 1) AS l",
    "SUM(p) AS s, FINAL SUM(B.p) AS f, COUNT(U.p) AS k",
    "NEXT(p) AS q, PREV(FIRST(p)) AS r",
    "FINAL LAST(p) AS l, MIN(A.p) AS m, MAX(U.p) AS u",
    "NEXT(LAST(A.p), 2) AS q, FINAL COUNT(*) - COUNT(*) AS d",
];

const NUMBERS: [i64; 6] = [1, 2, 3, 1, 2, NULL];

/// One of these texts.
fn one_of(dice: &mut Dice, texts: &[&'static str]) -> &'static str
    requires { 0 < length texts.now }
{
    texts[dice.below(texts.len() as u64)]
}

/// Which rows a match of this pattern gives.
fn shown(dice: &mut Dice, pattern: usize) -> &'static str {
    if pattern < EXCLUDING {
        return one_of(dice, &SHOWN);
    }
    one_of(dice, &SHOWN[..4])
}

/// A clause with this pattern.
fn clause(alloc: Global, dice: &mut Dice, pattern: usize) -> Result<String, Fail>
    requires { pattern < 24 }
{
    Ok(format!(in alloc;
        "MEASURES {} {} AFTER MATCH SKIP {} PATTERN ({}) SUBSET U = (A, B) DEFINE {}",
        one_of(dice, &MEASURES),
        shown(dice, pattern),
        one_of(dice, &SKIPS),
        PATTERNS[pattern],
        one_of(dice, &DEFINITIONS),
    )?)
}

/// One to six rows, and then the close. What is known is compared behind each, by polls of this budget.
fn play<L: Ledger>(
    player: &mut Player,
    dice: &mut Dice,
    budget: u32,
    steps: &mut Steps<L>,
) -> Result<(), Fail> {
    for _row in 0..dice.below(6) + 1 {
        player.push(NUMBERS[dice.below(6)])?;
        player.compare(budget, steps)?;
    }
    player.close()?;
    player.compare(budget, steps)
}

/// A clause with this pattern, over some rows by polls of one turn, and over others by polls of many.
fn play_pattern<L: Ledger>(
    alloc: Global,
    pattern: usize,
    dice: &mut Dice,
    steps: &mut Steps<L>,
) -> Result<(), Fail>
    requires { pattern < 24 }
{
    let text = clause(alloc, dice, pattern)?;
    let query = query_of(alloc, "sym text, t int, p int", text.as_str())?;
    for budget in &[1, 100_000] {
        let mut player = Player::new(alloc, &query)?;
        play(&mut player, dice, *budget, steps)?;
    }
    Ok(())
}

/// Each pattern five times.
fn play_patterns<L: Ledger>(blank: Blank, alloc: Global) -> Result<(), Fail>
    requires name { blank.name ≡ L.name }
    requires parts { blank.parts ≡ L.parts }
    requires shared { 0 < blank.parts }
{
    let mut steps = Steps::<L>::new(blank);
    let mut dice = Dice::new(1);
    for turn in 0..120 {
        play_pattern(alloc, turn % 24, &mut dice, &mut steps)?;
    }
    Ok(())
}

#[test]
fn cases_by_a_plain_program(rt: HostRuntime) -> Result<(), Fail> {
    play_patterns::<Brand>(Blank::new(1), rt.alloc())
}
