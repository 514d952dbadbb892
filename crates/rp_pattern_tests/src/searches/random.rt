//! Random patterns over random answers. Each is searched for over its program and over linked parts, by a search that remembers
//! where it failed and by one that doesn't, from start row to start row while rows come and the partition is closed. What each
//! run comes to is held beside the words that are listed.
ghost use Rattle.std.specs.Prelude.{◌≡◌, ◌-◌, ◌^◌, ◌<◌, ◌≤◌, true, [], IsTrue, IfOk, IfSome, OnOk};
ghost use Rattle.rp_words.specs.PatternForm.{form_of};
ghost use Rattle.rp_words.specs.SameTree.{IsSameTree};
ghost use Rattle.rp_words.specs.Variables.{are_below};
ghost use Rattle.rp_pattern.specs.Prepared.{Prepares};
ghost use Rattle.rp_search.specs.Search.{start_of_search};
ghost use Rattle.rp_pattern_tests.specs.Standing.{Stands};

use super::grid::Grid;
use super::script::{MANY, decide};
use super::table::is_found;
use crate::notation::form_of;
use crate::support::{holds, same, some_form};
use rp_pattern::Prepared;
use rp_reference::Dice;
use rp_search::{Outcome, Search, Steps, Tests, law_search};
use rp_word_lists::{ListFault, list_words};
use rp_words::{End, Form, Pattern, Seen};
use std::alloc::{AllocError, Global};
use std::marker::Brand;
use std::process::Abort;
use std::sync::ledger::{Blank, Ledger};
use std::test::Fail;

/// A pattern that has more words over the rows of a case is left out.
const MOST_WORDS: usize = 3_000;

/// A search remembers nothing of its first turns: so many at most, over the few rows of a case.
const FIRST_TURNS: u32 = 1_100;

/// Answers for the rows from 0 on. Some are open until the close.
fn some_answers(alloc: Global, dice: &mut Dice, rows: u64) -> Result<Vec<Seen>, AllocError> {
    let mut answers = Vec::new(alloc);
    for _row in 0..rows.saturating_add(1) {
        answers.push(match dice.below(12) {
            0 => Seen::Open,
            1..=4 => Seen::NotTrue,
            _ => Seen::True,
        })?;
    }
    Ok(answers)
}

fn some_grid(alloc: Global, dice: &mut Dice, rows: u64) -> Result<Grid, AllocError> {
    let first = some_answers(alloc, dice, rows)?;
    let second = some_answers(alloc, dice, rows)?;
    Ok(Grid::of(alloc, dice.below(3) as u64, first, second))
}

/// Row by row, or two at once, and then the close.
fn some_stages(alloc: Global, dice: &mut Dice, rows: u64) -> Result<Vec<(u64, End)>, AllocError> {
    let mut stages = Vec::new(alloc);
    for row in 1..rows {
        if dice.below(3) > 0 {
            stages.push((row, End::Open))?;
        }
    }
    stages.push((rows, End::Closed))?;
    Ok(stages)
}

/// What came of random cases.
#[derive(Clone, Copy, PartialEq, Eq, Debug)]
struct Told {
    /// So many were played by each of four searches.
    played: u64,
    /// So many of them were found otherwise than the list of words says.
    wrong: u64,
    /// So many took a search that remembers more turns than one that doesn't.
    longer: u64,
}

fn told_of(alloc: Global, seed: u64, cases: u64) -> Result<Told, Fail> {
    let mut dice = Dice::new(seed);
    let mut told = Told {
        played: 0,
        wrong: 0,
        longer: 0,
    };
    for _case in 0..cases {
        one_case(alloc, &mut dice, &mut told)?;
    }
    Ok(told)
}

fn one_case(alloc: Global, dice: &mut Dice, told: &mut Told) -> Result<(), Fail> {
    let form = some_form(alloc, dice, 4)?;
    let rows = dice.below(5) as u64 + 1;
    let mut grid = some_grid(alloc, dice, rows)?;
    let stages = some_stages(alloc, dice, rows)?;
    play(alloc, form, rows, &mut grid, &stages, told)
}

/// Four searches over the rows of these stages. A pattern that has too many words over them is left out.
fn play(
    alloc: Global,
    form: Form,
    rows: u64,
    grid: &mut Grid,
    stages: &[(u64, End)],
    told: &mut Told,
) -> Result<(), Fail>
    requires { rows < 2 ^ 64 - 1 }
{
    if !form.is_allowed() || !form.are_below(2) {
        return Ok(());
    }
    let pattern = Pattern::new(form);
    match list_words(alloc, &pattern, 1, rows, End::Open, MOST_WORDS) {
        Ok(_) => {}
        Err(ListFault::TooMany) => return Ok(()),
        Err(ListFault::OutOfMemory) => return Err(AllocError.into()),
    }
    told.played = told.played.saturating_add(1);
    over_both(alloc, &pattern, grid, stages, told)
}

/// Over the program of a pattern, and over its linked parts.
fn over_both(
    alloc: Global,
    pattern: &Pattern,
    grid: &mut Grid,
    stages: &[(u64, End)],
    told: &mut Told,
) -> Result<(), Fail>
    requires { are_below 2 (form_of pattern.now) ≡ true }
{
    let program = Prepared::new(alloc, pattern)?;
    both_ways(alloc, pattern, &program, grid, stages, told)?;
    let parts = Prepared::linked(alloc, pattern)?;
    both_ways(alloc, pattern, &parts, grid, stages, told)
}

/// With a memory of where it failed, and without.
fn both_ways(
    alloc: Global,
    pattern: &Pattern,
    prepared: &Prepared,
    grid: &mut Grid,
    stages: &[(u64, End)],
    told: &mut Told,
) -> Result<(), Fail>
    requires variables { are_below 2 (form_of pattern.now) ≡ true }
    requires prepared { Prepares (form_of pattern.now) prepared.now }
{
    grid.remembers = true;
    let with = driven(alloc, pattern, prepared, grid, stages)?;
    grid.remembers = false;
    let without = driven(alloc, pattern, prepared, grid, stages)?;
    match (with, without) {
        (Some(with), Some(without)) => {
            if with > without {
                told.longer = told.longer.saturating_add(1);
            }
        }
        _ => told.wrong = told.wrong.saturating_add(1),
    }
    Ok(())
}

/// How many turns a search took from all start rows. None: it found something else than the list of words.
fn driven(
    alloc: Global,
    pattern: &Pattern,
    prepared: &Prepared,
    grid: &mut Grid,
    stages: &[(u64, End)],
) -> Result<Option<u64>, Fail>
    requires variables { are_below 2 (form_of pattern.now) ≡ true }
    requires prepared { Prepares (form_of pattern.now) prepared.now }
{
    counted::<Brand>(Blank::new(1), alloc, pattern, prepared, grid, stages)
}

fn counted<L: Ledger>(
    blank: Blank,
    alloc: Global,
    pattern: &Pattern,
    prepared: &Prepared,
    grid: &mut Grid,
    stages: &[(u64, End)],
) -> Result<Option<u64>, Fail>
    requires variables { are_below 2 (form_of pattern.now) ≡ true }
    requires prepared { Prepares (form_of pattern.now) prepared.now }
    requires name { blank.name ≡ L.name }
    requires parts { blank.parts ≡ L.parts }
    requires shared { 0 < blank.parts }
{
    let mut steps = Steps::<L>::new(blank);
    grid.begin();
    grid.name(alloc, pattern)?;
    if !grid.advance(1, End::Open) {
        return Ok(None);
    }
    let mut search = begun(alloc, pattern, prepared, grid)?;
    through_stages(alloc, pattern, &mut search, grid, stages, &mut steps)
}

/// The same of a search that begins.
fn through_stages<L: Ledger>(
    alloc: Global,
    pattern: &Pattern,
    search: &mut Search,
    grid: &mut Grid,
    stages: &[(u64, End)],
    steps: &mut Steps<L>,
) -> Result<Option<u64>, Fail>
    requires stands { Stands search.old (⟦<Grid as Tests>⟧.subject grid.old) grid.old.entered.items }
    requires start { start_of_search search.old ≤ grid.old.known }
    requires known { 1 ≤ grid.old.known }
{
    warm_up(search, grid, steps)?;
    let mut turns: u64 = 0;
    'stages: for (known, end) in stages {
        if !advanced(search, grid, *known, *end) {
            return Ok(None);
        }
        match from_each_row(alloc, pattern, search, grid, steps)? {
            None => return Ok(None),
            Some(taken) => turns = turns.saturating_add(taken),
        }
    }
    Ok(Some(turns))
}

fn begun(alloc: Global, pattern: &Pattern, prepared: &Prepared, grid: &Grid) -> Result<Search, Fail>
    requires variables { are_below 2 (form_of pattern.now) ≡ true }
    requires prepared { Prepares (form_of pattern.now) prepared.now }
    requires none { grid.now.entered.items ≡ [] }
    requires named { IfSome grid.now.named (IsSameTree (form_of pattern.now)) }
    ensures stands { IfOk result (λ s. Stands s (⟦<Grid as Tests>⟧.subject grid.now) grid.now.entered.items) }
    ensures start { IfOk result (λ s. start_of_search s ≡ 1) }
{
    law_search();
    let search = Search::of(alloc, prepared, 1)?;
    Ok(search)
}

/// More rows, or the close. It answers whether these go on from what was known.
fn advanced(search: &Search, grid: &mut Grid, known: u64, end: End) -> bool
    requires { Stands search.now (⟦<Grid as Tests>⟧.subject grid.old) grid.old.entered.items }
    ensures { IsTrue result → Stands search.now (⟦<Grid as Tests>⟧.subject grid.new) grid.new.entered.items }
{
    law_search();
    grid.advance(known, end)
}

/// Runs until the first turns are taken, and begins again at row 1.
fn warm_up<L: Ledger>(
    search: &mut Search,
    grid: &mut Grid,
    steps: &mut Steps<L>,
) -> Result<(), Fail>
    requires stands { Stands search.old (⟦<Grid as Tests>⟧.subject grid.old) grid.old.entered.items }
    requires start { start_of_search search.old ≤ grid.old.known }
    requires known { 1 ≤ grid.old.known }
    ensures { OnOk result (Stands search.new (⟦<Grid as Tests>⟧.subject grid.new) grid.new.entered.items) }
{
    let mut turns: u32 = 0;
    'turns: while turns < FIRST_TURNS {
        turns = turns.saturating_add(one_run(search, grid, steps)?);
    }
    Ok(())
}

/// The turns of a run, after which it begins again at row 1: one at least.
fn one_run<L: Ledger>(
    search: &mut Search,
    grid: &mut Grid,
    steps: &mut Steps<L>,
) -> Result<u32, Fail>
    requires stands { Stands search.old (⟦<Grid as Tests>⟧.subject grid.old) grid.old.entered.items }
    requires start { start_of_search search.old ≤ grid.old.known }
    ensures some { IfOk result (λ turns. 1 ≤ turns) }
    ensures stands { OnOk result (Stands search.new (⟦<Grid as Tests>⟧.subject grid.new) grid.new.entered.items) }
    ensures start { OnOk result (start_of_search search.new ≡ 1) }
    ensures known { OnOk result (grid.new.known ≡ grid.old.known) }
{
    search.run(grid, 100, steps)?;
    let turns = search.turns_taken().max(1);
    search.restart(1);
    grid.cut(0);
    Ok(turns)
}

/// How many turns were taken from its start row to the last known one, or until it waits. None: what was found isn't what the words
/// say.
fn from_each_row<L: Ledger>(
    alloc: Global,
    pattern: &Pattern,
    search: &mut Search,
    grid: &mut Grid,
    steps: &mut Steps<L>,
) -> Result<Option<u64>, Fail>
    requires { Stands search.old (⟦<Grid as Tests>⟧.subject grid.old) grid.old.entered.items }
    ensures { OnOk result (Stands search.new (⟦<Grid as Tests>⟧.subject grid.new) grid.new.entered.items) }
{
    let mut turns: u64 = 0;
    'rows: while search.start() <= grid.rows() {
        let outcome = decided(search, grid, steps)?;
        turns = turns.saturating_add(u64::from(search.turns_taken()));
        if !is_listed(alloc, pattern, search, grid, outcome)? {
            return Ok(None);
        }
        if outcome == Outcome::Waits {
            return Ok(Some(turns));
        }
        let rows = rows_to_skip(search, outcome);
        go_on(search, grid, rows);
    }
    Ok(Some(turns))
}

/// What it comes to from its start row.
fn decided<L: Ledger>(
    search: &mut Search,
    grid: &mut Grid,
    steps: &mut Steps<L>,
) -> Result<Outcome, Fail>
    requires stands { Stands search.old (⟦<Grid as Tests>⟧.subject grid.old) grid.old.entered.items }
    requires start { start_of_search search.old ≤ grid.old.known }
    ensures stands { OnOk result (Stands search.new (⟦<Grid as Tests>⟧.subject grid.new) grid.new.entered.items) }
    ensures start { OnOk result (start_of_search search.new ≡ start_of_search search.old) }
    ensures known { OnOk result (grid.new.known ≡ grid.old.known) }
{
    Ok(decide(search, grid, 100_000, MANY, steps)?.outcome)
}

/// It goes on by so many rows, and remembers where it failed.
fn go_on(search: &mut Search, grid: &mut Grid, rows: u64)
    requires stands { Stands search.old (⟦<Grid as Tests>⟧.subject grid.old) grid.old.entered.items }
    requires start { start_of_search search.old < 2 ^ 64 - 1 }
    requires rows { 1 ≤ rows }
    ensures stands { Stands search.new (⟦<Grid as Tests>⟧.subject grid.new) grid.new.entered.items }
    ensures start { start_of_search search.old < start_of_search search.new }
    ensures known { grid.new.known ≡ grid.old.known }
{
    search.move_to(search.start().saturating_add(rows));
    grid.cut(0);
}

/// How far to go on: past a match of an odd number of rows, and else to the next row.
fn rows_to_skip(search: &Search, outcome: Outcome) -> u64
    ensures { 1 ≤ result }
{
    let rows = search.labels().len() as u64;
    if outcome == Outcome::Match && rows % 2 == 1 {
        return rows;
    }
    1
}

/// Whether a run came to what the words say.
fn is_listed(
    alloc: Global,
    pattern: &Pattern,
    search: &Search,
    grid: &Grid,
    outcome: Outcome,
) -> Result<bool, Fail>
    requires stands { Stands search.now (⟦<Grid as Tests>⟧.subject grid.now) grid.now.entered.items }
    requires start { start_of_search search.now ≤ grid.now.known }
{
    let start = search.start();
    match list_words(alloc, pattern, start, grid.rows(), grid.end(), 100_000) {
        Ok(words) => Ok(is_found(grid, start, &words, outcome, search.labels())),
        Err(ListFault::OutOfMemory) => Err(AllocError.into()),
        Err(ListFault::TooMany) => Ok(false),
    }
}

fn random_cases(rt: &impl Abort, alloc: Global, seed: u64, cases: u64) -> Result<(), Fail> {
    let told = told_of(alloc, seed, cases)?;
    same(rt, (told.wrong, told.longer), (0, 0));
    holds(rt, told.played >= cases / 3 * 2);
    Ok(())
}

#[test]
fn random_patterns(rt: HostRuntime) -> Result<(), Fail> {
    random_cases(&rt, rt.alloc(), 1, 30_000)
}

/// `(A* B*)* B` over two rows, of which none is a B.
fn loops(alloc: Global) -> Result<Told, Fail> {
    let mut told = Told {
        played: 0,
        wrong: 0,
        longer: 0,
    };
    let form = form_of(alloc, "A * B * then * B then")?;
    let mut grid = Grid::answering(alloc, 0, "", "--")?;
    let stages = [(1, End::Open), (2, End::Closed)];
    play(alloc, form, 2, &mut grid, &stages, &mut told)?;
    Ok(told)
}

/// Where memory is refused for what a search remembers, it goes on without.
#[test]
fn refused_loops(rt: HostRuntime) -> Result<(), Fail> {
    let told = loops(rt.alloc())?;
    same(&rt, (told.played, told.wrong), (1, 0));
    Ok(())
}
