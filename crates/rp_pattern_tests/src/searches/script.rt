//! Searches over stages, for the tests.
ghost use Rattle.std.specs.Prelude.{◌≡◌, ◌<◌, true, [], IfOk, OnOk};
ghost use Rattle.rp_words.specs.PatternForm.{form_of};
ghost use Rattle.rp_words.specs.Variables.{are_below};
ghost use Rattle.rp_search.specs.Search.{CanRun, HasVariablesBelow, IsAtStart, IsSameSearch, IsSearchFor, RunAnswers, start_of_search};

use super::grid::{Grid, write_letters};
use crate::notation::form_of;
use crate::support::refused_twice;
use rp_search::{Outcome, Search, Steps, Tests, law_search};
use rp_words::{End, Form, Label, Pattern};
use std::alloc::{AllocError, Global};
use std::marker::Brand;
use std::process::Abort;
use std::sync::ledger::{Blank, Ledger};
use std::test::Fail;

/// More runs than any test needs.
pub const MANY: u64 = 100_000;

/// A search from row 1, and what comes of it.
#[derive(Clone, Copy)]
pub struct Case<'a> {
    /// The pattern, in postfix notation.
    pub pattern: &'a str,
    /// From how many rows before the last known one on A's test is open.
    pub reach: u64,
    /// What is answered for A.
    pub first: &'a str,
    /// What is answered for B.
    pub second: &'a str,
    /// The last known row of each stage; the close has a `$` behind it.
    pub stages: &'a str,
    /// Of each stage the letters of a match, or `none` or `waits`.
    pub outcomes: &'a str,
    /// The calls of `enter`, of which one text is right; none where they aren't looked at.
    pub calls: &'a [&'a str],
}

/// Whether each search does so, by runs of one turn, of two, and of as many as are needed.
pub fn all_come_to(rt: &impl Abort, alloc: Global, cases: &[Case]) -> Result<(), Fail> {
    for case in cases {
        for budget in &[1, 2, 1_000] {
            comes_to(rt, alloc, case, *budget)?;
        }
    }
    Ok(())
}

fn comes_to(rt: &impl Abort, alloc: Global, case: &Case, budget: u32) -> Result<(), Fail> {
    let grid = Grid::answering(alloc, case.reach, case.first, case.second)?;
    let played = play(alloc, case.pattern, grid, case.stages, budget, MANY)?;
    let is_so = played.outcomes.as_str() == case.outcomes
        && (case.calls.is_empty() || case.calls.contains(&played.calls.as_str()));
    assert!(rt;
        is_so,
        "{} by {budget}: {}, {}",
        case.pattern, played.outcomes, played.calls
    );
    Ok(())
}

/// What a search from row 1 did.
#[derive(Drop)]
pub struct Played {
    /// Of each stage the letters of a match, or `none`, `waits` or `paused`.
    pub outcomes: String,
    /// Of each stage the labels at each call of `enter`, after a `!` where a refused run was made again, and a `|`.
    pub calls: String,
    /// How many runs were made, at each stage from the last refusal on.
    pub runs: u64,
    /// How many calls of `enter`.
    pub entries: u64,
    /// How many calls of `test`.
    pub asked: u64,
    /// How many turns the last run took.
    pub taken: u32,
}

/// A search from row 1 over stages, at most `most` runs a stage.
pub fn play(
    alloc: Global,
    pattern: &str,
    grid: Grid,
    stages: &str,
    budget: u32,
    most: u64,
) -> Result<Played, Fail>
    requires none { grid.entered.items ≡ [] }
{
    let form = form_of(alloc, pattern)?;
    let stages = stages_of(alloc, stages)?;
    counted::<Brand>(Blank::new(1), alloc, form, grid, &stages, budget, most)
}

/// The stages of a text, each a last known row and an end.
fn stages_of(alloc: Global, text: &str) -> Result<Vec<(u64, End)>, Fail> {
    let mut stages = Vec::new(alloc);
    for word in text.split_whitespace() {
        stages.push(match word.strip_suffix('$') {
            Some(known) => (known.parse()?, End::Closed),
            None => (word.parse()?, End::Open),
        })?;
    }
    Ok(stages)
}

fn counted<L: Ledger>(
    blank: Blank,
    alloc: Global,
    form: Form,
    mut grid: Grid,
    stages: &[(u64, End)],
    budget: u32,
    most: u64,
) -> Result<Played, Fail>
    requires name { blank.name ≡ L.name }
    requires parts { blank.parts ≡ L.parts }
    requires shared { 0 < blank.parts }
    requires none { grid.entered.items ≡ [] }
{
    let mut played = Played {
        outcomes: String::new(alloc),
        calls: String::new(alloc),
        runs: 0,
        entries: 0,
        asked: 0,
        taken: 0,
    };
    if !form.is_allowed() || !form.are_below(2) {
        return Ok(played);
    }
    let mut steps = Steps::<L>::new(blank);
    let pattern = Pattern::new(form);
    grid.name(alloc, &pattern)?;
    let mut search = created(alloc, &pattern)?;
    'stages: for (known, end) in stages {
        if !grid.advance(*known, *end) {
            return Ok(played);
        }
        law_search();
        let decided = decide(&mut search, &mut grid, budget, most, &mut steps)?;
        tell(&decided, search.labels(), &grid, &mut played)?;
        played.taken = search.turns_taken();
        grid.forget();
    }
    Ok(played)
}

/// A search from row 1. A refused call is made again.
pub fn created(alloc: Global, pattern: &Pattern) -> Result<Search, Fail>
    requires { are_below 2 (form_of pattern.now) ≡ true }
    ensures pattern { IfOk result (IsSearchFor (form_of pattern.now)) }
    ensures start { IfOk result (λ s. start_of_search s ≡ 1) }
    ensures variables { IfOk result (HasVariablesBelow 2) }
    ensures at_start { IfOk result IsAtStart }
{
    law_search();
    match Search::new(alloc, pattern, 1) {
        Ok(search) => Ok(search),
        Err(_) => created_again(alloc, pattern),
    }
}

/// The same, where memory was refused before.
fn created_again(alloc: Global, pattern: &Pattern) -> Result<Search, Fail>
    requires { are_below 2 (form_of pattern.now) ≡ true }
    ensures pattern { IfOk result (IsSearchFor (form_of pattern.now)) }
    ensures start { IfOk result (λ s. start_of_search s ≡ 1) }
    ensures variables { IfOk result (HasVariablesBelow 2) }
    ensures at_start { IfOk result IsAtStart }
{
    law_search();
    match Search::new(alloc, pattern, 1) {
        Ok(search) => Ok(search),
        Err(_) => Err(refused_twice()),
    }
}

/// What the runs of a stage came to.
#[derive(Clone, Copy)]
pub struct Decided {
    pub outcome: Outcome,
    /// How many runs were made, from the last refusal on.
    pub runs: u64,
    pub began_again: bool,
}

/// Runs until the search isn't paused, at most `most` times. A refused run is made again, once.
pub fn decide<L: Ledger>(
    search: &mut Search,
    grid: &mut Grid,
    budget: u32,
    most: u64,
    steps: &mut Steps<L>,
) -> Result<Decided, Fail>
    requires can_run { CanRun search.old (⟦<Grid as Tests>⟧.subject grid.old) (⟦<Grid as Tests>⟧.entered grid.old) }
    ensures answers { IfOk result (λ decided.
        RunAnswers search.old search.new (⟦<Grid as Tests>⟧.subject grid.old) decided.outcome) }
    ensures same { OnOk result (IsSameSearch search.old search.new) }
    ensures subject { OnOk result (⟦<Grid as Tests>⟧.subject grid.new ≡ ⟦<Grid as Tests>⟧.subject grid.old) }
    ensures can_run { OnOk result
        (CanRun search.new (⟦<Grid as Tests>⟧.subject grid.new) (⟦<Grid as Tests>⟧.entered grid.new)) }
{
    let mut decided = Decided {
        outcome: Outcome::Paused,
        runs: 0,
        began_again: false,
    };
    'runs: for _run in 0..most {
        run_once(search, grid, budget, steps, &mut decided)?;
        if decided.outcome != Outcome::Paused {
            return Ok(decided);
        }
    }
    Ok(decided)
}

fn run_once<L: Ledger>(
    search: &mut Search,
    grid: &mut Grid,
    budget: u32,
    steps: &mut Steps<L>,
    decided: &mut Decided,
) -> Result<(), Fail>
    requires paused { decided.old.outcome ≡ Outcome.Paused }
    requires can_run { CanRun search.old (⟦<Grid as Tests>⟧.subject grid.old) (⟦<Grid as Tests>⟧.entered grid.old) }
    ensures answers { OnOk result (RunAnswers search.old search.new
        (⟦<Grid as Tests>⟧.subject grid.old) decided.new.outcome) }
    ensures same { OnOk result (IsSameSearch search.old search.new) }
    ensures subject { OnOk result (⟦<Grid as Tests>⟧.subject grid.new ≡ ⟦<Grid as Tests>⟧.subject grid.old) }
    ensures can_run { OnOk result
        (CanRun search.new (⟦<Grid as Tests>⟧.subject grid.new) (⟦<Grid as Tests>⟧.entered grid.new)) }
{
    match search.run(grid, budget, steps) {
        Ok(outcome) => {
            decided.outcome = outcome;
            decided.runs = decided.runs.saturating_add(1);
            Ok(())
        }
        Err(_) => {
            if decided.began_again {
                return Err(refused_twice());
            }
            decided.began_again = true;
            decided.runs = 0;
            grid.forget();
            Ok(())
        }
    }
}

fn tell(
    decided: &Decided,
    labels: &[Label],
    grid: &Grid,
    played: &mut Played,
) -> Result<(), AllocError> {
    match decided.outcome {
        Outcome::Match => write_letters(labels, &mut played.outcomes)?,
        Outcome::NoMatch => played.outcomes.push_str("none ")?,
        Outcome::Waits => played.outcomes.push_str("waits ")?,
        Outcome::Paused => played.outcomes.push_str("paused ")?,
    }
    if decided.began_again {
        played.calls.push('!')?;
    }
    played.calls.push_str(&grid.calls)?;
    played.calls.push('|')?;
    played.runs = played.runs.saturating_add(decided.runs);
    played.entries = grid.entries;
    played.asked = grid.asked.get();
    Ok(())
}
