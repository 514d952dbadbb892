//! Tests of whole searches. What is expected is worked out by hand.
mod grid;
mod random;
mod refused;
mod script;
mod table;
mod turns;

ghost use Rattle.std.specs.Prelude.{◌≡◌, ◌<◌};

use crate::notation::pattern_of;
use crate::support::{holds, same};
use grid::Grid;
use rp_search::{Outcome, Search, Steps, Tests, law_found, law_search};
use rp_words::{End, Form, Pattern};
use script::{Case, MANY, all_come_to, created, play};
use std::alloc::Global;
use std::marker::Brand;
use std::process::Abort;
use std::sync::ledger::{Blank, Ledger};
use std::test::Fail;

/// Searches, with what comes of each stage.
const SEARCHES: [Case; 6] = [
    // A shorter match first, where nothing preferred waits.
    Case {
        pattern: "A A B then or",
        reach: 0,
        first: "",
        second: "",
        stages: "1",
        outcomes: "A ",
        calls: &[],
    },
    // The preferred word runs into row 2. The close takes it away.
    Case {
        pattern: "A B then A or",
        reach: 0,
        first: "",
        second: "",
        stages: "1 1 1$",
        outcomes: "waits waits A ",
        calls: &[],
    },
    // `$` may hold after the one known row, and doesn't once there is another.
    Case {
        pattern: "A $ then A or",
        reach: 0,
        first: "",
        second: "",
        stages: "1 2",
        outcomes: "waits A ",
        calls: &[],
    },
    // A test is open, but no word begins with its row.
    Case {
        pattern: "A ^ then B or",
        reach: 5,
        first: "",
        second: "",
        stages: "2",
        outcomes: "B ",
        calls: &[],
    },
    // A test that is open is asked again over more rows, and the search goes on from there.
    Case {
        pattern: "A * B then",
        reach: 2,
        first: "++-",
        second: "",
        stages: "1 2 3 4 5 5$",
        outcomes: "waits waits waits waits AAB AAB ",
        calls: &[],
    },
    // One row more at a time, and then the close. Each row is entered once for A and once for B, unless a stage that met a refusal
    // begins again.
    Case {
        pattern: "A * B then",
        reach: 0,
        first: "",
        second: "----",
        stages: "1 2 3 4 4$",
        outcomes: "waits waits waits waits none ",
        calls: &[
            "A |AA |AAA |AAAA |AAAB AAB AB B |",
            "!A |AA |AAA |AAAA |AAAB AAB AB B |",
            "A |!A AA |AAA |AAAA |AAAB AAB AB B |",
            "A |AA |!A AA AAA |AAAA |AAAB AAB AB B |",
            "A |AA |AAA |!A AA AAA AAAA |AAAB AAB AB B |",
            "A |AA |AAA |AAAA |!A AA AAA AAAA AAAB AAB AB B |",
        ],
    },
];

#[test]
fn searches_come_to_their_ends(rt: HostRuntime) -> Result<(), Fail> {
    all_come_to(&rt, rt.alloc(), &SEARCHES)
}

/// Forty refused rows take more turns than the budget.
#[test]
fn forty_rows_pause(rt: HostRuntime) -> Result<(), Fail> {
    let refused = "----------------------------------------";
    let grid = Grid::answering(rt.alloc(), 0, "", refused)?;
    let played = play(rt.alloc(), "A A or * B then", grid, "40$", 1_000, 1)?;
    same(&rt, played.outcomes.as_str(), "paused ");
    holds(&rt, played.entries <= 1_000);
    Ok(())
}

/// The first test is asked before the words are listed, of which there are more than 2 to the 40th.
#[test]
fn rows_are_entered_one_by_one(rt: HostRuntime) -> Result<(), Fail> {
    let grid = Grid::new(rt.alloc(), 0);
    let played = play(rt.alloc(), "A A A or * B then or", grid, "40$", 10, 2)?;
    same(&rt, played.outcomes.as_str(), "A ");
    holds(&rt, ["A |", "!A |"].contains(&played.calls.as_str()));
    Ok(())
}

/// A search begins at its start row without labels. What the laws say, calls of them do nothing for.
#[test]
fn search_begins(rt: HostRuntime) -> Result<(), Fail> {
    law_found();
    law_search();
    let search = Search::new(rt.alloc(), &pattern_of(&rt, rt.alloc(), "A")?, 3)?;
    same(&rt, search.start(), 3);
    holds(&rt, search.labels().is_empty());
    Ok(())
}

/// Each row is asked once. Of `A* B` over AAB these are A, AA, AAA and AAB: the third row isn't admitted for A.
#[test]
fn rows_are_asked_once(rt: HostRuntime) -> Result<(), Fail> {
    let grid = Grid::answering(rt.alloc(), 0, "++-", "")?;
    let played = play(rt.alloc(), "A * B then", grid, "3$", 100, MANY)?;
    same(&rt, played.outcomes.as_str(), "AAB ");
    holds(
        &rt,
        played.calls.as_str() == "!A AA AAA AAB |" || played.asked == 4,
    );
    Ok(())
}

/// A run tells its turns: for A these are the row and the word. A search that restarts does as a new one.
#[test]
fn search_restarts(rt: HostRuntime) -> Result<(), Fail> {
    let found = restarted::<Brand>(Blank::new(1), rt.alloc())?;
    same(&rt, found, Some((2, 2)));
    Ok(())
}

/// The turns that a search for A takes from row 1 and, after a restart, from row 2, where it has a match at both.
fn restarted<L: Ledger>(blank: Blank, alloc: Global) -> Result<Option<(u32, u32)>, Fail>
    requires name { blank.name ≡ L.name }
    requires parts { blank.parts ≡ L.parts }
    requires shared { 0 < blank.parts }
{
    let mut steps = Steps::<L>::new(blank);
    let mut grid = Grid::new(alloc, 0);
    if !grid.advance(2, End::Closed) {
        return Ok(None);
    }
    let form = Form::variable(0);
    if !form.is_allowed() || !form.are_below(2) {
        return Ok(None);
    }
    let mut search = created(alloc, &Pattern::new(form))?;
    let first = search.run(&mut grid, 10, &mut steps)?;
    let turns = search.turns_taken();
    search.restart(2);
    grid.cut(0);
    let second = search.run(&mut grid, 10, &mut steps)?;
    if first != Outcome::Match || second != Outcome::Match || search.start() != 2 {
        return Ok(None);
    }
    Ok(Some((turns, search.turns_taken())))
}
