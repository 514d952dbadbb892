//! Plays scripts: what a node or a matcher is told, line by line, and what it has to answer; and what lines, columns and fields are
//! read as.
//!
//! A script is read from standard input. It is made of cases, and a case of events, a line each:
//!
//! ```text
//! # A fall and then a rise.
//! table sym text, t int, p int
//! clause PARTITION BY sym ORDER BY t MEASURES FIRST(p) AS a PATTERN (A B+ C+) DEFINE B AS p < PREV(p), C AS p > PREV(p)
//!
//! case v_shape_open: after three rows C could go on
//! node
//! row 1 x 1 10 -> new
//! row 2 x 2 8 -> new
//! row 3 x 3 9 -> new
//! drain 1000 x -> idle
//! close 3 x -> new
//! drain 1000 x -> (1, 1, x 10) (2, End) idle
//! ```
//!
//! - `case NAME: what it shows` begins a case, which goes on to the next one.
//! - `table COLUMNS` and `clause CLAUSE` hold from there on, in the cases below too, until others are given.
//! - `node` and `matcher` begin a new node or matcher of that clause over that table, and `lines` and `input` take none.
//!   `node_player`, `matcher_player`, `lines_player` and `input_player` say which events each has.
//! - Behind the arrow stands what is told of an event. A line without an arrow leaves what it tells to the next line that has
//!   one; a case has one at least, and all that it tells stands behind one.
//! - An item is told as `(2, 1, x 7)`: its place, the number of its match, and its cells; of a row in no match the number is
//!   `none`. The other items are `(3, End)`, `(3, SkipSame)` and `(3, SkipNoRow)`.
//! - A cell is `null`, a whole number, or else a text without a space, `''` an empty one.
//! - Empty lines are for readers alone, and so are lines that begin with `#`.
//!
//! Nothing is printed where each event tells what it has to; of each other case its first difference is. With a name behind
//! it the program plays the case of that name alone, and with `--count` it prints at last how many cases passed and failed.
//!
//! The exit status is 0, or
//!
//! - 1 where a case tells something else;
//! - 2 where the script is at fault: an event that isn't known, a line that can't be read, a case that tells nothing, no
//!   case at all. Standard error has the line's number;
//! - 3 where the program itself is refused memory;
//! - 4 where what is played is refused memory once more. Its call is made again after a first time, as whoever uses a node
//!   or a matcher may do: `.ci/refused` refuses one call for memory in each run, so that no second one is.
#![tactic(auto)]

mod case;
mod digest;
mod driven;
mod fault;
mod hasher;
mod input_player;
mod line;
mod lines_player;
mod matcher_player;
mod node_player;
mod reading_text;
mod refusals;
mod script;
mod subject;
mod told;

use fault::{EventFault, Stopped};
use script::{Counted, play};
use std::process::ExitCode;
use std::{env, io};

fn main(rt: HostRuntime) -> io::Result<ExitCode> {
    match run(&rt) {
        Ok(counted) => Ok(ExitCode::from(if counted.failed == 0 { 0 } else { 1 })),
        Err(stopped) => {
            let _ = eprintln!(rt; "rp_scripts: {stopped}");
            Ok(ExitCode::from(stopped.fault.status()))
        }
    }
}

/// Plays standard input, as the program's one word says.
fn run(rt: &HostRuntime) -> Result<Counted, Stopped> {
    let word = word_of(rt)?;
    let word = word.as_str();
    let text = read_script(rt)?;
    let is_counted = word == "--count";
    let name = if is_counted { "" } else { word };
    let counted = play(rt, text.as_str(), name)?;
    if is_counted {
        tell_count(rt, counted)?;
    }
    Ok(counted)
}

/// The word behind the program's name, or none.
fn word_of(rt: &HostRuntime) -> Result<String, EventFault> {
    for word in env::args(rt)?.skip(1) {
        return Ok(word);
    }
    Ok(String::new(rt.alloc()))
}

fn read_script(rt: &HostRuntime) -> Result<String, EventFault> {
    Ok(io::read_to_string(rt.alloc(), rt.stdin())?)
}

fn tell_count(rt: &HostRuntime, counted: Counted) -> Result<(), EventFault> {
    let Counted { passed, failed } = counted;
    println!(rt; "{passed} passed, {failed} failed")?;
    Ok(())
}
