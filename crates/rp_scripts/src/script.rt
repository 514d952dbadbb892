//! A script: its cases, one after another, and what came of them.
use crate::case::Case;
use crate::fault::{EventFault, Stopped};
use crate::line::{Line, line_of, no_words, split_at_mark};
use crate::lines_player::LinesPlayer;
use crate::subject::Subject;
use rp_compile::compile;
use rp_query::Query;
use rp_syntax::read_table;
use std::alloc::Global;

/// How many cases told what they had to, and how many not.
#[derive(Clone, Copy)]
pub struct Counted {
    pub passed: u64,
    pub failed: u64,
}

/// Plays the cases of a script, or the one of this name where it isn't empty. What differs is printed.
pub fn play(rt: &HostRuntime, text: &str, only: &str) -> Result<Counted, Stopped> {
    let mut script = Script::new(rt.alloc(), only);
    for line in text.lines() {
        script.number = script.number.saturating_add(1);
        if let Err(fault) = script.take(rt, line) {
            return Err(script.stopped(fault));
        }
    }
    match script.end(rt) {
        Ok(counted) => Ok(counted),
        Err(fault) => Err(script.stopped(fault)),
    }
}

/// What stands in a script so far.
#[derive(Drop)]
struct Script<'a> {
    alloc: Global,
    /// The name of the one case that is played, or empty.
    only: &'a str,
    /// The number of the line at hand.
    number: u64,
    table: &'a str,
    clause: &'a str,
    /// None before the first case, and in cases that aren't played.
    case: Option<Case<'a>>,
    counted: Counted,
}

impl<'a> Script<'a> {
    fn new(alloc: Global, only: &'a str) -> Script<'a> {
        Script {
            alloc,
            only,
            number: 0,
            table: "",
            clause: "",
            case: None,
            counted: Counted {
                passed: 0,
                failed: 0,
            },
        }
    }

    fn stopped(&self, fault: EventFault) -> Stopped {
        Stopped {
            line: self.number,
            fault,
        }
    }

    /// Takes the next line.
    fn take(&mut self, rt: &HostRuntime, text: &'a str) -> Result<(), EventFault> {
        if text.starts_with("#") {
            return Ok(());
        }
        let line = line_of(text)?;
        match line.event {
            "" => Ok(()),
            "case" => self.begin_case(rt, line),
            "table" => self.set_table(line),
            "clause" => self.set_clause(line),
            "node" | "matcher" | "lines" | "input" => self.begin(line),
            _ => self.play(rt, line),
        }
    }

    fn begin_case(&mut self, rt: &HostRuntime, line: Line<'a>) -> Result<(), EventFault> {
        no_arrow(line)?;
        self.end_case(rt)?;
        let (name, _what) = split_at_mark(line.rest, ":");
        if name.is_empty() {
            return Err(EventFault::NoName);
        }
        if self.only.is_empty() || self.only == name {
            self.case = Some(Case::new(self.alloc, name));
        }
        Ok(())
    }

    /// Ends the case at hand, and counts it.
    fn end_case(&mut self, rt: &HostRuntime) -> Result<(), EventFault> {
        let Some(mut case) = self.case.take() else {
            return Ok(());
        };
        if case.end(rt, self.number)? {
            self.counted.passed = self.counted.passed.saturating_add(1);
        } else {
            self.counted.failed = self.counted.failed.saturating_add(1);
        }
        Ok(())
    }

    /// The script ends.
    fn end(&mut self, rt: &HostRuntime) -> Result<Counted, EventFault> {
        self.end_case(rt)?;
        if self.counted.passed == 0 && self.counted.failed == 0 {
            return Err(EventFault::NoCase);
        }
        Ok(self.counted)
    }

    fn set_table(&mut self, line: Line<'a>) -> Result<(), EventFault> {
        no_arrow(line)?;
        self.table = line.rest;
        Ok(())
    }

    fn set_clause(&mut self, line: Line<'a>) -> Result<(), EventFault> {
        no_arrow(line)?;
        self.clause = line.rest;
        if self.has_subject() {
            let query = self.query()?;
            if let Some(case) = &mut self.case {
                case.subject.set_query(query);
            }
        }
        Ok(())
    }

    fn has_subject(&self) -> bool {
        match &self.case {
            Some(case) => !matches!(&case.subject, Subject::Nothing),
            None => false,
        }
    }

    /// The clause over the table.
    fn query(&self) -> Result<Query, EventFault> {
        let table = read_table(self.alloc, self.table)?;
        Ok(compile(self.alloc, self.clause, &table)?)
    }

    /// Begins what a case plays.
    fn begin(&mut self, line: Line) -> Result<(), EventFault> {
        no_arrow(line)?;
        no_words(line.rest)?;
        if self.case.is_none() {
            return self.without_case();
        }
        let subject = self.subject(line.event)?;
        if let Some(case) = &mut self.case {
            case.subject = subject;
        }
        Ok(())
    }

    /// What an event of this name begins.
    fn subject(&self, event: &str) -> Result<Subject, EventFault> {
        match event {
            "lines" => Ok(Subject::Lines(LinesPlayer::new(self.alloc))),
            "input" => Ok(Subject::input(self.alloc)?),
            "matcher" => Ok(Subject::matcher(self.alloc, self.query()?)?),
            _ => Ok(Subject::node(self.alloc, self.query()?)?),
        }
    }

    fn play(&mut self, rt: &HostRuntime, line: Line) -> Result<(), EventFault> {
        let number = self.number;
        match &mut self.case {
            Some(case) => case.play(rt, number, line),
            None => self.without_case(),
        }
    }

    /// An event stands in a case that isn't played, and not before the first one.
    fn without_case(&self) -> Result<(), EventFault> {
        if self.only.is_empty() {
            return Err(EventFault::NoCase);
        }
        Ok(())
    }
}

/// Nothing is told of such a line.
fn no_arrow(line: Line) -> Result<(), EventFault> {
    if line.told.is_empty() {
        return Ok(());
    }
    Err(EventFault::NoArrow)
}
