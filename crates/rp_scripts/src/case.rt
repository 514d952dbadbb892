//! The case at hand.
use crate::fault::EventFault;
use crate::line::Line;
use crate::subject::Subject;
use std::alloc::Global;

/// The case at hand: what it plays, and what was told of it.
#[derive(Drop)]
pub struct Case<'a> {
    name: &'a str,
    pub subject: Subject,
    /// What was told since the last arrow.
    told: String,
    has_arrow: bool,
    agrees: bool,
}

impl<'a> Case<'a> {
    pub fn new(alloc: Global, name: &'a str) -> Case<'a> {
        Case {
            name,
            subject: Subject::Nothing,
            told: String::new(alloc),
            has_arrow: false,
            agrees: true,
        }
    }

    /// Plays an event, and compares what was told where the line has an arrow. `number` is the line's.
    pub fn play(&mut self, rt: &HostRuntime, number: u64, line: Line) -> Result<(), EventFault> {
        self.subject.act(line, &mut self.told)?;
        if line.told.is_empty() {
            return Ok(());
        }
        self.has_arrow = true;
        if self.told.as_str() != line.told {
            self.differ(rt, number, line.told)?;
        }
        self.told.clear();
        Ok(())
    }

    /// Whether the case agrees. All that was told stands behind an arrow.
    pub fn end(&mut self, rt: &HostRuntime, number: u64) -> Result<bool, EventFault> {
        if !self.has_arrow {
            return Err(EventFault::NothingTold);
        }
        if !self.told.is_empty() {
            self.differ(rt, number, "nothing more")?;
        }
        Ok(self.agrees)
    }

    /// Prints the first difference of a case.
    fn differ(&mut self, rt: &HostRuntime, number: u64, wanted: &str) -> Result<(), EventFault> {
        if self.agrees {
            let name = self.name;
            let told = self.told.as_str();
            println!(rt; "{name}, line {number}: wanted and told:\n{wanted}\n{told}")?;
        }
        self.agrees = false;
        Ok(())
    }
}
