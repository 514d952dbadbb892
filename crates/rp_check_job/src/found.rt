//! What `check` found.

use crate::literals::literal_told;
use rp_explain_clauses::{AsNumbers, Compared, Explained};
use rp_explain_queries::{describe, doubt};
use rp_filter::Filter;
use rp_job::Verdict;
use rp_query::Query;
use rp_question::InputShape;
use rp_report::{Findings, FoundFault, FoundInput, FoundNote, FoundRows, findings_line};
use rp_value::Row;
use rp_wording::{Pieces, Report, shown_line};
use std::alloc::{AllocError, Global};

/// Which rows of the inputs a clause sees.
pub(crate) enum RowsSeen {
    /// All of them.
    All,
    /// Those that meet a condition.
    Meeting(Filter),
    /// It isn't known, since the condition has a fault.
    Unknown,
}

/// It is let go of by a call, wherever it is held.
impl Drop for RowsSeen {
    fn drop(self) {
        match self {
            RowsSeen::All => {}
            RowsSeen::Meeting(_) => {}
            RowsSeen::Unknown => {}
        }
    }
}

/// What was found so far. Where memory is refused to a part of it, whoever asks for it is told.
pub(crate) struct Found {
    pub(crate) alloc: Global,
    /// What is printed for people.
    pub(crate) text: Pieces,
    /// The columns that a clause sees, where they have no fault.
    pub(crate) shape: Option<InputShape>,
    /// The text of these columns, where they are proposed.
    pub(crate) proposed: Option<String>,
    /// The query of the clause, where that has no fault.
    pub(crate) query: Option<Query>,
    /// What the clause would be if columns of texts were numbers, where it is refused since it takes them for such.
    pub(crate) as_numbers: Option<AsNumbers>,
    /// The same of the condition of rows.
    pub(crate) condition_as_numbers: Option<AsNumbers>,
    /// Which rows the clause sees.
    pub(crate) seen: RowsSeen,
    /// Whether there are several files, so that what is found in one is behind its name.
    has_several: bool,
    /// The path of the file that is looked at, where there are several.
    file: Option<String>,
    /// What was found of each input.
    inputs: Vec<FoundInput>,
    /// What is to be known of inputs that have no fault.
    notes: Vec<FoundNote>,
    /// What is wrong.
    faults: Vec<FoundFault>,
}

/// It is let go of by a call, wherever it is held.
impl Drop for Found {
    fn drop(self) {
        let Found {
            alloc: _,
            text: _,
            shape: _,
            proposed: _,
            query: _,
            as_numbers: _,
            condition_as_numbers: _,
            seen: _,
            has_several: _,
            file: _,
            inputs: _,
            notes: _,
            faults: _,
        } = self;
    }
}

impl Found {
    /// Nothing, of several files or not.
    pub(crate) fn new(alloc: Global, has_several: bool) -> Found {
        Found {
            alloc,
            text: Pieces::new(alloc),
            shape: None,
            proposed: None,
            query: None,
            as_numbers: None,
            condition_as_numbers: None,
            seen: RowsSeen::All,
            has_several,
            file: None,
            inputs: Vec::new(alloc),
            notes: Vec::new(alloc),
            faults: Vec::new(alloc),
        }
    }

    /// What is found from here on is in the input of this name.
    pub(crate) fn look_in(&mut self, name: Option<&str>) -> Result<(), AllocError> {
        self.file = match name {
            Some(name) if self.has_several => Some(String::from_str(self.alloc, name)?),
            _ => None,
        };
        Ok(())
    }

    /// What is found from here on is in no input.
    pub(crate) fn look_in_none(&mut self) {
        self.file = None;
    }

    /// Writes lines, each behind the name of the file that is looked at.
    pub(crate) fn tell(&mut self, lines: Result<String, AllocError>) {
        match lines {
            Ok(lines) => {
                for line in lines.as_str().lines() {
                    self.push_file();
                    self.text.push(line);
                    self.text.push("\n");
                }
            }
            Err(refused) => self.text.push_made(Err(refused)),
        }
    }

    /// Writes lines as `tell` does, and keeps each as a note.
    pub(crate) fn note(&mut self, lines: Result<String, AllocError>) {
        if let Ok(lines) = &lines {
            for line in lines.as_str().lines() {
                if self.keep_note(line).is_err() {
                    self.text.push_made(Err(AllocError));
                }
            }
        }
        self.tell(lines);
    }

    fn keep_note(&mut self, line: &str) -> Result<(), AllocError> {
        let note = FoundNote {
            file: self.file_name()?,
            message: String::from_str(self.alloc, line)?,
        };
        self.notes.push(note)?;
        Ok(())
    }

    /// The name of the file that is looked at, if there are several.
    fn file_name(&self) -> Result<Option<String>, AllocError> {
        match &self.file {
            Some(file) => Ok(Some(String::from_str(self.alloc, file.as_str())?)),
            None => Ok(None),
        }
    }

    /// Writes the name of the file that is looked at, if there are several.
    fn push_file(&mut self) {
        if let Some(file) = &self.file {
            let shown = shown_line(self.alloc, file.as_str());
            self.text.push_made(shown);
            self.text.push(": ");
        }
    }

    /// Takes a report, which prints as it is.
    pub(crate) fn blame(&mut self, text: &'static str, report: Result<Report, AllocError>) {
        match report {
            Ok(report) => self.take_report(text, report),
            Err(refused) => self.text.push_made(Err(refused)),
        }
    }

    fn take_report(&mut self, text: &'static str, report: Report) {
        self.push_file();
        self.text.push(report.text.as_str());
        if self.keep_fault(text, report).is_err() {
            self.text.push_made(Err(AllocError));
        }
    }

    fn keep_fault(&mut self, text: &'static str, report: Report) -> Result<(), AllocError> {
        let file = self.file_name()?;
        self.faults.push(FoundFault { text, file, report })?;
        Ok(())
    }

    /// Says what a clause does.
    pub(crate) fn take_query(&mut self, query: Query) {
        self.text.push_made(describe(self.alloc, &query));
        self.text.push(doubt(&query));
        self.query = Some(query);
    }

    /// Says what is wrong with a clause, and what it would do without what stands round it.
    pub(crate) fn blame_clause(&mut self, explained: Result<Explained, AllocError>) {
        match explained {
            Ok(explained) => self.take_explained(explained),
            Err(refused) => self.text.push_made(Err(refused)),
        }
    }

    fn take_explained(&mut self, explained: Explained) {
        let Explained {
            reports,
            query,
            as_numbers,
            compared,
        } = explained;
        for report in reports {
            self.take_report("clause", report);
        }
        if let Some(compared) = compared {
            self.tell_literal(&compared);
        }
        self.as_numbers = as_numbers;
        if let Some(query) = query {
            self.take_query(query);
        }
    }

    /// Says which number a literal is with which a column is compared.
    pub(crate) fn tell_literal(&mut self, compared: &Compared) {
        if let Some(shape) = &self.shape {
            let told = literal_told(self.alloc, shape, compared);
            self.note(told);
        }
    }

    /// What is asked of rows: by the clause, or else by the condition, as they would be if columns of texts were numbers where they are
    /// refused since they take them for such. None where there is neither.
    pub(crate) fn asked(&self) -> Option<&Query> {
        if let Some(query) = &self.query {
            return Some(query);
        }
        match (&self.as_numbers, &self.condition_as_numbers) {
            (Some(clause), _) => Some(&clause.query),
            (None, Some(condition)) => Some(&condition.query),
            (None, None) => None,
        }
    }

    /// The numbers, from 1, of the columns of texts that the clause and the condition take for numbers.
    pub(crate) fn numbers(&self) -> Result<Vec<usize>, AllocError> {
        let mut numbers = Vec::new(self.alloc);
        for taken in [&self.as_numbers, &self.condition_as_numbers] {
            if let Some(taken) = taken {
                numbers.extend_from_slice(taken.columns.as_slice())?;
            }
        }
        Ok(numbers)
    }

    /// Takes how many rows an input of this name has, where they were read.
    pub(crate) fn take_input(
        &mut self,
        name: Option<&str>,
        rows: Option<FoundRows>,
    ) -> Result<(), AllocError> {
        let file = match name {
            Some(name) => Some(String::from_str(self.alloc, name)?),
            None => None,
        };
        self.inputs.push(FoundInput { file, rows })?;
        Ok(())
    }

    /// Whether there is a condition without a fault, which rows have to meet.
    pub(crate) fn is_filtered(&self) -> bool {
        matches!(&self.seen, RowsSeen::Meeting(_))
    }

    /// Those of the rows that the clause is known to see.
    pub(crate) fn rows_seen(&self, rows: Vec<Row>) -> Result<Vec<Row>, AllocError> {
        match &self.seen {
            RowsSeen::All => Ok(rows),
            RowsSeen::Meeting(filter) => filter.keep(self.alloc, rows),
            RowsSeen::Unknown => Ok(Vec::new(self.alloc)),
        }
    }

    pub(crate) fn verdict(&self) -> Verdict {
        if self.faults.is_empty() {
            Verdict::Clean
        } else {
            Verdict::Findings
        }
    }

    /// What was found as one object of JSON, and a line end.
    pub(crate) fn line(&self) -> Result<Vec<u8>, AllocError> {
        let findings = Findings {
            table: match &self.shape {
                Some(shape) => Some(shape.table()),
                None => None,
            },
            query: self.query.as_ref(),
            inputs: self.inputs.as_slice(),
            notes: self.notes.as_slice(),
            faults: self.faults.as_slice(),
        };
        let mut line = findings_line(self.alloc, &findings)?;
        line.push(b'\n')?;
        Ok(line)
    }
}
