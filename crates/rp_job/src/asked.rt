//! A question, and how the inputs are read of which it is asked, by the options that say so.
use crate::fault::ProgramFault;
use crate::files::bytes_of;
use crate::input::{InputForm, InputLayout, columns_of, named_shape};
use crate::progress::Progress;
use crate::telling::tell;
use rp_command::{InputFormat, InputOptions};
use rp_proposal::propose_columns;
use rp_question::{InputShape, Question, QuestionFault};
use rp_wording::{Pieces, shown_line};
use std::alloc::{AllocError, Global};

/// Why nothing can be said of lines of JSON without columns.
pub fn no_columns() -> ProgramFault {
    ProgramFault::Usage("--from jsonl says nothing of columns: give --columns or --table")
}

/// What is asked, and of which inputs.
#[derive(Clone, Copy)]
pub struct Asked<'a> {
    /// How the input is read.
    pub input: &'a InputOptions,
    /// The text of the clause.
    pub clause: &'a str,
    /// The text of a condition, of which only rows that meet it are looked at; None where all are.
    pub filter: &'a Option<String>,
    /// The paths of the input's files; none where it is standard input.
    pub files: &'a [String],
}

impl<'a> Asked<'a> {
    /// How the inputs are read, and the bytes of all of them where they had to be read for that, else none. Columns that aren't named are
    /// proposed from the inputs, and reported on standard error.
    pub fn layout(
        &self,
        rt: &HostRuntime,
        progress: &mut Option<Progress<'_>>,
    ) -> Result<(InputLayout, Vec<Vec<u8>>), ProgramFault> {
        let form = InputForm::of(rt.alloc(), self.input)?;
        match named_shape(rt, self.input, &form)? {
            Some(shape) => Ok((InputLayout::named(form, shape), Vec::new(rt.alloc()))),
            None => self.proposed_layout(rt, form, progress),
        }
    }

    /// The same by columns that are proposed.
    fn proposed_layout(
        &self,
        rt: &HostRuntime,
        form: InputForm,
        progress: &mut Option<Progress<'_>>,
    ) -> Result<(InputLayout, Vec<Vec<u8>>), ProgramFault> {
        if self.input.from == InputFormat::JsonLines {
            return Err(no_columns());
        }
        let inputs = self.bytes_of_inputs(rt, progress)?;
        let text = self.proposed(rt, inputs.as_slice(), &form)?;
        let layout = InputLayout {
            form,
            shape: InputShape::Columns(columns_of(rt.alloc(), text.as_str())?),
            proposed: Some(text),
        };
        Ok((layout, inputs))
    }

    /// The question of the clause and of the condition, over inputs that are read so.
    pub fn question<'q>(
        &self,
        alloc: Global,
        layout: &'q InputLayout,
    ) -> Result<Question<'q>, ProgramFault> {
        let condition = match self.filter {
            Some(text) => Some(text.as_str()),
            None => None,
        };
        match Question::new(alloc, self.clause, condition, layout.reading()) {
            Ok(question) => Ok(question),
            Err(QuestionFault::Clause(fault)) => Err(ProgramFault::from(fault)),
            Err(QuestionFault::Condition(fault)) => Err(ProgramFault::of_filter(fault)),
        }
    }

    /// The name of the file with this index.
    pub(crate) fn name_at(&self, index: usize) -> Option<&'a str> {
        match self.files.get(index) {
            Some(name) => Some(name.as_str()),
            None => None,
        }
    }

    /// The bytes of each file, or of standard input.
    fn bytes_of_inputs(
        &self,
        rt: &HostRuntime,
        progress: &mut Option<Progress<'_>>,
    ) -> Result<Vec<Vec<u8>>, ProgramFault> {
        let mut inputs = Vec::new(rt.alloc());
        for index in 0..self.files.len().max(1) {
            inputs.push(bytes_of(rt, self.name_at(index), progress)?)?;
        }
        Ok(inputs)
    }

    /// The text of the columns that are proposed, which are the same for each input. A line reports them.
    fn proposed(
        &self,
        rt: &HostRuntime,
        inputs: &[Vec<u8>],
        form: &InputForm,
    ) -> Result<String, ProgramFault> {
        let text = self.proposed_text(rt, inputs, form)?;
        if text.is_empty() {
            return Err(ProgramFault::CsvHeader);
        }
        tell_columns(rt, None, text.as_str())?;
        Ok(text)
    }

    /// The text that is proposed for each input, where it is the same.
    fn proposed_text(
        &self,
        rt: &HostRuntime,
        inputs: &[Vec<u8>],
        form: &InputForm,
    ) -> Result<String, ProgramFault> {
        let mut text = String::new(rt.alloc());
        let mut before = None;
        for (index, bytes) in inputs.iter().enumerate() {
            let here = text_for(rt.alloc(), bytes.as_slice(), form)?;
            let name = self.name_at(index);
            if before.is_some() && here.as_str() != text.as_str() {
                tell_columns(rt, before, text.as_str())?;
                tell_columns(rt, name, here.as_str())?;
                return Err(ProgramFault::Usage(
                    "the files have other columns, or other kinds of them: give --columns",
                ));
            }
            text = here;
            before = name;
        }
        Ok(text)
    }
}

/// The text of the columns that are proposed for an input.
fn text_for(alloc: Global, bytes: &[u8], form: &InputForm) -> Result<String, AllocError> {
    let (delimiter, nulls) = (form.layout.delimiter, form.nulls.as_slice());
    Ok(propose_columns(alloc, bytes, delimiter, nulls)?.columns)
}

/// Reports the columns of an input, as a shell takes them, behind the name of its file where it has one.
fn tell_columns(rt: &HostRuntime, name: Option<&str>, columns: &str) -> Result<(), AllocError> {
    let mut line = Pieces::new(rt.alloc());
    if let Some(name) = name {
        line.push(name);
        line.push(": ");
    }
    line.push("--columns ");
    line.push_shell_word(columns);
    tell(rt, &shown_line(rt.alloc(), line.text()?)?);
    Ok(())
}
