//! What an input looks like, and its columns, by the options that say so.
use crate::fault::ProgramFault;
use crate::zones::with_zones;
use rp_columns::{Columns, read_columns};
use rp_command::{InputFormat, InputOptions};
use rp_input::{CsvLayout, is_delimiter};
use rp_question::{InputShape, Reading};
use rp_syntax::read_table;
use rp_text_notes::Proposed;
use rp_value::{Table, Text};
use std::alloc::{AllocError, Global};

/// What an input looks like, whatever its columns are.
pub struct InputForm {
    /// How the text of a CSV is laid out.
    pub layout: CsvLayout,
    /// What the input is.
    pub from: InputFormat,
    /// The words that are null.
    pub nulls: Vec<Text>,
    /// Whether a table alone says how the input is read: it is a CSV with commas and a header, in which an empty field is null.
    is_plain: bool,
}

/// It is let go of by a call, wherever it is held.
impl Drop for InputForm {
    fn drop(self) {
        let InputForm {
            layout: _,
            from: _,
            nulls: _,
            is_plain: _,
        } = self;
    }
}

/// How inputs are read.
pub struct InputLayout {
    /// What each of them looks like.
    pub form: InputForm,
    /// Their columns.
    pub shape: InputShape,
    /// The text of these columns, where they are proposed.
    pub proposed: Option<String>,
}

/// It is let go of by a call, wherever it is held.
impl Drop for InputLayout {
    fn drop(self) {
        let InputLayout {
            form: _,
            shape: _,
            proposed: _,
        } = self;
    }
}

impl InputLayout {
    /// Inputs of columns that are named.
    pub fn named(form: InputForm, shape: InputShape) -> InputLayout {
        InputLayout {
            form,
            shape,
            proposed: None,
        }
    }

    /// How the bytes of an input become rows.
    pub fn reading(&self) -> Reading<'_> {
        Reading {
            shape: &self.shape,
            layout: self.form.layout,
            nulls: self.form.nulls.as_slice(),
        }
    }
}

impl InputForm {
    /// The form that the options ask for.
    pub fn of(alloc: Global, options: &InputOptions) -> Result<InputForm, ProgramFault> {
        let is_csv = options.from == InputFormat::Csv;
        if !is_csv && (options.no_header || options.delimiter.is_some()) {
            return Err(ProgramFault::Usage(
                "--delimiter and --no-header say how CSV is read: leave --from jsonl out, or these",
            ));
        }
        let delimiter = match &options.delimiter {
            Some(text) => delimiter_of(text.as_str())?,
            None => b',',
        };
        let layout = CsvLayout {
            delimiter,
            has_header: !options.no_header,
        };
        let is_plain = is_csv && layout == CsvLayout::plain() && options.nulls.is_empty();
        Ok(InputForm {
            layout,
            from: options.from,
            nulls: null_words(alloc, options.nulls.as_slice(), is_csv)?,
            is_plain,
        })
    }

    /// Columns of this text, which are proposed for inputs of this form.
    pub fn proposed<'a>(&'a self, columns: &'a str) -> Proposed<'a> {
        Proposed {
            columns,
            nulls: self.nulls.as_slice(),
        }
    }
}

/// The byte that a text of `--delimiter` is for.
fn delimiter_of(text: &str) -> Result<u8, ProgramFault> {
    if text == "\\t" {
        return Ok(b'\t');
    }
    match text.as_bytes() {
        [byte] if is_delimiter(*byte) => Ok(*byte),
        _ => Err(ProgramFault::Usage(
            "--delimiter is one character of ASCII, as ; or \\t, and no quote or line end",
        )),
    }
}

/// The words for null. Where none is given, it is an empty field of a CSV, and no text of an object.
fn null_words(alloc: Global, words: &[String], is_csv: bool) -> Result<Vec<Text>, AllocError> {
    let mut nulls = Vec::new(alloc);
    for word in words {
        nulls.push(text_from(alloc, word.as_str())?)?;
    }
    if words.is_empty() && is_csv {
        nulls.push(text_from(alloc, "")?)?;
    }
    Ok(nulls)
}

/// A text of these characters.
fn text_from(alloc: Global, word: &str) -> Result<Text, AllocError> {
    Text::new(alloc, String::from_str(alloc, word)?)
}

/// The columns that the options name; None where they name none.
pub fn named_shape(
    rt: &HostRuntime,
    options: &InputOptions,
    form: &InputForm,
) -> Result<Option<InputShape>, ProgramFault> {
    match (&options.table, &options.columns) {
        (Some(_), Some(_)) => Err(ProgramFault::Usage(
            "--table and --columns say the same thing: give one of them",
        )),
        (Some(text), None) => Ok(Some(of_table(rt.alloc(), text.as_str(), form)?)),
        (None, Some(text)) => {
            let columns = columns_of(rt.alloc(), text.as_str())?;
            let columns = with_zones(rt, columns)?;
            Ok(Some(by_columns(columns, form)))
        }
        (None, None) if options.no_header => Err(ProgramFault::Usage(
            "--no-header leaves the columns without names: give --table or --columns",
        )),
        (None, None) => Ok(None),
    }
}

/// Columns that are read from fields or from keys.
fn by_columns(columns: Columns, form: &InputForm) -> InputShape {
    match form.from {
        InputFormat::Csv => InputShape::Columns(columns),
        InputFormat::JsonLines => InputShape::Objects(columns),
    }
}

/// The table of a text.
pub fn table_of(alloc: Global, text: &str) -> Result<Table, ProgramFault> {
    match read_table(alloc, text) {
        Ok(table) => Ok(table),
        Err(fault) => Err(ProgramFault::of_table(fault)),
    }
}

/// The columns of a text.
pub fn columns_of(alloc: Global, text: &str) -> Result<Columns, ProgramFault> {
    match read_columns(alloc, text) {
        Ok(columns) => Ok(columns),
        Err(fault) => Err(ProgramFault::of_columns(fault)),
    }
}

/// The columns of a table's text. Where the table alone doesn't say how the input is read, each is read from the field of its name.
fn of_table(alloc: Global, text: &str, form: &InputForm) -> Result<InputShape, ProgramFault> {
    let table = table_of(alloc, text)?;
    if form.is_plain {
        return Ok(InputShape::Table(table));
    }
    let columns = Columns::of_table(alloc, &table)?;
    Ok(by_columns(columns, form))
}
