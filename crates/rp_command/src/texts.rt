//! The values of options on the command line that are texts, before clap reads it: a text may begin with a dash, as a clause does
//! that begins with a comment, and it may come from a file.
use crate::fault::CommandLineFault;
use crate::job::JobFault;
use std::alloc::{AllocError, Global};
use std::{fs, io};

/// What the value of such an option is.
#[derive(Clone, Copy)]
enum Value {
    /// The text, of which blanks at its end are no part.
    Text,
    /// The name of a file with such a text.
    File,
    /// A word, which is taken as it is.
    Word,
}

/// An option whose value may begin with a dash, or comes from a file.
#[derive(Clone, Copy)]
struct TextOption {
    /// The option as it is written.
    word: &'static str,
    /// The option of the text, up to its value.
    joined: &'static str,
    /// What its value is.
    value: Value,
}

/// The option of this name, if it is such an option.
fn option_named(name: &str) -> Option<TextOption> {
    let (word, joined, value) = match name {
        "--table" => ("--table", "--table=", Value::Text),
        "--columns" => ("--columns", "--columns=", Value::Text),
        "--clause" => ("--clause", "--clause=", Value::Text),
        "--where" => ("--where", "--where=", Value::Text),
        "--table-file" => ("--table-file", "--table=", Value::File),
        "--columns-file" => ("--columns-file", "--columns=", Value::File),
        "--clause-file" => ("--clause-file", "--clause=", Value::File),
        "--delimiter" => ("--delimiter", "--delimiter=", Value::Word),
        "--null" => ("--null", "--null=", Value::Word),
        _ => return None,
    };
    Some(TextOption {
        word,
        joined,
        value,
    })
}

/// The words with each such text joined to its option, as `--clause=TEXT`: so clap takes whatever it begins with. A byte order
/// mark before a text is passed over, and so are blanks and line ends behind it: a file and what a shell makes of `$(cat FILE)` are
/// one text. `trace` has no such option, and its words stay as they are.
pub(crate) fn with_texts(
    rt: &HostRuntime,
    words: &[String],
) -> Result<Vec<String>, CommandLineFault> {
    let mut joined = Vec::new(rt.alloc());
    if words.first().is_some_and(|word| word.as_str() == "trace") {
        push_all(rt.alloc(), &mut joined, words)?;
    } else {
        join_all(rt, &mut joined, words)?;
    }
    Ok(joined)
}

/// Adds all words as they are.
fn push_all(alloc: Global, joined: &mut Vec<String>, words: &[String]) -> Result<(), AllocError> {
    for word in words {
        joined.push(String::from_str(alloc, word.as_str())?)?;
    }
    Ok(())
}

/// Adds all words, each text behind its option.
fn join_all(
    rt: &HostRuntime,
    joined: &mut Vec<String>,
    words: &[String],
) -> Result<(), CommandLineFault> {
    let mut due = None;
    for word in words {
        due = join(rt, joined, due, word.as_str())?;
    }
    if let Some(option) = due {
        push_option(rt, joined, option)?;
    }
    Ok(())
}

/// Adds a word, or the text of an option that waits for one. Where it is such an option, it waits then, and the one before it has no
/// value.
fn join(
    rt: &HostRuntime,
    joined: &mut Vec<String>,
    due: Option<TextOption>,
    word: &str,
) -> Result<Option<TextOption>, CommandLineFault> {
    match due {
        Some(option) if option_named(word).is_some() => {
            push_option(rt, joined, option)?;
            push_word(rt, joined, word)
        }
        Some(option) => {
            joined.push(text_word(rt, option, word)?)?;
            Ok(None)
        }
        None => push_word(rt, joined, word),
    }
}

/// Adds an option that has no value, which clap tells.
fn push_option(
    rt: &HostRuntime,
    joined: &mut Vec<String>,
    option: TextOption,
) -> Result<(), AllocError> {
    joined.push(String::from_str(rt.alloc(), option.word)?)?;
    Ok(())
}

/// Adds a word, unless it is such an option, which waits for its value then. It may have the value behind `=`.
fn push_word(
    rt: &HostRuntime,
    joined: &mut Vec<String>,
    word: &str,
) -> Result<Option<TextOption>, CommandLineFault> {
    let (name, value) = match word.split_once('=') {
        Some((name, value)) => (name, Some(value)),
        None => (word, None),
    };
    match (option_named(name), value) {
        (Some(option), None) => return Ok(Some(option)),
        (Some(option), Some(value)) => joined.push(text_word(rt, option, value)?)?,
        (None, _) => joined.push(String::from_str(rt.alloc(), word)?)?,
    }
    Ok(None)
}

/// The option of the text with the text, which is the value or what the file of that name holds.
fn text_word(
    rt: &HostRuntime,
    option: TextOption,
    value: &str,
) -> Result<String, CommandLineFault> {
    match option.value {
        Value::Text => Ok(joined_word(rt.alloc(), option.joined, trimmed(value))?),
        Value::Word => Ok(joined_word(rt.alloc(), option.joined, value)?),
        Value::File => {
            let text = text_in_file(rt, value)?;
            Ok(joined_word(rt.alloc(), option.joined, trimmed(text.as_str()))?)
        }
    }
}

/// The text that a file holds.
fn text_in_file(rt: &HostRuntime, name: &str) -> Result<String, CommandLineFault> {
    match fs::read_to_string(rt, name) {
        Ok(text) => Ok(text),
        Err(error) if error.kind() == io::ErrorKind::OutOfMemory => Err(CommandLineFault::Job(
            JobFault::OutOfMemory,
        )),
        Err(_) => Err(CommandLineFault::TextFile(String::from_str(rt.alloc(), name)?)),
    }
}

/// The text without a byte order mark before it and without blanks and line ends behind it.
fn trimmed(text: &str) -> &str {
    let text = match text.strip_prefix("\u{feff}") {
        Some(rest) => rest,
        None => text,
    };
    text.trim_end_matches([' ', '\t', '\n', '\r'])
}

fn joined_word(alloc: Global, option: &str, text: &str) -> Result<String, AllocError> {
    let mut word = String::from_str(alloc, option)?;
    word.push_str(text)?;
    Ok(word)
}
