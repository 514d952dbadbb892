//! What clap makes of the words, and the values that it finds.
ghost use Rattle.std.specs.Prelude.{◌≡◌, false, true, [], IfOk, OnOk, map, option_map, string_bytes};
ghost use Rattle.clap.specs.Words.{IsAmong, IsParsedFrom, app_of, found_of, is_simple, kind_of, rows_of};
ghost use Rattle.clap.specs.declared.error.kind.ErrorKind.TheVariants.{OutOfMemory};
ghost use Rattle.clap.specs.declared.builder.value_parser.ValueParser.TheVariants as parser;
ghost use Rattle.clap.specs.declared.error.Error.{Error};
ghost use Rattle.rp_command.specs.Commands.{are_taken, faults_by, is_ruled, rows_by};
ghost use Rattle.rp_command.specs.Values.{HasFlag, HasNumber, HasNumberIfAny, HasText, HasTextIfAny, HasTexts, HasTextsIfAny, HasValue, Passes, number_parser};

use crate::job::{Job, JobFault};
use clap::error::ErrorKind;
use clap::{ArgMatches, Command, Error};
use std::alloc::{AllocError, Global};

/// What clap makes of the words, for a simple command.
pub(crate) fn matched<'a>(
    command: Command<'a>,
    words: &'a [String],
) -> Result<ArgMatches<'a>, JobFault>
    requires { is_simple (app_of command) ≡ true }
    ensures rows { IfOk result (λ matches.
        rows_of (found_of matches) ≡ rows_by (app_of command.entry) (map string_bytes words.entry.now)) }
    ensures faultless { is_ruled (app_of command.entry) ≡ true →
        OnOk result (faults_by (app_of command.entry) (map string_bytes words.entry.now) ≡ []) }
    ensures cause { is_ruled (app_of command.entry) ≡ true →
        (error : Error) → result ≡ Err (JobFault.Line error) →
        IsAmong (kind_of error) (faults_by (app_of command.entry) (map string_bytes words.entry.now)) }
    ensures parsed { IfOk result (λ matches. IsParsedFrom command.entry matches) }
    ensures line { (error : Error) → result ≡ Err (JobFault.Line error) →
        are_taken (app_of command.entry) (map string_bytes words.entry.now) ≡ true → ⊥ }
{
    match command.try_get_matches_from(words) {
        Ok(matches) => Ok(matches),
        Err(error) => Err(line_fault(error)),
    }
}

/// The value of an argument that has one, among the words.
#[tactic(auto, using(crate::proofs::Getters::first_rows))]
pub(crate) fn given_word<'a>(matches: &ArgMatches<'a>, id: &str) -> &'a str
    requires { HasValue id.now matches.now }
    ensures { HasText (rows_of (found_of matches.now)) id.now result.now }
{
    let Some(word) = matches.get_str(id) else {
        unreachable!()
    };
    word
}

/// Memory for texts. Once it is refused, texts are empty, and `finish` says so.
#[derive(Drop)]
pub(crate) struct Memory {
    alloc: Global,
    is_refused: bool,
}

impl Memory {
    /// Memory that wasn't refused yet.
    pub(crate) fn new(alloc: Global) -> Memory
        ensures { result.is_refused ≡ false }
    {
        Memory {
            alloc,
            is_refused: false,
        }
    }

    /// The job, unless memory was refused.
    pub(crate) fn finish(self, job: Job) -> Result<Job, JobFault>
        ensures value { IfOk result (λ made. (self.is_refused ≡ false) × (made ≡ job)) }
        ensures other { (error : Error) → result ≡ Err (JobFault.Line error) → ⊥ }
    {
        if self.is_refused {
            Err(JobFault::OutOfMemory)
        } else {
            Ok(job)
        }
    }

    /// The text with memory of its own.
    fn text(&mut self, word: &str) -> String
        ensures same { self.new.is_refused ≡ false → string_bytes result ≡ word.now }
        ensures refused { self.new.is_refused ≡ false → self.old.is_refused ≡ false }
    {
        match String::from_str(self.alloc, word) {
            Ok(text) => text,
            Err(_) => {
                self.is_refused = true;
                String::new(self.alloc)
            }
        }
    }

    /// The texts, each with memory of its own.
    fn texts(&mut self, words: &[&str]) -> Vec<String>
        ensures same { self.new.is_refused ≡ false → map string_bytes result.items ≡ map (λ word. word.now) words.now }
        ensures refused { self.new.is_refused ≡ false → self.old.is_refused ≡ false }
    {
        match owned(self.alloc, words) {
            Ok(texts) => texts,
            Err(_) => {
                self.is_refused = true;
                Vec::new(self.alloc)
            }
        }
    }
}

/// The value of an argument that has one, unless memory is refused.
pub(crate) fn text_of(memory: &mut Memory, matches: &ArgMatches, id: &str) -> String
    requires { HasValue id.now matches.now }
    ensures value { memory.new.is_refused ≡ false → HasText (rows_of (found_of matches.now)) id.now (string_bytes result) }
    ensures refused { memory.new.is_refused ≡ false → memory.old.is_refused ≡ false }
{
    memory.text(given_word(matches, id))
}

/// The value of an argument, or None where the argument has no value, unless memory is refused.
#[tactic(auto, using(crate::proofs::Getters::first_rows))]
pub(crate) fn text_if_any(memory: &mut Memory, matches: &ArgMatches, id: &str) -> Option<String>
    ensures value { memory.new.is_refused ≡ false →
        HasTextIfAny (rows_of (found_of matches.now)) id.now (option_map string_bytes result) }
    ensures refused { memory.new.is_refused ≡ false → memory.old.is_refused ≡ false }
{
    match matches.get_str(id) {
        Some(word) => Some(memory.text(word)),
        None => None,
    }
}

/// The values of an argument that has some, unless memory is refused.
pub(crate) fn texts_of(memory: &mut Memory, matches: &ArgMatches, id: &str) -> Vec<String>
    requires { HasValue id.now matches.now }
    ensures value { memory.new.is_refused ≡ false →
        HasTexts (rows_of (found_of matches.now)) id.now (map string_bytes result.items) }
    ensures refused { memory.new.is_refused ≡ false → memory.old.is_refused ≡ false }
{
    let Some(words) = matches.get_strs(id) else {
        unreachable!()
    };
    memory.texts(words)
}

/// The values of an argument, none where it has none, unless memory is refused.
pub(crate) fn texts_if_any(memory: &mut Memory, matches: &ArgMatches, id: &str) -> Vec<String>
    ensures value { memory.new.is_refused ≡ false →
        HasTextsIfAny (rows_of (found_of matches.now)) id.now (map string_bytes result.items) }
    ensures refused { memory.new.is_refused ≡ false → memory.old.is_refused ≡ false }
{
    match matches.get_strs(id) {
        Some(words) => memory.texts(words),
        None => Vec::new(memory.alloc),
    }
}

/// The texts, each with memory of its own.
fn owned(alloc: Global, words: &[&str]) -> Result<Vec<String>, AllocError>
    ensures { IfOk result (λ texts. map string_bytes texts.items ≡ map (λ word. word.now) words.now) }
{
    let mut texts = Vec::new(alloc);
    for word in words {
        texts.push(String::from_str(alloc, word)?)?;
    }
    Ok(texts)
}

/// The number of an option, or None where the option has no value.
pub(crate) fn number_of(matches: &ArgMatches, id: &str) -> Option<u32>
    requires { Passes false number_parser id.now matches.now }
    ensures { HasNumberIfAny (rows_of (found_of matches.now)) id.now result }
{
    matches.get_one::<u32>(id)
}

/// The number of an option that has a value.
pub(crate) fn count_of(matches: &ArgMatches, id: &str) -> u32
    requires value { HasValue id.now matches.now }
    requires number { Passes false number_parser id.now matches.now }
    ensures { HasNumber (rows_of (found_of matches.now)) id.now result }
{
    let Some(count) = number_of(matches, id) else {
        unreachable!()
    };
    count
}

/// Whether a flag is set.
pub(crate) fn flag_of(matches: &ArgMatches, id: &str) -> bool
    requires { Passes false parser.Bool id.now matches.now }
    ensures { HasFlag (rows_of (found_of matches.now)) id.now result }
{
    matches.get_flag(id)
}

/// The fault that clap tells.
pub(crate) fn line_fault(error: Error) -> JobFault
    ensures same { (other : Error) → result ≡ JobFault.Line other → other ≡ error }
    ensures memory { (other : Error) → result ≡ JobFault.Line other → kind_of error ≡ OutOfMemory → ⊥ }
{
    if error.kind() == ErrorKind::OutOfMemory {
        JobFault::OutOfMemory
    } else {
        JobFault::Line(error)
    }
}

/// An error of this kind and text, with the usage of the command.
pub(crate) fn error_of(
    command: Result<Command, AllocError>,
    kind: ErrorKind,
    text: &str,
) -> Result<Error, AllocError>
    ensures { IfOk result (λ error. kind_of error ≡ kind) }
{
    command?.error(kind, text)
}
