//! Formats of dates and times, a column's own.
ghost use Rattle.std.specs.Prelude.{◌≡◌, ◌<◌, ◌++◌, IfOk, [], length};
ghost use Rattle.std.specs.List.{list_all};
ghost use Rattle.rp_columns.specs.Formats as spec;

use rp_value::Text;
use std::alloc::{AllocError, Global};
use std::marker::Model;
use std::rc::Rc;

/// A format as strptime has it. Contracts see it as its bytes.
pub struct Format {
    text: Text,
    /// The same with minutes in the place of seconds.
    minutes: Rc<Vec<u8>>,
}

/// It is let go of by a call, wherever it is held.
impl Drop for Format {
    fn drop(self) {
        let Format {
            text: _,
            minutes: _,
        } = self;
    }
}

impl Model for Format {
    ghost use Rattle.std.specs.Prelude.{◌≡◌, List, ℕ};
    ghost use Rattle.rp_columns.specs.Formats.{as_minutes};

    ghost Value = { List ℕ };

    ghost view = { λ f. f.text };

    ghost invariant = { λ f. f.minutes.value.items ≡ as_minutes f.text };
}

impl Format {
    ghost use Rattle.std.specs.Prelude.{◌≡◌, IfOk};
    ghost use Rattle.rp_columns.specs.Formats.{as_minutes};

    /// The format of a text.
    pub(crate) fn new(alloc: Global, text: &Text) -> Result<Format, AllocError>
        ensures { IfOk result (λ format. format ≡ text.now) }
    {
        let minutes = as_minutes(alloc, text.as_str().as_bytes())?;
        let minutes = Rc::new(alloc, minutes)?;
        let text = text.share()?;
        Ok(Format { text, minutes })
    }

    /// The format as it is written.
    pub(crate) fn as_bytes(&self) -> &[u8]
        ensures { result.now ≡ self.now }
    {
        self.text.as_str().as_bytes()
    }

    /// The same with minutes in the place of seconds.
    pub(crate) fn as_minutes(&self) -> &[u8]
        ensures { result.now ≡ as_minutes self.now }
    {
        self.minutes.as_slice()
    }

    /// An equal format, which shares the text.
    pub fn share(&self) -> Result<Format, AllocError>
        ensures { IfOk result (λ format. format ≡ self.now) }
    {
        let text = self.text.share()?;
        let minutes = self.minutes.clone()?;
        Ok(Format { text, minutes })
    }
}

/// The letters behind the per cent signs of a format.
#[tactic(auto, unfolding(crate::specs::Formats::letters))]
pub(crate) fn letters(alloc: Global, format: &[u8]) -> Result<Vec<u8>, AllocError>
    ensures { IfOk result (λ letters. letters.items ≡ spec.letters format.now) }
{
    let mut letters = Vec::new(alloc);
    let mut rest = format;
    'letters: while !rest.is_empty() {
        rest = take_letter(&mut letters, rest)?;
    }
    Ok(letters)
}

/// Takes the letter that comes first, if one does, or one byte more.
#[tactic(auto, unfolding(crate::specs::Formats::letters))]
fn take_letter<'a>(letters: &mut Vec<u8>, rest: &'a [u8]) -> Result<&'a [u8], AllocError>
    requires { 0 < length rest.now }
    ensures letters { IfOk result (λ behind.
        letters.old.items ++ spec.letters rest.now ≡ letters.new.items ++ spec.letters behind.now) }
    ensures shorter { IfOk result (λ behind. length behind.now < length rest.now) }
{
    match rest {
        [b'%', letter, behind @ ..] => {
            letters.push(*letter)?;
            Ok(behind)
        }
        [b'%'] => {
            letters.push(0)?;
            Ok(&rest[1..])
        }
        [_, behind @ ..] => Ok(behind),
        [] => Ok(rest),
    }
}

/// A format with minutes in the place of seconds.
#[tactic(auto, unfolding(crate::specs::Formats::as_minutes))]
fn as_minutes(alloc: Global, format: &[u8]) -> Result<Vec<u8>, AllocError>
    ensures { IfOk result (λ minutes. minutes.items ≡ spec.as_minutes format.now) }
{
    let mut minutes = Vec::new(alloc);
    let mut rest = format;
    'bytes: while !rest.is_empty() {
        rest = take_bytes(&mut minutes, rest)?;
    }
    Ok(minutes)
}

/// Takes a directive, with minutes in the place of seconds, or one byte more.
#[tactic(auto, unfolding(crate::specs::Formats::as_minutes))]
fn take_bytes<'a>(minutes: &mut Vec<u8>, rest: &'a [u8]) -> Result<&'a [u8], AllocError>
    requires { 0 < length rest.now }
    ensures bytes { IfOk result (λ behind.
        minutes.old.items ++ spec.as_minutes rest.now ≡ minutes.new.items ++ spec.as_minutes behind.now) }
    ensures shorter { IfOk result (λ behind. length behind.now < length rest.now) }
{
    match rest {
        [b'%', letter, behind @ ..] => {
            minutes.push(b'%')?;
            minutes.push(minutes_for(*letter))?;
            Ok(behind)
        }
        [byte, behind @ ..] => {
            minutes.push(*byte)?;
            Ok(behind)
        }
        [] => Ok(rest),
    }
}

/// The letter of minutes for that of seconds, and any other as it is.
fn minutes_for(letter: u8) -> u8
    ensures { result ≡ spec.minutes_for letter }
{
    if letter == b'S' { b'M' } else { letter }
}

/// Whether the letters of a format say a day, and nothing that isn't read.
pub(crate) fn say_day(letters: &[u8]) -> bool
    ensures { result ≡ spec.say_day letters.now }
{
    are_directives(letters)
        && (has(b'Y', letters) || has(b'y', letters))
        && (has(b'm', letters) || has(b'b', letters) || has(b'B', letters))
        && (has(b'd', letters) || has(b'e', letters))
        && agree(has(b'I', letters), has(b'p', letters))
}

fn are_directives(letters: &[u8]) -> bool
    ensures { result ≡ list_all spec.is_directive letters.now }
{
    for letter in letters {
        if !is_directive(*letter) {
            return false;
        }
    }
    true
}

fn is_directive(c: u8) -> bool
    ensures { result ≡ spec.is_directive c }
{
    c == b'Y'
        || c == b'y'
        || c == b'm'
        || c == b'b'
        || c == b'B'
        || c == b'd'
        || c == b'e'
        || c == b'H'
        || c == b'I'
        || c == b'p'
        || c == b'M'
        || c == b'S'
        || c == b'f'
        || c == b'z'
        || c == b'%'
}

/// Whether a letter is among them.
pub(crate) fn has(letter: u8, letters: &[u8]) -> bool
    ensures { result ≡ spec.has letter letters.now }
{
    letters.contains(&letter)
}

/// Both or neither.
fn agree(one: bool, other: bool) -> bool
    ensures { result ≡ spec.agree one other }
{
    if one { other } else { !other }
}
