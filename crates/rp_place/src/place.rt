//! Where something stands in a text: its line, and what of the line stands before it and from it on.
ghost use Rattle.std.specs.Prelude.{◌≡◌, ◌≤◌, chars, length};
ghost use Rattle.std.specs.Str.Lines.{strip_carriage_return};
ghost use Rattle.rp_place.specs.Lines.{first_line, last_line, line_number};

/// The byte that ends a line.
const LF: u8 = b'\n';

/// A part of a text by byte offsets from 0.
#[derive(Clone, Copy)]
pub struct Span {
    /// The offset of its first byte.
    pub start: usize,
    /// The offset behind its last byte.
    pub end: usize,
}

/// A place in a line, and the part of the line that is meant there. It may be put together from texts that the caller
/// has: they need not stand in one text.
#[derive(Clone, Copy)]
pub struct Place<'a> {
    /// The number of the line, from 1.
    pub line: usize,
    /// What stands before the place in its line.
    pub front: &'a str,
    /// What is meant: it begins at the place, and ends in the line.
    pub part: &'a str,
    /// What stands behind that in the line.
    pub behind: &'a str,
}

impl<'a> Place<'a> {
    ghost use Rattle.std.specs.Prelude.{◌≡◌, ◌++◌};
    ghost use Rattle.rp_place.specs.Lines.{column, last_line, line_number};
    ghost use Rattle.rp_place.specs.Places.{before, part, rest};

    /// The place of a part of a text. An offset inside a character stands for that character's first byte, and one
    /// behind the text for its end. What is meant ends with the line, where the part goes on behind it.
    pub fn of(text: &'a str, span: Span) -> Place<'a>
        ensures line { result.line ≡ line_number (before text.entry.now span) }
        ensures front { result.front.now ≡ last_line (before text.entry.now span) }
        ensures part { result.part.now ≡ part text.entry.now span }
        ensures rest { result.part.now ++ result.behind.now ≡ rest text.entry.now span }
    {
        let start = text.floor_char_boundary(span.start);
        let (before, from) = text.split_at(start);
        let rest = first_line(from);
        let length = rest.floor_char_boundary(span.end.saturating_sub(start));
        let (part, behind) = rest.split_at(length);
        Place {
            line: line_number(before.as_bytes()),
            front: last_line(before),
            part,
            behind,
        }
    }

    /// The number of its character in the line, from 1.
    pub fn column(&self) -> usize
        ensures { result ≡ column self.now.front.now }
    {
        character_count(self.front) + 1
    }
}

/// How many characters a text has.
pub(crate) fn character_count(text: &str) -> usize
    ensures count { result ≡ length (chars text.now) }
    ensures bound { result ≤ length text.now }
{
    text.chars().count()
}

/// The number of the line in which the text ends, from 1.
pub fn line_number(text: &[u8]) -> usize
    ensures { result ≡ line_number text.now }
{
    text.iter().filter(|byte| **byte == LF).count() + 1
}

/// What stands before the first line end.
fn first_line(text: &str) -> &str
    ensures { result.now ≡ first_line text.now }
{
    match text.split_once('\n') {
        Some((line, _)) => without_return(line),
        None => without_return(text),
    }
}

/// The line without the carriage return that belongs to its end.
fn without_return(line: &str) -> &str
    ensures { result.now ≡ strip_carriage_return line.now }
{
    match line.as_bytes() {
        [.., b'\r'] => &line[..line.len() - 1],
        _ => line,
    }
}

/// What stands behind the last line end.
fn last_line(text: &str) -> &str
    ensures { result.now ≡ last_line text.now }
{
    match text.rfind('\n') {
        Some(feed) => &text[feed + 1..],
        None => text,
    }
}
