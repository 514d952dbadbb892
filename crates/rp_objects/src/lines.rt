//! The lines of a text that aren't blank.
ghost use Rattle.std.specs.Prelude.{◌≡◌, ◌+◌, ◌^◌, ◌<◌, ◌≤◌, [], ◌∷◌, ◌++◌, drop, length, take, IfNone, IfSome};
ghost use Rattle.json.specs.Word.{is_space};
ghost use Rattle.rp_io.specs.Lines.{IsLfFree, line_feed, lines_of};
ghost use Rattle.rp_objects.specs.ObjectRows.{AreBlank, TakesFull, is_blank};

/// What is left of a text, and how many of its lines were taken.
#[derive(Clone, Copy)]
pub(crate) struct Lines<'a> {
    pub(crate) rest: &'a [u8],
    pub(crate) taken: u64,
}

impl<'a> Lines<'a> {
    /// All lines of a text.
    pub(crate) fn new(text: &'a [u8]) -> Lines<'a>
        ensures rest { result.rest.now ≡ text.now }
        ensures taken { result.taken ≡ 0 }
    {
        Lines {
            rest: text,
            taken: 0,
        }
    }

    /// The next line that isn't blank.
    pub(crate) fn next_full(&mut self) -> Option<&'a [u8]>
        requires { self.old.taken + length self.old.rest.now < 2 ^ 64 }
        ensures full { IfSome result (λ line. TakesFull self.old.rest.now self.old.taken
            self.new.rest.now self.new.taken line.now) }
        ensures none { IfNone result (AreBlank (lines_of self.old.rest.now)) }
        ensures fewer { self.new.taken + length self.new.rest.now < 2 ^ 64 }
    {
        'lines: while let Some((line, rest)) = first_line(self.rest) {
            self.rest = rest;
            self.taken += 1;
            if !is_blank(line) {
                return Some(line);
            }
        }
        None
    }
}

/// The first line of a text, and what is behind its line feed.
fn first_line(text: &[u8]) -> Option<(&[u8], &[u8])>
    ensures some { IfSome result (λ cut. (lines_of text.now ≡ cut.0.now ∷ lines_of cut.1.now)
        × (length cut.1.now < length text.now)) }
    ensures none { IfNone result (lines_of text.now ≡ []) }
{
    if text.is_empty() {
        return None;
    }
    let end = line_length(text);
    if end == text.len() {
        return Some((text, b""));
    }
    Some((&text[..end], &text[end + 1..]))
}

/// How many bytes stand before the first line feed, or in all.
fn line_length(bytes: &[u8]) -> usize
    ensures within { result ≤ length bytes.now }
    ensures before { IsLfFree (take result bytes.now) }
    ensures found { result < length bytes.now →
        bytes.now ≡ take result bytes.now ++ line_feed ∷ drop (result + 1) bytes.now }
{
    for (index, byte) in bytes.iter().enumerate() {
        if *byte == b'\n' {
            return index;
        }
    }
    bytes.len()
}

/// Whether a line is of spaces, tabs and carriage returns alone.
fn is_blank(line: &[u8]) -> bool
    ensures { result ≡ is_blank line.now }
{
    line.iter().all(|byte| is_space(*byte))
}

/// Whether JSON takes the byte for a space.
fn is_space(byte: u8) -> bool
    ensures { result ≡ is_space byte }
{
    byte == b' ' || byte == b'\t' || byte == b'\n' || byte == b'\r'
}
