//! When two texts are one clause, and where they differ.
ghost use Rattle.std.specs.Prelude.{◌≡◌, ◌↔◌, IsTrue};
ghost use Rattle.rp_node.specs.ClauseTexts.{AreOneClause, common_front, is_blank, without_blank_end};

/// The text without the blanks and line ends at its end, which mean nothing there: a shell cuts them off what a command prints.
pub fn without_blank_end(text: &[u8]) -> &[u8]
    ensures { result.now ≡ without_blank_end text.now }
{
    let mut length = text.len();
    while length > 0 && is_blank(text[length - 1]) {
        length -= 1;
    }
    &text[..length]
}

/// Whether the byte is a space, a tab, a LF or a CR.
fn is_blank(byte: u8) -> bool
    ensures { result ≡ is_blank byte }
{
    byte == b' ' || byte == b'\t' || (byte == b'\n' || byte == b'\r')
}

/// Whether the texts are one clause.
pub(crate) fn are_one_clause(text: &[u8], other: &[u8]) -> bool
    ensures { IsTrue result ↔ AreOneClause text.now other.now }
{
    without_blank_end(text) == without_blank_end(other)
}

/// How many bytes the texts begin with that are the same.
pub(crate) fn common_front(text: &[u8], other: &[u8]) -> usize
    ensures { result ≡ common_front text.now other.now }
{
    let mut length = 0;
    while length < text.len() && length < other.len() {
        if text[length] != other[length] {
            return length;
        }
        length += 1;
    }
    length
}
