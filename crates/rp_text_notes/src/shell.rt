//! Words of a shell.

use rp_wording::Pieces;

/// Adds a text as one word of a shell: in double quotes where it has single ones, and no character that a shell takes in double ones.
pub(crate) fn push_word(line: &mut Pieces, text: &str) {
    if text.contains('\'') && !text.bytes().any(|byte| is_taken(byte)) {
        line.push("\"");
        line.push(text);
        line.push("\"");
    } else {
        line.push_shell_word(text);
    }
}

/// Whether a shell takes a character in double quotes.
fn is_taken(byte: u8) -> bool {
    matches!(byte, b'"' | b'$' | b'`' | b'\\' | b'!')
}
