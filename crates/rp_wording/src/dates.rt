//! What dates and times look like.

/// Whether it looks like a date or a time: it begins with a digit, and has two of the signs that stand in those.
pub fn is_date(text: &str) -> bool {
    let digit = match text.bytes().next() {
        Some(byte) => byte.is_ascii_digit(),
        None => false,
    };
    let signs = text
        .bytes()
        .filter(|byte| matches!(*byte, b'-' | b'/' | b':' | b'T'))
        .count();
    let points = text.bytes().filter(|byte| *byte == b'.').count();
    digit && (signs >= 2 || signs == 1 && text.contains(':') || points == 2)
}
