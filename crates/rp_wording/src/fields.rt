//! What a field of an input looks like, whatever its column is: a word for a null, a whole number, digits with signs.

use crate::advice::is_one_of;

/// The words that other programs write for a null.
const NULL_WORDS: &str = "NULL NIL NONE NA N/A NAN NAT \\N - ? #N/A <NA>";

/// Whether a field is a word that other programs write for a null, with blanks round it or none.
pub fn is_null_word(field: &[u8]) -> bool {
    match std::str::from_utf8(field) {
        Ok(text) => is_one_of(text.trim(), NULL_WORDS),
        Err(_) => false,
    }
}

/// Whether a field is a whole number of 64 bits, behind a sign or none.
pub fn is_whole(field: &[u8]) -> bool {
    match std::str::from_utf8(field) {
        Ok(text) => text.parse::<i64>().is_ok(),
        Err(_) => false,
    }
}

/// Whether a zero stands in front of what follows it, behind a sign or none.
pub fn has_zeros(field: &[u8]) -> bool {
    let digits = match field {
        [b'-' | b'+', rest @ ..] => rest,
        _ => field,
    };
    digits.len() > 1 && digits.first() == Some(&b'0')
}

/// A number without the sign in front of it.
pub fn unsigned(text: &str) -> &str {
    match text.strip_prefix('-') {
        Some(rest) => rest,
        None => text.strip_prefix('+').unwrap_or(text),
    }
}

/// Whether a text is one digit or more, and nothing else.
pub fn are_digits(text: &str) -> bool {
    !text.is_empty() && are_digits_or(text, "")
}

/// Whether a text has nothing but digits and these characters of ASCII.
pub fn are_digits_or(text: &str, others: &str) -> bool {
    for byte in text.as_bytes() {
        if !byte.is_ascii_digit() && !others.as_bytes().contains(byte) {
            return false;
        }
    }
    true
}

/// How many digits a text has.
pub fn count_digits(text: &str) -> usize {
    let mut count = 0usize;
    for byte in text.as_bytes() {
        if byte.is_ascii_digit() {
            count = count.saturating_add(1);
        }
    }
    count
}
