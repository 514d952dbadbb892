//! A line that is no object of JSON.

use rp_proposal::{has_mark, of_no_json};
use rp_wording::Hint;

/// A line of a text.
#[derive(Clone, Copy)]
pub(crate) struct Line<'a> {
    /// Its number, from 1.
    pub(crate) number: usize,
    /// The offset at which it begins.
    pub(crate) start: usize,
    pub(crate) text: &'a [u8],
    /// What is behind its end.
    pub(crate) behind: &'a [u8],
}

/// What is said of most of these lines.
const NO_OBJECT: Hint = Hint {
    what: "this is no object of JSON",
    help: "each line is an object, as {\"sym\":\"x\",\"p\":1}; a CSV file is read without --from jsonl",
};

/// What is said of a line that begins an object, and is none.
const BROKEN: Hint = Hint {
    what: "this is no object of JSON",
    help: "each object is in a line of its own: jq -c . FILE makes such lines, or says where a fault is (jq before 1.7 rounds whole numbers of more than 15 digits)",
};

/// What is said of a line with more than one object.
const SEVERAL: Hint = Hint {
    what: "this is more than one object of JSON",
    help: "each object is in a line of its own: jq -c . FILE makes such lines (jq before 1.7 rounds whole numbers of more than 15 digits)",
};

/// What is said of a line that ends in a comma.
const COMMA: Hint = Hint {
    what: "this is no object of JSON: a comma is at its end",
    help: "no comma is between the lines: sed 's/,[[:space:]]*$//' FILE | rowmatch ..",
};

/// What is said of a list.
const LIST: Hint = Hint {
    what: "this is no object of JSON",
    help: "each line is an object, as {\"sym\":\"x\",\"p\":1}: jq -c '.[]' FILE makes such lines of a list (jq before 1.7 rounds whole numbers of more than 15 digits)",
};

/// What is said of a byte order mark.
const MARK: Hint = Hint {
    what: "it begins with a byte order mark, which is no JSON",
    help: "tail -c +4 FILE | rowmatch ..",
};

/// What is said of bytes that are no text.
const NO_TEXT: Hint = Hint {
    what: "these bytes aren't UTF-8",
    help: "UTF-8 is read: iconv -f WINDOWS-1252 -t UTF-8 FILE | rowmatch ..",
};

/// What is said of a last line that is open.
const CUT: Hint = Hint {
    what: "this is the last line, and no } ends it",
    help: "was the file written to its end? each line is a whole object",
};

/// What is said of an open line before one that begins an object.
const OPEN: Hint = Hint {
    what: "this is no object of JSON: no } ends the line",
    help: "each line is a whole object, as {\"sym\":\"x\",\"p\":1}",
};

/// What is said of an open line before one that doesn't.
const SPREAD: Hint = Hint {
    what: "this is no object of JSON: no } ends the line",
    help: "each line is a whole object: jq -c . FILE makes such lines of objects over several (jq before 1.7 rounds whole numbers of more than 15 digits)",
};

/// What is said of a line that is no object, by the bytes of the text that it is of.
pub(crate) fn no_object(bytes: &[u8], line: &Line<'_>) -> Hint {
    if line.start > 0 {
        return of_text(line);
    }
    if has_mark(bytes) {
        return MARK;
    }
    match of_no_json(bytes) {
        Some(found) => found,
        None => of_text(line),
    }
}

/// The same by the line alone, and what is behind it.
fn of_text(line: &Line<'_>) -> Hint {
    let Ok(text) = std::str::from_utf8(line.text) else {
        return NO_TEXT;
    };
    let text = text.trim();
    if text.starts_with('[') {
        return LIST;
    }
    if is_open(text) {
        return of_open(line.behind);
    }
    of_closed(text)
}

/// What is said of a line that begins no list and no object that is open.
fn of_closed(text: &str) -> Hint {
    if !text.starts_with('{') {
        return NO_OBJECT;
    }
    if text.ends_with(',') {
        return COMMA;
    }
    if text.contains("}{") || text.contains("} {") {
        return SEVERAL;
    }
    BROKEN
}

/// Whether a line begins an object, and doesn't end one.
fn is_open(text: &str) -> bool {
    text.starts_with('{') && !text.ends_with('}') && !text.ends_with("},")
}

/// What is said of a line that begins an object and doesn't end it, by what is behind the line.
fn of_open(behind: &[u8]) -> Hint {
    match behind.trim_ascii_start().first() {
        None => CUT,
        Some(byte) if *byte == b'{' => OPEN,
        Some(_) => SPREAD,
    }
}
