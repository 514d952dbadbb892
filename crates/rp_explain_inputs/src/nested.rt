//! A list or an object of JSON where a value should be.

use rp_wording::Pieces;
use std::alloc::{AllocError, Global};

/// What to do about a list of objects, behind the call of jq.
const OBJECTS: &str =
    " FILE makes a line of each of its objects, in which sources are then looked for (jq before 1.7 rounds whole numbers of more than 15 digits)";

/// What to do about a list of values, behind the call of jq.
const VALUES: &str =
    " FILE makes one text of it (jq before 1.7 rounds whole numbers of more than 15 digits)";

/// What to do about the list or the object that a line has under a path.
pub(crate) fn of_nested(alloc: Global, source: &str, line: &[u8]) -> Result<Pieces, AllocError> {
    let mut path = Pieces::new(alloc);
    let mut rest = line;
    for part in source.split('.') {
        let Some((key, value)) = member(rest, part) else {
            break;
        };
        push_key(&mut path, key);
        if value.first() == Some(&b'[') {
            return Ok(of_list(alloc, path.text()?, value));
        }
        rest = value;
    }
    Ok(of_object(alloc))
}

/// What to do about what is no list, most likely.
fn of_object(alloc: Global) -> Pieces {
    Pieces::of(
        alloc,
        "a list or an object is no value: name what is in it by a path in double quotes, as \"user.id\"",
    )
}

/// What to do about a list, which begins these bytes, under a path as jq has it.
fn of_list(alloc: Global, path: &str, list: &[u8]) -> Pieces {
    let inside = list.get(1..).unwrap_or(b"").trim_ascii_start();
    match inside.first() {
        Some(byte) if *byte == b'{' => {
            let program = Pieces::filled(alloc, "{}[]", &[path]);
            by_program(alloc, program, OBJECTS)
        }
        Some(byte) if !matches!(*byte, b'[' | b']') => {
            let program = Pieces::filled(alloc, "({} | arrays) |= join(\" \")", &[path]);
            by_program(alloc, program, VALUES)
        }
        _ => of_object(alloc),
    }
}

/// A call of jq with a program, and what that does.
fn by_program(alloc: Global, program: Pieces, what: &str) -> Pieces {
    let mut help = Pieces::of(alloc, "a list is no value: jq -c ");
    match program.text() {
        Ok(text) => help.push_shell_word(text),
        Err(_) => help.push_made(Err(AllocError)),
    }
    help.push(what);
    help
}

/// Adds a key, as it is between its quotes, to a path of jq.
fn push_key(path: &mut Pieces, key: &str) {
    if is_name(key) {
        path.push_filled(".{}", &[key]);
    } else {
        path.push_filled(".\"{}\"", &[key]);
    }
}

/// Whether jq takes a key without quotes.
fn is_name(key: &str) -> bool {
    let is_first = match key.bytes().next() {
        Some(byte) => !byte.is_ascii_digit(),
        None => false,
    };
    is_first
        && key
            .bytes()
            .all(|byte| byte.is_ascii_alphanumeric() || byte == b'_')
}

/// The first key in a text that a part of a path may name, as it is between its quotes, and what is behind its colon.
fn member<'a>(text: &'a [u8], part: &str) -> Option<(&'a str, &'a [u8])> {
    let mut end = 0usize;
    for piece in text.split(|byte| *byte == b'"') {
        end = end.saturating_add(piece.len()).saturating_add(1);
        let behind = text.get(end..).unwrap_or(b"").trim_ascii_start();
        if let Ok(key) = std::str::from_utf8(piece)
            && key.eq_ignore_ascii_case(part)
            && behind.first() == Some(&b':')
        {
            return Some((key, behind.get(1..).unwrap_or(b"").trim_ascii_start()));
        }
    }
    None
}
