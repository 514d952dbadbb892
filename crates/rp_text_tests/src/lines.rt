//! Lines that no script can have: as long as a line may be, with blanks around them, and of bytes that are no text.
use crate::support::same;
use rp_protocol::{Field, LineFault, reply_line, reply_of, request_line, request_of};
use std::alloc::{AllocError, Global};
use std::test::Fail;

/// What a line asks, written anew.
pub fn request_anew(alloc: Global, line: &[u8]) -> Result<Vec<u8>, LineFault> {
    let request = request_of(alloc, line)?;
    Ok(request_line(alloc, &request)?)
}

/// What a line replies, written anew.
pub fn reply_anew(alloc: Global, line: &[u8]) -> Result<Vec<u8>, LineFault> {
    let reply = reply_of(alloc, line)?;
    Ok(reply_line(alloc, &reply)?.into_bytes())
}

/// Lines, a byte that is put in the place of `|`, and how often; and how the line is read. One may have 65,536 bytes.
const LINES: [(&str, u8, usize, &str); 14] = [
    ("|", b' ', 65_536, "NotJson"),
    ("|", b' ', 65_537, "TooLong"),
    ("|", b'[', 200, "NotJson"),
    ("|", b'\xff', 1, "NotJson"),
    (r#"{"|":1}"#, b'\xff', 1, "NotJson"),
    // 22 bytes stand round the letters, and 23 where there is a space.
    (r#"{"cells":["|"],"row":1}"#, b'x', 65_514, "a request"),
    (r#"{"cells":["|"],"row":1}"#, b'x', 65_515, "TooLong"),
    (r#"{"cells":["|"], "row":1}"#, b'x', 65_513, "a request"),
    (r#"{"cells":["|"], "row":1}"#, b'x', 65_514, "TooLong"),
    (r#"{"cells":[null,"|"],"row":9}"#, b'x', 60_001, "a request"),
    // 49 bytes stand round these.
    (
        r#"{"cells":["|"],"key":[],"number":null,"place":"1"}"#,
        b'x',
        65_487,
        "a reply",
    ),
    (
        r#"{"cells":["|"],"key":[],"number":null,"place":"1"}"#,
        b'x',
        65_488,
        "TooLong",
    ),
    (
        r#" { "cells" : [ null ] ,| "row" : 1 } "#,
        b' ',
        1,
        "a request",
    ),
    (
        r#" {"fault":"SkipSame" |, "key":[],"place": "0"} "#,
        b' ',
        1,
        "a reply",
    ),
];

#[test]
fn lines_of_no_script(rt: HostRuntime) -> Result<(), Fail> {
    let alloc = rt.alloc();
    let lines: &[(&str, u8, usize, &str)] = &LINES;
    for (form, byte, count, wanted) in lines {
        let line = line_of(alloc, form, *byte, *count)?;
        same(&rt, form, told_of(alloc, line.as_slice())?, wanted);
    }
    Ok(())
}

fn line_of(alloc: Global, form: &str, byte: u8, count: usize) -> Result<Vec<u8>, Fail> {
    let (front, back) = form.split_once("|").ok_or("a place")?;
    let mut line = Vec::from_slice(alloc, front.as_bytes())?;
    line.resize(line.len().saturating_add(count), byte)?;
    line.extend_from_slice(back.as_bytes())?;
    Ok(line)
}

/// How a line is read: as a request or a reply that is written as it is but for its blanks, or as neither.
fn told_of(alloc: Global, line: &[u8]) -> Result<&'static str, Fail> {
    let wanted = without_blanks(alloc, line)?;
    let wanted = wanted.as_slice();
    match (&request_anew(alloc, line), &reply_anew(alloc, line)) {
        (Ok(bytes), Err(LineFault::BadField(Field::Other))) if bytes.as_slice() == wanted => Ok(
            "a request",
        ),
        (Err(LineFault::BadField(Field::Row)), Ok(bytes)) if bytes.as_slice() == wanted => Ok(
            "a reply",
        ),
        (Err(LineFault::TooLong), Err(LineFault::TooLong)) => Ok("TooLong"),
        (Err(LineFault::NotJson), Err(LineFault::NotJson)) => Ok("NotJson"),
        (Err(LineFault::OutOfMemory), _) | (_, Err(LineFault::OutOfMemory)) => Err(Fail::from(
            LineFault::OutOfMemory,
        )),
        _ => Ok("something else"),
    }
}

fn without_blanks(alloc: Global, line: &[u8]) -> Result<Vec<u8>, AllocError> {
    let mut bytes = Vec::new(alloc);
    for byte in line {
        if *byte != b' ' {
            bytes.push(*byte)?;
        }
    }
    Ok(bytes)
}
