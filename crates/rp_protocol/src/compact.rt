//! Compact lines of requests, read without a tree of JSON.
//!
//! Each reader takes what it reads from the front of a text and gives it with what follows. None says that another
//! reader has to look: at a text with an escape, say, or a space. A number is compared with what would be written for
//! it, so no reader has a rule of its own about signs or zeros in front.
ghost use Rattle.std.specs.Prelude.{◌≡◌, ◌≤◌, ◌++◌, ◌∷◌, [], IfOk, IfSome, IsTrue, Ok, codes, decimal, length, take};
ghost use Rattle.std.specs.Fmt.{signed_decimal};
ghost use Rattle.json.specs.Print.{escape, escape_byte};
ghost use Rattle.rp_protocol.specs.ReplyLines.{value_text, values_text};
ghost use Rattle.rp_protocol.specs.Within.{AreCells, IsCell};
ghost use Rattle.rp_protocol.specs.Lines.{longest_line};
ghost use Rattle.rp_protocol.specs.Requests.{asked, request_text};
ghost use Rattle.rp_protocol.specs.Compact.{IsLineOf};

use crate::Request;
use itoa::Buffer;
use rp_feed::Packet;
use rp_value::{Cells, Row, Text, Value};
use std::alloc::{AllocError, Global};

/// The request of a line that is compact and has no escape, such as `{"cells":["x",1,10],"row":12}`. Of any other line it
/// says nothing: None, where `request_of`, which tries this first, makes a tree of JSON. The length is for the caller to see.
pub fn compact_request(alloc: Global, line: &[u8]) -> Result<Option<Request>, AllocError>
    ensures { IfOk result (λ o. IfSome o (λ r. length line.now ≤ longest_line → asked line.now ≡ Ok r)) }
{
    let Ok(_) = std::str::from_utf8(line) else {
        return Ok(None);
    };
    if let Some(rest) = after(line, b"{\"cells\":") {
        return row_line(alloc, rest);
    }
    if let Some(rest) = after(line, b"{\"close\":") {
        return close_line(alloc, rest);
    }
    if let Some(rest) = after(line, b"{\"budget\":") {
        return poll_line(alloc, rest);
    }
    Ok(None)
}

/// A row, behind the name of its first field.
fn row_line(alloc: Global, text: &[u8]) -> Result<Option<Request>, AllocError>
    ensures { IfOk result (λ o. IfSome o (IsLineOf (codes "{\"cells\":" ++ text.now))) }
{
    let Some((cells, rest)) = cells_at(alloc, text)? else {
        return Ok(None);
    };
    let Some(rest) = after(rest, b",\"row\":") else {
        return Ok(None);
    };
    let Some((number, rest)) = whole_at(rest) else {
        return Ok(None);
    };
    if rest != b"}".as_slice() {
        return Ok(None);
    }
    let cells = Row::new(alloc, cells.into_vec())?;
    Ok(Some(Request::Packet(Packet::Row { number, cells })))
}

/// A close, behind the name of its first field.
fn close_line(alloc: Global, text: &[u8]) -> Result<Option<Request>, AllocError>
    ensures { IfOk result (λ o. IfSome o (IsLineOf (codes "{\"close\":" ++ text.now))) }
{
    let Some((count, rest)) = whole_at(text) else {
        return Ok(None);
    };
    let Some(rest) = after(rest, b",\"key\":") else {
        return Ok(None);
    };
    let Some((key, rest)) = cells_at(alloc, rest)? else {
        return Ok(None);
    };
    if rest != b"}".as_slice() {
        return Ok(None);
    }
    Ok(Some(Request::Packet(Packet::Close { key, count })))
}

/// A poll, behind the name of its first field.
fn poll_line(alloc: Global, text: &[u8]) -> Result<Option<Request>, AllocError>
    ensures { IfOk result (λ o. IfSome o (IsLineOf (codes "{\"budget\":" ++ text.now))) }
{
    let Some((turns, rest)) = whole_at(text) else {
        return Ok(None);
    };
    let Ok(budget) = u32::try_from(turns) else {
        return Ok(None);
    };
    let Some(rest) = after(rest, b",\"poll\":") else {
        return Ok(None);
    };
    let Some((key, rest)) = cells_at(alloc, rest)? else {
        return Ok(None);
    };
    if rest != b"}".as_slice() {
        return Ok(None);
    }
    Ok(Some(Request::Poll { key, budget }))
}

/// A list of cells.
fn cells_at(alloc: Global, text: &[u8]) -> Result<Option<(Cells, &[u8])>, AllocError>
    ensures { IfOk result (λ o. IfSome o (λ p.
        (text.now ≡ values_text p.0 ++ p.1.now) × AreCells p.0)) }
{
    let Some(list) = after(text, b"[") else {
        return Ok(None);
    };
    if let Some(rest) = after(list, b"]") {
        return Ok(Some((Cells::new(Vec::new(alloc)), rest)));
    }
    let Some((first, rest)) = cell_at(alloc, list)? else {
        return Ok(None);
    };
    more_cells(alloc, first, rest)
}

/// The list of a first cell and of those behind it, to the closing bracket.
fn more_cells(
    alloc: Global,
    first: Value,
    text: &[u8],
) -> Result<Option<(Cells, &[u8])>, AllocError>
    requires { IsCell first }
    ensures { IfOk result (λ o. IfSome o (λ p.
        (codes "[" ++ (value_text first ++ text.now) ≡ values_text p.0 ++ p.1.now) × AreCells p.0)) }
{
    let mut cells = Vec::with_capacity(alloc, 4)?;
    cells.push(first)?;
    let mut rest = text;
    for _ in 0..text.len() {
        if let Some(end) = after(rest, b"]") {
            return Ok(Some((Cells::new(cells), end)));
        }
        let Some(next) = after(rest, b",") else {
            return Ok(None);
        };
        let Some((cell, end)) = cell_at(alloc, next)? else {
            return Ok(None);
        };
        cells.push(cell)?;
        rest = end;
    }
    Ok(None)
}

fn cell_at(alloc: Global, text: &[u8]) -> Result<Option<(Value, &[u8])>, AllocError>
    ensures { IfOk result (λ o. IfSome o (λ p.
        (text.now ≡ value_text p.0 ++ p.1.now) × IsCell p.0)) }
{
    if let Some(quoted) = after(text, b"\"") {
        return text_at(alloc, quoted);
    }
    if let Some(rest) = after(text, b"null") {
        return Ok(Some((Value::Null, rest)));
    }
    match int_at(text) {
        Some((number, rest)) => Ok(Some((Value::Int(number), rest))),
        None => Ok(None),
    }
}

/// A text without escapes, behind its opening quote.
fn text_at(alloc: Global, text: &[u8]) -> Result<Option<(Value, &[u8])>, AllocError>
    ensures { IfOk result (λ o. IfSome o (λ p.
        (34 ∷ text.now ≡ value_text p.0 ++ p.1.now) × IsCell p.0)) }
{
    let (plain, rest) = text.split_at(plain_len(text));
    let Some(rest) = after(rest, b"\"") else {
        return Ok(None);
    };
    let Ok(plain) = std::str::from_utf8(plain) else {
        return Ok(None);
    };
    let copy = String::from_str(alloc, plain)?;
    Ok(Some((Value::Text(Text::new(alloc, copy)?), rest)))
}

/// How many bytes from the first on stand in a string as they are.
fn plain_len(text: &[u8]) -> usize
    ensures fits { result ≤ length text.now }
    ensures plain { escape (take result text.now) ≡ take result text.now }
{
    let mut count = 0;
    for byte in text {
        if !is_plain(*byte) {
            return count;
        }
        count += 1;
    }
    count
}

fn is_plain(byte: u8) -> bool
    ensures { IsTrue result → escape_byte byte ≡ byte ∷ [] }
{
    if byte < b' ' {
        return false;
    }
    if byte == b'"' {
        return false;
    }
    if byte == b'\\' {
        return false;
    }
    true
}

fn int_at(text: &[u8]) -> Option<(i64, &[u8])>
    ensures { IfSome result (λ p. (text.now ≡ signed_decimal p.0 ++ p.1.now) × IsCell (Value.Int p.0)) }
{
    let number = digits_of(text)?.parse::<i64>().ok()?;
    let mut buffer = Buffer::new();
    let rest = after(text, buffer.format(number).as_bytes())?;
    Some((number, rest))
}

fn whole_at(text: &[u8]) -> Option<(u64, &[u8])>
    ensures { IfSome result (λ p. text.now ≡ decimal p.0 ++ p.1.now) }
{
    let number = digits_of(text)?.parse::<u64>().ok()?;
    let mut buffer = Buffer::new();
    let rest = after(text, buffer.format(number).as_bytes())?;
    Some((number, rest))
}

/// The digits and signs at the front. What they mean is for the caller to see.
fn digits_of(text: &[u8]) -> Option<&str> {
    let mut count: usize = 0;
    for byte in text {
        if !byte.is_ascii_digit() && *byte != b'-' {
            break;
        }
        count = count.wrapping_add(1);
    }
    std::str::from_utf8(text.get(..count)?).ok()
}

/// What follows a mark.
fn after<'a>(text: &'a [u8], mark: &[u8]) -> Option<&'a [u8]>
    ensures { IfSome result (λ rest. text.now ≡ mark.now ++ rest.now) }
{
    text.strip_prefix(mark)
}
