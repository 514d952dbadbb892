//! From a line to a request.
ghost use Rattle.std.specs.Prelude.{◌≡◌, ◌≤◌, ◌⊎◌, Ok, Err, IfOk, IfErr, length};
ghost use Rattle.serde_json.specs.View.{view};
ghost use Rattle.rp_protocol.specs.Lines.{longest_line};
ghost use Rattle.rp_protocol.specs.Requests.{asked, close_in, only_two, poll_in, request_in, row_in};

use crate::compact::compact_request;
use crate::{Field, LineFault, MAX_LINE_LEN, Request};
use rp_feed::Packet;
use rp_json::{cells, has, has_fields, object_of, short_whole, whole};
use rp_value::Row;
use serde_json::Value as Json;
use std::alloc::Global;

/// The request of a line, or the first fault of the line.
///
/// The cells of a row are as many and of the kinds that the line has: whether they fit a table is for the node to say.
pub fn request_of(alloc: Global, line: &[u8]) -> Result<Request, LineFault>
    ensures ok { IfOk result (λ r. asked line.now ≡ Ok r) }
    ensures err { IfErr result (λ e. (e ≡ LineFault.OutOfMemory) ⊎ (asked line.now ≡ Err e)) }
{
    if line.len() > MAX_LINE_LEN {
        return Err(LineFault::TooLong);
    }
    if let Some(request) = compact_request(alloc, line)? {
        return Ok(request);
    }
    request_of_tree(alloc, line)
}

/// The same by a tree of JSON, of a line that isn't too long.
pub(crate) fn request_of_tree(alloc: Global, line: &[u8]) -> Result<Request, LineFault>
    ensures ok { IfOk result (λ r. length line.now ≤ longest_line → asked line.now ≡ Ok r) }
    ensures err { IfErr result (λ e. (e ≡ LineFault.OutOfMemory)
        ⊎ (length line.now ≤ longest_line → asked line.now ≡ Err e)) }
{
    let object = object_of(alloc, line)?;
    let json = object.ok_or(LineFault::NotJson)?;
    request_in(alloc, &json)
}

/// The kind is that of the first of `row`, `close` and `poll` that is there.
fn request_in(alloc: Global, json: &Json) -> Result<Request, LineFault>
    ensures ok { IfOk result (λ r. request_in (view json.now) ≡ Ok r) }
    ensures err { IfErr result (λ e. (e ≡ LineFault.OutOfMemory) ⊎ (request_in (view json.now) ≡ Err e)) }
{
    if has(json, "row") {
        return row_in(alloc, json);
    }
    if has(json, "close") {
        return close_in(alloc, json);
    }
    if has(json, "poll") {
        return poll_in(alloc, json);
    }
    Err(LineFault::BadField(Field::Row))
}

fn row_in(alloc: Global, json: &Json) -> Result<Request, LineFault>
    ensures ok { IfOk result (λ r. row_in (view json.now) ≡ Ok r) }
    ensures err { IfErr result (λ e. (e ≡ LineFault.OutOfMemory) ⊎ (row_in (view json.now) ≡ Err e)) }
{
    let number = whole(json, "row").ok_or(LineFault::BadField(Field::Row))?;
    let cells = cells(alloc, json, "cells")?;
    let cells = cells.ok_or(LineFault::BadField(Field::Cells))?;
    let cells = Row::new(alloc, cells.into_vec())?;
    only_two(json, Request::Packet(Packet::Row { number, cells }))
}

fn close_in(alloc: Global, json: &Json) -> Result<Request, LineFault>
    ensures ok { IfOk result (λ r. close_in (view json.now) ≡ Ok r) }
    ensures err { IfErr result (λ e. (e ≡ LineFault.OutOfMemory) ⊎ (close_in (view json.now) ≡ Err e)) }
{
    let count = whole(json, "close").ok_or(LineFault::BadField(Field::Close))?;
    let key = cells(alloc, json, "key")?;
    let key = key.ok_or(LineFault::BadField(Field::Key))?;
    only_two(json, Request::Packet(Packet::Close { key, count }))
}

fn poll_in(alloc: Global, json: &Json) -> Result<Request, LineFault>
    ensures ok { IfOk result (λ r. poll_in (view json.now) ≡ Ok r) }
    ensures err { IfErr result (λ e. (e ≡ LineFault.OutOfMemory) ⊎ (poll_in (view json.now) ≡ Err e)) }
{
    let key = cells(alloc, json, "poll")?;
    let key = key.ok_or(LineFault::BadField(Field::Poll))?;
    let budget = short_whole(json, "budget").ok_or(LineFault::BadField(Field::Budget))?;
    only_two(json, Request::Poll { key, budget })
}

fn only_two(json: &Json, request: Request) -> Result<Request, LineFault>
    ensures { result ≡ only_two (view json.now) request }
{
    if has_fields(json, 2) {
        Ok(request)
    } else {
        Err(LineFault::BadField(Field::Other))
    }
}
