//! From a line to a reply.
ghost use Rattle.std.specs.Prelude.{◌≡◌, ◌⊎◌, Ok, Err, Some, IfOk, IfErr, codes};
ghost use Rattle.serde_json.specs.View.{view};
ghost use Rattle.rp_json.specs.Forms.{place_of};
ghost use Rattle.rp_json.specs.Objects.{field, only};
ghost use Rattle.rp_protocol.specs.Replies.{answered, answered_within, fault_of, item_in, placed_in, refused_of, reply_in, row_item_in, taken_of, true_of};

use crate::read_refusal::refusal_of;
use crate::{Field, LineFault, MAX_LINE_LEN, Reply};
use rp_feed::Taken;
use rp_json::{cells, has, has_fields, object_of, optional, place_of};
use rp_query::{Item, SkipFault};
use serde_json::Value as Json;
use std::alloc::{AllocError, Global};

/// The reply that a line is, or the first fault of the line.
pub fn reply_of(alloc: Global, line: &[u8]) -> Result<Reply, LineFault>
    ensures ok { IfOk result (λ r. answered line.now ≡ Ok r) }
    ensures err { IfErr result (λ e. (e ≡ LineFault.OutOfMemory) ⊎ (answered line.now ≡ Err e)) }
{
    reply_within(alloc, MAX_LINE_LEN, line)
}

/// The reply that a line of at most `limit` bytes is, or the first fault of the line: `TooLong` where it has more.
///
/// A node's replies have no greatest length: that of an item goes by the texts in it.
pub fn reply_within(alloc: Global, limit: usize, line: &[u8]) -> Result<Reply, LineFault>
    ensures ok { IfOk result (λ r. answered_within limit line.now ≡ Ok r) }
    ensures err { IfErr result (λ e. (e ≡ LineFault.OutOfMemory) ⊎ (answered_within limit line.now ≡ Err e)) }
{
    if line.len() > limit {
        return Err(LineFault::TooLong);
    }
    let object = object_of(alloc, line)?;
    let json = object.ok_or(LineFault::NotJson)?;
    let reply = reply_in(alloc, &json)?;
    reply.ok_or(LineFault::BadField(Field::Other))
}

fn reply_in(alloc: Global, json: &Json) -> Result<Option<Reply>, AllocError>
    ensures { IfOk result (λ o. o ≡ reply_in (view json.now)) }
{
    if has(json, "taken") {
        return Ok(only(json, 1, taken(json).map(Reply::Taken)));
    }
    if has(json, "idle") {
        let key = cells(alloc, json, "idle")?;
        return Ok(only(json, 1, key.map(Reply::Idle)));
    }
    if has(json, "paused") {
        let key = cells(alloc, json, "paused")?;
        return Ok(only(json, 1, key.map(Reply::Paused)));
    }
    if has(json, "refused") {
        return Ok(only(json, 1, refused(json)));
    }
    placed_in(alloc, json)
}

fn placed_in(alloc: Global, json: &Json) -> Result<Option<Reply>, AllocError>
    ensures { IfOk result (λ o. o ≡ placed_in (view json.now)) }
{
    let Some(key) = cells(alloc, json, "key")? else {
        return Ok(None);
    };
    let Some(place) = place(json) else {
        return Ok(None);
    };
    let Some(item) = item_in(alloc, json)? else {
        return Ok(None);
    };
    Ok(Some(Reply::Item { key, place, item }))
}

fn item_in(alloc: Global, json: &Json) -> Result<Option<Item>, AllocError>
    ensures { IfOk result (λ o. o ≡ item_in (view json.now)) }
{
    if has(json, "cells") {
        return row_item_in(alloc, json);
    }
    if has(json, "fault") {
        let Some(fault) = fault(json) else {
            return Ok(None);
        };
        return Ok(only_item(json, 3, Item::Fault(fault)));
    }
    if ends(json).is_none() {
        return Ok(None);
    }
    Ok(only_item(json, 3, Item::End))
}

fn row_item_in(alloc: Global, json: &Json) -> Result<Option<Item>, AllocError>
    ensures { IfOk result (λ o. o ≡ row_item_in (view json.now)) }
{
    let Some(cells) = cells(alloc, json, "cells")? else {
        return Ok(None);
    };
    let Some(number) = optional(json, "number") else {
        return Ok(None);
    };
    Ok(only_item(json, 4, Item::Row { number, cells }))
}

fn only(json: &Json, count: usize, reply: Option<Reply>) -> Option<Reply>
    ensures { result ≡ only count (view json.now) reply }
{
    if has_fields(json, count) { reply } else { None }
}

fn only_item(json: &Json, count: usize, item: Item) -> Option<Item>
    ensures { result ≡ only count (view json.now) (Some item) }
{
    if has_fields(json, count) {
        Some(item)
    } else {
        None
    }
}

fn taken(json: &Json) -> Option<Taken>
    ensures { result ≡ field (codes "taken") taken_of (view json.now) }
{
    let text = json.get("taken")?.as_str()?;
    if text == "new" {
        Some(Taken::New)
    } else if text == "repeat" {
        Some(Taken::Repeat)
    } else if text == "old" {
        Some(Taken::Old)
    } else {
        None
    }
}

fn fault(json: &Json) -> Option<SkipFault>
    ensures { result ≡ field (codes "fault") fault_of (view json.now) }
{
    let text = json.get("fault")?.as_str()?;
    if text == "SkipNoRow" {
        Some(SkipFault::SkipNoRow)
    } else if text == "SkipSame" {
        Some(SkipFault::SkipSame)
    } else {
        None
    }
}

fn ends(json: &Json) -> Option<bool>
    ensures { result ≡ field (codes "end") true_of (view json.now) }
{
    if json.get("end")?.as_bool()? {
        Some(true)
    } else {
        None
    }
}

fn refused(json: &Json) -> Option<Reply>
    ensures { result ≡ field (codes "refused") refused_of (view json.now) }
{
    let text = json.get("refused")?.as_str()?;
    refusal_of(text).map(Reply::Refused)
}

fn place(json: &Json) -> Option<u128>
    ensures { result ≡ field (codes "place") place_of (view json.now) }
{
    place_of(json.get("place")?)
}
