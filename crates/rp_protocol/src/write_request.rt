//! From a request to its line.
ghost use Rattle.std.specs.Prelude.{◌≡◌, ◌≤◌, IfOk, Ok, length};
ghost use Rattle.serde_json.specs.View.{view};
ghost use Rattle.rp_protocol.specs.Lines.{longest_line};
ghost use Rattle.rp_protocol.specs.Requests.{asked, request_data, request_in, request_text};

use crate::Request;
use rp_feed::Packet;
use rp_json::json_of_cells;
use rp_value::{Cells, Row};
use serde_json::{Map, Value as Json};
use std::alloc::{AllocError, Global};

/// The line of a request, without its line feed. What it asks is the request again, unless it is too long.
pub fn request_line(alloc: Global, request: &Request) -> Result<Vec<u8>, AllocError>
    ensures text { IfOk result (λ line. line.items ≡ request_text request.now) }
    ensures back { IfOk result (λ line. length line.items ≤ longest_line → asked line.items ≡ Ok request.now) }
{
    let json = request_json(alloc, request)?;
    json.to_vec(alloc)
}

fn request_json(alloc: Global, request: &Request) -> Result<Json, AllocError>
    ensures data { IfOk result (λ j. view j ≡ request_data request.now) }
    ensures back { IfOk result (λ j. request_in (view j) ≡ Ok request.now) }
{
    match request {
        Request::Packet(Packet::Row { number, cells }) => row_json(alloc, *number, cells),
        Request::Packet(Packet::Close { key, count }) => close_json(alloc, key, *count),
        Request::Poll { key, budget } => poll_json(alloc, key, *budget),
    }
}

fn row_json(alloc: Global, number: u64, cells: &Row) -> Result<Json, AllocError>
    ensures data { IfOk result (λ j. view j ≡ request_data (Request.Packet (Packet.Row number cells.now))) }
    ensures back { IfOk result (λ j. request_in (view j) ≡ Ok (Request.Packet (Packet.Row number cells.now))) }
{
    let mut map = Map::new(alloc);
    let list = json_of_cells(alloc, cells.cells())?;
    serde_json::put(&mut map, alloc, "cells", Json::Array(list))?;
    serde_json::put(&mut map, alloc, "row", Json::from(number))?;
    Ok(Json::Object(map))
}

fn close_json(alloc: Global, key: &Cells, count: u64) -> Result<Json, AllocError>
    ensures data { IfOk result (λ j. view j ≡ request_data (Request.Packet (Packet.Close key.now count))) }
    ensures back { IfOk result (λ j. request_in (view j) ≡ Ok (Request.Packet (Packet.Close key.now count))) }
{
    let mut map = Map::new(alloc);
    let list = json_of_cells(alloc, key.as_slice())?;
    serde_json::put(&mut map, alloc, "close", Json::from(count))?;
    serde_json::put(&mut map, alloc, "key", Json::Array(list))?;
    Ok(Json::Object(map))
}

fn poll_json(alloc: Global, key: &Cells, budget: u32) -> Result<Json, AllocError>
    ensures data { IfOk result (λ j. view j ≡ request_data (Request.Poll key.now budget)) }
    ensures back { IfOk result (λ j. request_in (view j) ≡ Ok (Request.Poll key.now budget)) }
{
    let mut map = Map::new(alloc);
    let list = json_of_cells(alloc, key.as_slice())?;
    serde_json::put(&mut map, alloc, "budget", Json::from(budget))?;
    serde_json::put(&mut map, alloc, "poll", Json::Array(list))?;
    Ok(Json::Object(map))
}
