//! A line read as the request that it is, or the first reason why it is none.
ghost use Rattle.std.specs.Prelude.{◌≡◌, option_map};
ghost use Rattle.serde_json.specs.View.{view, items_view};
ghost use Rattle.cluster_state.specs.declared.request.Ask.TheVariants.{Exclude};
ghost use Rattle.client_lines.specs.Requests.{has_members as members_are, id_of, text_at, put_of, remove_of, node_id_of, node_set_of, exclude_of, clear_of, state_of, ask_of, request_of};
ghost use Rattle.client_lines.specs.Reading.{json_of, shaped, line_request, Reads, ReadsValue};

use crate::fault::LineError;
use cluster_state::{Ask, LineFault, Request, Text};
use serde_json::Value;
use std::alloc::Global;
use voting_config::{IdList, NodeId, NodeSet};

/// The most bytes of a line, without its line feed.
pub const MAX_LINE: usize = 8192;

/// The greatest id of a request: 2^62.
pub const MAX_REQUEST_ID: u64 = 1 << 62;

/// The request that a line is: an object of an `id` and one thing that is asked. `TooLong` exactly where the line has
/// over [`MAX_LINE`] bytes, else `NotJson` exactly where it is no JSON value, else `BadShape` exactly where it is no
/// request.
#[tactic(auto, unfolding(crate::specs::Reading::line_request))]
pub fn read_line(alloc: Global, line: &[u8]) -> Result<Request, LineError>
    ensures { Reads result (line_request line.now) }
{
    if line.len() > MAX_LINE {
        return Err(LineError::Fault(LineFault::TooLong));
    }
    let value = read_value(alloc, line)?;
    read_request(alloc, &value)
}

fn read_value(alloc: Global, line: &[u8]) -> Result<Value, LineError>
    ensures { ReadsValue result (json_of line.now) }
{
    match Value::from_slice(alloc, line) {
        Ok(value) => Ok(value),
        Err(e) if e.is_memory() => Err(LineError::Memory),
        Err(_) => Err(LineError::Fault(LineFault::NotJson)),
    }
}

fn read_request(alloc: Global, value: &Value) -> Result<Request, LineError>
    ensures { Reads result (shaped (request_of (view value.now))) }
{
    if !has_members(value, 2) {
        return Err(LineError::Fault(LineFault::BadShape));
    }
    let id = request_id(value).ok_or(LineFault::BadShape)?;
    let ask = read_ask(alloc, value)?;
    Ok(Request { id, ask })
}

fn read_ask(alloc: Global, value: &Value) -> Result<Ask, LineError>
    ensures { Reads result (shaped (ask_of (view value.now))) }
{
    if let Some(put) = value.get("put") {
        return read_put(alloc, put);
    }
    if let Some(remove) = value.get("remove") {
        return read_remove(alloc, remove);
    }
    if let Some(exclude) = value.get("exclude") {
        return read_exclude(alloc, exclude);
    }
    let ask = if let Some(clear) = value.get("clear") {
        read_clear(clear)
    } else if let Some(state) = value.get("state") {
        read_state(state)
    } else {
        None
    };
    Ok(ask.ok_or(LineFault::BadShape)?)
}

fn read_put(alloc: Global, value: &Value) -> Result<Ask, LineError>
    ensures { Reads result (shaped (put_of (view value.now))) }
{
    if !has_members(value, 2) {
        return Err(LineError::Fault(LineFault::BadShape));
    }
    let key = read_text(alloc, value, "key")?;
    let value = read_text(alloc, value, "value")?;
    Ok(Ask::Put { key, value })
}

fn read_remove(alloc: Global, value: &Value) -> Result<Ask, LineError>
    ensures { Reads result (shaped (remove_of (view value.now))) }
{
    if !has_members(value, 1) {
        return Err(LineError::Fault(LineFault::BadShape));
    }
    let key = read_text(alloc, value, "key")?;
    Ok(Ask::Remove { key })
}

fn read_text(alloc: Global, value: &Value, name: &str) -> Result<Text, LineError>
    ensures { Reads result (shaped (text_at name.now (view value.now))) }
{
    let text = value
        .get(name)
        .and_then(Value::as_str)
        .ok_or(LineFault::BadShape)?;
    Ok(Text::of(String::from_str(alloc, text)?))
}

fn read_exclude(alloc: Global, value: &Value) -> Result<Ask, LineError>
    ensures { Reads result (shaped (exclude_of (view value.now))) }
{
    let ids = ids_to_exclude(value).ok_or(LineFault::BadShape)?;
    let ids = IdList::of(alloc, &ids)?;
    Ok(Ask::Exclude(ids))
}

// The ids of an exclusion, one at least.
fn ids_to_exclude(value: &Value) -> Option<NodeSet>
    ensures { option_map Exclude result ≡ exclude_of (view value.now) }
{
    let values = value.as_array()?;
    if values.is_empty() {
        return None;
    }
    read_ids(values)
}

fn read_ids(values: &[Value]) -> Option<NodeSet>
    ensures { result ≡ node_set_of (items_view values.now) }
{
    let mut ids = NodeSet::new();
    for value in values {
        let id = read_id(value)?;
        if !matches!(ids.insert(id), Ok(true)) {
            return None;
        }
    }
    Some(ids)
}

fn read_id(value: &Value) -> Option<NodeId>
    ensures { result ≡ node_id_of (view value.now) }
{
    NodeId::parse(value.as_str()?).ok()
}

fn read_clear(value: &Value) -> Option<Ask>
    ensures { result ≡ clear_of (view value.now) }
{
    if has_members(value, 0) {
        return Some(Ask::Clear {
            wait_for_removal: true,
        });
    }
    if !has_members(value, 1) {
        return None;
    }
    let wait_for_removal = value.get("wait_for_removal").and_then(Value::as_bool)?;
    Some(Ask::Clear { wait_for_removal })
}

fn read_state(value: &Value) -> Option<Ask>
    ensures { result ≡ state_of (view value.now) }
{
    has_members(value, 0).then_some(Ask::State)
}

fn request_id(value: &Value) -> Option<u64>
    ensures { result ≡ id_of (view value.now) }
{
    value
        .get("id")
        .and_then(Value::as_u64)
        .filter(|id| *id <= MAX_REQUEST_ID)
}

// Whether the value is an object with so many members.
fn has_members(value: &Value, count: usize) -> bool
    ensures { result ≡ members_are count (view value.now) }
{
    match value.as_object() {
        Some(members) => members.len() == count,
        None => false,
    }
}
