//! States and values that are shown as JSON.
ghost use Rattle.std.specs.Prelude.{◌≡◌, ◌++◌, ◌∷◌, [], IfOk, option_map, if◌then◌else◌};
ghost use Rattle.voting_config.specs.Lists.{may_follow};
ghost use Rattle.serde_json.specs.View.{view, items_view};
ghost use Rattle.schedule_text.specs.Answers.{Answers};
ghost use Rattle.recorded_trace.specs.Json.{has_members as members_are, number_at as number_at_of, id_in as id_in_of, ids_after, ids_in as ids_in_of, ids_of as ids_of_of, master_in as master_in_of, master_of as master_of_of, settings_in as settings_in_of, settings_of as settings_of_of, value_in as value_in_of, value_of as value_of_of, state_id_in as state_id_in_of, parent_in as parent_in_of, parent_of as parent_of_of, state_in as state_in_of, json_of, shaped, value_at as value_at_of, state_at as state_at_of, ◌>>?◌};

use cluster_state::{ClusterState, ClusterValue, Settings, StateId};
use schedule_text::{ReadError, WhyBad};
use serde_json::Value;
use std::alloc::{AllocError, Global};
use voting_config::{IdList, MAX_IDS, NodeId, NodeSet};

// Whether the value is an object with so many members.
fn has_members(value: &Value, count: usize) -> bool
    ensures { result ≡ members_are count (view value.now) }
{
    match value.as_object() {
        Some(members) => members.len() == count,
        None => false,
    }
}

fn number_at(value: &Value, name: &str) -> Option<u64>
    ensures { result ≡ number_at_of name.now (view value.now) }
{
    value.get(name).and_then(Value::as_u64)
}

fn id_in(value: &Value) -> Option<NodeId>
    ensures { result ≡ id_in_of (view value.now) }
{
    let text = value.as_str()?;
    NodeId::from_bytes(text.as_bytes())
}

// Puts the id in, where it may follow those that are in.
fn follows(ids: &mut NodeSet, id: NodeId) -> bool
    ensures may { result ≡ may_follow ids.old id }
    ensures put { ids.new ≡ (if result then ids.old ++ id ∷ [] else ids.old) }
{
    // For the proof alone: an id has 1 to 32 bytes, and no others than those of ids.
    let _ = id.as_bytes();
    if ids.len() >= MAX_IDS {
        return false;
    }
    if !ids.comes_last(id) {
        return false;
    }
    ids.push(id);
    true
}

fn read_ids(values: &[Value]) -> Option<NodeSet>
    ensures { result ≡ ids_after [] (items_view values.now) }
{
    let mut ids = NodeSet::new();
    for value in values {
        let id = id_in(value)?;
        if !follows(&mut ids, id) {
            return None;
        }
    }
    Some(ids)
}

fn ids_in(value: &Value) -> Option<NodeSet>
    ensures { result ≡ ids_in_of (view value.now) }
{
    let values = value.as_array()?;
    read_ids(values)
}

fn ids_of(value: &Value, name: &str) -> Option<NodeSet>
    ensures { result ≡ ids_of_of name.now (view value.now) }
{
    let ids = value.get(name)?;
    ids_in(ids)
}

fn master_in(value: &Value) -> Option<Option<NodeId>>
    ensures { result ≡ master_in_of (view value.now) }
{
    if value.is_null() {
        return Some(None);
    }
    let id = id_in(value)?;
    Some(Some(id))
}

fn master_of(value: &Value) -> Option<Option<NodeId>>
    ensures { result ≡ master_of_of (view value.now) }
{
    let master = value.get("master")?;
    master_in(master)
}

fn settings_in(alloc: Global, value: &Value) -> Result<Option<Settings>, AllocError>
    ensures { IfOk result (λ s. s ≡ settings_in_of (view value.now)) }
{
    let Some(members) = value.as_object() else {
        return Ok(None);
    };
    let mut settings = Settings::new(alloc);
    for (key, text) in members {
        let Some(text) = text.as_str() else {
            return Ok(None);
        };
        settings.put(key, text)?;
    }
    Ok(Some(settings))
}

fn settings_of(alloc: Global, value: &Value) -> Result<Option<Settings>, AllocError>
    ensures { IfOk result (λ s. s ≡ settings_of_of (view value.now)) }
{
    let Some(settings) = value.get("settings") else {
        return Ok(None);
    };
    settings_in(alloc, settings)
}

fn value_in(alloc: Global, value: &Value) -> Result<Option<ClusterValue>, AllocError>
    ensures { IfOk result (λ v. v ≡ value_in_of (view value.now)) }
{
    if !has_members(value, 4) {
        return Ok(None);
    }
    let Some(exclusions) = ids_of(value, "exclusions") else {
        return Ok(None);
    };
    let Some(master) = master_of(value) else {
        return Ok(None);
    };
    let Some(members) = ids_of(value, "members") else {
        return Ok(None);
    };
    let Some(settings) = settings_of(alloc, value)? else {
        return Ok(None);
    };
    Ok(Some(ClusterValue {
        master,
        members: IdList::of(alloc, &members)?,
        exclusions: IdList::of(alloc, &exclusions)?,
        settings,
    }))
}

fn value_of(alloc: Global, value: &Value) -> Result<Option<ClusterValue>, AllocError>
    ensures { IfOk result (λ v. v ≡ value_of_of (view value.now)) }
{
    let Some(value) = value.get("value") else {
        return Ok(None);
    };
    value_in(alloc, value)
}

fn state_id_in(value: &Value) -> Option<StateId>
    ensures { result ≡ state_id_in_of (view value.now) }
{
    if !has_members(value, 2) {
        return None;
    }
    let term = number_at(value, "term")?;
    let version = number_at(value, "version")?;
    Some(StateId { term, version })
}

fn parent_in(value: &Value) -> Option<Option<StateId>>
    ensures { result ≡ parent_in_of (view value.now) }
{
    if value.is_null() {
        return Some(None);
    }
    let id = state_id_in(value)?;
    Some(Some(id))
}

fn parent_of(value: &Value) -> Option<Option<StateId>>
    ensures { result ≡ parent_of_of (view value.now) }
{
    let parent = value.get("parent")?;
    parent_in(parent)
}

fn state_in(alloc: Global, value: &Value) -> Result<Option<ClusterState>, AllocError>
    ensures { IfOk result (λ s. s ≡ state_in_of (view value.now)) }
{
    if !has_members(value, 6) {
        return Ok(None);
    }
    let Some(committed) = ids_of(value, "committed") else {
        return Ok(None);
    };
    let Some(config) = ids_of(value, "config") else {
        return Ok(None);
    };
    let Some(parent) = parent_of(value) else {
        return Ok(None);
    };
    let Some(term) = number_at(value, "term") else {
        return Ok(None);
    };
    let Some(version) = number_at(value, "version") else {
        return Ok(None);
    };
    let Some(value) = value_of(alloc, value)? else {
        return Ok(None);
    };
    Ok(Some(ClusterState {
        term,
        version,
        parent,
        config: IdList::of(alloc, &config)?,
        committed: IdList::of(alloc, &committed)?,
        value,
    }))
}

fn read_json(alloc: Global, bytes: &[u8]) -> Result<Option<Value>, AllocError>
    ensures { IfOk result (λ v. option_map view v ≡ json_of bytes.now) }
{
    match Value::from_slice(alloc, bytes) {
        Ok(value) => Ok(Some(value)),
        Err(e) if e.is_memory() => Err(AllocError),
        Err(_) => Ok(None),
    }
}

/// The value that these bytes show as JSON.
pub fn value_at(alloc: Global, bytes: &[u8]) -> Result<ClusterValue, ReadError<WhyBad>>
    ensures { Answers result (value_at_of bytes.now) }
{
    let Ok(value) = read_json(alloc, bytes) else {
        return Err(ReadError::Memory);
    };
    let Some(value) = value else {
        return Err(ReadError::Bad(WhyBad::Text));
    };
    match value_in(alloc, &value) {
        Err(_) => Err(ReadError::Memory),
        Ok(None) => Err(ReadError::Bad(WhyBad::Text)),
        Ok(Some(value)) => Ok(value),
    }
}

/// The state that these bytes show as JSON.
pub fn state_at(alloc: Global, bytes: &[u8]) -> Result<ClusterState, ReadError<WhyBad>>
    ensures { Answers result (state_at_of bytes.now) }
{
    let Ok(value) = read_json(alloc, bytes) else {
        return Err(ReadError::Memory);
    };
    let Some(value) = value else {
        return Err(ReadError::Bad(WhyBad::Text));
    };
    match state_in(alloc, &value) {
        Err(_) => Err(ReadError::Memory),
        Ok(None) => Err(ReadError::Bad(WhyBad::Text)),
        Ok(Some(state)) => Ok(state),
    }
}
