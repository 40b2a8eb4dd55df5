//! A state as JSON, with its keys in the order of bytes.
ghost use Rattle.std.specs.Prelude.{◌≡◌, IfOk, OnOk};
ghost use Rattle.serde_json.specs.Events.{SendsValue};
ghost use Rattle.serde_json.specs.Written.{compact_text};
ghost use Rattle.cluster_state.specs.Json.{ids_json, master_json, settings_json, value_json, state_id_json, parent_json, state_json};

use crate::settings::Settings;
use crate::state::{ClusterState, ClusterValue, StateId};
use serde::{Described, Serialize, Serializer};
use std::alloc::{AllocError, Global};
use voting_config::{IdList, NodeId};

fn send_ids<S: Serializer>(ids: &IdList, out: &mut S) -> Result<(), S::Error>
    ensures { OnOk result (SendsValue (ids_json ids.now) (S.written out.old) (S.written out.new)) }
{
    let listed = ids.as_slice();
    out.begin_seq(Some(listed.len()))?;
    for id in listed {
        out.str(id.as_str())?;
    }
    out.end_seq()
}

fn send_master<S: Serializer>(master: Option<NodeId>, out: &mut S) -> Result<(), S::Error>
    ensures { OnOk result (SendsValue (master_json master) (S.written out.old) (S.written out.new)) }
{
    match master {
        None => out.unit(),
        Some(id) => out.str(id.as_str()),
    }
}

fn send_settings<S: Serializer>(settings: &Settings, out: &mut S) -> Result<(), S::Error>
    ensures { OnOk result (SendsValue (settings_json settings.now) (S.written out.old) (S.written out.new)) }
{
    let texts = settings.texts();
    out.begin_map(Some(texts.len()))?;
    for (key, value) in texts {
        out.key(key)?;
        out.str(value)?;
    }
    out.end_map()
}

impl Described for ClusterValue {
    ghost writes = { λ v. SendsValue (value_json v) };
}

impl Serialize for ClusterValue {
    fn serialize<S: Serializer>(&self, out: &mut S) -> Result<(), S::Error> {
        out.begin_map(Some(4))?;
        out.key("exclusions")?;
        send_ids(&self.exclusions, out)?;
        out.key("master")?;
        send_master(self.master, out)?;
        out.key("members")?;
        send_ids(&self.members, out)?;
        out.key("settings")?;
        send_settings(&self.settings, out)?;
        out.end_map()
    }
}

fn send_state_id<S: Serializer>(id: StateId, out: &mut S) -> Result<(), S::Error>
    ensures { OnOk result (SendsValue (state_id_json id) (S.written out.old) (S.written out.new)) }
{
    out.begin_map(Some(2))?;
    out.key("term")?;
    out.u64(id.term)?;
    out.key("version")?;
    out.u64(id.version)?;
    out.end_map()
}

fn send_parent<S: Serializer>(parent: Option<StateId>, out: &mut S) -> Result<(), S::Error>
    ensures { OnOk result (SendsValue (parent_json parent) (S.written out.old) (S.written out.new)) }
{
    match parent {
        None => out.unit(),
        Some(id) => send_state_id(id, out),
    }
}

impl Described for ClusterState {
    ghost writes = { λ s. SendsValue (state_json s) };
}

impl Serialize for ClusterState {
    fn serialize<S: Serializer>(&self, out: &mut S) -> Result<(), S::Error> {
        out.begin_map(Some(6))?;
        out.key("committed")?;
        send_ids(&self.committed, out)?;
        out.key("config")?;
        send_ids(&self.config, out)?;
        out.key("parent")?;
        send_parent(self.parent, out)?;
        out.key("term")?;
        out.u64(self.term)?;
        out.key("value")?;
        self.value.serialize(out)?;
        out.key("version")?;
        out.u64(self.version)?;
        out.end_map()
    }
}

/// The value as compact JSON, with its keys in the order of bytes.
pub fn value_to_json(alloc: Global, value: &ClusterValue) -> Result<Vec<u8>, AllocError>
    ensures { IfOk result (λ text. text.items ≡ compact_text (value_json value.now)) }
{
    match serde_json::to_vec(alloc, value) {
        Ok(text) => Ok(text),
        Err(_) => Err(AllocError),
    }
}

/// The state as compact JSON, with its keys in the order of bytes, and no room to spare.
pub fn to_json(alloc: Global, state: &ClusterState) -> Result<Vec<u8>, AllocError>
    ensures { IfOk result (λ text. text.items ≡ compact_text (state_json state.now)) }
{
    match serde_json::to_vec(alloc, state) {
        Ok(mut text) => {
            text.shrink_to_fit();
            Ok(text)
        }
        Err(_) => Err(AllocError),
    }
}
