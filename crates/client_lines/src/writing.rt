//! A reply written as a line of JSON.
ghost use Rattle.std.specs.Prelude.{◌≡◌, false, IfOk, codes, map};
ghost use Rattle.serde_json.specs.Data.{string};
ghost use Rattle.serde_json.specs.View.{view};
ghost use Rattle.serde_json.specs.Events.{SendsValue};
ghost use Rattle.serde_json.specs.Written.{has_float};
ghost use Rattle.cluster_state.specs.Json.{ids_json, master_json, state_json};
ghost use Rattle.client_lines.specs.Replies.{beside_id, number_json, state_id_json, state_reply, answer_json, fault_name as name_of_fault, reply_json, reply_text, text_of};

use cluster_state::{Answer, ClusterState, LineFault, Reply, StateId};
use serde::{Described, Serialize, Serializer};
use serde_json::{Map, Value, json};
use std::alloc::{AllocError, Global};
use voting_config::{NodeId, NodeSet};

/// The reply as compact JSON, with its keys in the order of bytes and no line feed.
pub fn write_reply(alloc: Global, reply: &Reply) -> Result<Vec<u8>, AllocError>
    ensures { IfOk result (λ text. text.items ≡ reply_text reply.now) }
{
    match reply {
        Reply::To { id, answer } => write_answer(alloc, *id, answer),
        Reply::BadLine(fault) => write_fault(alloc, *fault),
    }
}

fn write_answer(alloc: Global, id: u64, answer: &Answer) -> Result<Vec<u8>, AllocError>
    ensures { IfOk result (λ text. text.items ≡ text_of (answer_json id answer.now)) }
{
    match answer {
        Answer::Acked(state) => write_beside(alloc, id, "acked", state_id_value(alloc, *state)?),
        Answer::State(state) => write_state(alloc, id, state),
        Answer::NotMaster(master) => {
            write_beside(alloc, id, "not_master", master_value(alloc, *master)?)
        }
        Answer::BadSetting(length) => write_number(alloc, id, "bad_setting", *length),
        Answer::QueueFull(count) => write_number(alloc, id, "queue_full", *count),
        Answer::TooManySettings(count) => write_number(alloc, id, "too_many_settings", *count),
        Answer::TooManyExclusions(count) => {
            write_number(alloc, id, "too_many_exclusions", *count)
        }
        Answer::StillMember(node) => {
            write_beside(alloc, id, "still_member", node_value(alloc, *node)?)
        }
        Answer::FailedToCommit(term) => write_number(alloc, id, "failed_to_commit", *term),
        Answer::ExclusionTimeout(nodes) => write_nodes(alloc, id, "exclusion_timeout", nodes),
    }
}

fn write_number(alloc: Global, id: u64, name: &str, number: u64) -> Result<Vec<u8>, AllocError>
    ensures { IfOk result (λ text. text.items ≡ text_of (beside_id id name.now (number_json number))) }
{
    write_beside(alloc, id, name, Value::from(number))
}

fn write_nodes(alloc: Global, id: u64, name: &str, nodes: &NodeSet) -> Result<Vec<u8>, AllocError>
    ensures { IfOk result (λ text. text.items ≡ text_of (beside_id id name.now (ids_json nodes.now))) }
{
    write_beside(alloc, id, name, nodes_value(alloc, nodes)?)
}

// An id with one value beside it.
#[tactic(auto, unfolding(crate::specs::Replies::beside_id))]
fn write_beside(alloc: Global, id: u64, name: &str, value: Value) -> Result<Vec<u8>, AllocError>
    requires { has_float (view value) ≡ false }
    ensures { IfOk result (λ text. text.items ≡ text_of (beside_id id name.now (view value))) }
{
    let mut members = Map::new(alloc);
    serde_json::put(&mut members, alloc, "id", Value::from(id))?;
    serde_json::put(&mut members, alloc, name, value)?;
    write_value(alloc, &Value::Object(members))
}

#[tactic(auto, unfolding(crate::specs::Replies::text_of))]
fn write_value(alloc: Global, value: &Value) -> Result<Vec<u8>, AllocError>
    requires { has_float (view value.now) ≡ false }
    ensures { IfOk result (λ text. text.items ≡ text_of (view value.now)) }
{
    value.to_vec(alloc)
}

// An id with a state beside it.
#[derive(Clone, Copy)]
struct StateReply<'a> {
    id: u64,
    state: &'a ClusterState,
}

impl Described for StateReply<'_> {
    ghost writes = { λ r. SendsValue (state_reply r.id r.state.now) };
}

impl Serialize for StateReply<'_> {
    fn serialize<S: Serializer>(&self, out: &mut S) -> Result<(), S::Error> {
        out.begin_map(Some(2))?;
        out.key("id")?;
        out.u64(self.id)?;
        out.key("state")?;
        self.state.serialize(out)?;
        out.end_map()
    }
}

fn write_state(alloc: Global, id: u64, state: &ClusterState) -> Result<Vec<u8>, AllocError>
    ensures { IfOk result (λ text. text.items ≡ text_of (beside_id id (codes "state") (state_json state.now))) }
{
    match serde_json::to_vec(alloc, &StateReply { id, state }) {
        Ok(text) => Ok(text),
        Err(_) => Err(AllocError),
    }
}

fn write_fault(alloc: Global, fault: LineFault) -> Result<Vec<u8>, AllocError>
    ensures { IfOk result (λ text. text.items ≡ text_of (reply_json (Reply.BadLine fault))) }
{
    write_value(alloc, &fault_value(alloc, fault)?)
}

fn fault_value(alloc: Global, fault: LineFault) -> Result<Value, AllocError>
    ensures { IfOk result (λ v. view v ≡ reply_json (Reply.BadLine fault)) }
{
    json!(in alloc; {"error": fault_name(fault)})
}

fn fault_name(fault: LineFault) -> &'static str
    ensures { result.now ≡ name_of_fault fault }
{
    match fault {
        LineFault::TooLong => "too_long",
        LineFault::NotJson => "not_json",
        LineFault::BadShape => "bad_shape",
    }
}

fn state_id_value(alloc: Global, id: StateId) -> Result<Value, AllocError>
    ensures { IfOk result (λ v. view v ≡ state_id_json id) }
{
    json!(in alloc; {"term": id.term, "version": id.version})
}

fn node_value(alloc: Global, node: NodeId) -> Result<Value, AllocError>
    ensures { IfOk result (λ v. view v ≡ string node) }
{
    Value::try_from_str(alloc, node.as_str())
}

fn master_value(alloc: Global, master: Option<NodeId>) -> Result<Value, AllocError>
    ensures { IfOk result (λ v. view v ≡ master_json master) }
{
    match master {
        None => Ok(Value::Null),
        Some(node) => node_value(alloc, node),
    }
}

fn nodes_value(alloc: Global, nodes: &NodeSet) -> Result<Value, AllocError>
    ensures { IfOk result (λ v. view v ≡ ids_json nodes.now) }
{
    Ok(Value::Array(node_values(alloc, nodes.as_slice())?))
}

fn node_values(alloc: Global, nodes: &[NodeId]) -> Result<Vec<Value>, AllocError>
    ensures { IfOk result (λ v. map view v.items ≡ map string nodes.now) }
{
    let mut values = Vec::new(alloc);
    for node in nodes {
        values.push(node_value(alloc, *node)?)?;
    }
    Ok(values)
}
