//! The line of an act: how it ended, and its fields.
ghost use Rattle.std.specs.Prelude.{◌≡◌, ◌++◌, OnOk, codes, decimal};
ghost use Rattle.world_model.specs.declared.acts.Act.TheVariants as act;
ghost use Rattle.trace_text.specs.declared.ending.Ending.TheVariants as ending;
ghost use Rattle.trace_text.specs.Trace.{act_text, ending_text, id_text, state_text};

use crate::{Ending, write_ending};
use cluster_state::{
    ApplyCommit, ClusterState, ClusterValue, Join, PublishRequest, PublishResponse, SharedState,
    to_json, value_to_json,
};
use std::alloc::{AllocError, Global};
use text::Text;
use voting_config::{IdList, NodeId};

/// Writes a term and a version, as `1/2`.
pub fn write_state_id(text: &mut Text, term: u64, version: u64) -> Result<(), AllocError>
    ensures { OnOk result (text.new ≡ text.old ++ id_text term version) }
{
    text.number_and(term, b'/')?;
    text.number(version)
}

fn write_json_made(text: &mut Text, alloc: Global, state: &ClusterState) -> Result<(), AllocError>
    ensures { OnOk result (text.new ≡ text.old ++ state_text state.now) }
{
    let json = to_json(alloc, state)?;
    text.bytes(json.as_slice())
}

/// Writes a state as JSON: a copy of what lies beside it, where that is known.
pub fn write_state_json(
    text: &mut Text,
    alloc: Global,
    state: &SharedState,
) -> Result<(), AllocError>
    ensures { OnOk result (text.new ≡ text.old ++ state_text state.now) }
{
    match state.json() {
        None => write_json_made(text, alloc, state),
        Some(json) => text.bytes(json),
    }
}

/// Writes the first part of an act's line: `act`, the node, and how the act ended.
pub fn write_act_head(text: &mut Text, node: NodeId, ending: Ending) -> Result<(), AllocError>
    ensures { OnOk result (text.new ≡ text.old ++ (codes "act " ++ node ++ codes " " ++ ending_text ending ++ codes " ")) }
{
    text.word("act ")?;
    text.id_and(&node, b' ')?;
    write_ending(text, ending)?;
    text.word(" ")
}

/// Writes what `write_act_head` does for an act that was taken, as most are.
#[inline(always)]
pub fn write_taken_head(text: &mut Text, node: &NodeId) -> Result<(), AllocError>
    ensures { OnOk result (text.new ≡ text.old ++ (codes "act " ++ node.now ++ codes " " ++ ending_text ending.Taken ++ codes " ")) }
{
    text.word("act ")?;
    text.lent_id(node)?;
    text.word(" ok ")
}

/// Writes the act by which a node takes the initial configuration.
pub fn write_boot(text: &mut Text, initial: &[NodeId]) -> Result<(), AllocError>
    ensures { OnOk result (text.new ≡ text.old ++ act_text (act.Bootstrap initial.now)) }
{
    text.word("boot ")?;
    text.ids(initial)
}

/// Writes the act by which a node starts a join.
pub fn write_start_join(text: &mut Text, candidate: NodeId, term: u64) -> Result<(), AllocError>
    ensures { OnOk result (text.new ≡ text.old ++ act_text (act.StartJoin candidate term)) }
{
    text.word("startjoin ")?;
    text.id_and(&candidate, b' ')?;
    text.number(term)
}

/// Writes the act by which a node counts a join.
pub fn write_join(text: &mut Text, join: &Join) -> Result<(), AllocError>
    ensures { OnOk result (text.new ≡ text.old ++ act_text (act.TakeJoin join.now)) }
{
    text.word("join ")?;
    text.id_and(&join.source, b' ')?;
    text.id_and(&join.target, b' ')?;
    text.number_and(join.term, b' ')?;
    write_state_id(text, join.last_term, join.last_version)
}

/// Writes the act by which a node publishes a client's value.
pub fn write_value(
    text: &mut Text,
    alloc: Global,
    version: u64,
    config: &IdList,
    value: &ClusterValue,
) -> Result<(), AllocError>
    ensures { OnOk result (text.new ≡ text.old ++ act_text (act.Value version config.now value.now)) }
{
    let json = value_to_json(alloc, value)?;
    text.word("value ")?;
    text.number_and(version, b' ')?;
    text.ids(config.as_slice())?;
    text.word(" ")?;
    text.bytes(json.as_slice())
}

/// Writes the act by which a node accepts a published state.
pub fn write_publish(
    text: &mut Text,
    alloc: Global,
    request: &PublishRequest,
) -> Result<(), AllocError>
    ensures { OnOk result (text.new ≡ text.old ++ act_text (act.Publish request.now)) }
{
    text.word("publish ")?;
    text.id_and(&request.source, b' ')?;
    write_state_json(text, alloc, &request.state)
}

/// Writes what `write_publish` does, where the JSON of the state is at hand.
pub fn write_publish_shown(
    text: &mut Text,
    source: &NodeId,
    state: &ClusterState,
    json: &[u8],
) -> Result<(), AllocError>
    requires { json.now ≡ state_text state.now }
    ensures { OnOk result (text.new ≡ text.old ++ act_text (act.Publish (record { source = source.now; state = state.now }))) }
{
    // For the contract alone, which says whose JSON it is.
    let _ = state;
    text.word("publish ")?;
    text.id_and(source, b' ')?;
    text.bytes(json)
}

/// Writes the act by which a node counts the response to its publication.
pub fn write_response(text: &mut Text, response: &PublishResponse) -> Result<(), AllocError>
    ensures { OnOk result (text.new ≡ text.old ++ act_text (act.Response response.now)) }
{
    text.word("response ")?;
    text.id_and(&response.source, b' ')?;
    text.id_and(&response.target, b' ')?;
    write_state_id(text, response.term, response.version)
}

/// Writes the act by which a node takes it that its accepted state is committed.
pub fn write_commit(text: &mut Text, commit: &ApplyCommit) -> Result<(), AllocError>
    ensures { OnOk result (text.new ≡ text.old ++ act_text (act.Commit commit.now)) }
{
    text.word("commit ")?;
    text.id_and(&commit.source, b' ')?;
    write_state_id(text, commit.term, commit.version)
}
