//! The lines of messages, of wins and of commits.
ghost use Rattle.std.specs.Prelude.{◌≡◌, ◌++◌, OnOk, Some, codes, decimal};
ghost use Rattle.world_model.specs.declared.acts.Message.TheVariants as message;
ghost use Rattle.trace_text.specs.Trace.{message_line, message_text, state_text, won_text, committed_text};

use crate::acts::{write_state_id, write_state_json};
use cluster_state::{ApplyCommit, ClusterState, Join, PublishResponse, SharedState};
use std::alloc::{AllocError, Global};
use text::Text;
use voting_config::NodeId;

/// Writes that the node has won the election of a term, where it has.
pub fn write_won(text: &mut Text, won: bool, node: NodeId, term: u64) -> Result<(), AllocError>
    ensures { OnOk result (text.new ≡ text.old ++ won_text won node term) }
{
    if !won {
        return Ok(());
    }
    text.word("won ")?;
    text.id_and(&node, b' ')?;
    text.number_and(term, b'\n')
}

/// Writes that a state is committed.
pub fn write_committed(
    text: &mut Text,
    alloc: Global,
    state: &SharedState,
) -> Result<(), AllocError>
    ensures { OnOk result (text.new ≡ text.old ++ committed_text (Some state.now)) }
{
    text.word("committed ")?;
    write_state_json(text, alloc, state)?;
    text.word("\n")
}

/// Writes what `write_committed` does, where the JSON of the state is at hand.
pub fn write_committed_shown(
    text: &mut Text,
    state: &ClusterState,
    json: &[u8],
) -> Result<(), AllocError>
    requires { json.now ≡ state_text state.now }
    ensures { OnOk result (text.new ≡ text.old ++ committed_text (Some state.now)) }
{
    // For the contract alone, which says whose JSON it is.
    let _ = state;
    text.word("committed ")?;
    text.bytes(json)?;
    text.word("\n")
}

#[inline(always)]
fn number(text: &mut Text, number: u64) -> Result<(), AllocError>
    ensures { OnOk result (text.new ≡ text.old ++ (codes "m" ++ decimal number ++ codes " ")) }
{
    text.word("m")?;
    text.number_and(number, b' ')
}

#[inline(always)]
fn between(text: &mut Text, source: &NodeId, target: &NodeId) -> Result<(), AllocError>
    ensures { OnOk result (text.new ≡ text.old ++ (source.now ++ codes "->" ++ target.now)) }
{
    text.lent_id(source)?;
    text.word("->")?;
    text.lent_id(target)
}

#[inline(always)]
fn to_any(text: &mut Text, source: &NodeId) -> Result<(), AllocError>
    ensures { OnOk result (text.new ≡ text.old ++ (source.now ++ codes "->*")) }
{
    text.lent_id(source)?;
    text.word("->*")
}

fn join_fields(text: &mut Text, join: &Join) -> Result<(), AllocError>
    ensures { OnOk result (text.new ≡ text.old ++ message_text (message.Join join.now)) }
{
    text.word("join ")?;
    text.number_and(join.term, b' ')?;
    write_state_id(text, join.last_term, join.last_version)
}

fn publish_fields(text: &mut Text, state: &ClusterState, json: &[u8]) -> Result<(), AllocError>
    requires { json.now ≡ state_text state.now }
    ensures { OnOk result (text.new ≡ text.old ++ (codes "publish " ++ state_text state.now)) }
{
    // For the contract alone, which says whose JSON it is.
    let _ = state;
    text.word("publish ")?;
    text.bytes(json)
}

fn response_fields(text: &mut Text, response: &PublishResponse) -> Result<(), AllocError>
    ensures { OnOk result (text.new ≡ text.old ++ message_text (message.Response response.now)) }
{
    text.word("response ")?;
    write_state_id(text, response.term, response.version)
}

fn commit_fields(text: &mut Text, commit: &ApplyCommit) -> Result<(), AllocError>
    ensures { OnOk result (text.new ≡ text.old ++ message_text (message.Commit commit.now)) }
{
    text.word("commit ")?;
    write_state_id(text, commit.term, commit.version)
}

/// Writes the line of a join that is sent as message `ordinal`.
pub fn write_join_message(text: &mut Text, ordinal: u64, join: &Join) -> Result<(), AllocError>
    ensures { OnOk result (text.new ≡ text.old ++ message_line ordinal (message.Join join.now)) }
{
    number(text, ordinal)?;
    between(text, &join.source, &join.target)?;
    text.word(" ")?;
    join_fields(text, join)?;
    text.word("\n")
}

/// Writes the line of a publish request that is sent as message `ordinal`, where the JSON of the state was made before.
pub fn write_publish_message(
    text: &mut Text,
    ordinal: u64,
    source: &NodeId,
    state: &ClusterState,
    json: &[u8],
) -> Result<(), AllocError>
    requires { json.now ≡ state_text state.now }
    ensures { OnOk result
        (text.new ≡ text.old ++ message_line ordinal (message.Publish (record { source = source.now; state = state.now }))) }
{
    number(text, ordinal)?;
    to_any(text, source)?;
    text.word(" ")?;
    publish_fields(text, state, json)?;
    text.word("\n")
}

/// Writes the line of a response that is sent as message `ordinal`.
pub fn write_response_message(
    text: &mut Text,
    ordinal: u64,
    response: &PublishResponse,
) -> Result<(), AllocError>
    ensures { OnOk result (text.new ≡ text.old ++ message_line ordinal (message.Response response.now)) }
{
    number(text, ordinal)?;
    between(text, &response.source, &response.target)?;
    text.word(" ")?;
    response_fields(text, response)?;
    text.word("\n")
}

/// Writes the line of a commit that is sent as message `ordinal`.
pub fn write_commit_message(
    text: &mut Text,
    ordinal: u64,
    commit: &ApplyCommit,
) -> Result<(), AllocError>
    ensures { OnOk result (text.new ≡ text.old ++ message_line ordinal (message.Commit commit.now)) }
{
    number(text, ordinal)?;
    to_any(text, &commit.source)?;
    text.word(" ")?;
    commit_fields(text, commit)?;
    text.word("\n")
}
