//! What an act did, written as its lines of the trace.
ghost use Rattle.std.specs.Prelude.{◌≡◌, ◌+◌, ◌<◌, ◌^◌, ◌++◌, codes, OnOk};
ghost use Rattle.replay_node.specs.Did.{did_text, effects_text, won_by, committed_by, sends_by};
ghost use Rattle.replay_node.specs.Sent.{message_of};
ghost use Rattle.trace_text.specs.Trace.{act_text, message_line};
ghost use Rattle.replay_node.specs.Sent.{taking};

use crate::did::{Did, Effects};
use crate::message::{FitPublishRequest, SentMessage};
use std::alloc::AllocError;
use std::rc::Rc;
use text::Text;
use trace_text::{
    write_act_head, write_commit, write_commit_message, write_committed_shown, write_down_line,
    write_join, write_join_message, write_publish_message, write_publish_shown, write_response,
    write_response_message, write_taken_head, write_won,
};
use voting_config::NodeId;

fn write_message(text: &mut Text, ordinal: u64, message: &SentMessage) -> Result<(), AllocError>
    ensures { OnOk result (text.new ≡ text.old ++ message_line ordinal (message_of message.now)) }
{
    match message {
        SentMessage::Join(join) => write_join_message(text, ordinal, join),
        SentMessage::Publish(request) => {
            let (source, state) = (request.source(), request.state());
            write_publish_message(text, ordinal, source, state, request.json())
        }
        SentMessage::Response(response) => write_response_message(text, ordinal, response),
        SentMessage::Commit(commit) => write_commit_message(text, ordinal, commit),
    }
}

fn write_sends(text: &mut Text, ordinal: u64, sends: &Option<SentMessage>) -> Result<(), AllocError>
    ensures { OnOk result (text.new ≡ text.old ++ sends_by ordinal sends.now) }
{
    match sends {
        None => Ok(()),
        Some(message) => write_message(text, ordinal, message),
    }
}

fn write_committed_by(
    text: &mut Text,
    committed: &Option<Rc<FitPublishRequest>>,
) -> Result<(), AllocError>
    ensures { OnOk result (text.new ≡ text.old ++ committed_by committed.now) }
{
    match committed {
        None => Ok(()),
        Some(publication) => {
            write_committed_shown(text, publication.state(), publication.json())
        }
    }
}

fn write_won_by(text: &mut Text, n: &NodeId, won: Option<u64>) -> Result<(), AllocError>
    ensures { OnOk result (text.new ≡ text.old ++ won_by won n.now) }
{
    match won {
        None => Ok(()),
        Some(term) => write_won(text, true, *n, term),
    }
}

// Ends the line of an act that was taken, and writes its effects.
fn write_effects(
    text: &mut Text,
    count: usize,
    n: &NodeId,
    effects: &Effects,
) -> Result<(), AllocError>
    requires { count < 2 ^ 63 }
    ensures { OnOk result (text.new ≡ text.old ++ (codes "\n" ++ effects_text count n.now (Did.Taken effects.now))) }
{
    text.word("\n")?;
    write_won_by(text, n, effects.won)?;
    write_committed_by(text, &effects.committed)?;
    write_sends(text, count as u64 + 1, &effects.sends)
}

/// Writes what an act did, after so many messages. `act` is the act as a trace shows it.
// Its own frame reads of `did` just what it writes, where a caller's would load all fields first.
#[inline(never)]
pub fn write_did(
    text: &mut Text,
    count: usize,
    n: NodeId,
    act: &Text,
    did: &Did,
) -> Result<(), AllocError>
    requires { count < 2 ^ 63 }
    ensures { OnOk result (text.new ≡ text.old ++ did_text count n act.now did.now) }
{
    // Most acts are taken.
    if let Did::Taken(effects) = did {
        write_taken_head(text, &n)?;
        text.bytes(act.as_bytes())?;
        return write_effects(text, count, &n, effects);
    }
    let Some(ending) = did.ending() else {
        return write_down_line(text, n);
    };
    write_act_head(text, n, ending)?;
    text.bytes(act.as_bytes())?;
    text.word("\n")
}

/// Writes what `write_did` does of the delivery of a message, with no text of the act made before.
#[inline(never)]
pub fn write_delivery(
    text: &mut Text,
    count: usize,
    n: &NodeId,
    message: &SentMessage,
    did: &Did,
) -> Result<(), AllocError>
    requires { count < 2 ^ 63 }
    ensures { OnOk result (text.new ≡ text.old ++ did_text count n.now (act_text (taking (message_of message.now))) did.now) }
{
    if let Did::Taken(effects) = did {
        write_taken_head(text, n)?;
        write_taking(text, message)?;
        return write_effects(text, count, n, effects);
    }
    let Some(ending) = did.ending() else {
        return write_down_line(text, *n);
    };
    write_act_head(text, *n, ending)?;
    write_taking(text, message)?;
    text.word("\n")
}

// Writes the act by which a node takes a message.
fn write_taking(text: &mut Text, message: &SentMessage) -> Result<(), AllocError>
    ensures { OnOk result (text.new ≡ text.old ++ act_text (taking (message_of message.now))) }
{
    match message {
        SentMessage::Join(join) => write_join(text, join),
        SentMessage::Publish(request) => {
            let (source, state) = (request.source(), request.state());
            write_publish_shown(text, source, state, request.json())
        }
        SentMessage::Response(response) => write_response(text, response),
        SentMessage::Commit(commit) => write_commit(text, commit),
    }
}
