//! The line of a frame, by the kind of its message.
ghost use Rattle.std.specs.Prelude.{◌≡◌, ◌<◌, ◌^◌, ◌++◌, OnOk, codes, decimal};
ghost use Rattle.voting_config.specs.Lists.{list_text};
ghost use Rattle.wire_frames.specs.declared.frame.WireMessage.TheVariants as message;
ghost use Rattle.event_text.specs.Frames.{answer_text, frame_line, frames_text, master_text, message_text, state_id_text};

use cluster_state::StateId;
use std::alloc::{AllocError, Global};
use text::Text;
use trace_text::{write_state_id, write_state_json};
use voting_config::{IdList, NodeId};
use wire_frames::{Frame, WireMessage};

fn write_answer(text: &mut Text, good: bool) -> Result<(), AllocError>
    ensures { OnOk result (text.new ≡ text.old ++ answer_text good) }
{
    if good {
        text.word("yes")
    } else {
        text.word("no")
    }
}

fn write_master(text: &mut Text, master: Option<NodeId>) -> Result<(), AllocError>
    ensures { OnOk result (text.new ≡ text.old ++ master_text master) }
{
    match master {
        None => text.word("_"),
        Some(master) => text.id(master),
    }
}

fn write_term(text: &mut Text, word: &str, term: u64) -> Result<(), AllocError>
    ensures { OnOk result (text.new ≡ text.old ++ (word.now ++ decimal term)) }
{
    text.word(word)?;
    text.number(term)
}

fn write_node(text: &mut Text, word: &str, node: NodeId) -> Result<(), AllocError>
    ensures { OnOk result (text.new ≡ text.old ++ (word.now ++ node)) }
{
    text.word(word)?;
    text.id(node)
}

fn write_id(text: &mut Text, word: &str, id: StateId) -> Result<(), AllocError>
    ensures { OnOk result (text.new ≡ text.old ++ (word.now ++ state_id_text id)) }
{
    text.word(word)?;
    write_state_id(text, id.term, id.version)
}

fn write_term_and_id(text: &mut Text, word: &str, term: u64, id: StateId) -> Result<(), AllocError>
    ensures { OnOk result (text.new ≡ text.old ++ (word.now ++ decimal term ++ codes " " ++ state_id_text id)) }
{
    write_term(text, word, term)?;
    write_id(text, " ", id)
}

fn write_peers(text: &mut Text, word: &str, known: &IdList) -> Result<(), AllocError>
    ensures { OnOk result (text.new ≡ text.old ++ (word.now ++ list_text known.now)) }
{
    text.word(word)?;
    text.ids(known.as_slice())
}

fn write_peers_answer(
    text: &mut Text,
    master: Option<NodeId>,
    term: u64,
    known: &IdList,
) -> Result<(), AllocError>
    ensures { OnOk result (text.new ≡ text.old ++ message_text (message.PeersAnswer master term known.now)) }
{
    text.word("peersanswer ")?;
    write_master(text, master)?;
    write_term(text, " ", term)?;
    write_peers(text, " ", known)
}

fn write_follower_answer(
    text: &mut Text,
    good: bool,
    term: u64,
    applied: StateId,
) -> Result<(), AllocError>
    ensures { OnOk result (text.new ≡ text.old ++ message_text (message.FollowerAnswer good term applied)) }
{
    text.word("followeranswer ")?;
    write_answer(text, good)?;
    write_term(text, " ", term)?;
    write_id(text, " ", applied)
}

/// Writes a message: its word, and its fields, each after a space.
pub fn write_message(
    text: &mut Text,
    alloc: Global,
    message: &WireMessage,
) -> Result<(), AllocError>
    ensures { OnOk result (text.new ≡ text.old ++ message_text message.now) }
{
    match message {
        WireMessage::StartJoin { candidate, term } => {
            write_node(text, "startjoin ", *candidate)?;
            write_term(text, " ", *term)
        }
        WireMessage::Join { term, last } => write_term_and_id(text, "join ", *term, *last),
        WireMessage::Publish(state) => {
            text.word("publish ")?;
            write_state_json(text, alloc, state)
        }
        WireMessage::Response(id) => write_id(text, "response ", *id),
        WireMessage::Commit(id) => write_id(text, "commit ", *id),
        WireMessage::JoinAsk { term } => write_term(text, "joinask ", *term),
        WireMessage::PeersAsk { known } => write_peers(text, "peersask ", known),
        WireMessage::PeersAnswer {
            master,
            term,
            known,
        } => write_peers_answer(text, *master, *term, known),
        WireMessage::PreVoteAsk => text.word("prevoteask"),
        WireMessage::PreVoteAnswer { term, last } => {
            write_term_and_id(text, "prevoteanswer ", *term, *last)
        }
        WireMessage::PreVoteRefuse { leader } => write_node(text, "prevoterefuse ", *leader),
        WireMessage::FollowerCheck { term } => write_term(text, "followercheck ", *term),
        WireMessage::FollowerAnswer {
            good,
            term,
            applied,
        } => write_follower_answer(text, *good, *term, *applied),
        WireMessage::LeaderCheck { term } => write_term(text, "leadercheck ", *term),
        WireMessage::LeaderAnswer { good } => {
            text.word("leaderanswer ")?;
            write_answer(text, *good)
        }
    }
}

fn write_ends(text: &mut Text, frame: &Frame) -> Result<(), AllocError>
    ensures { OnOk result (text.new ≡ text.old ++ (frame.now.from ++ codes "->" ++ frame.now.to)) }
{
    text.id(frame.from)?;
    text.word("->")?;
    text.id(frame.to)
}

/// Writes the line of a frame that is sent as message `number`.
pub fn write_frame_line(
    text: &mut Text,
    alloc: Global,
    number: u64,
    frame: &Frame,
) -> Result<(), AllocError>
    ensures { OnOk result (text.new ≡ text.old ++ frame_line number frame.now) }
{
    text.word("m")?;
    text.number(number)?;
    text.word(" ")?;
    write_ends(text, frame)?;
    text.word(" ")?;
    write_message(text, alloc, &frame.message)?;
    text.word("\n")
}

/// Writes the lines of frames that are sent after `count` others, numbered from the next one on.
pub fn write_frames(
    text: &mut Text,
    alloc: Global,
    count: usize,
    frames: &[Frame],
) -> Result<(), AllocError>
    requires { count < 2 ^ 63 }
    ensures { OnOk result (text.new ≡ text.old ++ frames_text count frames.now) }
{
    let mut number = count as u64;
    for frame in frames {
        number += 1;
        write_frame_line(text, alloc, number, frame)?;
    }
    Ok(())
}
