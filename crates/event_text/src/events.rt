//! All lines of an event: its acts and changes of mode, then drops, frames and replies.
ghost use Rattle.std.specs.Prelude.{ℕ, ◌≡◌, ◌<◌, ◌^◌, [], ◌++◌, OnOk};
ghost use Rattle.event_text.specs.Published.{published_after};
ghost use Rattle.event_text.specs.Deeds.{as_left};
ghost use Rattle.event_text.specs.Events.{cause_text, drop_line, drops_text, event_results, replies_text, reply_line};

use crate::deeds::{write_deeds, write_struck_deeds};
use crate::frames::write_frames;
use client_lines::write_reply;
use cluster_state::SharedState;
use master_tasks::Outgoing;
use policy_model::{Deed, DropCause, MemberDrop};
use std::alloc::{AllocError, Global};
use text::Text;
use voting_config::NodeId;
use wire_frames::Frame;

fn write_cause(text: &mut Text, cause: DropCause) -> Result<(), AllocError>
    ensures { OnOk result (text.new ≡ text.old ++ cause_text cause) }
{
    match cause {
        DropCause::Checks => text.word("checks"),
        DropCause::Lag => text.word("lag"),
        DropCause::Disconnect => text.word("disconnect"),
    }
}

fn write_drop(text: &mut Text, node: NodeId, dropped: MemberDrop) -> Result<(), AllocError>
    ensures { OnOk result (text.new ≡ text.old ++ drop_line node dropped) }
{
    text.word("drop ")?;
    text.id_and(&node, b' ')?;
    text.id_and(&dropped.member, b' ')?;
    write_cause(text, dropped.cause)?;
    text.word("\n")
}

/// Writes which members a leader has removed, and why.
pub fn write_drops(text: &mut Text, node: NodeId, drops: &[MemberDrop]) -> Result<(), AllocError>
    ensures { OnOk result (text.new ≡ text.old ++ drops_text node drops.now) }
{
    for dropped in drops {
        write_drop(text, node, *dropped)?;
    }
    Ok(())
}

fn write_reply_line(
    text: &mut Text,
    alloc: Global,
    node: NodeId,
    answer: &Outgoing,
) -> Result<(), AllocError>
    ensures { OnOk result (text.new ≡ text.old ++ reply_line node answer.now) }
{
    let json = write_reply(alloc, &answer.reply)?;
    text.word("reply ")?;
    text.id(node)?;
    text.word(" ")?;
    text.bytes(json.as_slice())?;
    text.word("\n")
}

/// Writes what a node answers its clients, as JSON.
pub fn write_replies(
    text: &mut Text,
    alloc: Global,
    node: NodeId,
    replies: &[Outgoing],
) -> Result<(), AllocError>
    ensures { OnOk result (text.new ≡ text.old ++ replies_text node replies.now) }
{
    for answer in replies {
        write_reply_line(text, alloc, node, answer)?;
    }
    Ok(())
}

/// Writes an event of a node, after `count` frames: its acts and changes of mode, then drops, then frames, then replies.
/// `published` is as for `write_deeds`.
pub fn write_event(
    text: &mut Text,
    alloc: Global,
    count: usize,
    node: NodeId,
    published: &mut Option<SharedState>,
    deeds: &[Deed],
    drops: &[MemberDrop],
    frames: &[Frame],
    replies: &[Outgoing],
) -> Result<(), AllocError>
    requires { count < 2 ^ 63 }
    ensures text { OnOk result (text.new ≡ text.old ++ event_results count node published.old deeds.now drops.now frames.now replies.now) }
    ensures published { OnOk result (published.new ≡ published_after published.old deeds.now) }
{
    write_deeds(text, alloc, node, published, deeds)?;
    write_drops(text, node, drops)?;
    write_frames(text, alloc, count, frames)?;
    write_replies(text, alloc, node, replies)
}

/// Writes an event at which the disk failed in the last act: its acts and changes of mode, then drops. Nothing was sent
/// and nobody was answered. Where `crashed`, the disk failed since the node crashed in that act. `published` is as for
/// `write_deeds`.
pub fn write_struck_event(
    text: &mut Text,
    alloc: Global,
    node: NodeId,
    published: &mut Option<SharedState>,
    deeds: &[Deed],
    drops: &[MemberDrop],
    crashed: bool,
) -> Result<(), AllocError>
    ensures text { OnOk result
        ((count : ℕ) → text.new ≡ text.old ++ event_results count node published.old (as_left crashed deeds.now) drops.now [] []) }
    ensures published { OnOk result (published.new ≡ published_after published.old deeds.now) }
{
    write_struck_deeds(text, alloc, node, published, deeds, crashed)?;
    write_drops(text, node, drops)
}
