//! The lines that a node writes of what came to it, and of what it did.
ghost use Rattle.std.specs.Prelude.{◌≡◌, ◌++◌, OnOk};
ghost use Rattle.wire_frames.specs.declared.fault.FrameError.TheVariants.{UnknownKind, Field};
ghost use Rattle.policy_model.specs.declared.events.Event.TheVariants.{Tick as TickCame, Frame as FrameCame, Client as LineCame, Disconnected as PeerGone};
ghost use Rattle.node_loop.specs.Texts.{event_line, event_lines, fault_text, next_number, numbered, number_after, bad_line, gone_line, KeepsLast};
ghost use Rattle.event_text.specs.Deeds.{deeds_text};
ghost use Rattle.event_text.specs.Events.{drops_text};
ghost use Rattle.event_text.specs.Published.{published_after};

use cluster_state::{FieldError, LAST_NUMBER, SharedState};
use event_text::{write_deeds, write_drops, write_frame_line, write_message, write_replies};
use master_tasks::Outgoing;
use policy_model::{Deed, Event, MemberDrop};
use std::alloc::{AllocError, Global};
use text::Text;
use voting_config::NodeId;
use wire_frames::{Frame, FrameError};

/// What the lines of an event need of those before it.
#[derive(Drop)]
pub struct LastSent {
    /// The state that the node published last.
    pub published: Option<SharedState>,
    /// The number of its last frame.
    pub number: u64,
}

fn write_tick(text: &mut Text, now: u64, word: u64) -> Result<(), AllocError>
    ensures { OnOk result (text.new ≡ text.old ++ event_line (TickCame now word)) }
{
    text.word("> tick ")?;
    text.number(now)?;
    text.word(" ")?;
    text.number(word)?;
    text.word("\n")
}

fn write_frame(text: &mut Text, alloc: Global, frame: &Frame) -> Result<(), AllocError>
    ensures { OnOk result (text.new ≡ text.old ++ event_line (FrameCame frame.now)) }
{
    text.word("> frame ")?;
    text.id(frame.from)?;
    text.word(" ")?;
    write_message(text, alloc, &frame.message)?;
    text.word("\n")
}

fn write_client(text: &mut Text, line: &[u8]) -> Result<(), AllocError>
    ensures { OnOk result (text.new ≡ text.old ++ event_line (LineCame 0 line.now)) }
{
    text.word("> client ")?;
    text.bytes(line)?;
    text.word("\n")
}

fn write_disconnected(text: &mut Text, peer: NodeId) -> Result<(), AllocError>
    ensures { OnOk result (text.new ≡ text.old ++ event_line (PeerGone peer)) }
{
    text.word("> disconnect ")?;
    text.id(peer)?;
    text.word("\n")
}

/// Writes what came to the node.
pub fn write_event_line(text: &mut Text, alloc: Global, event: &Event) -> Result<(), AllocError>
    ensures { OnOk result (text.new ≡ text.old ++ event_line event.now) }
{
    match event {
        Event::Start => text.word("> start\n"),
        Event::Tick { now, word } => write_tick(text, *now, *word),
        Event::Frame(frame) => write_frame(text, alloc, frame.frame()),
        Event::Client { conn: _, line } => write_client(text, line.as_bytes()),
        Event::Disconnected { peer } => write_disconnected(text, *peer),
    }
}

fn number_behind(number: u64) -> u64
    ensures { result ≡ next_number number }
{
    if number < LAST_NUMBER {
        number + 1
    } else {
        LAST_NUMBER
    }
}

/// Writes the lines of frames that are sent after the one of this number, and gives the number of the last.
pub fn write_numbered(
    text: &mut Text,
    alloc: Global,
    number: &mut u64,
    frames: &[Frame],
) -> Result<(), AllocError>
    ensures text { OnOk result (text.new ≡ text.old ++ numbered number.old frames.now) }
    ensures number { OnOk result (number.new ≡ number_after number.old frames.now) }
{
    for frame in frames {
        *number = number_behind(*number);
        write_frame_line(text, alloc, *number, frame)?;
    }
    Ok(())
}

/// Writes an event of a node: what came, its acts and changes of mode, then drops, frames and replies. Where it answers an
/// error, what is kept for later lines is lost.
pub fn write_entry(
    text: &mut Text,
    alloc: Global,
    node: NodeId,
    last_sent: &mut LastSent,
    event: &Event,
    deeds: &[Deed],
    drops: &[MemberDrop],
    frames: &[Frame],
    replies: &[Outgoing],
) -> Result<(), AllocError>
    ensures text { OnOk result
        (text.new ≡ text.old ++ event_lines node last_sent.old.published last_sent.old.number event.now deeds.now drops.now frames.now
        replies.now) }
    ensures published { OnOk result (last_sent.new.published ≡ published_after last_sent.old.published deeds.now) }
    ensures number { OnOk result (last_sent.new.number ≡ number_after last_sent.old.number frames.now) }
{
    write_event_line(text, alloc, event)?;
    write_deeds(text, alloc, node, &mut last_sent.published, deeds)?;
    write_drops(text, node, drops)?;
    write_numbered(text, alloc, &mut last_sent.number, frames)?;
    write_replies(text, alloc, node, replies)
}

// The number of the last of these frames, which are sent after the one of this number.
fn number_of_last(number: u64, frames: &[Frame]) -> u64
    ensures { result ≡ number_after number frames.now }
{
    let mut last = number;
    for _frame in frames {
        last = number_behind(last);
    }
    last
}

/// Writes the acts, changes of mode and drops of an event, without what came and what was sent. Where it answers an error, what is kept for
/// later lines is lost.
pub fn write_acts(
    text: &mut Text,
    alloc: Global,
    node: NodeId,
    last_sent: &mut LastSent,
    deeds: &[Deed],
    drops: &[MemberDrop],
    frames: &[Frame],
) -> Result<(), AllocError>
    ensures text { OnOk result
        (text.new ≡ text.old ++ (deeds_text node last_sent.old.published deeds.now ++ drops_text node drops.now)) }
    ensures kept { OnOk result (KeepsLast last_sent.old deeds.now frames.now last_sent.new) }
{
    write_deeds(text, alloc, node, &mut last_sent.published, deeds)?;
    write_drops(text, node, drops)?;
    last_sent.number = number_of_last(last_sent.number, frames);
    Ok(())
}

fn write_kind(text: &mut Text, kind: u8) -> Result<(), AllocError>
    ensures { OnOk result (text.new ≡ text.old ++ fault_text (UnknownKind kind)) }
{
    text.word("UnknownKind(")?;
    text.number(kind as u64)?;
    text.word(")")
}

fn write_field(text: &mut Text, fault: FieldError) -> Result<(), AllocError>
    ensures { OnOk result (text.new ≡ text.old ++ fault_text (Field fault)) }
{
    text.word("Field(")?;
    text.word(fault.name())?;
    text.word(")")
}

fn write_fault(text: &mut Text, fault: FrameError) -> Result<(), AllocError>
    ensures { OnOk result (text.new ≡ text.old ++ fault_text fault) }
{
    match fault {
        FrameError::TooLong => text.word("TooLong"),
        FrameError::UnknownKind(kind) => write_kind(text, kind),
        FrameError::Field(fault) => write_field(text, fault),
        FrameError::Trailing => text.word("Trailing"),
    }
}

/// Writes that the bytes of a connection are faulty.
pub fn write_bad(text: &mut Text, conn: u64, fault: FrameError) -> Result<(), AllocError>
    ensures { OnOk result (text.new ≡ text.old ++ bad_line conn fault) }
{
    text.word("> bad ")?;
    text.number(conn)?;
    text.word(" ")?;
    write_fault(text, fault)?;
    text.word("\n")
}

/// Writes that a connection ended.
pub fn write_gone(text: &mut Text, conn: u64) -> Result<(), AllocError>
    ensures { OnOk result (text.new ≡ text.old ++ gone_line conn) }
{
    text.word("> gone ")?;
    text.number(conn)?;
    text.word("\n")
}
