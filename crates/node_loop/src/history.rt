//! How much a node writes of its life.
ghost use Rattle.std.specs.Prelude.{◌≡◌, ◌++◌, ℕ, List, [], OnOk, IsTrue};
ghost use Rattle.policy_model.specs.declared.settings.Settings.{Settings};
ghost use Rattle.policy_model.specs.Entries.{Life, Entry, Lived, Bad, Gone, NoMemory, Unread};
ghost use Rattle.node_loop.specs.Texts.{entry_text, acts_text, no_text, WritesEntry, KeepsLast};

use crate::lines::{LastSent, write_acts, write_bad, write_entry, write_gone};
use master_tasks::Outgoing;
use policy_model::{Deed, Event, MemberDrop};
use std::alloc::{AllocError, Global};
use text::Text;
use voting_config::NodeId;
use wire_frames::{Frame, FrameError};

/// Which lines a node writes of what it does. The record that its journal gave is written in each case.
pub trait History {
    /// The lines of an entry.
    ghost lines: { Settings → Life → Entry → List ℕ };

    /// Whether nothing is written of any entry.
    fn is_silent() -> bool
        ensures { IsTrue result → (s : Settings) (life : Life) (e : Entry) → lines s life e ≡ [] };

    /// Writes the lines of an event. Where it answers an error, what is kept for later lines is lost.
    fn write_entry(
        text: &mut Text,
        alloc: Global,
        node: NodeId,
        last_sent: &mut LastSent,
        event: &Event,
        deeds: &[Deed],
        drops: &[MemberDrop],
        frames: &[Frame],
        replies: &[Outgoing],
    ) -> Result<(), AllocError>
        ensures text { OnOk result
            (WritesEntry lines node last_sent.old event.now deeds.now drops.now frames.now replies.now text.old text.new) }
        ensures kept { OnOk result (KeepsLast last_sent.old deeds.now frames.now last_sent.new) };

    /// Writes that the bytes of a connection are faulty.
    fn write_bad(text: &mut Text, conn: u64, fault: FrameError) -> Result<(), AllocError>
        ensures { OnOk result ((s : Settings) (life : Life) → text.new ≡ text.old ++ lines s life (Bad conn fault)) };

    /// Writes that a connection ended.
    fn write_gone(text: &mut Text, conn: u64) -> Result<(), AllocError>
        ensures { OnOk result ((s : Settings) (life : Life) → text.new ≡ text.old ++ lines s life (Gone conn)) };

    /// What is written where memory was lacking.
    fn no_memory_line() -> &'static [u8]
        ensures no_memory { (s : Settings) (life : Life) → result.now ≡ lines s life NoMemory }
        ensures unread { (s : Settings) (life : Life) (conn : ℕ) → result.now ≡ lines s life (Unread conn) };
}

/// All that came, and all that was done and sent.
pub struct All;

/// What was done: acts, changes of mode and drops, without what came and what was sent. Of what came to nothing only what was faulty is
/// written, and where memory was lacking.
pub struct Acts;

/// Nothing.
pub struct Nothing;

impl History for All {
    ghost lines = { entry_text };

    fn is_silent() -> bool {
        false
    }

    fn write_entry(
        text: &mut Text,
        alloc: Global,
        node: NodeId,
        last_sent: &mut LastSent,
        event: &Event,
        deeds: &[Deed],
        drops: &[MemberDrop],
        frames: &[Frame],
        replies: &[Outgoing],
    ) -> Result<(), AllocError> {
        write_entry(
            text, alloc, node, last_sent, event, deeds, drops, frames, replies,
        )
    }

    fn write_bad(text: &mut Text, conn: u64, fault: FrameError) -> Result<(), AllocError> {
        write_bad(text, conn, fault)
    }

    fn write_gone(text: &mut Text, conn: u64) -> Result<(), AllocError> {
        write_gone(text, conn)
    }

    fn no_memory_line() -> &'static [u8] {
        "> nomemory\n".as_bytes()
    }
}

impl History for Acts {
    ghost lines = { acts_text };

    fn is_silent() -> bool {
        false
    }

    fn write_entry(
        text: &mut Text,
        alloc: Global,
        node: NodeId,
        last_sent: &mut LastSent,
        _event: &Event,
        deeds: &[Deed],
        drops: &[MemberDrop],
        frames: &[Frame],
        _replies: &[Outgoing],
    ) -> Result<(), AllocError> {
        write_acts(text, alloc, node, last_sent, deeds, drops, frames)
    }

    fn write_bad(text: &mut Text, conn: u64, fault: FrameError) -> Result<(), AllocError> {
        write_bad(text, conn, fault)
    }

    fn write_gone(_text: &mut Text, _conn: u64) -> Result<(), AllocError> {
        Ok(())
    }

    fn no_memory_line() -> &'static [u8] {
        "> nomemory\n".as_bytes()
    }
}

impl History for Nothing {
    ghost lines = { no_text };

    fn is_silent() -> bool {
        true
    }

    fn write_entry(
        _text: &mut Text,
        alloc: Global,
        node: NodeId,
        last_sent: &mut LastSent,
        _event: &Event,
        deeds: &[Deed],
        drops: &[MemberDrop],
        frames: &[Frame],
        _replies: &[Outgoing],
    ) -> Result<(), AllocError> {
        // Nobody calls it: a node that is silent keeps nothing for later lines.
        let mut unwritten = Text::new(alloc);
        write_acts(&mut unwritten, alloc, node, last_sent, deeds, drops, frames)
    }

    fn write_bad(_text: &mut Text, _conn: u64, _fault: FrameError) -> Result<(), AllocError> {
        Ok(())
    }

    fn write_gone(_text: &mut Text, _conn: u64) -> Result<(), AllocError> {
        Ok(())
    }

    fn no_memory_line() -> &'static [u8] {
        "".as_bytes()
    }
}
