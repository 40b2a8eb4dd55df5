//! Schedules, their lines and their faults, written into a text.
//!
//! Where a call answers an error, memory has run out, and any part of what it was to write may stand at the end.
ghost use Rattle.std.specs.Prelude.{◌≡◌, ◌++◌, IfOk, OnOk, codes, decimal, map};
ghost use Rattle.schedule_text.specs.Words.{byte_text, mode_text};
ghost use Rattle.schedule_text.specs.Lines.{line_text};
ghost use Rattle.schedule_text.specs.Printed.{bad_line, reason_text};
ghost use Rattle.schedule_text.specs.Spelled.{schedule_text, voting_only_lines, profile_lines, with_feeds};

use crate::fault::{BadSchedule, WhyBad};
use crate::modes::hex_byte;
use crate::schedule::{Line, Schedule};
use crate::setting_text::SettingText;
use std::alloc::{AllocError, Global};
use text::{Boxed, Text};
use voting_config::{IdList, NodeId};
use zen_disk::Way;

/// Writes a line of a schedule, without its line feed.
pub fn write_line(text: &mut Text, line: &Line) -> Result<(), AllocError>
    ensures { OnOk result (text.new ≡ text.old ++ line_text line.now) }
{
    match line {
        Line::Boot(node) => {
            text.word("boot ")?;
            text.lent_id(node)
        }
        Line::StartJoin(node, candidate, term) => write_start_join(text, node, candidate, *term),
        Line::Value(node, version, setting, config) => {
            write_value(text, node, *version, setting, config)
        }
        Line::Deliver(node, message) => {
            text.word("deliver ")?;
            text.id_and(node, b' ')?;
            text.number(*message)
        }
        Line::Crash(node, mode) => {
            text.word("crash ")?;
            text.id_and(node, b' ')?;
            write_mode(text, *mode)
        }
        Line::Restart(node) => {
            text.word("restart ")?;
            text.lent_id(node)
        }
        Line::Fuse(node, count, mode) => {
            text.word("fuse ")?;
            text.id_and(node, b' ')?;
            text.number_and(*count, b' ')?;
            write_mode(text, *mode)
        }
        Line::Fail(node, call) => {
            text.word("fail ")?;
            text.id_and(node, b' ')?;
            text.number(*call)
        }
        Line::Tick(node, now, word) => {
            text.word("tick ")?;
            text.id_and(node, b' ')?;
            text.number_and(*now, b' ')?;
            text.number(*word)
        }
        Line::Disconnect(node, peer) => write_disconnect(text, node, peer),
        Line::Client(node, line) => {
            text.word("client ")?;
            text.id_and(node, b' ')?;
            text.bytes(line.as_slice())
        }
    }
}

/// Writes a line of a schedule as a trace echoes it.
#[inline(always)]
pub fn write_echo(text: &mut Text, line: &Line) -> Result<(), AllocError>
    ensures { OnOk result (text.new ≡ text.old ++ (codes "> " ++ line_text line.now ++ codes "\n")) }
{
    // Most lines deliver a message: such a line is written in few pieces.
    if let Line::Deliver(node, message) = line {
        text.word("> deliver ")?;
        text.id_and(node, b' ')?;
        return text.number_and(*message, b'\n');
    }
    text.word("> ")?;
    write_line(text, line)?;
    text.word("\n")
}

fn write_start_join(
    text: &mut Text,
    node: &NodeId,
    candidate: &Boxed<NodeId>,
    term: u64,
) -> Result<(), AllocError>
    ensures { OnOk result (text.new ≡ text.old ++ line_text (Line.StartJoin node.now candidate.now term)) }
{
    text.word("startjoin ")?;
    text.id_and(node, b' ')?;
    text.id_and(&candidate.get(), b' ')?;
    text.number(term)
}

fn write_disconnect(text: &mut Text, node: &NodeId, peer: &Boxed<NodeId>) -> Result<(), AllocError>
    ensures { OnOk result (text.new ≡ text.old ++ line_text (Line.Disconnect node.now peer.now)) }
{
    text.word("disconnect ")?;
    text.id_and(node, b' ')?;
    text.lent_id(&peer.get())
}

fn write_value(
    text: &mut Text,
    node: &NodeId,
    version: u64,
    setting: &Boxed<SettingText>,
    config: &Boxed<IdList>,
) -> Result<(), AllocError>
    ensures { OnOk result (text.new ≡ text.old ++ line_text (Line.Value node.now version setting.now config.now)) }
{
    text.word("value ")?;
    text.id_and(node, b' ')?;
    text.number_and(version, b' ')?;
    write_setting(text, setting.get())?;
    text.word(" ")?;
    text.ids(config.lend().as_slice())
}

fn write_mode(text: &mut Text, mode: Way) -> Result<(), AllocError>
    ensures { OnOk result (text.new ≡ text.old ++ mode_text mode) }
{
    match mode {
        Way::Lost => text.word("none"),
        Way::Kept => text.word("all"),
        Way::Torn(byte) => {
            text.word("torn:")?;
            write_two_digits(text, byte)
        }
    }
}

fn write_two_digits(text: &mut Text, byte: u8) -> Result<(), AllocError>
    ensures { OnOk result (text.new ≡ text.old ++ byte_text byte) }
{
    text.byte(hex_byte(byte / 16))?;
    text.byte(hex_byte(byte % 16))
}

fn write_setting(text: &mut Text, setting: SettingText) -> Result<(), AllocError>
    ensures { OnOk result (text.new ≡ text.old ++ setting) }
{
    text.bytes(setting.as_bytes())
}

/// Writes which line of a schedule is bad and why, as `zen: bad schedule at line 3: Verb` with a line feed.
pub fn write_bad_schedule(text: &mut Text, bad: &BadSchedule) -> Result<(), AllocError>
    ensures { OnOk result (text.new ≡ text.old ++ bad_line bad.now) }
{
    text.word("zen: bad schedule at line ")?;
    write_line_number(text, bad.line)?;
    write_reason(text, bad.why)
}

fn write_line_number(text: &mut Text, line: usize) -> Result<(), AllocError>
    ensures { OnOk result (text.new ≡ text.old ++ decimal line) }
{
    text.number(line as u64)
}

fn write_reason(text: &mut Text, why: WhyBad) -> Result<(), AllocError>
    ensures { OnOk result (text.new ≡ text.old ++ reason_text why) }
{
    text.word(": ")?;
    text.word(why.name())?;
    text.word("\n")
}

fn write_lines(text: &mut Text, lines: &[Line]) -> Result<(), AllocError>
    ensures { OnOk result (text.new ≡ text.old ++ with_feeds (map (λ l. line_text l) lines.now)) }
{
    for line in lines {
        write_line(text, line)?;
        text.word("\n")?;
    }
    Ok(())
}

// The header line of the voting-only nodes, where there are some.
fn write_voting_only(text: &mut Text, ids: &[NodeId]) -> Result<(), AllocError>
    ensures { OnOk result (text.new ≡ text.old ++ with_feeds (voting_only_lines ids.now)) }
{
    if ids.is_empty() {
        return Ok(());
    }
    text.word("voting-only ")?;
    text.ids(ids)?;
    text.word("\n")
}

// The header line of the profile, where it is the second.
fn write_profile(text: &mut Text, second: bool) -> Result<(), AllocError>
    ensures { OnOk result (text.new ≡ text.old ++ with_feeds (profile_lines second)) }
{
    if !second {
        return Ok(());
    }
    text.word("profile 2\n")
}

/// The text of a schedule: its two header lines, one of the voting-only nodes where there are some, one of the profile where
/// it is the second, and its lines, each with its line feed. For the schedule of no nodes, which is spelled by no bytes, it is two lines that no schedule has.
pub fn write_schedule(alloc: Global, schedule: &Schedule) -> Result<Text, AllocError>
    ensures { IfOk result (λ t. t ≡ schedule_text schedule.now) }
{
    let mut text = Text::new(alloc);
    text.word("nodes ")?;
    text.ids(schedule.nodes.as_slice())?;
    text.word("\ninitial ")?;
    text.ids(schedule.initial.as_slice())?;
    text.word("\n")?;
    write_voting_only(&mut text, schedule.voting_only.as_slice())?;
    write_profile(&mut text, schedule.second)?;
    write_lines(&mut text, schedule.lines.as_slice())?;
    Ok(text)
}
