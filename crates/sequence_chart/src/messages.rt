//! Where messages were sent, and which were handed over.
ghost use Rattle.std.specs.Prelude.{◌≡◌, ◌≤◌, length, OnOk, IfOk, option_map, [], ◌∷◌, ◌++◌};
ghost use Rattle.sequence_chart.specs.Messages.{handed_by, handed_from, message_at, origin_in, origins_of as origins_of_lines};

use crate::rows::{Cursor, MAX_LINES};
use schedule_text::LineBytes;
use std::alloc::{AllocError, Global};
use trace_reader::{Said, TraceLine};
use voting_config::NodeId;

/// Where a message was sent.
#[derive(Drop)]
pub struct Origin {
    pub from: NodeId,
    /// The row of its line.
    pub row: u32,
    /// Its line.
    pub text: LineBytes,
}

// Adds the message of a line, if it has one.
fn add_origin(
    alloc: Global,
    origins: &mut Vec<Origin>,
    cursor: Cursor,
    line: &TraceLine,
) -> Result<(), AllocError>
    ensures { OnOk result (origins.new.items ≡ origins.old.items ++ origin_in cursor line.now) }
{
    let Said::Sent(from, _) = &line.said else {
        return Ok(());
    };
    let text = LineBytes::of(alloc, line.text.as_slice())?;
    origins.push(Origin {
        from: *from,
        row: cursor.row,
        text,
    })?;
    Ok(())
}

/// The messages of a trace, by their numbers.
pub fn origins_of(alloc: Global, lines: &[TraceLine]) -> Result<Vec<Origin>, AllocError>
    requires { length lines.now ≤ MAX_LINES }
    ensures { IfOk result (λ o. o.items ≡ origins_of_lines lines.now) }
{
    let mut origins = Vec::new(alloc);
    let mut cursor = Cursor::first();
    for line in lines {
        cursor = cursor.after(&line.said);
        add_origin(alloc, &mut origins, cursor, line)?;
    }
    Ok(origins)
}

/// The message with this number, counted from 1, where so many were sent: `None` if no such message was.
#[tactic(auto, using(std::proofs::lemmas::Option::slice_get_past, std::proofs::lemmas::Option::slice_get_read))]
pub fn message(origins: &[Origin], sent: u32, number: u64) -> Option<&Origin>
    ensures { option_map (λ o. o.now) result ≡ message_at origins.now sent number }
{
    if number < 1 || number > sent as u64 || number > origins.len() as u64 {
        return None;
    }
    Some(&origins[(number - 1) as usize])
}

// Notes what a line sends or hands over.
fn hand(flags: &mut Vec<bool>, said: &Said) -> Result<(), AllocError>
    ensures { OnOk result (flags.new.items ≡ handed_by flags.old.items said.now) }
{
    match said {
        Said::Sent(_, _) => {
            flags.push(false)?;
            Ok(())
        }
        Said::Delivery(_, number) => {
            if *number >= 1 && *number <= flags.len() as u64 {
                flags[(*number - 1) as usize] = true;
            }
            Ok(())
        }
        _ => Ok(()),
    }
}

/// Whether each message of a trace, by its number, is handed over by a line after its own.
pub fn handed_of(alloc: Global, lines: &[TraceLine]) -> Result<Vec<bool>, AllocError>
    ensures { IfOk result (λ f. f.items ≡ handed_from [] lines.now) }
{
    let mut flags = Vec::new(alloc);
    for line in lines {
        hand(&mut flags, &line.said)?;
    }
    Ok(flags)
}
