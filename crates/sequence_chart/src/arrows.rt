//! Messages: an arrow for each delivery, and a small cross for each message that is lost.
ghost use Rattle.std.specs.Prelude.{◌≡◌, ◌≤◌, ◌<◌, ◌^◌, ◌+◌, ◌-◌, ◌++◌, codes, get_or, length, true, OnOk};
ghost use Rattle.sequence_chart.specs.Chart.{lost_in};
ghost use Rattle.sequence_chart.specs.Elements.{arrow, arrow_from, arrow_in, bow, end_at, lost, path, point, stub, way};
ghost use Rattle.sequence_chart.specs.Messages.{message_at};
ghost use Rattle.sequence_chart.specs.Rows.{first_cursor, walk};

use crate::columns::{Column, left_of};
use crate::marks::{write_place, write_title};
use crate::messages::{Origin, message};
use crate::rows::{Cursor, MAX_LINES, y_of};
use std::alloc::AllocError;
use text::Text;
use trace_reader::{Said, TraceLine};
use voting_config::NodeId;

#[tactic(auto, unfolding(crate::specs::Elements::point))]
fn write_point(text: &mut Text, x: u64, y: u64) -> Result<(), AllocError>
    ensures { OnOk result (text.new ≡ text.old ++ point x y) }
{
    text.number(x)?;
    text.word(" ")?;
    text.number(y)
}

fn write_line(text: &mut Text, x: u64, y: u64, to: u64, down: u64) -> Result<(), AllocError>
    ensures { OnOk result (text.new ≡ text.old ++ (point x y ++ (codes "L" ++ point to down))) }
{
    write_point(text, x, y)?;
    text.word("L")?;
    write_point(text, to, down)
}

#[tactic(auto, unfolding(crate::specs::Elements::bow))]
fn write_bow(text: &mut Text, left: u64, y: u64, down: u64) -> Result<(), AllocError>
    requires left { left < 2 ^ 32 }
    requires y { y < 2 ^ 48 }
    ensures { OnOk result (text.new ≡ text.old ++ bow left y down) }
{
    write_point(text, left + 21, y)?;
    text.word("C")?;
    write_point(text, left + 6, y + 2)?;
    text.word(" ")?;
    write_point(text, left + 6, down)?;
    text.word(" ")?;
    write_point(text, left + 20, down)
}

// From one lifeline to another, or in a bow from one to itself.
#[tactic(auto, unfolding(crate::specs::Elements::way))]
fn write_way(text: &mut Text, left: u64, y: u64, to: u64, down: u64) -> Result<(), AllocError>
    requires left { left < 2 ^ 32 }
    requires to { to < 2 ^ 32 }
    requires y { y < 2 ^ 48 }
    ensures { OnOk result (text.new ≡ text.old ++ way left y to down) }
{
    if left < to {
        return write_line(text, left + 28, y, to + 20, down);
    }
    if to < left {
        return write_line(text, left + 20, y, to + 28, down);
    }
    write_bow(text, left, y, down)
}

// An arrow, and where it begins and ends.
#[tactic(auto, unfolding(crate::specs::Elements::path))]
fn write_path(text: &mut Text, left: u64, y: u64, to: u64, down: u64) -> Result<(), AllocError>
    requires left { left < 2 ^ 32 }
    requires to { to < 2 ^ 32 }
    requires y { y < 2 ^ 48 }
    ensures { OnOk result (text.new ≡ text.old ++ path left y to down) }
{
    text.word("<path class='arrow' marker-end='url(#head)' d='M")?;
    write_way(text, left, y, to, down)?;
    text.word("'>")
}

#[tactic(auto, unfolding(crate::specs::Elements::arrow))]
fn write_arrow(
    text: &mut Text,
    columns: &[Column],
    origin: &Origin,
    node: NodeId,
    row: u32,
) -> Result<(), AllocError>
    ensures { OnOk result (text.new ≡ text.old ++ arrow columns.now origin.now node row) }
{
    let left = left_of(columns, origin.from) as u64;
    let to = left_of(columns, node) as u64;
    write_path(text, left, y_of(origin.row) + 4, to, y_of(row))?;
    write_title(text, origin.text.as_slice())?;
    text.word("</path>\n")
}

// The arrow of the message with this number to a node, where so many were sent.
fn write_delivery(
    text: &mut Text,
    columns: &[Column],
    origins: &[Origin],
    cursor: Cursor,
    node: NodeId,
    number: u64,
) -> Result<(), AllocError>
    ensures { OnOk result (text.new ≡ text.old ++ arrow_from columns.now (message_at origins.now cursor.sent number) node cursor.row) }
{
    match message(origins, cursor.sent, number) {
        None => Ok(()),
        Some(origin) => write_arrow(text, columns, origin, node, cursor.row),
    }
}

fn write_arrow_in(
    text: &mut Text,
    columns: &[Column],
    origins: &[Origin],
    cursor: Cursor,
    line: &TraceLine,
) -> Result<(), AllocError>
    ensures { OnOk result (text.new ≡ text.old ++ arrow_in columns.now origins.now cursor line.now) }
{
    match &line.said {
        Said::Delivery(node, number) => {
            write_delivery(text, columns, origins, cursor, *node, *number)
        }
        _ => Ok(()),
    }
}

/// Writes an arrow for each line that hands over a message that was sent before.
pub fn write_arrows(
    text: &mut Text,
    columns: &[Column],
    origins: &[Origin],
    lines: &[TraceLine],
) -> Result<(), AllocError>
    requires { length lines.now ≤ MAX_LINES }
    ensures { OnOk result (text.new ≡ text.old ++ walk (arrow_in columns.now origins.now) first_cursor lines.now) }
{
    let mut cursor = Cursor::first();
    for line in lines {
        cursor = cursor.after(&line.said);
        write_arrow_in(text, columns, origins, cursor, line)?;
    }
    Ok(())
}

// A short stroke to where a message is lost.
#[tactic(auto, unfolding(crate::specs::Elements::stub))]
fn write_stub(text: &mut Text, x: u64, y: u64, to: u64, down: u64) -> Result<(), AllocError>
    ensures { OnOk result (text.new ≡ text.old ++ stub x y to down) }
{
    text.word("<path class='lost' d='M")?;
    write_point(text, x, y)?;
    text.word("L")?;
    write_point(text, to, down)?;
    text.word("'>")
}

// The end of the stroke, and a small cross there.
#[tactic(auto, unfolding(crate::specs::Elements::end_at))]
fn write_end(text: &mut Text, x: u64, y: u64) -> Result<(), AllocError>
    ensures { OnOk result (text.new ≡ text.old ++ end_at x y) }
{
    text.word("</path><use href='#end' class='end")?;
    write_place(text, x, y)?;
    text.word("/>\n")
}

fn write_lost(
    text: &mut Text,
    left: u32,
    y: u64,
    number: u32,
    line: &[u8],
) -> Result<(), AllocError>
    requires { y < 2 ^ 48 }
    ensures { OnOk result (text.new ≡ text.old ++ lost left y number line.now) }
{
    let left = left as u64;
    let end = left + 5 * (number % 2) as u64;
    let down = y + 4 + 5 * (number / 2 % 3) as u64;
    write_stub(text, left + 24, y, end, down)?;
    write_title(text, line)?;
    write_end(text, end, down)
}

fn is_handed(handed: &[bool], sent: u32) -> bool
    ensures { result ≡ get_or handed.now (sent - 1) true }
{
    let place = sent.saturating_sub(1) as usize;
    if place < handed.len() {
        handed[place]
    } else {
        true
    }
}

fn write_lost_in(
    text: &mut Text,
    columns: &[Column],
    handed: &[bool],
    cursor: Cursor,
    line: &TraceLine,
) -> Result<(), AllocError>
    ensures { OnOk result (text.new ≡ text.old ++ lost_in columns.now handed.now cursor line.now) }
{
    let Said::Sent(from, _) = &line.said else {
        return Ok(());
    };
    if is_handed(handed, cursor.sent) {
        return Ok(());
    }
    let left = left_of(columns, *from);
    write_lost(
        text,
        left,
        y_of(cursor.row) + 4,
        cursor.sent,
        line.text.as_slice(),
    )
}

/// Writes a mark for each message that no line hands over.
pub fn write_all_lost(
    text: &mut Text,
    columns: &[Column],
    handed: &[bool],
    lines: &[TraceLine],
) -> Result<(), AllocError>
    requires { length lines.now ≤ MAX_LINES }
    ensures { OnOk result (text.new ≡ text.old ++ walk (lost_in columns.now handed.now) first_cursor lines.now) }
{
    let mut cursor = Cursor::first();
    for line in lines {
        cursor = cursor.after(&line.said);
        write_lost_in(text, columns, handed, cursor, line)?;
    }
    Ok(())
}
