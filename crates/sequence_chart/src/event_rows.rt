//! The lines of the schedule at the left, with the messages that they hand over.
ghost use Rattle.std.specs.Prelude.{◌≡◌, ◌≤◌, ◌+◌, ◌*◌, ◌++◌, [], length, OnOk, IfOk};
ghost use Rattle.sequence_chart.specs.Elements.{handed, message_words, rule, schedule, event_row, event_row_by, event_row_in};
ghost use Rattle.sequence_chart.specs.Labels.{fields as fields_of};
ghost use Rattle.sequence_chart.specs.Messages.{message_at};
ghost use Rattle.sequence_chart.specs.Rows.{first_cursor, walk, y_of as y_of_row};
ghost use Rattle.sequence_chart.specs.Words.{capped, short_words as short_words_of};

use crate::escaping::write_escaped;
use crate::labels::fields;
use crate::marks::{write_place, write_title};
use crate::messages::{Origin, message};
use crate::rows::{Cursor, MAX_LINES, y_of};
use crate::words::{behind, short_words, write_capped};
use std::alloc::{AllocError, Global};
use text::Text;
use trace_reader::{Said, TraceLine};

/// How many bytes are shown of a line of the schedule, and of the message after it.
pub const MAX_EVENT: usize = 40;

// The words of a message after its ends.
fn short_text(alloc: Global, line: &[u8]) -> Result<Text, AllocError>
    ensures { IfOk result (λ t. t ≡ capped 40 (short_words_of (fields_of line.now))) }
{
    let mut words = Text::new(alloc);
    short_words(&mut words, fields(line))?;
    let mut shown = Text::new(alloc);
    write_capped(&mut shown, MAX_EVENT, words.as_bytes())?;
    Ok(shown)
}

// The message with this number, where so many were sent, by its words.
fn message_text(
    alloc: Global,
    origins: &[Origin],
    sent: u32,
    number: u64,
) -> Result<Text, AllocError>
    ensures { IfOk result (λ t. t ≡ message_words (message_at origins.now sent number)) }
{
    match message(origins, sent, number) {
        None => Ok(Text::new(alloc)),
        Some(origin) => short_text(alloc, origin.text.as_slice()),
    }
}

#[tactic(auto, unfolding(crate::specs::Elements::rule))]
fn write_rule(text: &mut Text, y: u64) -> Result<(), AllocError>
    ensures { OnOk result (text.new ≡ text.old ++ rule y) }
{
    text.word("<line class='step' x2='100%' y1='")?;
    text.number(y)?;
    text.word("' y2='")?;
    text.number(y)?;
    text.word("'/>")
}

// A line of the schedule, without its number.
#[tactic(auto, unfolding(crate::specs::Elements::schedule))]
fn write_schedule(text: &mut Text, alloc: Global, y: u64, line: &[u8]) -> Result<(), AllocError>
    ensures { OnOk result (text.new ≡ text.old ++ schedule y line.now) }
{
    let mut shown = Text::new(alloc);
    write_capped(&mut shown, MAX_EVENT, behind(line, b' '))?;
    text.word("<text class='schedule")?;
    write_place(text, 8, y)?;
    text.word(">")?;
    write_title(text, line)?;
    write_escaped(text, shown.as_bytes())
}

#[tactic(auto, unfolding(crate::specs::Elements::handed))]
fn write_handed(text: &mut Text, message: &[u8]) -> Result<(), AllocError>
    ensures { OnOk result (text.new ≡ text.old ++ handed message.now) }
{
    text.word("<tspan class='message'>  ")?;
    write_escaped(text, message)?;
    text.word("</tspan></text>\n")
}

fn write_event_row(
    text: &mut Text,
    alloc: Global,
    row: u32,
    line: &[u8],
    message: &[u8],
) -> Result<(), AllocError>
    ensures { OnOk result (text.new ≡ text.old ++ event_row (y_of_row row) line.now message.now) }
{
    let y = y_of(row);
    write_rule(text, y - 7)?;
    write_schedule(text, alloc, y + 3, line)?;
    write_handed(text, message)
}

fn write_event_row_in(
    text: &mut Text,
    alloc: Global,
    origins: &[Origin],
    cursor: Cursor,
    line: &TraceLine,
) -> Result<(), AllocError>
    ensures { OnOk result (text.new ≡ text.old ++ event_row_in origins.now cursor line.now) }
{
    match &line.said {
        Said::Delivery(_, number) => {
            let message = message_text(alloc, origins, cursor.sent, *number)?;
            write_event_row(
                text,
                alloc,
                cursor.row,
                line.text.as_slice(),
                message.as_bytes(),
            )
        }
        Said::Event(_) => write_event_row(text, alloc, cursor.row, line.text.as_slice(), &[]),
        _ => Ok(()),
    }
}

/// Writes the lines of the schedule, with the messages that they hand over.
pub fn write_event_rows(
    text: &mut Text,
    alloc: Global,
    origins: &[Origin],
    lines: &[TraceLine],
) -> Result<(), AllocError>
    requires { length lines.now ≤ MAX_LINES }
    ensures { OnOk result (text.new ≡ text.old ++ walk (event_row_in origins.now) first_cursor lines.now) }
{
    let mut cursor = Cursor::first();
    for line in lines {
        cursor = cursor.after(&line.said);
        write_event_row_in(text, alloc, origins, cursor, line)?;
    }
    Ok(())
}

// How many characters such a line shows.
fn event_cells(
    alloc: Global,
    origins: &[Origin],
    sent: u32,
    line: &TraceLine,
) -> Result<u32, AllocError>
    ensures { IfOk result (λ c. c ≤ 100) }
{
    let schedule = behind(line.text.as_slice(), b' ').len().min(42);
    match &line.said {
        Said::Delivery(_, number) => {
            let message = message_text(alloc, origins, sent, *number)?;
            Ok((schedule + 2 + message.len().min(42)) as u32)
        }
        Said::Event(_) => Ok(schedule as u32),
        _ => Ok(0),
    }
}

/// How wide these lines are, and some room after them.
pub fn margin(alloc: Global, origins: &[Origin], lines: &[TraceLine]) -> Result<u32, AllocError>
    requires { length lines.now ≤ MAX_LINES }
    ensures { IfOk result (λ c. c ≤ 1000) }
{
    let mut cursor = Cursor::first();
    let mut most: u32 = 0;
    for line in lines {
        cursor = cursor.after(&line.said);
        most = most.max(event_cells(alloc, origins, cursor.sent, line)?);
    }
    Ok(20 + 6 * most)
}
