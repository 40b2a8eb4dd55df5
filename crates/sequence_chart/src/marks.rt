//! The mark of a line at its lifeline, with its colour and its words.
ghost use Rattle.std.specs.Prelude.{◌≡◌, ◌≤◌, ◌<◌, ◌^◌, ◌+◌, ◌*◌, ◌++◌, length, OnOk};
ghost use Rattle.sequence_chart.specs.Elements.{at_place, class_by, class_of, ending_class as ending_class_of, ending_mark as ending_mark_of, form, paper, has_label as has_label_of, label as label_of_line, label_in, label_text, look, mark, mark_of as mark_said, term_class as term_class_of, title};
ghost use Rattle.schedule_text.specs.Lines.{any_number};
ghost use Rattle.sequence_chart.specs.Labels.{label_of};
ghost use Rattle.sequence_chart.specs.Rows.{first_cursor, walk};
ghost use Rattle.sequence_chart.specs.Words.{term_word as term_word_of};

use crate::columns::{Column, left_of, node_of};
use crate::escaping::write_escaped;
use crate::labels::label;
use crate::rows::{Cursor, MAX_LINES, y_of};
use crate::words::term_word;
use schedule_text::number_at;
use std::alloc::{AllocError, Global};
use text::Text;
use trace_reader::{Ending, Said, TraceLine};

/// The class that gives a term its colour.
pub fn term_class(term: u64) -> &'static str
    ensures { result.now ≡ term_class_of term }
{
    if term % 5 == 0 {
        return "t0";
    }
    if term % 5 == 1 {
        return "t1";
    }
    if term % 5 == 2 {
        return "t2";
    }
    if term % 5 == 3 {
        return "t3";
    }
    "t4"
}

fn ending_class(ending: Ending) -> &'static str
    ensures { result.now ≡ ending_class_of ending }
{
    match ending {
        Ending::Taken => "taken",
        Ending::Refused => "refused",
        Ending::Stopped => "fault",
        Ending::Disk => "fault",
        Ending::Crashed => "fault",
    }
}

// The class of the term of the state in a line, if it shows one.
fn committed_class(line: &[u8]) -> &'static str
    ensures { result.now ≡ class_by (any_number.at (term_word_of line.now)) }
{
    match number_at(term_word(line), 0, u64::MAX) {
        Ok(term) => term_class(term),
        Err(_) => "other",
    }
}

// The class of the mark and the label of a line, which gives them their colour.
#[tactic(auto, unfolding(crate::specs::Elements::class_of))]
fn write_class(text: &mut Text, line: &[u8], said: &Said) -> Result<(), AllocError>
    ensures { OnOk result (text.new ≡ text.old ++ class_of line.now said.now) }
{
    match said {
        Said::Act(_, ending) => text.word(ending_class(*ending)),
        Said::Won(_, term) => {
            text.word("won ")?;
            text.word(term_class(*term))
        }
        Said::Committed(_) => {
            text.word("won ")?;
            text.word(committed_class(line))
        }
        Said::Mode(_, _, term) => text.word(term_class(*term)),
        Said::Crashed(_) => text.word("fault"),
        Said::Disk(_) => text.word("fault"),
        Said::Down(_) => text.word("fault"),
        Said::Opened(_) => text.word("taken"),
        _ => text.word("other"),
    }
}

fn ending_mark(ending: Ending) -> &'static str
    ensures { result.now ≡ ending_mark_of ending }
{
    match ending {
        Ending::Taken => "dot",
        Ending::Refused => "cross",
        Ending::Stopped => "frame",
        Ending::Disk => "square",
        Ending::Crashed => "square",
    }
}

#[tactic(auto, unfolding(crate::specs::Elements::mark_of))]
fn mark_of(said: &Said) -> &'static str
    ensures { result.now ≡ mark_said said.now }
{
    match said {
        Said::Act(_, ending) => ending_mark(*ending),
        Said::Won(_, _) => "star",
        Said::Committed(_) => "diamond",
        Said::Mode(_, _, _) => "bar",
        Said::Crashed(_) => "square",
        Said::Disk(_) => "square",
        Said::Down(_) => "frame",
        Said::Opened(_) => "triangle",
        _ => "ring",
    }
}

/// Writes the end of a tag with a place.
#[tactic(auto, unfolding(crate::specs::Elements::at_place))]
pub fn write_place(text: &mut Text, x: u64, y: u64) -> Result<(), AllocError>
    ensures { OnOk result (text.new ≡ text.old ++ at_place x y) }
{
    text.word("' x='")?;
    text.number(x)?;
    text.word("' y='")?;
    text.number(y)?;
    text.word("'")
}

/// Writes the whole line, which a reader of the picture is shown at its element.
#[tactic(auto, unfolding(crate::specs::Elements::title))]
pub fn write_title(text: &mut Text, line: &[u8]) -> Result<(), AllocError>
    ensures { OnOk result (text.new ≡ text.old ++ title line.now) }
{
    text.word("<title>")?;
    write_escaped(text, line)?;
    text.word("</title>")
}

// The class and the place of a line in a tag.
#[tactic(auto, unfolding(crate::specs::Elements::look))]
fn write_look(text: &mut Text, x: u64, y: u64, line: &TraceLine) -> Result<(), AllocError>
    ensures { OnOk result (text.new ≡ text.old ++ look x y line.now) }
{
    text.word(" class='")?;
    write_class(text, line.text.as_slice(), &line.said)?;
    write_place(text, x, y)
}

// The form of a mark, by its name.
#[tactic(auto, unfolding(crate::specs::Elements::form))]
fn write_form(text: &mut Text, said: &Said) -> Result<(), AllocError>
    ensures { OnOk result (text.new ≡ text.old ++ form said.now) }
{
    text.word("<use href='#")?;
    text.word(mark_of(said))?;
    text.word("'")
}

#[tactic(auto, unfolding(crate::specs::Elements::mark))]
fn write_mark(text: &mut Text, x: u64, y: u64, line: &TraceLine) -> Result<(), AllocError>
    ensures { OnOk result (text.new ≡ text.old ++ mark x y line.now) }
{
    write_form(text, &line.said)?;
    write_look(text, x, y, line)?;
    text.word("/>")
}

// What hides the arrows behind so many characters.
#[tactic(auto, unfolding(crate::specs::Elements::paper))]
fn write_paper(text: &mut Text, x: u64, y: u64, cells: usize) -> Result<(), AllocError>
    requires { cells ≤ 1000 }
    ensures { OnOk result (text.new ≡ text.old ++ paper x y cells) }
{
    text.word("<rect class='paper")?;
    write_place(text, x, y)?;
    text.word(" height='12' width='")?;
    text.number(6 * cells as u64 + 2)?;
    text.word("'/>")
}

#[tactic(auto, unfolding(crate::specs::Elements::label_text))]
fn write_label_text(
    text: &mut Text,
    x: u64,
    y: u64,
    line: &TraceLine,
    label: &Text,
) -> Result<(), AllocError>
    requires { label.now ≡ label_of line.now }
    ensures { OnOk result (text.new ≡ text.old ++ label_text x y line.now) }
{
    text.word("<text")?;
    write_look(text, x, y, line)?;
    text.word(">")?;
    write_title(text, line.text.as_slice())?;
    write_escaped(text, label.as_bytes())?;
    text.word("</text>\n")
}

// The mark of a line at its lifeline, and the words beside it.
#[tactic(auto, using(crate::proofs::Texts::capped_few))]
fn write_label(
    text: &mut Text,
    alloc: Global,
    left: u32,
    row: u32,
    line: &TraceLine,
) -> Result<(), AllocError>
    ensures { OnOk result (text.new ≡ text.old ++ label_of_line left row line.now) }
{
    let label = label(alloc, line)?;
    let left = left as u64;
    let y = y_of(row);
    write_mark(text, left + 24, y, line)?;
    write_paper(text, left + 37, y - 6, label.len())?;
    write_label_text(text, left + 38, y + 3, line, &label)
}

fn has_label(said: &Said) -> bool
    ensures { result ≡ has_label_of said.now }
{
    match said {
        Said::Delivery(_, _) => false,
        Said::Event(_) => false,
        Said::Sent(_, _) => false,
        _ => true,
    }
}

fn write_label_in(
    text: &mut Text,
    alloc: Global,
    columns: &[Column],
    cursor: Cursor,
    line: &TraceLine,
) -> Result<(), AllocError>
    ensures { OnOk result (text.new ≡ text.old ++ label_in columns.now cursor line.now) }
{
    if !has_label(&line.said) {
        return Ok(());
    }
    let left = left_of(columns, node_of(&line.said));
    write_label(text, alloc, left, cursor.row, line)
}

/// Writes the marks and labels of all lines that have one.
pub fn write_labels(
    text: &mut Text,
    alloc: Global,
    columns: &[Column],
    lines: &[TraceLine],
) -> Result<(), AllocError>
    requires { length lines.now ≤ MAX_LINES }
    ensures { OnOk result (text.new ≡ text.old ++ walk (label_in columns.now) first_cursor lines.now) }
{
    let mut cursor = Cursor::first();
    for line in lines {
        cursor = cursor.after(&line.said);
        write_label_in(text, alloc, columns, cursor, line)?;
    }
    Ok(())
}
