//! Lifelines: each piece by what its node was, and the names of the nodes.
ghost use Rattle.std.specs.Prelude.{◌≡◌, ◌≤◌, ◌<◌, ◌^◌, ◌+◌, ◌++◌, length, OnOk};
ghost use Rattle.std.specs.List.{flat_map};
ghost use Rattle.sequence_chart.specs.Lifelines.{ending_stroke as ending_stroke_of, first_pen, head, lifeline as lifeline_of, lifeline_from, mode_class as mode_class_of, pen_after, piece, piece_at, piece_of, stroke_by, change_of_stroke as change_of};
ghost use Rattle.sequence_chart.specs.Rows.{first_cursor};

use crate::columns::{Column, node_of};
use crate::marks::term_class;
use crate::rows::{Cursor, MAX_LINES, y_of};
use std::alloc::AllocError;
use text::Text;
use trace_reader::{Ending, Mode, Said, TraceLine};
use voting_config::NodeId;

/// How a lifeline looks.
#[derive(Clone, Copy)]
pub enum Stroke {
    /// The node's mode is not said.
    Plain,
    /// The node is that, in this term.
    Mode(Mode, u64),
    /// The node is down.
    Gap,
}

/// How a lifeline looks since some row.
#[derive(Clone, Copy)]
pub struct Pen {
    pub top: u32,
    pub stroke: Stroke,
}

impl Pen {
    fn first() -> Pen
        ensures { result ≡ first_pen }
    {
        Pen {
            top: 0,
            stroke: Stroke::Plain,
        }
    }

    fn after(self, row: u32, change: Option<Stroke>) -> Pen
        ensures { result ≡ pen_after self row change }
    {
        match change {
            None => self,
            Some(stroke) => Pen { top: row, stroke },
        }
    }
}

fn ending_stroke(ending: Ending) -> Option<Stroke>
    ensures { result ≡ ending_stroke_of ending }
{
    match ending {
        Ending::Taken => None,
        Ending::Refused => None,
        Ending::Stopped => None,
        Ending::Disk => Some(Stroke::Gap),
        Ending::Crashed => Some(Stroke::Gap),
    }
}

fn stroke_after(said: &Said) -> Option<Stroke>
    ensures { result ≡ stroke_by said.now }
{
    match said {
        Said::Mode(_, mode, term) => Some(Stroke::Mode(*mode, *term)),
        Said::Crashed(_) => Some(Stroke::Gap),
        Said::Disk(_) => Some(Stroke::Gap),
        Said::Act(_, ending) => ending_stroke(*ending),
        Said::Opened(_) => Some(Stroke::Plain),
        _ => None,
    }
}

// How a line changes the lifeline of a node, if it does.
fn change_of_stroke(node: NodeId, said: &Said) -> Option<Stroke>
    ensures { result ≡ change_of node said.now }
{
    if node_of(said).as_bytes() == node.as_bytes() {
        return stroke_after(said);
    }
    None
}

fn mode_class(mode: Mode) -> &'static str
    ensures { result.now ≡ mode_class_of mode }
{
    match mode {
        Mode::Candidate => "candidate ",
        Mode::Leader => "leader ",
        Mode::Follower => "follower ",
    }
}

fn write_piece_of(text: &mut Text, left: u32, top: u32, bottom: u32) -> Result<(), AllocError>
    ensures { OnOk result (text.new ≡ text.old ++ piece_of left top bottom) }
{
    text.word("' d='M")?;
    text.number(left as u64 + 24)?;
    text.word(" ")?;
    text.number(y_of(top))?;
    text.word("V")?;
    text.number(y_of(bottom))?;
    text.word("'/>\n")
}

fn write_piece(text: &mut Text, left: u32, pen: Pen, bottom: u32) -> Result<(), AllocError>
    ensures { OnOk result (text.new ≡ text.old ++ piece left pen bottom) }
{
    match pen.stroke {
        Stroke::Gap => Ok(()),
        Stroke::Plain => {
            text.word("<path class='plain")?;
            write_piece_of(text, left, pen.top, bottom)
        }
        Stroke::Mode(mode, term) => {
            text.word("<path class='")?;
            text.word(mode_class(mode))?;
            text.word(term_class(term))?;
            write_piece_of(text, left, pen.top, bottom)
        }
    }
}

fn write_piece_at(
    text: &mut Text,
    left: u32,
    pen: Pen,
    row: u32,
    change: Option<Stroke>,
) -> Result<(), AllocError>
    ensures { OnOk result (text.new ≡ text.old ++ piece_at left pen row change) }
{
    match change {
        None => Ok(()),
        Some(_) => write_piece(text, left, pen, row),
    }
}

fn write_lifeline(
    text: &mut Text,
    lines: &[TraceLine],
    bottom: u32,
    column: &Column,
) -> Result<(), AllocError>
    requires { length lines.now ≤ MAX_LINES }
    ensures { OnOk result (text.new ≡ text.old ++ lifeline_of lines.now bottom column.now) }
{
    let mut cursor = Cursor::first();
    let mut pen = Pen::first();
    for line in lines {
        cursor = cursor.after(&line.said);
        let change = change_of_stroke(column.node, &line.said);
        write_piece_at(text, column.left, pen, cursor.row, change)?;
        pen = pen.after(cursor.row, change);
    }
    write_piece(text, column.left, pen, bottom)
}

/// Writes all lifelines, down to a row.
pub fn write_lifelines(
    text: &mut Text,
    lines: &[TraceLine],
    bottom: u32,
    columns: &[Column],
) -> Result<(), AllocError>
    requires { length lines.now ≤ MAX_LINES }
    ensures { OnOk result (text.new ≡ text.old ++ flat_map (lifeline_of lines.now bottom) columns.now) }
{
    for column in columns {
        write_lifeline(text, lines, bottom, column)?;
    }
    Ok(())
}

fn write_head(text: &mut Text, y: u64, column: &Column) -> Result<(), AllocError>
    ensures { OnOk result (text.new ≡ text.old ++ head y column.now) }
{
    text.word("<text class='head' x='")?;
    text.number(column.left as u64 + 24)?;
    text.word("' y='")?;
    text.number(y)?;
    text.word("'>")?;
    text.id(column.node)?;
    text.word("</text>\n")
}

/// Writes the names of all nodes, so many units down.
pub fn write_heads(text: &mut Text, y: u64, columns: &[Column]) -> Result<(), AllocError>
    ensures { OnOk result (text.new ≡ text.old ++ flat_map (head y) columns.now) }
{
    for column in columns {
        write_head(text, y, column)?;
    }
    Ok(())
}
