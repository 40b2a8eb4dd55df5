//! Why a text is no trace.
ghost use Rattle.std.specs.Prelude.{◌≡◌, ◌++◌, OnOk, decimal};
ghost use Rattle.schedule_text.specs.Printed.{reason_text};
ghost use Rattle.trace_reader.specs.Printed.{bad_line};

use schedule_text::WhyBad;
use std::alloc::AllocError;
use text::Text;
use thiserror::Error;

/// The first bad line of a text, and why it is bad. Where several reasons hold it is the first of them, and of the words of the
/// line that of the first bad one.
#[derive(Clone, Copy, Debug, PartialEq, Eq, Error)]
#[error("bad trace at line {line}: {why}")]
pub struct BadTrace {
    /// The number of the line, counted from 1.
    pub line: usize,
    /// `TooBig` and `TooMany` by [`MAX_TRACE_BYTES`](crate::MAX_TRACE_BYTES) and [`MAX_TRACE_LINES`](crate::MAX_TRACE_LINES);
    /// `Header` where a result stands before the first line of the schedule; `Verb` where a word that must be one of a few is
    /// none of them; after `>` what a reader of schedules says of the line.
    pub why: WhyBad,
}

fn write_line_number(text: &mut Text, line: usize) -> Result<(), AllocError>
    ensures { OnOk result (text.new ≡ text.old ++ decimal line) }
{
    text.number(line as u64)
}

fn write_reason(text: &mut Text, why: WhyBad) -> Result<(), AllocError>
    ensures { OnOk result (text.new ≡ text.old ++ reason_text why) }
{
    text.word(": ")?;
    text.word(why.name())?;
    text.word("\n")
}

/// Writes which line of a trace is bad and why, as `zen_chart: bad trace at line 3: Verb` with a line feed.
pub fn write_bad_trace(text: &mut Text, bad: &BadTrace) -> Result<(), AllocError>
    ensures { OnOk result (text.new ≡ text.old ++ bad_line bad.now) }
{
    text.word("zen_chart: bad trace at line ")?;
    write_line_number(text, bad.line)?;
    write_reason(text, bad.why)
}
