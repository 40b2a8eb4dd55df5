//! The picture as a whole.
ghost use Rattle.std.specs.Prelude.{◌≡◌, ◌≤◌, ◌++◌, length, OnOk, IfOk};
ghost use Rattle.sequence_chart.specs.Chart.{Draws, DrawsTrace};

use crate::arrows::{write_all_lost, write_arrows};
use crate::columns::{columns_of, nodes_of};
use crate::event_rows::{margin, write_event_rows};
use crate::frame::{end_frame, write_frame};
use crate::lifelines::{write_heads, write_lifelines};
use crate::marks::write_labels;
use crate::messages::{handed_of, origins_of};
use crate::rows::{MAX_LINES, last_row, y_of};
use schedule_text::ReadError;
use std::alloc::{AllocError, Global};
use text::Text;
use trace_reader::{BadTrace, TraceLine, read_trace};

/// The chart of a trace of at most a million lines, as SVG.
pub fn write_chart(alloc: Global, lines: &[TraceLine]) -> Result<Text, AllocError>
    requires { length lines.now ≤ MAX_LINES }
    ensures { IfOk result (λ t. Draws lines.now t) }
{
    let origins = origins_of(alloc, lines)?;
    let handed = handed_of(alloc, lines)?;
    let left = margin(alloc, origins.as_slice(), lines)?;
    let (columns, width) = columns_of(alloc, left, &nodes_of(lines), lines)?;
    let columns = columns.as_slice();
    let bottom = last_row(lines) + 1;
    let below = y_of(bottom) + 14;
    let mut text = Text::new(alloc);
    write_frame(&mut text, width as u64 + 8, below + 10)?;
    write_event_rows(&mut text, alloc, origins.as_slice(), lines)?;
    write_lifelines(&mut text, lines, bottom, columns)?;
    write_arrows(&mut text, columns, origins.as_slice(), lines)?;
    write_all_lost(&mut text, columns, handed.as_slice(), lines)?;
    write_labels(&mut text, alloc, columns, lines)?;
    write_heads(&mut text, 28, columns)?;
    write_heads(&mut text, below, columns)?;
    end_frame(&mut text)?;
    Ok(text)
}

/// The chart of the trace that the bytes are, as SVG, or the first bad line and why it is bad. `Memory` may come for any bytes.
pub fn draw_trace(alloc: Global, bytes: &[u8]) -> Result<Text, ReadError<BadTrace>>
    ensures { DrawsTrace bytes.now result }
{
    let trace = match read_trace(alloc, bytes) {
        Ok(trace) => trace,
        Err(fault) => return Err(fault),
    };
    let Ok(text) = write_chart(alloc, trace.as_slice()) else {
        return Err(ReadError::Memory);
    };
    Ok(text)
}
