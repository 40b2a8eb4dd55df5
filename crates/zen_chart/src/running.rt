//! A run: the input drawn, or refused.

ghost use Rattle.std.specs.Prelude.{◌≡◌};
ghost use Rattle.zen_link.specs.Views.{source_view, sink_view};
ghost use Rattle.trace_reader.specs.Printed.{bad_line};
ghost use Rattle.zen_chart.specs.Ran.{Ran, RefusesWords};
ghost use Rattle.zen_chart.specs.Runs.{DrawEnded, Refusal, UsageRun};

use crate::status::Status;
use schedule_text::ReadError;
use sequence_chart::draw_trace;
use std::alloc::Global;
use text::Text;
use trace_reader::{BadTrace, MAX_TRACE_BYTES, write_bad_trace};
use zen_link::{InputError, Sink, Source, read_input, write_all};

/// Reads a trace and writes its picture, unless there are words. The clause says what each status tells.
pub fn run<I: Source, S: Sink>(alloc: Global, has_words: bool, input: &mut I, out: &mut S) -> Status
    ensures { Ran has_words
        (source_view I.Source input.old)
        (source_view I.Source input.new)
        (sink_view S.Sink out.old)
        (sink_view S.Sink out.new)
        result }
{
    if has_words {
        return refuse_words(out);
    }
    draw(alloc, input, out)
}

fn refuse_words<S: Sink>(out: &mut S) -> Status
    ensures { UsageRun (S.written out.old) (S.written out.new) (S.faults out.old) (S.faults out.new) result }
{
    let Ok(()) = write_all(out, "zen_chart: usage\n".as_bytes()) else {
        return Status::WriteFault;
    };
    Status::Usage
}

// Reads a trace and writes its picture.
fn draw<I: Source, S: Sink>(alloc: Global, input: &mut I, out: &mut S) -> Status
    ensures { DrawEnded
        (source_view I.Source input.old)
        (source_view I.Source input.new)
        (sink_view S.Sink out.old)
        (sink_view S.Sink out.new)
        result }
{
    let bytes = match read_input(alloc, input, MAX_TRACE_BYTES + 1) {
        Ok(bytes) => bytes,
        Err(InputError::Read) => return Status::ReadFault,
        Err(InputError::Memory) => return Status::NoMemory,
    };
    let picture = match draw_trace(alloc, bytes.as_slice()) {
        Ok(picture) => picture,
        Err(ReadError::Memory) => return Status::NoMemory,
        Err(ReadError::Bad(bad)) => return refuse(alloc, out, bad),
    };
    let Ok(()) = write_all(out, picture.as_bytes()) else {
        return Status::WriteFault;
    };
    Status::Ok
}

// Writes which line is bad and why.
fn refuse<S: Sink>(alloc: Global, out: &mut S, bad: BadTrace) -> Status
    ensures { Refusal (S.written out.old) (S.written out.new) (S.faults out.old) (S.faults out.new) (bad_line bad) result }
{
    let mut text = Text::new(alloc);
    let Ok(()) = write_bad_trace(&mut text, &bad) else {
        return Status::NoMemory;
    };
    let Ok(()) = write_all(out, text.as_bytes()) else {
        return Status::WriteFault;
    };
    Status::BadTrace
}
