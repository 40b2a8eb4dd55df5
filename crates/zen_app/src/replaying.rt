//! The command `replay`.
ghost use Rattle.std.specs.Prelude.{◌≡◌};
ghost use Rattle.zen_link.specs.Views.{source_view, sink_view};
ghost use Rattle.schedule_text.specs.Printed.{bad_line};
ghost use Rattle.zen_app.specs.Refusing.{Refusal};
ghost use Rattle.zen_app.specs.Runs.{ReplayEnded};
ghost use Rattle.zen_app.specs.declared.status.Status.TheVariants as exit;

use crate::Status;
use schedule_replay::{ReplayError, write_trace};
use schedule_text::{BadSchedule, Level, MAX_BYTES, ReadError, read_schedule, write_bad_schedule};
use std::alloc::Global;
use text::Text;
use zen_link::{InputError, Sink, Source, read_input, write_all};

/// Reads a schedule of this level and writes its trace.
pub fn run_replay<I: Source, S: Sink>(
    alloc: Global,
    level: Level,
    input: &mut I,
    out: &mut S,
) -> Status
    ensures { ReplayEnded level
        (source_view I.Source input.old)
        (source_view I.Source input.new)
        (sink_view S.Sink out.old)
        (sink_view S.Sink out.new)
        result }
{
    let bytes = match read_input(alloc, input, MAX_BYTES + 1) {
        Ok(bytes) => bytes,
        Err(InputError::Read) => return Status::ReadFault,
        Err(InputError::Memory) => return Status::NoMemory,
    };
    let schedule = match read_schedule(alloc, bytes.as_slice(), level) {
        Ok(schedule) => schedule,
        Err(ReadError::Memory) => return Status::NoMemory,
        Err(ReadError::Bad(bad)) => return refuse_schedule(alloc, out, bad),
    };
    // They are as long as the schedule, and read no more.
    drop(bytes);
    match write_trace(alloc, &schedule, level, out) {
        Ok(()) => Status::Ok,
        Err(ReplayError::Write) => Status::WriteFault,
        Err(ReplayError::Memory) => Status::NoMemory,
    }
}

/// Writes which line is bad and why.
pub fn refuse_schedule<S: Sink>(alloc: Global, out: &mut S, bad: BadSchedule) -> Status
    ensures { Refusal (S.written out.old) (S.written out.new) (S.faults out.old) (S.faults out.new) (bad_line bad) exit.BadSchedule result }
{
    let mut text = Text::new(alloc);
    let Ok(()) = write_bad_schedule(&mut text, &bad) else {
        return Status::NoMemory;
    };
    let Ok(()) = write_all(out, text.as_bytes()) else {
        return Status::WriteFault;
    };
    Status::BadSchedule
}
