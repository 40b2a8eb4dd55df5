//! The command `generate`.
ghost use Rattle.std.specs.Prelude.{◌≡◌, ◌≤◌};
ghost use Rattle.zen_disk.specs.Faults.{Rose};
ghost use Rattle.schedule_generator.specs.Laws.{most_steps};
ghost use Rattle.schedule_text.specs.declared.level.Level.TheVariants.{Core};
ghost use Rattle.schedule_replay.specs.Generated.{generated};
ghost use Rattle.schedule_replay.specs.Levels.{trace_at};
ghost use Rattle.trace_summary.specs.Printed.{summary_text};
ghost use Rattle.trace_summary.specs.Summaries.{summary_of};
ghost use Rattle.zen_app.specs.NodeRuns.{SaysLine};
ghost use Rattle.zen_app.specs.declared.status.Status.TheVariants as exit;

use crate::Status;
use schedule_replay::generate;
use std::alloc::Global;
use text::Text;
use trace_summary::write_summary;
use zen_link::{Sink, write_all};

/// Replays so many lines of a number's schedule, and writes the summary of their trace.
pub fn run_generate<S: Sink>(alloc: Global, number: u64, steps: u64, out: &mut S) -> Status
    requires { steps ≤ most_steps }
    ensures says { SaysLine (summary_text (summary_of (trace_at Core (generated number steps)))) exit.Ok (S.written out.old)
        (S.written out.new) result }
    ensures write { result ≡ exit.WriteFault → Rose (S.faults out.old) (S.faults out.new) }
    ensures later { S.faults out.old ≤ S.faults out.new }
{
    let Ok(summary) = generate(alloc, number, steps) else {
        return Status::NoMemory;
    };
    let mut text = Text::new(alloc);
    let Ok(()) = write_summary(alloc, &mut text, &summary) else {
        return Status::NoMemory;
    };
    let Ok(()) = write_all(out, text.as_bytes()) else {
        return Status::WriteFault;
    };
    Status::Ok
}
