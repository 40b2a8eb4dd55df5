//! A generated schedule replayed line by line, each drawn after those before it were replayed.
ghost use Rattle.std.specs.Prelude.{◌≡◌, ◌≤◌, IfOk};
ghost use Rattle.schedule_text.specs.declared.level.Level.TheVariants.{Core};
ghost use Rattle.schedule_generator.specs.Laws.{most_steps};
ghost use Rattle.schedule_replay.specs.Generated.{generated};
ghost use Rattle.schedule_replay.specs.Levels.{trace_at};
ghost use Rattle.trace_summary.specs.Summaries.{summary_of};

use crate::replayer::Replayer;
use schedule_generator::{Generator, empty_schedule};
use std::alloc::{AllocError, Global};
use text::Text;
use trace_summary::{Summary, Tally};

/// Replays so many lines of a number's schedule, at most `schedule_generator::MAX_STEPS`, and sums up their trace. No line is
/// kept, and nothing of the trace. The error means that memory ran out.
pub fn generate(alloc: Global, number: u64, steps: u64) -> Result<Summary, AllocError>
    requires few { steps ≤ most_steps }
    ensures { IfOk result (λ s. s ≡ summary_of (trace_at Core (generated number steps))) }
{
    let header = empty_schedule(alloc);
    let mut replayer = Replayer::new(alloc, &header.nodes)?;
    let mut generator = Generator::new(number);
    let mut tally = Tally::new();
    let mut text = Text::new(alloc);
    'steps: for _ in 0..steps {
        let sent = replayer.sent.len() as u64;
        let drawn = generator.line(alloc, sent)?;
        text.clear();
        replayer.line(alloc, &header, &drawn, &mut text)?;
        let piece = text.as_bytes();
        tally.add(piece)?;
    }
    Ok(tally.finish())
}
