//! `replay`: a schedule of either level replayed line by line, and its trace written in pieces.
ghost use Rattle.std.specs.Prelude.{◌≡◌, ◌≤◌, ◌++◌, ℕ, List, [], IfOk, OnOk};
ghost use Rattle.std.specs.List.{AllByRecursion};
ghost use Rattle.zen_disk.specs.Faults.{Rose};
ghost use Rattle.zen_link.specs.Streams.{AppendedPrefix};
ghost use Rattle.schedule_text.specs.declared.level.Level.TheVariants.{Core, Node};
ghost use Rattle.schedule_text.specs.Lines.{FitsLine};
ghost use Rattle.schedule_replay.specs.SoFar.{Holds};
ghost use Rattle.schedule_replay.specs.Levels.{trace_at};
ghost use Rattle.schedule_replay.specs.Written.{WritesTrace};
ghost use Rattle.trace_summary.specs.Summaries.{summary_of};
ghost use Rattle.trace_summary.specs.Tallies.{EndsLine};

use crate::cluster::replayer::ClusterReplayer;
use crate::observing::{Nobody, Observer};
use crate::replayer::Replayer;
use schedule_text::{Level, Schedule};
use std::alloc::Global;
use text::Text;
use trace_summary::{Summary, Tally};
use zen_link::{Sink, write_all};

/// Why a replay ended before its end.
#[derive(Clone, Copy, Debug, PartialEq, Eq, thiserror::Error)]
pub enum ReplayError {
    #[error("the trace was not written")]
    Write,
    #[error("memory ran out")]
    Memory,
}

// How many bytes of a trace are held back at most before they are written.
const HELD_BYTES: usize = 65536;

// Adds a piece to what is held back, and writes what is held back where it has grown long.
#[inline(always)]
fn hold<S: Sink>(out: &mut S, held: &mut Text, piece: &Text) -> Result<(), ReplayError>
    ensures holds { Holds (S.written out.old) (S.written out.new) held.old held.new piece.now result }
    ensures later { S.faults out.old ≤ S.faults out.new }
    ensures fault { result ≡ Err ReplayError.Write → Rose (S.faults out.old) (S.faults out.new) }
{
    if held.len() > HELD_BYTES {
        let Ok(()) = write_all(out, held.as_bytes()) else {
            return Err(ReplayError::Write);
        };
        held.clear();
    }
    if held.bytes(piece.as_bytes()).is_err() {
        return Err(ReplayError::Memory);
    }
    Ok(())
}

// Writes what is held back, where memory has run out.
fn out_of_memory<S: Sink>(out: &mut S, held: &Text) -> ReplayError
    ensures written { AppendedPrefix (S.written out.old) (S.written out.new) held.now }
    ensures later { S.faults out.old ≤ S.faults out.new }
    ensures fault { result ≡ ReplayError.Write → Rose (S.faults out.old) (S.faults out.new) }
{
    match write_all(out, held.as_bytes()) {
        Ok(()) => ReplayError::Memory,
        Err(_) => ReplayError::Write,
    }
}

// Shows the observer a line's part of the trace, and adds it to what is held back.
#[inline(always)]
fn pass_on<T: Observer, S: Sink>(
    observer: &mut T,
    out: &mut S,
    held: &mut Text,
    piece: &Text,
) -> Result<(), ReplayError>
    ensures holds { Holds (S.written out.old) (S.written out.new) held.old held.new piece.now result }
    ensures observed { OnOk result ((text : List ℕ) → EndsLine text → T.saw observer.old text → T.saw observer.new (text ++ piece.now)) }
    ensures later { S.faults out.old ≤ S.faults out.new }
    ensures fault { result ≡ Err ReplayError.Write → Rose (S.faults out.old) (S.faults out.new) }
{
    let Ok(()) = observer.observe(piece.as_bytes()) else {
        return Err(out_of_memory(out, held));
    };
    hold(out, held, piece)
}

// A schedule of level core: the nodes do single acts.
fn replay_core<T: Observer, S: Sink>(
    alloc: Global,
    schedule: &Schedule,
    observer: &mut T,
    out: &mut S,
) -> Result<(), ReplayError>
    requires fits { AllByRecursion (FitsLine Core schedule.now.nodes) schedule.now.lines }
    ensures written { WritesTrace (S.written out.old) (S.written out.new) (trace_at Core schedule.now) result }
    ensures observed { OnOk result (T.saw observer.old [] → T.saw observer.new (trace_at Core schedule.now)) }
    ensures later { S.faults out.old ≤ S.faults out.new }
    ensures fault { result ≡ Err ReplayError.Write → Rose (S.faults out.old) (S.faults out.new) }
{
    let Ok(mut replayer) = Replayer::new(alloc, &schedule.nodes) else {
        return Err(ReplayError::Memory);
    };
    let mut held = Text::new(alloc);
    let mut text = Text::new(alloc);
    let lines = schedule.lines.as_slice();
    for line in lines {
        text.clear();
        let Ok(()) = replayer.line(alloc, schedule, line, &mut text) else {
            return Err(out_of_memory(out, &held));
        };
        pass_on(observer, out, &mut held, &text)?;
    }
    let Ok(()) = write_all(out, held.as_bytes()) else {
        return Err(ReplayError::Write);
    };
    Ok(())
}

// A schedule of level node: whole nodes do what their policy says.
fn replay_nodes<T: Observer, S: Sink>(
    alloc: Global,
    schedule: &Schedule,
    observer: &mut T,
    out: &mut S,
) -> Result<(), ReplayError>
    requires fits { AllByRecursion (FitsLine Node schedule.now.nodes) schedule.now.lines }
    ensures written { WritesTrace (S.written out.old) (S.written out.new) (trace_at Node schedule.now) result }
    ensures observed { OnOk result (T.saw observer.old [] → T.saw observer.new (trace_at Node schedule.now)) }
    ensures later { S.faults out.old ≤ S.faults out.new }
    ensures fault { result ≡ Err ReplayError.Write → Rose (S.faults out.old) (S.faults out.new) }
{
    let Ok(mut cluster) = ClusterReplayer::new(
        alloc,
        &schedule.nodes,
        &schedule.initial,
        &schedule.voting_only,
        schedule.second,
    ) else {
        return Err(ReplayError::Memory);
    };
    let mut held = Text::new(alloc);
    let mut text = Text::new(alloc);
    let lines = schedule.lines.as_slice();
    for line in lines {
        text.clear();
        let Ok(()) = cluster.line(alloc, schedule, line, &mut text) else {
            return Err(out_of_memory(out, &held));
        };
        pass_on(observer, out, &mut held, &text)?;
    }
    let Ok(()) = write_all(out, held.as_bytes()) else {
        return Err(ReplayError::Write);
    };
    Ok(())
}

// Replays a schedule of this level, and shows the observer what is written.
fn replay_shown<T: Observer, S: Sink>(
    alloc: Global,
    schedule: &Schedule,
    level: Level,
    observer: &mut T,
    out: &mut S,
) -> Result<(), ReplayError>
    requires fits { AllByRecursion (FitsLine level schedule.now.nodes) schedule.now.lines }
    ensures written { WritesTrace (S.written out.old) (S.written out.new) (trace_at level schedule.now) result }
    ensures observed { OnOk result (T.saw observer.old [] → T.saw observer.new (trace_at level schedule.now)) }
    ensures later { S.faults out.old ≤ S.faults out.new }
    ensures fault { result ≡ Err ReplayError.Write → Rose (S.faults out.old) (S.faults out.new) }
{
    match level {
        Level::Core => replay_core(alloc, schedule, observer, out),
        Level::Node => replay_nodes(alloc, schedule, observer, out),
    }
}

/// Replays a schedule of this level and writes the trace of its one history. `Write` only where the count of faults of the sink rose; a
/// prefix of the trace is written then, and at `Memory` too.
///
/// At level core the laws of this crate speak of the history, at level node those of `cluster_replay`.
pub fn write_trace<S: Sink>(
    alloc: Global,
    schedule: &Schedule,
    level: Level,
    out: &mut S,
) -> Result<(), ReplayError>
    requires fits { AllByRecursion (FitsLine level schedule.now.nodes) schedule.now.lines }
    ensures written { WritesTrace (S.written out.old) (S.written out.new) (trace_at level schedule.now) result }
    ensures later { S.faults out.old ≤ S.faults out.new }
    ensures fault { result ≡ Err ReplayError.Write → Rose (S.faults out.old) (S.faults out.new) }
{
    replay_shown(alloc, schedule, level, &mut Nobody, out)
}

/// Does as `write_trace`, and sums the trace up, which takes a digest of all its bytes.
pub fn replay<S: Sink>(
    alloc: Global,
    schedule: &Schedule,
    level: Level,
    out: &mut S,
) -> Result<Summary, ReplayError>
    requires fits { AllByRecursion (FitsLine level schedule.now.nodes) schedule.now.lines }
    ensures written { WritesTrace (S.written out.old) (S.written out.new) (trace_at level schedule.now) result }
    ensures summary { IfOk result (λ s. s ≡ summary_of (trace_at level schedule.now)) }
    ensures later { S.faults out.old ≤ S.faults out.new }
    ensures fault { result ≡ Err ReplayError.Write → Rose (S.faults out.old) (S.faults out.new) }
{
    let mut tally = Tally::new();
    match replay_shown(alloc, schedule, level, &mut tally, out) {
        Ok(()) => Ok(tally.finish()),
        Err(error) => Err(error),
    }
}
