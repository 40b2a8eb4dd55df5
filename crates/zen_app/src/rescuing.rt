//! The command `rescue`: a schedule of level core read, replayed without output, and gone on with.
ghost use Rattle.std.specs.Prelude.{◌≡◌, ◌||◌, ◌+◌, ◌<◌, ◌≤◌, length, nat_lt, IfOk};
ghost use Rattle.std.specs.List.{AllByRecursion, list_any};
ghost use Rattle.zen_link.specs.Views.{source_view, sink_view};
ghost use Rattle.schedule_text.specs.Limits.{most_bytes, most_lines};
ghost use Rattle.schedule_text.specs.Lines.{FitsLine};
ghost use Rattle.schedule_text.specs.declared.level.Level.TheVariants.{Core};
ghost use Rattle.zen_app.specs.Choosing.{Answers, is_long, plan_after as plan_after_of, text_after};
ghost use Rattle.zen_app.specs.Refusing.{Refusal};
ghost use Rattle.zen_app.specs.Rescues.{AnswersTo};
ghost use Rattle.zen_app.specs.RescueText.{no_rescue_line};
ghost use Rattle.zen_app.specs.Runs.{RescueEnded};
ghost use Rattle.zen_app.specs.declared.status.Status.TheVariants as exit;

use crate::Status;
use crate::choosing::chosen;
use crate::refusals::{NoAnswer, NoRescue, RescueError};
use crate::replaying::refuse_schedule;
use crate::rescue_text::{write_lines, write_no_rescue};
use rescue_plan::{Plan, PlanError, plan};
use schedule_replay::survey;
use schedule_text::{
    Level, Line, MAX_BYTES, MAX_LINE_BYTES, MAX_LINES, ReadError, Schedule, read_schedule,
    write_line,
};
use std::alloc::{AllocError, Global};
use text::Text;
use voting_config::NodeSet;
use zen_link::{InputError, Sink, Source, read_input, write_all};

// Writes why there is no rescue.
fn refuse<S: Sink>(alloc: Global, out: &mut S, why: NoRescue) -> Status
    ensures { Refusal (S.written out.old) (S.written out.new) (S.faults out.old) (S.faults out.new) (no_rescue_line why) exit.RescueRefused
        result }
{
    let mut text = Text::new(alloc);
    let Ok(()) = write_no_rescue(&mut text, &why) else {
        return Status::NoMemory;
    };
    let Ok(()) = write_all(out, text.as_bytes()) else {
        return Status::WriteFault;
    };
    Status::RescueRefused
}

// The plan by which these nodes of a schedule go on.
fn plan_after(alloc: Global, schedule: &Schedule, ids: &NodeSet) -> Result<Plan, RescueError>
    requires fits { AllByRecursion (FitsLine Core schedule.now.nodes) schedule.now.lines }
    requires few { length schedule.now.lines ≤ most_lines }
    ensures { Answers (λ p. p) result (plan_after_of schedule.now ids.now) }
{
    let survey = survey(alloc, schedule)?;
    let nodes = chosen(alloc, &survey, ids)?;
    match plan(alloc, nodes.as_slice(), survey.sent) {
        Ok(plan) => Ok(plan),
        Err(PlanError::Memory) => Err(RescueError::Memory),
        Err(PlanError::Refused(why)) => Err(RescueError::Refused(NoRescue::NoPlan(why))),
    }
}

// Whether one of the lines is too long.
fn has_long(alloc: Global, lines: &[Line]) -> Result<bool, AllocError>
    ensures { IfOk result (λ long. long ≡ list_any is_long lines.now) }
{
    let mut text = Text::new(alloc);
    for line in lines {
        text.clear();
        write_line(&mut text, line)?;
        if text.len() > MAX_LINE_BYTES {
            return Ok(true);
        }
    }
    Ok(false)
}

// Whether so many bytes and lines more are too many.
fn is_full(bytes: usize, lines: usize, more_bytes: usize, more_lines: usize, long: bool) -> bool
    requires bytes { bytes ≤ most_bytes }
    requires lines { 2 + lines ≤ most_lines }
    ensures { result ≡ (nat_lt most_bytes (bytes + more_bytes) || (nat_lt most_lines (2 + lines + more_lines) || long)) }
{
    more_bytes > MAX_BYTES - bytes || more_lines > MAX_LINES - 2 - lines || long
}

// The lines of the plan as text, which go on after a schedule of so many bytes and lines.
fn text_of(alloc: Global, bytes: usize, lines: usize, plan: &Plan) -> Result<Text, RescueError>
    requires bytes { bytes ≤ most_bytes }
    requires lines { 2 + lines ≤ most_lines }
    ensures { Answers (λ text. text) result (text_after bytes lines plan.now) }
{
    let more = plan.lines.as_slice();
    let mut text = Text::new(alloc);
    write_lines(&mut text, more)?;
    let long = has_long(alloc, more)?;
    if is_full(bytes, lines, text.len(), more.len(), long) {
        return Err(RescueError::Refused(NoRescue::Full));
    }
    Ok(text)
}

// The lines that answer the bytes of an input.
fn answer(alloc: Global, bytes: &[u8], ids: &NodeSet) -> Result<Text, NoAnswer>
    ensures { AnswersTo (λ text. text) bytes.now ids.now result }
{
    let schedule = match read_schedule(alloc, bytes, Level::Core) {
        Ok(schedule) => schedule,
        Err(ReadError::Memory) => return Err(NoAnswer::Memory),
        Err(ReadError::Bad(bad)) => return Err(NoAnswer::Bad(bad)),
    };
    let plan = match plan_after(alloc, &schedule, ids) {
        Ok(plan) => plan,
        Err(RescueError::Memory) => return Err(NoAnswer::Memory),
        Err(RescueError::Refused(why)) => return Err(NoAnswer::Refused(why)),
    };
    match text_of(alloc, bytes.len(), schedule.lines.as_slice().len(), &plan) {
        Ok(text) => Ok(text),
        Err(RescueError::Memory) => Err(NoAnswer::Memory),
        Err(RescueError::Refused(why)) => Err(NoAnswer::Refused(why)),
    }
}

/// Reads a schedule of level core and writes the lines by which these nodes of it go on to elect one of them and to commit a new state.
pub fn run_rescue<I: Source, S: Sink>(
    alloc: Global,
    ids: &NodeSet,
    input: &mut I,
    out: &mut S,
) -> Status
    requires some { 0 < length ids.now }
    ensures { RescueEnded ids.now
        (source_view I.Source input.old)
        (source_view I.Source input.new)
        (sink_view S.Sink out.old)
        (sink_view S.Sink out.new)
        result }
{
    // For the proof alone: the ids are a set.
    let _ = ids.as_slice();
    let bytes = match read_input(alloc, input, MAX_BYTES + 1) {
        Ok(bytes) => bytes,
        Err(InputError::Read) => return Status::ReadFault,
        Err(InputError::Memory) => return Status::NoMemory,
    };
    let text = match answer(alloc, bytes.as_slice(), ids) {
        Ok(text) => text,
        Err(NoAnswer::Memory) => return Status::NoMemory,
        Err(NoAnswer::Bad(bad)) => return refuse_schedule(alloc, out, bad),
        Err(NoAnswer::Refused(why)) => return refuse(alloc, out, why),
    };
    let Ok(()) = write_all(out, text.as_bytes()) else {
        return Status::WriteFault;
    };
    Status::Ok
}
