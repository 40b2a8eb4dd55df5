//! A trace, read line by line.
ghost use Rattle.std.specs.Prelude.{◌≡◌, ◌+◌, ◌<◌, ◌≤◌, ◌^◌, length, OnOk, IfOk, []};
ghost use Rattle.voting_config.specs.Lists.{parts_of, parts_in, space};
ghost use Rattle.schedule_text.specs.Answers.{Answers};
ghost use Rattle.trace_reader.specs.Limits.{most_trace_lines};
ghost use Rattle.trace_reader.specs.Reading.{result_behind, said_at as said_at_of, words_said, line_at, end_at, trace_at, lines_at, first_progress};

use crate::echoes::read_echo;
use crate::fault::BadTrace;
use crate::progress::Progress;
use crate::results::read_result;
use crate::said::{Said, Trace, TraceLine};
use crate::words::rest_of;
use schedule_text::{LineBytes, ReadError, WhyBad};
use std::alloc::Global;
use voting_config::cut;

fn result(progress: &Progress, verb: &[u8], rest: Option<&[u8]>) -> Result<Said, WhyBad>
    ensures { result ≡ result_behind progress.now.actor progress.now.next verb.now (parts_in space rest.entry) }
{
    let Some(actor) = progress.actor else {
        return Err(WhyBad::Header);
    };
    read_result(actor, progress.next, verb, rest)
}

fn said_at(alloc: Global, progress: &Progress, line: &[u8]) -> Result<Said, ReadError<WhyBad>>
    requires { progress.now.before + length line.now + 1 < 2 ^ 64 }
    ensures read { Answers result (said_at_of progress.now line.now) }
    ensures counted { OnOk result (progress.now.number ≤ most_trace_lines) }
{
    if let Err(why) = progress.check_size(line) {
        return Err(ReadError::Bad(why));
    }
    let (verb, rest) = cut(line, b' ');
    if verb == b">".as_slice() {
        let echo = match rest_of(rest) {
            Ok(echo) => echo,
            Err(why) => return Err(ReadError::Bad(why)),
        };
        return read_echo(alloc, echo);
    }
    match result(progress, verb, rest) {
        Ok(said) => Ok(said),
        Err(why) => Err(ReadError::Bad(why)),
    }
}

fn one_line(
    alloc: Global,
    progress: &Progress,
    line: &[u8],
) -> Result<TraceLine, ReadError<BadTrace>>
    requires { progress.now.before + length line.now + 1 < 2 ^ 64 }
    ensures read { Answers result (line_at progress.now line.now) }
    ensures counted { OnOk result (progress.now.number ≤ most_trace_lines) }
{
    let said = match said_at(alloc, progress, line) {
        Ok(said) => said,
        Err(ReadError::Bad(why)) => return Err(ReadError::Bad(progress.bad(why))),
        Err(ReadError::Memory) => return Err(ReadError::Memory),
    };
    let Ok(text) = LineBytes::of(alloc, line) else {
        return Err(ReadError::Memory);
    };
    Ok(TraceLine { text, said })
}

// What stands after the last line feed must be nothing.
fn check_end(progress: &Progress, line: &[u8]) -> Result<(), BadTrace>
    requires { progress.now.before + length line.now < 2 ^ 64 }
    ensures { result ≡ end_at progress.now line.now tt }
{
    if line.is_empty() {
        return Ok(());
    }
    Err(progress.bad(progress.why_cut(line)))
}

/// The lines of the trace that the bytes are, or the first bad line and why it is bad. `Memory` may come for any bytes.
pub fn read_trace(alloc: Global, bytes: &[u8]) -> Result<Trace, ReadError<BadTrace>>
    ensures read { Answers result (trace_at bytes.now) }
    ensures few { IfOk result (λ t. length t ≤ most_trace_lines) }
{
    let mut lines = Vec::new(alloc);
    let mut progress = Progress::first();
    let (mut line, mut rest) = cut(bytes, b'\n');
    while let Some(more) = rest {
        let next = cut(more, b'\n');
        let read = match one_line(alloc, &progress, line) {
            Ok(read) => read,
            Err(fault) => return Err(fault),
        };
        progress = progress.after(line, &read.said);
        if lines.push(read).is_err() {
            return Err(ReadError::Memory);
        }
        line = next.0;
        rest = next.1;
    }
    if let Err(bad) = check_end(&progress, line) {
        return Err(ReadError::Bad(bad));
    }
    Ok(Trace::of(lines))
}
