//! A recorded trace line by line: what each line shows, or why it is bad.
ghost use Rattle.std.specs.Prelude.{◌≡◌, ◌+◌, ◌<◌, ◌^◌, IfOk, IfSome, length};
ghost use Rattle.schedule_text.specs.Answers.{Answers};
ghost use Rattle.recorded_trace.specs.Entries.{IsEntry};
ghost use Rattle.recorded_trace.specs.Lines.{shown_at as shown_at_of, header_at as header_at_of};
ghost use Rattle.recorded_trace.specs.Reading.{first_progress, in_line, sized, end_at};

use crate::entry::Entry;
use crate::fault::{BadTrace, Why};
use crate::lines::{header_at, shown_at};
use crate::progress::Progress;
use schedule_text::ReadError;
use std::alloc::Global;
use voting_config::NodeSet;

/// What a line shows, which has its line feed: an entry, or nothing that an audit looks at; or that the line is bad.
pub fn entry_at(
    alloc: Global,
    progress: &Progress,
    line: &[u8],
) -> Result<Option<Entry>, ReadError<BadTrace>>
    requires { progress.now.before + length line.now + 1 < 2 ^ 64 }
    ensures read { Answers result (in_line progress.now (sized progress.now line.now (shown_at_of line.now))) }
    ensures entry { IfOk result (λ told. IfSome told IsEntry) }
{
    if !progress.has_room(line) {
        return Err(ReadError::Bad(progress.bad(Why::TooBig)));
    }
    match shown_at(alloc, line) {
        Ok(told) => Ok(told),
        Err(ReadError::Bad(why)) => Err(ReadError::Bad(progress.bad(why))),
        Err(ReadError::Memory) => Err(ReadError::Memory),
    }
}

/// The initial configuration that the first line names, which has its line feed.
pub fn header(line: &[u8]) -> Result<NodeSet, BadTrace>
    requires { length line.now + 1 < 2 ^ 64 }
    ensures { result ≡ in_line first_progress (sized first_progress line.now (header_at_of line.now)) }
{
    let progress = Progress::first();
    if !progress.has_room(line) {
        return Err(progress.bad(Why::TooBig));
    }
    match header_at(line) {
        Ok(initial) => Ok(initial),
        Err(why) => Err(progress.bad(why)),
    }
}

/// What stands after the last line feed must be nothing: else it is `NoNewline` or `TooBig`.
pub fn check_end(progress: &Progress, line: &[u8]) -> Result<(), BadTrace>
    requires { progress.now.before + length line.now < 2 ^ 64 }
    ensures { result ≡ end_at progress.now line.now tt }
{
    if line.is_empty() {
        return Ok(());
    }
    Err(progress.bad(progress.why_cut(line)))
}
