//! The audit of a recorded trace.
ghost use Rattle.std.specs.Prelude.{◌≡◌, ◌≢◌, ◌+◌, ◌<◌, ◌≤◌, ◌^◌, ◌∷◌, ◌++◌, [], List, length};
ghost use Rattle.voting_config.specs.Ids.{Id};
ghost use Rattle.voting_config.specs.Lists.{parts_of, line_feed};
ghost use Rattle.recorded_trace.specs.Reading.{Numbered, lines_at, recording_of};
ghost use Rattle.trace_audit.specs.Verdicts.{Judges, IsRight};
ghost use Rattle.trace_audit.specs.Stands.{Audits, SoFar, Judged, recorded_with, stopped_as, Counted, TakesLine};
ghost use Rattle.trace_audit.specs.Traced.{traced};
ghost use Rattle.recorded_trace.specs.Entries.{IsEntry};

use crate::auditor::{Auditor, Stop};
use crate::clause::Clause;
use crate::verdict::{Verdict, Winners};
use recorded_trace::{BadTrace, Entry, Progress, check_end, entry_at, header, no_header};
use schedule_text::ReadError;
use std::alloc::Global;
use voting_config::{NodeSet, cut};

/// An entry that is not legal: the number of its line, and the first clause that it breaks.
#[derive(Clone, Copy)]
pub struct Broken {
    pub line: usize,
    pub clause: Clause,
}

// That an entry is not legal, or that memory ran out.
fn stopped(stop: Stop, line: usize) -> Result<Option<Broken>, ReadError<BadTrace>>
    ensures { result ≡ stopped_as stop line }
{
    match stop {
        Stop::Broken(clause) => Ok(Some(Broken { line, clause })),
        Stop::Memory => Err(ReadError::Memory),
    }
}

// One more entry, where all before it are legal.
fn judge_next(
    auditor: &mut Auditor,
    line: usize,
    entry: &Entry,
) -> Result<Option<Broken>, ReadError<BadTrace>>
    requires { IsEntry entry.now }
    ensures { (initial : List Id) (xs : List Numbered) → Audits initial auditor.old (traced xs)
        → Judged initial auditor.new result (xs ++ record { line = line; entry = entry.now } ∷ []) }
{
    match auditor.take(entry) {
        Ok(()) => Ok(None),
        Err(stop) => stopped(stop, line),
    }
}

// One more entry, where none was broken before.
fn judge(
    auditor: &mut Auditor,
    broken: Option<Broken>,
    line: usize,
    entry: &Entry,
) -> Result<Option<Broken>, ReadError<BadTrace>>
    requires { IsEntry entry.now }
    ensures { (initial : List Id) (xs : List Numbered) → SoFar initial auditor.old broken xs
        → Judged initial auditor.new result (xs ++ record { line = line; entry = entry.now } ∷ []) }
{
    match broken {
        Some(broken) => Ok(Some(broken)),
        None => judge_next(auditor, line, entry),
    }
}

/// What is known of the entries so far.
#[derive(Clone, Copy)]
pub struct Judgement {
    /// The first that is not legal.
    pub broken: Option<Broken>,
    /// How many there are.
    pub entries: usize,
}

fn take_entry(
    auditor: &mut Auditor,
    so_far: Judgement,
    line: usize,
    entry: &Entry,
) -> Result<Judgement, ReadError<BadTrace>>
    requires entry { IsEntry entry.now }
    requires few { so_far.entries + 1 < 2 ^ 64 }
    ensures { (initial : List Id) (xs : List Numbered) → SoFar initial auditor.old so_far.broken xs → so_far.entries ≡ length xs
        → Counted initial auditor.new result (xs ++ record { line = line; entry = entry.now } ∷ []) }
{
    match judge(auditor, so_far.broken, line, entry) {
        Ok(broken) => Ok(Judgement {
            broken,
            entries: so_far.entries + 1,
        }),
        Err(fault) => Err(fault),
    }
}

// What a line makes of it, or why the line is bad.
fn take_line(
    alloc: Global,
    auditor: &mut Auditor,
    so_far: Judgement,
    progress: &Progress,
    line: &[u8],
) -> Result<Judgement, ReadError<BadTrace>>
    requires bytes { progress.now.before + length line.now + 1 < 2 ^ 64 }
    requires few { so_far.entries + 1 < 2 ^ 64 }
    ensures { (initial : List Id) (xs : List Numbered) → SoFar initial auditor.old so_far.broken xs → so_far.entries ≡ length xs
        → TakesLine initial auditor.new progress.now line.now xs result }
{
    let told = match entry_at(alloc, progress, line) {
        Ok(told) => told,
        Err(fault) => return Err(fault),
    };
    match told {
        None => Ok(so_far),
        Some(entry) => take_entry(auditor, so_far, progress.number, &entry),
    }
}

// The verdict on so many entries, which are legal.
fn legal(auditor: Auditor, entries: usize) -> Verdict
    ensures { (initial : List Id) (xs : List Numbered) → Audits initial auditor (traced xs) → entries ≡ length xs
        → IsRight (record { initial = initial; entries = xs }) result }
{
    let notes = auditor.into_notes();
    let committed = notes.committed();
    Verdict::Legal {
        entries,
        winners: Winners::of(notes.into_winners()),
        committed,
    }
}

// The verdict on so many entries.
fn verdict(auditor: Auditor, broken: Option<Broken>, entries: usize) -> Verdict
    ensures { (initial : List Id) (xs : List Numbered) → SoFar initial auditor broken xs → entries ≡ length xs
        → IsRight (record { initial = initial; entries = xs }) result }
{
    match broken {
        Some(broken) => Verdict::NotLegal {
            line: broken.line,
            clause: broken.clause,
        },
        None => legal(auditor, entries),
    }
}

// The verdict on the lines after the first one.
fn audit_lines(
    alloc: Global,
    initial: NodeSet,
    start: Progress,
    text: &[u8],
) -> Result<Verdict, ReadError<BadTrace>>
    requires bytes { start.before + length text.now < 2 ^ 64 }
    requires lines { start.number + length text.now < 2 ^ 64 }
    ensures { Judges result (recorded_with initial (lines_at start [] (parts_of line_feed text.now))) }
{
    let mut auditor = Auditor::new(alloc, initial);
    let mut so_far = Judgement {
        broken: None,
        entries: 0,
    };
    let mut progress = start;
    let (mut line, mut rest) = cut(text, b'\n');
    while let Some(more) = rest {
        let next = cut(more, b'\n');
        so_far = match take_line(alloc, &mut auditor, so_far, &progress, line) {
            Ok(so_far) => so_far,
            Err(fault) => return Err(fault),
        };
        progress = progress.after(line);
        line = next.0;
        rest = next.1;
    }
    if let Err(bad) = check_end(&progress, line) {
        return Err(ReadError::Bad(bad));
    }
    Ok(verdict(auditor, so_far.broken, so_far.entries))
}

/// Whether what nodes did, as a recorded trace shows it, is a legal history: how many entries, winners and committed states it has, or the
/// first line whose entry is not legal and the first clause that this entry breaks. A bad line comes before any verdict. `Memory` may come
/// for any bytes.
pub fn audit(alloc: Global, bytes: &[u8]) -> Result<Verdict, ReadError<BadTrace>>
    ensures { Judges result (recording_of bytes.now) }
{
    let (line, rest) = cut(bytes, b'\n');
    let Some(rest) = rest else {
        return Err(ReadError::Bad(Progress::first().bad(no_header(line))));
    };
    match header(line) {
        Ok(initial) => audit_lines(alloc, initial, Progress::first().after(line), rest),
        Err(bad) => Err(ReadError::Bad(bad)),
    }
}
