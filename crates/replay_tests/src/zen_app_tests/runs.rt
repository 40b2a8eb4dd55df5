//! A run of the program in memory, and how it is to end.
ghost use Rattle.std.specs.Prelude.{◌≡◌, IfOk, IsTrue};
ghost use Rattle.std.specs.List.{list_all};
ghost use Rattle.zen_link.specs.Told.{has_low_conn};

use coordinator::Sealed;
use schedule_text::Level;
use std::alloc::{AllocError, Global};
use std::process::Abort;
use std::test::Fail;
use zen_app::{Status, run};
use zen_disk::{Disks, MemDisks};
use zen_host::MemHost;
use zen_link::{Input, Link, MemLink, MemSink, MemSource};

/// A run: its words, what the input and the two files of the journal hold, and the numbers of the calls that fail.
#[derive(Clone, Copy)]
pub struct Case<'a> {
    pub words: &'a [&'a str],
    pub input: &'a [u8],
    pub file: &'a [u8],
    pub other_file: &'a [u8],
    pub reads: &'a [u64],
    pub writes: &'a [u64],
    pub openings: &'a [u64],
    pub device_calls: &'a [u64],
    pub nexts: &'a [u64],
}

/// A replay of single acts.
pub const REPLAY: Case<'static> = Case {
    words: &["replay", "--level", "core"],
    input: b"",
    file: b"",
    other_file: b"",
    reads: &[],
    writes: &[],
    openings: &[],
    device_calls: &[],
    nexts: &[],
};

/// A replay of whole nodes.
pub const REPLAY_NODES: Case<'static> = Case {
    words: &["replay", "--level", "node"],
    ..REPLAY
};

/// The reads that fail of a run that is not to read the input.
pub const NO_READ: &[u64] = &[1];

/// Words that are not to read the input.
pub const UNREAD: Case<'static> = Case {
    reads: NO_READ,
    ..REPLAY
};

/// An inspection of the journal in folder a.
pub const INSPECT: Case<'static> = Case {
    words: &["inspect", "--dir", "a"],
    ..UNREAD
};

/// What a run writes.
#[derive(Clone, Copy)]
pub enum Written<'a> {
    /// This and nothing else.
    Whole(&'a [u8]),
    /// This first.
    Begins(&'a [u8]),
    /// This last.
    Ends(&'a [u8]),
    /// This, or as much of it as was written before the output failed.
    PartOf(&'a [u8]),
}

impl<'a> Written<'a> {
    /// Of a run with status 0 this first, and of any other run this and nothing else.
    pub fn after(status: Status, text: &'a [u8]) -> Written<'a> {
        match status {
            Status::Ok => Written::Begins(text),
            _ => Written::Whole(text),
        }
    }

    fn is(self, bytes: &[u8]) -> bool {
        match self {
            Written::Whole(text) => bytes == text,
            Written::Begins(text) => bytes.starts_with(text),
            Written::Ends(text) => bytes.ends_with(text),
            Written::PartOf(text) => text.starts_with(bytes),
        }
    }
}

/// The host of the runs.
pub type RunHost = MemHost<MemDisks, MemLink<Sealed>>;

fn words(alloc: Global, given: &[&str]) -> Result<Vec<String>, AllocError> {
    let mut words = Vec::new(alloc);
    for word in given {
        words.push(String::from_str(alloc, word)?)?;
    }
    Ok(words)
}

fn source(alloc: Global, case: &Case<'_>) -> Result<MemSource, AllocError> {
    let bytes = Vec::from_slice(alloc, case.input)?;
    Ok(MemSource::new(bytes, Vec::from_slice(alloc, case.reads)?))
}

fn disk(alloc: Global, case: &Case<'_>) -> Result<MemDisks, AllocError>
    ensures { IfOk result (λ disk. ⟦<MemDisks as Disks>⟧.faults disk ≡ 0) }
{
    let file = Vec::from_slice(alloc, case.file)?;
    let other_file = Vec::from_slice(alloc, case.other_file)?;
    let calls = Vec::from_slice(alloc, case.device_calls)?;
    Ok(MemDisks::new(alloc, file, other_file, calls))
}

// What the link gives; after it, Stop.
fn three_ticks(alloc: Global) -> Result<Vec<Input>, AllocError>
    ensures { IfOk result (λ inputs. IsTrue (list_all has_low_conn inputs.items)) }
{
    let inputs = vec![in alloc;
        Input::Tick { now: 1, word: 0 },
        Input::Tick { now: 2, word: 0 },
        Input::Tick { now: 3, word: 0 },
    ]?;
    Ok(inputs)
}

fn link(alloc: Global, case: &Case<'_>) -> Result<MemLink<Sealed>, AllocError>
    ensures { IfOk result (λ link. ⟦<MemLink<Sealed> as Link>⟧.faults link ≡ 0) }
{
    let ticks = three_ticks(alloc)?;
    Ok(MemLink::new(alloc, ticks, Vec::from_slice(alloc, case.nexts)?))
}

// The host of this run, which it has not asked yet.
fn host(alloc: Global, case: &Case<'_>) -> Result<RunHost, AllocError> {
    let openings = Vec::from_slice(alloc, case.openings)?;
    let link = link(alloc, case)?;
    Ok(MemHost::with_link(alloc, disk(alloc, case)?, link, openings))
}

// The output of this run, with nothing written.
fn sink(alloc: Global, case: &Case<'_>) -> Result<MemSink, AllocError> {
    let fails = Vec::from_slice(alloc, case.writes)?;
    Ok(MemSink::new(alloc, 100, fails))
}

// Runs the program.
fn ran(
    alloc: Global,
    case: &Case<'_>,
    sink: &mut MemSink,
    host: &mut RunHost,
) -> Result<Status, AllocError> {
    let words = words(alloc, case.words)?;
    let mut source = source(alloc, case)?;
    Ok(run(alloc, words.as_slice(), &mut source, sink, host))
}

/// A run that has ended: how, its output, and the host as it has left it.
#[derive(Drop)]
pub struct Run {
    pub status: Status,
    pub sink: MemSink,
    pub host: RunHost,
}

/// Runs the program.
pub fn run_of(alloc: Global, case: &Case<'_>) -> Result<Run, AllocError> {
    let mut sink = sink(alloc, case)?;
    let mut host = host(alloc, case)?;
    let status = ran(alloc, case, &mut sink, &mut host)?;
    Ok(Run { status, sink, host })
}

/// How the run ends, and what it has written.
pub fn written_by(alloc: Global, case: &Case<'_>) -> Result<(Status, MemSink), AllocError> {
    let Run { status, sink, .. } = run_of(alloc, case)?;
    Ok((status, sink))
}

/// Whether the run ends so.
pub fn ends(
    alloc: Global,
    case: &Case<'_>,
    status: Status,
    written: Written<'_>,
    asked: usize,
) -> Result<bool, AllocError> {
    let run = run_of(alloc, case)?;
    Ok(run.status == status && written.is(run.sink.as_bytes()) && run.host.asked().len() == asked)
}

/// A kind of call that may fail.
#[derive(Clone, Copy)]
pub enum Call {
    Read,
    Write,
    Opening,
    Device,
    Next,
}

/// What the input holds, and the first file of the journal too, since a run reads one of them at most; the calls that fail, by
/// their kind and their numbers; the status, and what is written.
pub type Fault = (&'static [u8], Call, &'static [u64], Status, &'static [u8]);

// The run in which the calls of this kind with these numbers fail.
fn failing<'a>(case: Case<'a>, call: Call, numbers: &'a [u64]) -> Case<'a> {
    match call {
        Call::Read => Case {
            reads: numbers,
            ..case
        },
        Call::Write => Case {
            writes: numbers,
            ..case
        },
        Call::Opening => Case {
            openings: numbers,
            ..case
        },
        Call::Device => Case {
            device_calls: numbers,
            ..case
        },
        Call::Next => Case {
            nexts: numbers,
            ..case
        },
    }
}

fn ends_by(
    alloc: Global,
    words: &'static [&'static str],
    fault: &Fault,
    asked: usize,
) -> Result<bool, AllocError> {
    let (bytes, call, numbers, status, text) = *fault;
    let case = Case {
        words,
        input: bytes,
        file: bytes,
        ..REPLAY
    };
    let case = failing(case, call, numbers);
    ends(alloc, &case, status, Written::after(status, text), asked)
}

/// Each fault is to end the run of these words so, which makes so many calls of the host.
pub fn all_end_by(
    rt: &impl Abort,
    alloc: Global,
    words: &'static [&'static str],
    faults: &[Fault],
    asked: usize,
) -> Result<(), Fail> {
    for (place, fault) in faults.iter().enumerate() {
        let ends = ends_by(alloc, words, fault, asked)?;
        assert!(rt; ends, "row {place}");
    }
    Ok(())
}

/// What the input holds, and the first file of the journal too; the words, the status, what is written, and how many calls of the
/// host are made.
pub type Ending = (
    &'static [u8],
    &'static [&'static str],
    Status,
    &'static [u8],
    usize,
);

/// What else may be written.
#[derive(Clone, Copy)]
pub enum Rest {
    /// Nothing.
    Nothing,
    /// More, by a run with status 0.
    MoreIfOk,
}

// Whether a run of which these reads fail ends so.
fn ends_as(
    alloc: Global,
    reads: &'static [u64],
    rest: Rest,
    ending: &Ending,
) -> Result<bool, AllocError> {
    let (bytes, words, status, text, asked) = *ending;
    let case = Case {
        words,
        input: bytes,
        file: bytes,
        reads,
        ..REPLAY
    };
    let written = match rest {
        Rest::Nothing => Written::Whole(text),
        Rest::MoreIfOk => Written::after(status, text),
    };
    ends(alloc, &case, status, written, asked)
}

/// Each run, of which these reads fail, is to end so.
pub fn all_end(
    rt: &impl Abort,
    alloc: Global,
    reads: &'static [u64],
    rest: Rest,
    endings: &[Ending],
) -> Result<(), Fail> {
    for (place, ending) in endings.iter().enumerate() {
        let ends = ends_as(alloc, reads, rest, ending)?;
        assert!(rt; ends, "row {place}");
    }
    Ok(())
}

/// A replay of this schedule, at this level.
pub fn replay_of(level: Level, input: &[u8]) -> Case<'_> {
    match level {
        Level::Core => Case { input, ..REPLAY },
        Level::Node => Case {
            input,
            ..REPLAY_NODES
        },
    }
}

/// Whether a replay of this schedule ends well, writes this, and asks nothing of the host.
pub fn replays(
    alloc: Global,
    level: Level,
    schedule: &[u8],
    written: Written<'_>,
) -> Result<bool, AllocError> {
    let case = replay_of(level, schedule);
    ends(alloc, &case, Status::Ok, written, 0)
}
