//! Whole runs of the program in memory: schedules with their traces, and each way in which a run ends. The traces follow from
//! docs/policy.md and docs/formats.md, the endings from the table of statuses there.
mod audits;
mod coordinators;
mod hopeless;
mod inspections;
mod losses;
mod nodes;
mod passages;
mod random;
mod rejoins;
mod replaced;
mod requests;
mod rescues;
mod rows;
mod runs;
mod tools;
mod voters;
mod votes;

use passages::{A_WINS_OF_THREE, Passage, THREE, THREE_BOOT, THREE_JOIN};
use rows::{
    RULES, SAFE_COMMITS, SAFE_JOINS, SAFE_PUBLICATIONS, SAFE_VALUES, STOPS, Traced, WHOLE_NODES,
};
use runs::{Case, Ending, NO_READ, Rest, Written, all_end, ends, replay_of, replays, written_by};
use schedule_text::{Level, read_schedule, write_schedule};
use sha2::{Digest, Sha256};
use std::alloc::{AllocError, Global};
use std::process::Abort;
use std::test::Fail;
use text::Text;
use zen_app::Status;

fn write_line(text: &mut Text, line: &str) -> Result<(), AllocError> {
    text.word(line)?;
    text.word("\n")
}

fn write_passage(
    schedule: &mut Text,
    trace: &mut Text,
    passage: &[&str],
) -> Result<(), AllocError> {
    for line in passage {
        write_line(trace, line)?;
        if let Some(given) = line.strip_prefix("> ") {
            write_line(schedule, given)?;
        }
    }
    Ok(())
}

// The schedule of a row and its trace.
fn texts(alloc: Global, header: &[&str], passages: &[&[&str]]) -> Result<(Text, Text), AllocError> {
    let mut schedule = Text::new(alloc);
    let mut trace = Text::new(alloc);
    for line in header {
        write_line(&mut schedule, line)?;
    }
    for passage in passages {
        write_passage(&mut schedule, &mut trace, passage)?;
    }
    Ok((schedule, trace))
}

// Whether the schedule of a row, replayed at this level, gives its trace.
fn gives_its_trace(
    alloc: Global,
    level: Level,
    header: &[&str],
    passages: &[&[&str]],
) -> Result<bool, AllocError> {
    let (schedule, trace) = texts(alloc, header, passages)?;
    let written = Written::Whole(trace.as_bytes());
    replays(alloc, level, schedule.as_bytes(), written)
}

// Each row's schedule is replayed at this level, and must give its trace.
fn replays_all(rt: &impl Abort, alloc: Global, level: Level, rows: &[Traced]) -> Result<(), Fail> {
    for (name, header, passages) in rows {
        let gives = gives_its_trace(alloc, level, header, passages)?;
        assert!(rt; gives, "{name}");
    }
    Ok(())
}

#[test]
fn elections_and_publications_have_these_traces(rt: HostRuntime) -> Result<(), Fail> {
    replays_all(&rt, rt.alloc(), Level::Core, RULES)
}

#[test]
fn stops_faults_and_restarts_have_these_traces(rt: HostRuntime) -> Result<(), Fail> {
    replays_all(&rt, rt.alloc(), Level::Core, STOPS)
}

#[test]
fn elections_that_would_be_unsafe_without_one_guard_are_refused(
    rt: HostRuntime,
) -> Result<(), Fail> {
    replays_all(&rt, rt.alloc(), Level::Core, SAFE_JOINS)
}

#[test]
fn values_that_would_be_unsafe_without_one_guard_are_refused(rt: HostRuntime) -> Result<(), Fail> {
    replays_all(&rt, rt.alloc(), Level::Core, SAFE_VALUES)
}

#[test]
fn commits_that_would_be_unsafe_without_one_guard_are_refused(rt: HostRuntime) -> Result<(), Fail> {
    replays_all(&rt, rt.alloc(), Level::Core, SAFE_COMMITS)
}

#[test]
fn publications_that_would_be_unsafe_without_one_guard_are_refused(
    rt: HostRuntime,
) -> Result<(), Fail> {
    replays_all(&rt, rt.alloc(), Level::Core, SAFE_PUBLICATIONS)
}

#[test]
fn whole_nodes_have_these_traces(rt: HostRuntime) -> Result<(), Fail> {
    replays_all(&rt, rt.alloc(), Level::Node, WHOLE_NODES)
}

// A node elects itself.
const LEADER: &str = "nodes a\ninitial a\ntick a 0 7\ntick a 8 7\n\
    deliver a 1\ndeliver a 2\ndeliver a 3\ndeliver a 4\ndeliver a 5\n";

fn write_put(text: &mut Text, number: u64) -> Result<(), AllocError> {
    text.word("client a {\"id\":")?;
    text.number(number)?;
    text.word(",\"put\":{\"key\":\"k")?;
    text.number(number)?;
    text.word("\",\"value\":\"v\"}}\n")
}

// Whether a node that has elected itself, and is handed so many puts of different keys while it publishes the first of them, ends so.
fn puts_end(alloc: Global, count: u64, end: &[u8]) -> Result<bool, AllocError> {
    let mut schedule = Text::new(alloc);
    schedule.word(LEADER)?;
    for number in 1..=count {
        write_put(&mut schedule, number)?;
    }
    replays(alloc, Level::Node, schedule.as_bytes(), Written::Ends(end))
}

#[test]
fn a_leader_holds_64_requests_and_refuses_the_next_one(rt: HostRuntime) -> Result<(), Fail> {
    let refuses = puts_end(
        rt.alloc(),
        65,
        b"\"v\"}}\nreply a {\"id\":65,\"queue_full\":64}\n",
    )?;
    assert!(rt; refuses);
    Ok(())
}

// What strikes a device call of node a.
#[derive(Clone, Copy, PartialEq, Eq)]
enum Strike {
    FuseNone,
    FuseAll,
    FuseOpen,
    FuseClosed,
    Fail,
}

// Each strike with its line, up to the number of the call and after it.
const STRIKES: &[(Strike, &str, &str)] = &[
    (Strike::FuseNone, "fuse a ", " none\n"),
    (Strike::FuseAll, "fuse a ", " all\n"),
    (Strike::FuseOpen, "fuse a ", " torn:01\n"),
    (Strike::FuseClosed, "fuse a ", " torn:00\n"),
    (Strike::Fail, "fail a ", "\n"),
];

fn write_strike(text: &mut Text, line: &str, call: u64, end: &str) -> Result<(), AllocError> {
    text.word(line)?;
    text.number(call)?;
    text.word(end)
}

// An act that is kept writes a body, syncs, opens its gate and syncs: its last two calls may keep it. Whether it is kept where
// one of its calls is struck, of which so many are left with this one.
fn is_kept(strike: Strike, left: u64) -> bool {
    match left {
        1 => strike != Strike::FuseNone && strike != Strike::FuseClosed,
        2 => strike == Strike::FuseAll || strike == Strike::FuseOpen,
        _ => false,
    }
}

const RECORDS: [&str; 4] = [
    "record a 0 0/0 _ _\n",
    "record a 0 0/0 a,b,c a,b,c\n",
    "record a 1 0/0 a,b,c a,b,c\n",
    "record a 1 1/1 a,b,c a,b,c\n",
];

// The record that is left where this call is struck. Three acts of node a make twelve calls.
fn record_left(strike: Strike, call: u64) -> &'static str {
    let before = call.saturating_sub(1);
    let acts = before / 4 + u64::from(is_kept(strike, 4u64.saturating_sub(before % 4)));
    match acts {
        0 => RECORDS[0],
        1 => RECORDS[1],
        2 => RECORDS[2],
        _ => RECORDS[3],
    }
}

// Three acts of node a, which is then stopped and opened, and opened once more.
const THREE_ACTS: &str = "boot a\nboot b\nboot c\n\
    startjoin a a 1\nstartjoin b a 1\nstartjoin c a 1\n\
    deliver a 1\ndeliver a 2\nvalue a 1 x a,b,c\ndeliver a 4\ndeliver b 4\n\
    deliver a 5\ndeliver a 6\ndeliver c 7\n\
    crash a all\nrestart a\nrestart a\n";

fn write_struck(
    text: &mut Text,
    line: &str,
    call: u64,
    end_of_line: &str,
) -> Result<(), AllocError> {
    text.word("nodes a,b,c\ninitial a,b,c\n")?;
    write_strike(text, line, call, end_of_line)?;
    text.word(THREE_ACTS)
}

// What the stop shows, and the two openings. The first one makes three calls on the side in use, 13 to 15, and four on the
// empty side, 16 to 19: where one of them is struck, the second opening finds the record.
fn shown_after(strike: Strike, call: u64) -> (&'static str, &'static str, &'static str) {
    let fails = strike == Strike::Fail;
    if call <= 12 {
        let stopped = if fails { "crashed a\n" } else { "down a\n" };
        (stopped, record_left(strike, call), "up a\n")
    } else if call <= 19 {
        let opening = if fails { "disk a\n" } else { "crashed a\n" };
        ("crashed a\n", opening, RECORDS[3])
    } else {
        ("crashed a\n", RECORDS[3], "up a\n")
    }
}

fn write_struck_end(text: &mut Text, strike: Strike, call: u64) -> Result<(), AllocError> {
    let (stop, first, second) = shown_after(strike, call);
    let lines = [
        "> crash a all\n",
        stop,
        "> restart a\n",
        first,
        "> restart a\n",
        second,
    ];
    for line in lines {
        text.word(line)?;
    }
    Ok(())
}

// Whether what is left of node a's acts is found again, where this call is struck.
fn is_found_again(
    alloc: Global,
    strike: Strike,
    call: u64,
    line: &str,
    end_of_line: &str,
) -> Result<bool, AllocError> {
    let mut schedule = Text::new(alloc);
    let mut end = Text::new(alloc);
    write_struck(&mut schedule, line, call, end_of_line)?;
    write_struck_end(&mut end, strike, call)?;
    let written = Written::Ends(end.as_bytes());
    replays(alloc, Level::Core, schedule.as_bytes(), written)
}

#[test]
fn what_a_struck_device_call_leaves_is_found_again(rt: HostRuntime) -> Result<(), Fail> {
    for (strike, line, end_of_line) in STRIKES {
        for call in 1..=20 {
            let is_found = is_found_again(rt.alloc(), *strike, call, line, end_of_line)?;
            assert!(rt; is_found, "{line}{call}{end_of_line}");
        }
    }
    Ok(())
}

// Terms of node a that begin a generation, and how many device calls that takes: 1,424 terms are a full tail, and the side of the
// second generation has records already.
const RENEWALS: &[(u64, u64)] = &[(1_425, 4), (2_850, 6)];

fn write_terms(text: &mut Text, first: u64, last: u64) -> Result<(), AllocError> {
    for term in first..=last {
        text.word("startjoin a a ")?;
        text.number(term)?;
        text.word("\n")?;
    }
    Ok(())
}

// Each term up to this one, in which a call is struck, and a stop and an opening.
fn write_struck_terms(
    text: &mut Text,
    term: u64,
    call: u64,
    line: &str,
    end_of_line: &str,
) -> Result<(), AllocError> {
    text.word("nodes a\ninitial a\n")?;
    write_terms(text, 1, term.saturating_sub(1))?;
    write_strike(text, line, call, end_of_line)?;
    write_terms(text, term, term)?;
    text.word("crash a all\nrestart a\n")
}

fn write_found_term(text: &mut Text, strike: Strike, term: u64) -> Result<(), AllocError> {
    text.word("> crash a all\n")?;
    text.word(match strike {
        Strike::Fail => "crashed a\n",
        _ => "down a\n",
    })?;
    text.word("> restart a\nrecord a ")?;
    text.number(term)?;
    text.word(" 0/0 _ _\n")
}

// Whether the last term, or the one before it, is found where this call of the renewal is struck.
fn is_renewed_or_not(
    alloc: Global,
    strike: Strike,
    term: u64,
    (call, calls): (u64, u64),
    (line, end_of_line): (&str, &str),
) -> Result<bool, AllocError> {
    let is_kept = is_kept(strike, calls.saturating_sub(call).saturating_add(1));
    let found = term.saturating_sub(u64::from(!is_kept));
    let mut schedule = Text::new(alloc);
    let mut end = Text::new(alloc);
    write_struck_terms(&mut schedule, term, call, line, end_of_line)?;
    write_found_term(&mut end, strike, found)?;
    let written = Written::Ends(end.as_bytes());
    replays(alloc, Level::Core, schedule.as_bytes(), written)
}

fn strike_renewal(alloc: Global, term: u64, calls: u64) -> Result<(), Fail> {
    for (strike, line, end) in STRIKES {
        for call in 1..=calls {
            if !is_renewed_or_not(alloc, *strike, term, (call, calls), (*line, *end))? {
                return Err(Fail::new(format_args!("term {term}, {line}{call}{end}")));
            }
        }
    }
    Ok(())
}

#[test]
fn a_renewal_that_is_struck_leaves_one_of_two_terms(rt: HostRuntime) -> Result<(), Fail> {
    for (term, calls) in RENEWALS {
        strike_renewal(rt.alloc(), *term, *calls)?;
    }
    Ok(())
}

// Schedules that are none, each with what is written of its first bad line.
const BAD_LINES: &[(Level, &[u8], &[u8])] = &[
    (
        Level::Node,
        b"nodes a\ninitial a\nboot a\n",
        b"zen: bad schedule at line 3: Verb\n",
    ),
    (
        Level::Node,
        b"nodes a\ninitial a\ntick a 0\n",
        b"zen: bad schedule at line 3: Arity\n",
    ),
    (
        Level::Core,
        b"nodes a\ninitial a\nboot z\n",
        b"zen: bad schedule at line 3: Id\n",
    ),
    (
        Level::Core,
        b"nodes a\ninitial a\ntick a 0 7\n",
        b"zen: bad schedule at line 3: Verb\n",
    ),
    (
        Level::Core,
        b"nodes a\ninitial a\ncrash a most\n",
        b"zen: bad schedule at line 3: Mode\n",
    ),
    (
        Level::Core,
        b"nodes a\ninitial a\ncrash a torn:A5\n",
        b"zen: bad schedule at line 3: Mode\n",
    ),
    (
        Level::Core,
        b"nodes a\n",
        b"zen: bad schedule at line 2: Header\n",
    ),
    (
        Level::Core,
        b"nodes a\ninitial a\nboot a",
        b"zen: bad schedule at line 3: NoNewline\n",
    ),
    (
        Level::Core,
        b"nodes a\ninitial a\nboot  a\n",
        b"zen: bad schedule at line 3: Arity\n",
    ),
    (
        Level::Core,
        b"nodes a\ninitial a\ndeliver a 0\n",
        b"zen: bad schedule at line 3: Number\n",
    ),
    (
        Level::Core,
        b"nodes a\ninitial a\nvalue a 1 X a\n",
        b"zen: bad schedule at line 3: Text\n",
    ),
    (
        Level::Core,
        b"nodes a\ninitial a\nvalue a 1 x b\n",
        b"zen: bad schedule at line 3: List\n",
    ),
];

fn refuse_each(alloc: Global, rows: &[(Level, &[u8], &[u8])]) -> Result<(), Fail> {
    for (place, (level, schedule, line)) in rows.iter().enumerate() {
        if !is_refused(alloc, *level, schedule, line)? {
            return Err(Fail::new(format_args!("row {place}")));
        }
    }
    Ok(())
}

fn is_refused(
    alloc: Global,
    level: Level,
    schedule: &[u8],
    line: &[u8],
) -> Result<bool, AllocError> {
    let case = replay_of(level, schedule);
    ends(alloc, &case, Status::BadSchedule, Written::Whole(line), 0)
}

#[test]
fn the_first_bad_line_and_its_reason_are_written(rt: HostRuntime) -> Result<(), Fail> {
    refuse_each(rt.alloc(), BAD_LINES)
}

// A text that is one byte too big: what it begins with, what the rest of it is made of, how often, and its fault.
const TOO_BIG: &[(&[u8], &[u8], usize, &[u8])] = &[
    (
        b"",
        b"\n",
        16_777_217,
        b"zen: bad schedule at line 1: Header\n",
    ),
    (
        b"nodes a\ninitial a\n",
        b"x",
        16_777_199,
        b"zen: bad schedule at line 3: TooBig\n",
    ),
];

// These bytes, and then so often those.
fn with_many(
    alloc: Global,
    prefix: &[u8],
    part: &[u8],
    count: usize,
) -> Result<Vec<u8>, AllocError> {
    let mut bytes = Vec::from_slice(alloc, prefix)?;
    for _ in 0..count {
        bytes.extend_from_slice(part)?;
    }
    Ok(bytes)
}

fn is_too_big(
    alloc: Global,
    prefix: &[u8],
    part: &[u8],
    count: usize,
    line: &[u8],
) -> Result<bool, AllocError> {
    let schedule = with_many(alloc, prefix, part, count)?;
    is_refused(alloc, Level::Core, &schedule, line)
}

#[test]
fn a_schedule_of_16_777_217_bytes_is_refused_at_its_first_bad_line(
    rt: HostRuntime,
) -> Result<(), Fail> {
    for (prefix, part, count, line) in TOO_BIG {
        let is_refused = is_too_big(rt.alloc(), prefix, part, *count, line)?;
        assert!(rt; is_refused, "{count}");
    }
    Ok(())
}

// Whether so many deliveries of a message that nobody has sent are replayed.
fn replays_unsent(alloc: Global, count: usize) -> Result<bool, AllocError> {
    let schedule = with_many(alloc, b"nodes a\ninitial a\n", b"deliver a 1\n", count)?;
    let trace = with_many(alloc, b"", b"> deliver a 1\nunsent\n", count)?;
    replays(alloc, Level::Core, &schedule, Written::Whole(&trace))
}

#[test]
fn a_schedule_of_1_000_000_lines_is_replayed(rt: HostRuntime) -> Result<(), Fail> {
    let replays = replays_unsent(rt.alloc(), 999_998)?;
    assert!(rt; replays);
    Ok(())
}

const USAGE: &[u8] = b"zen: usage\n";

const OTHERS: &[Ending] = &[
    (b"", &["replay", "--level", "none"], Status::Usage, USAGE, 0),
    (
        b"",
        &["replay", "--level", "node", "core"],
        Status::Usage,
        USAGE,
        0,
    ),
    (b"", &["replay", "--level"], Status::Usage, USAGE, 0),
    (
        b"",
        &["replay", "--level", "core", "core"],
        Status::Usage,
        USAGE,
        0,
    ),
    (
        b"",
        &["replay", "--level", "core", "--level=core"],
        Status::Usage,
        USAGE,
        0,
    ),
    (
        b"",
        &["replay", "--level", "core", "--level", "core"],
        Status::Usage,
        USAGE,
        0,
    ),
    (b"", &["inspect"], Status::Usage, USAGE, 0),
    (
        b"",
        &["inspect", "--dir", "a", "--"],
        Status::Usage,
        USAGE,
        0,
    ),
    (b"", &[], Status::Usage, USAGE, 0),
];

#[test]
fn other_words_are_a_usage_and_nothing_is_read_or_opened(rt: HostRuntime) -> Result<(), Fail> {
    all_end(&rt, rt.alloc(), NO_READ, Rest::Nothing, OTHERS)
}

const BOOTS: &[u8] = b"nodes a\ninitial a\nboot a\n";

const IN_ONE_WORD: &[Ending] = &[
    (
        BOOTS,
        &["replay", "--level=core"],
        Status::Ok,
        b"> boot a\nact a ok boot a\n",
        0,
    ),
    (b"", &["inspect", "--dir=a"], Status::Ok, b"term=0\n", 1),
];

#[test]
fn an_option_may_stand_in_one_word_with_its_value(rt: HostRuntime) -> Result<(), Fail> {
    all_end(&rt, rt.alloc(), &[], Rest::MoreIfOk, IN_ONE_WORD)
}

// Three nodes elect a master.
const ELECTION: &[Passage] = &[THREE_BOOT, THREE_JOIN, A_WINS_OF_THREE];

// The numbers of the reads and writes that fail, and the status that comes of it.
type Fault = (&'static str, &'static [u64], &'static [u64], Status);

const FAULTS: &[Fault] = &[
    ("the second read", &[2], &[], Status::ReadFault),
    ("the first write", &[], &[1], Status::WriteFault),
    ("the third write", &[], &[3], Status::WriteFault),
];

// Whether a fault ends the replay of the election so. Nothing is written before the input is read whole.
fn ends_by(alloc: Global, fault: &Fault) -> Result<bool, AllocError> {
    let (_, reads, writes, status) = *fault;
    let (schedule, trace) = texts(alloc, THREE, ELECTION)?;
    let case = Case {
        reads,
        writes,
        ..replay_of(Level::Core, schedule.as_bytes())
    };
    let written = match status {
        Status::ReadFault => Written::Whole(b""),
        _ => Written::PartOf(trace.as_bytes()),
    };
    ends(alloc, &case, status, written, 0)
}

#[test]
fn a_fault_of_the_input_or_output_ends_the_run(rt: HostRuntime) -> Result<(), Fail> {
    for fault in FAULTS {
        let (name, _, _, _) = fault;
        let ends = ends_by(rt.alloc(), fault)?;
        assert!(rt; ends, "{name}");
    }
    Ok(())
}

// The digests of the traces were worked out apart from the program.
const THREE_STEPS: &[u8] =
    b"steps=3\nacts=3\nrefused=0\nwon=0\ncommitted=0\ncrashes=0\ntrace_bytes=87\n\
    trace_sha256=faa0ec63a416cf1ac6a917e004bd87d720e8b8471f2893e32546ded3eb4b60b9\n";

const NO_STEP: &[u8] = b"steps=0\nacts=0\nrefused=0\nwon=0\ncommitted=0\ncrashes=0\ntrace_bytes=0\n\
    trace_sha256=e3b0c44298fc1c149afbf4c8996fb92427ae41e4649b934ca495991b7852b855\n";

const ONE_STEP: &[u8] =
    b"steps=1\nacts=1\nrefused=0\nwon=0\ncommitted=0\ncrashes=0\ntrace_bytes=29\n\
    trace_sha256=953ecb5095088a0930770443c28f7a3877848062db4c310ae9d0ad3752fe72e2\n";

// The first node of the trial can't be started.
const DRAWN_OR_TRIED: &[Ending] = &[
    (
        b"",
        &["generate", "--number", "7", "--steps", "0"],
        Status::Ok,
        NO_STEP,
        0,
    ),
    (
        b"",
        &["generate", "--number", "7", "--steps", "1"],
        Status::Ok,
        ONE_STEP,
        0,
    ),
    (
        b"",
        &["generate", "--number", "7", "--steps", "3"],
        Status::Ok,
        THREE_STEPS,
        0,
    ),
    (
        b"",
        &[
            "trial",
            "--program",
            "p",
            "--dir",
            "d",
            "--port",
            "7201",
            "--turns",
            "6",
        ],
        Status::HostFault,
        b"",
        1,
    ),
];

#[test]
fn a_schedule_is_drawn_and_a_trial_asks_for_its_nodes(rt: HostRuntime) -> Result<(), Fail> {
    all_end(&rt, rt.alloc(), NO_READ, Rest::Nothing, DRAWN_OR_TRIED)
}

const CODES: &[(Status, u8)] = &[
    (Status::Ok, 0),
    (Status::Usage, 2),
    (Status::BadSchedule, 3),
    (Status::NoMemory, 4),
    (Status::ReadFault, 5),
    (Status::WriteFault, 6),
    (Status::DiskFault, 7),
    (Status::LinkFault, 8),
    (Status::HostFault, 9),
    (Status::NotAJournal, 10),
    (Status::Turns, 11),
    (Status::TrialFailed, 12),
    (Status::RescueRefused, 13),
    (Status::NotLegal, 14),
    (Status::BadTrace, 15),
    (Status::ToolRefused, 16),
];

#[test]
fn each_status_has_its_exit_code(rt: HostRuntime) {
    for (status, code) in CODES {
        assert!(rt; status.code() == *code, "{code}");
    }
}

// Seeds whose schedules elect, commit, crash and fail most, and what a second replay, in another language, makes of those schedules: a trace of so
// many bytes, whose SHA-256 begins so.
const DRAWN: &[(u64, usize, &[u8])] = &[
    (1_045, 12_412, b"\x24\xa3\x50\x19\x08\x49\x2b\x75"),
    (1_254, 13_776, b"\x43\xcf\xca\x56\xc8\xe4\x53\xc0"),
    (1_703, 14_130, b"\x42\xa3\x12\x0c\x37\xaa\x00\x58"),
    (2_067, 12_264, b"\x51\xd9\x21\x62\x62\x63\x4b\xd4"),
    (2_349, 16_249, b"\xdb\x77\xb4\xc2\x00\xcd\xcd\xb3"),
];

// Whether the text is a schedule of 200 lines that is printed as it was read.
fn is_read_as_written(alloc: Global, text: &[u8]) -> Result<bool, AllocError> {
    let Ok(read) = read_schedule(alloc, text, Level::Core) else {
        return Ok(false);
    };
    let again = write_schedule(alloc, &read)?;
    Ok(read.lines.as_slice().len() == 200 && again.as_bytes() == text)
}

// Whether a replay of this schedule writes a trace of this length, whose digest begins so.
fn replays_as_listed(
    alloc: Global,
    schedule: &[u8],
    length: usize,
    digest: &[u8],
) -> Result<bool, AllocError> {
    let (status, sink) = written_by(alloc, &replay_of(Level::Core, schedule))?;
    let trace = sink.as_bytes();
    Ok(
        status == Status::Ok
            && trace.len() == length
            && Sha256::digest(trace).as_slice().starts_with(digest),
    )
}

// Whether the schedule of this seed is drawn, written and replayed as it should be.
fn is_replayed(alloc: Global, seed: u64, length: usize, digest: &[u8]) -> Result<bool, AllocError> {
    let mut text = Text::new(alloc);
    random::write_schedule(&mut text, seed)?;
    Ok(
        is_read_as_written(alloc, text.as_bytes())?
            && replays_as_listed(alloc, text.as_bytes(), length, digest)?,
    )
}

#[test]
fn random_schedules_replay_as_by_the_second_replay(rt: HostRuntime) -> Result<(), Fail> {
    for (seed, length, digest) in DRAWN {
        let is_replayed = is_replayed(rt.alloc(), *seed, *length, digest)?;
        assert!(rt; is_replayed, "{seed}");
    }
    Ok(())
}
