//! Trials over a host in memory, and each way in which one ends. What is expected follows from docs/formats.md, A trial.
use crate::hosts::host_of;
use node_trial::{Trial, TrialEnd, has_won, run_trial};
use std::alloc::{AllocError, Global};
use std::test::Fail;
use zen_disk::MemDisks;
use zen_host::{Asked, MemHost};
use zen_link::MemSink;

const TRIAL: Trial<'static> = Trial {
    program: "./zen",
    dir: "d",
    port: 9300,
    turns: 600,
};

// The status with which each node ends, and what it writes.
type Nodes = &'static [(u8, &'static str)];

// The second node has won.
const WON: Nodes = &[(0, "mode candidate\n"), (0, "> x\nwon b 1\n"), (0, "")];

fn are_words(words: &[String], wanted: &[&str]) -> bool {
    let mut are_same = words.len() == wanted.len();
    for (word, wanted) in words.iter().zip(wanted) {
        are_same = are_same && word.as_str() == *wanted;
    }
    are_same
}

// Whether a call started a node with these words.
fn is_start(call: Option<&Asked>, wanted: &[&str]) -> bool {
    match call {
        Some(
            Asked::Spawn {
                program,
                words,
                refused: false,
            },
        ) => program.as_str() == "./zen" && are_words(words, wanted),
        _ => false,
    }
}

const WORDS_OF_B: &[&str] = &[
    "node",
    "--id",
    "b",
    "--dir",
    "d/b",
    "--listen",
    "127.0.0.1:9301",
    "--peers",
    "a=127.0.0.1:9300,c=127.0.0.1:9302",
    "--initial",
    "a,b,c",
    "--turns",
    "600",
];

// Whether these are the children that were killed, in order.
fn are_killed(calls: &[Asked], wanted: &[usize]) -> bool {
    let mut left = wanted.iter();
    for call in calls {
        if let Asked::Kill { child, .. } = call {
            if left.next() != Some(child) {
                return false;
            }
        }
    }
    left.next().is_none()
}

// How the nodes end, which calls are refused, how the trial then ends, what it writes, how many calls there are, the numbers of
// the children that the host is asked to kill, and how many of these run on, since that was refused too.
type Row = (
    Nodes,
    &'static [u64],
    TrialEnd,
    &'static str,
    usize,
    &'static [usize],
    u64,
);

// Whether a trial is so. Where no call is refused, the second node is told its words besides.
fn is_so(alloc: Global, row: &Row) -> Result<bool, AllocError> {
    let (nodes, refused, end, text, count, killed, running) = *row;
    let mut host = host_of(alloc, nodes, refused)?;
    let mut sink = MemSink::new(alloc, 100, Vec::new(alloc));
    let is_end = run_trial(alloc, &TRIAL, &mut sink, &mut host) == end;
    let calls = host.asked();
    let is_told = !refused.is_empty() || is_start(calls.get(1), WORDS_OF_B);
    let are_calls = calls.len() == count && are_killed(calls, killed);
    let is_written = sink.as_bytes() == text.as_bytes();
    Ok(is_end && is_told && are_calls && is_written && host.running_count() == running)
}

const SOME_STOPPED: &str = "child a status=11\nchild b status=0\nchild c status=11\nwon=yes\n";

const B_WON: &str = "child a status=0\nchild b status=0\nchild c status=0\nwon=yes\n";

const NONE_WON: &str = "child a status=0\nchild b status=0\nchild c status=0\nwon=no\n";

const BAD_STATUS: &str = "child a status=0\nchild b status=11\nchild c status=6\nwon=yes\n";

const SOME_STOP: Nodes = &[(11, "mode candidate\n"), (0, "> x\nwon b 1\n"), (11, "")];

// `won` stands in no line as its first word.
const NO_WIN: Nodes = &[(0, "a won\n"), (0, "wont b\nwo\n"), (0, "> won")];

const FAILED: Nodes = &[(0, "mode candidate\n"), (11, "> x\nwon b 1\n"), (6, "")];

const PASSED: &[Row] = &[
    (SOME_STOP, &[], TrialEnd::Done, SOME_STOPPED, 6, &[], 0),
    (NO_WIN, &[], TrialEnd::Done, NONE_WON, 6, &[], 0),
];

const OTHER_STATUS: &[Row] = &[(FAILED, &[], TrialEnd::TrialFailed, BAD_STATUS, 6, &[], 0)];

const TOLD: &[Row] = &[(WON, &[], TrialEnd::Done, B_WON, 6, &[], 0)];

const CUT_SHORT: &[Row] = &[
    (WON, &[1], TrialEnd::HostFault, "", 1, &[], 0),
    (WON, &[2], TrialEnd::HostFault, "", 3, &[1], 0),
    (WON, &[3], TrialEnd::HostFault, "", 5, &[1, 2], 0),
    (WON, &[4], TrialEnd::HostFault, "", 6, &[2, 3], 0),
    (WON, &[5], TrialEnd::HostFault, "", 6, &[3], 0),
    (WON, &[6], TrialEnd::HostFault, "", 6, &[], 0),
    (WON, &[4, 5], TrialEnd::HostFault, "", 6, &[2, 3], 1),
    (WON, &[3, 4], TrialEnd::HostFault, "", 5, &[1, 2], 1),
    (WON, &[3, 4, 5], TrialEnd::HostFault, "", 5, &[1, 2], 2),
];

const TESTS: &[(&str, &[Row])] = &[
    (
        "a_trial_passes_where_each_node_stops_or_has_taken_its_turns",
        PASSED,
    ),
    (
        "a_node_with_another_status_makes_a_trial_fail",
        OTHER_STATUS,
    ),
    ("a_node_is_told_its_id_its_folder_and_its_peers", TOLD),
    (
        "where_a_call_is_refused_the_host_is_asked_to_kill_those_that_still_run",
        CUT_SHORT,
    ),
];

// Says which row is not so, the first being row 0.
fn run(alloc: Global, name: &str, rows: &[Row]) -> Result<(), Fail> {
    for (place, row) in rows.iter().enumerate() {
        if !is_so(alloc, row)? {
            return Err(Fail::new(format_args!("{name}: row {place}")));
        }
    }
    Ok(())
}

#[test]
fn a_trial_ends_writes_and_asks_its_host(rt: HostRuntime) -> Result<(), Fail> {
    for (name, rows) in TESTS {
        run(rt.alloc(), name, rows)?;
    }
    Ok(())
}

const WINS: &[&str] = &["won", "won\n", "won a 1\n", "x\nwon \ny\n", "\n\nwon b 2"];

const NO_WINS: &[&str] = &[
    "", "\n", " won", "won\t1", "WON\n", "wonder\n", "x won\n", "wo\nn\n",
];

// Whether all of them have won, or none.
fn have_won(outputs: &[&str], wanted: bool) -> bool {
    let mut are_so = true;
    for output in outputs {
        are_so = are_so && has_won(output.as_bytes()) == wanted;
    }
    are_so
}

#[test]
fn a_win_is_a_line_whose_first_word_is_won(rt: HostRuntime) {
    assert!(rt; have_won(WINS, true) && have_won(NO_WINS, false));
}
