//! Journals byte by byte, what an opening finds, each byte of two files changed, and each device call of a renewal struck in
//! turn. Bodies are of version 2, with a digest, where nothing else is said. The bytes are those of docs/formats.md.
use crate::files::{Files, both_read, disk_of, files_in, files_of, is_written};
use crate::journals::{
    CHANGED, Journal, NO_DIGEST, OLD_AFTER, OLD_TERM_ONE, SECOND, SECOND_CHANGED, TERM_ONE, opened,
};
use crate::strikes::orders;
use cluster_state::{ClusterState, SharedState};
use state_journal::{
    ArmKeeper, Fault, KeepError, Keeper, Kept, OpenError, PlainKeeper, Ready, StateJournal, Why,
};
use std::alloc::{AllocError, Global};
use std::test::Fail;
use voting_config::{NodeSet, VotingConfig};
use zen_disk::{MemDisks, Order, Side};

// How the state is made ready that is accepted: the initial one of the node b, again as a shared one, as one whose bytes lie beside it, or as a copy.
#[derive(Clone, Copy)]
enum How {
    Initial,
    Shared,
    Spelled,
    Copied,
}

#[derive(Clone, Copy)]
enum Act {
    Nothing,
    // Each term from this one to that one.
    Terms(u32, u32),
    Accept(How),
    // So many times.
    Commit(u32),
}

fn ids(text: &str) -> NodeSet {
    NodeSet::parse(text).unwrap_or(NodeSet::new())
}

// The same state as `Ready::initial` makes, of which the bytes lie beside it.
fn spelled(alloc: Global) -> Result<Ready, AllocError> {
    let state = SharedState::spell(alloc, ClusterState::initial(alloc, &ids("b"))?)?;
    Ready::of(alloc, &state)
}

fn ready(alloc: Global, how: How) -> Result<Ready, AllocError> {
    let initial = Ready::initial(alloc, &ids("b"))?;
    match how {
        How::Initial => Ok(initial),
        How::Shared => Ready::of(alloc, initial.state()),
        How::Spelled => spelled(alloc),
        How::Copied => initial.copy(),
    }
}

fn accepts<K: Keeper>(alloc: Global, keeper: &mut K, how: How) -> bool {
    let Ok(ready) = ready(alloc, how) else {
        return false;
    };
    if ready.state().term > keeper.kept().term {
        return false;
    }
    keeper.set_accepted(ready).is_ok()
}

fn keeps_term<K: Keeper>(keeper: &mut K, term: u32) -> bool {
    let term = u64::from(term);
    keeper.kept().term < term && keeper.set_term(term).is_ok()
}

fn keeps_terms<K: Keeper>(keeper: &mut K, first: u32, last: u32) -> bool {
    for term in first..=last {
        if !keeps_term(keeper, term) {
            return false;
        }
    }
    true
}

fn commits<K: Keeper>(keeper: &mut K, times: u32) -> bool {
    for _ in 0..times {
        if keeper.mark_committed().is_err() {
            return false;
        }
    }
    true
}

fn does<K: Keeper>(alloc: Global, keeper: &mut K, act: Act) -> bool {
    match act {
        Act::Nothing => true,
        Act::Terms(first, last) => keeps_terms(keeper, first, last),
        Act::Accept(how) => accepts(alloc, keeper, how),
        Act::Commit(times) => commits(keeper, times),
    }
}

// Whether this term is kept, and these ids are those of the accepted and of the committed configuration.
fn is_kept<K: Keeper>(keeper: &K, term: u64, members: &str) -> bool {
    let config = VotingConfig::of(&ids(members));
    let kept = keeper.kept();
    kept.term == term
        && config.is_same_list(&kept.accepted.config)
        && kept.committed.is_same(&config)
}

// Acts, and the ids of both configurations after each.
const PLAIN: &[(Act, &str)] = &[
    (Act::Terms(1, 1), "_"),
    (Act::Accept(How::Initial), "b"),
    (Act::Accept(How::Shared), "b"),
    (Act::Accept(How::Copied), "b"),
    (Act::Commit(1), "b"),
];

fn keeps_each(alloc: Global, rows: &[(Act, &str)]) -> Result<bool, AllocError> {
    let mut keeper = PlainKeeper::new(alloc)?;
    let mut is_so = true;
    for (act, members) in rows {
        is_so = is_so && does(alloc, &mut keeper, *act) && is_kept(&keeper, 1, members);
    }
    Ok(is_so && !keeper.stopped())
}

#[test]
fn a_plain_keeper_keeps(rt: HostRuntime) -> Result<(), Fail> {
    assert!(&rt; keeps_each(rt.alloc(), PLAIN)?);
    Ok(())
}

// An act, and then how many bodies are in use, the term, and the ids of both configurations.
type Row = (Act, u64, u64, &'static str);

fn is_row(alloc: Global, journal: &mut Journal, row: &Row) -> bool {
    let (act, records, term, members) = *row;
    does(alloc, journal, act)
        && journal.records() == records
        && is_kept(journal, term, members)
        && journal.disk().struck().is_none()
}

fn do_each(alloc: Global, journal: &mut Journal, rows: &[Row]) -> bool {
    for row in rows {
        if !is_row(alloc, journal, row) {
            return false;
        }
    }
    true
}

// What a file holds after acts: what it held before, these bytes, or so many.
#[derive(Clone, Copy)]
enum File {
    Same,
    Is(&'static [u8]),
    Long(usize),
}

fn is_file(file: &[u8], before: &[u8], want: File) -> bool {
    match want {
        File::Same => *file == *before,
        File::Is(bytes) => *file == *bytes,
        File::Long(len) => file.len() == len,
    }
}

// Acts on a journal from its opening on, and then its two files. The next acts come after another opening.
type Run = (&'static [Row], File, File);

// Whether these files hold, after such acts on what was before, what is wanted of them.
fn are_files(files: &Files, before: &Files, zero: File, one: File) -> bool {
    is_file(&files.0, &before.0, zero) && is_file(&files.1, &before.1, one)
}

// What the files hold after a run, where its acts and the files are so.
fn after(alloc: Global, files: &Files, run: &Run) -> Option<Files> {
    let (rows, zero, one) = *run;
    let mut journal = opened(alloc, &files.0, &files.1)?;
    let are_so = do_each(alloc, &mut journal, rows);
    let left = files_in(alloc, &mut journal.into_disk().into_disk())?;
    (are_so && are_files(&left, files, zero, one)).then_some(left)
}

// A test's name, two files, and runs on them one after the other.
type Test = (&'static str, &'static [u8], &'static [u8], &'static [Run]);

// Says after how many runs the first one comes that is not so.
fn run_each(alloc: Global, test: &Test) -> Result<(), Fail> {
    let (name, zero, one, runs) = *test;
    let mut files = files_of(alloc, zero, one)?;
    for (place, run) in runs.iter().enumerate() {
        match after(alloc, &files, run) {
            Some(left) => files = left,
            None => return Err(Fail::new(format_args!("{name}: run {place}"))),
        }
    }
    Ok(())
}

const EMPTY: &[u8] = b"ZENJRNL1\0";

// The first generation, which keeps term 1,425 and no state.
const TERM_1425: &[u8] =
    b"ZENJRNL1\x01\0\0\0\x4a\x84\0\0\0\0\0\0\0\x01\0\0\0\0\0\0\x05\x91\0\0\0\0\0\0\0\0\0\0\0\0\0\0\0\0\0\0\0\0\0\0\0\0\0\
    \x46\xe8\x82\x23\xe8\x57\xa8\xcd\xf2\x61\xf8\xe2\x7c\xa1\x43\x22\x0d\x48\x5d\xa4\xd4\xa5\x88\xd7\x1f\x5f\x8a\xb4\xac\xb9\x07\x8d\0";

const FIRST_TERM: &[Run] = &[(
    &[(Act::Nothing, 0, 0, "_"), (Act::Terms(1, 1), 1, 1, "_")],
    File::Is(TERM_ONE),
    File::Is(EMPTY),
)];

const LONG_TAIL: &[Run] = &[
    (
        &[(Act::Terms(1, 1424), 1424, 1424, "_")],
        File::Long(65_513),
        File::Is(EMPTY),
    ),
    (
        &[(Act::Terms(1425, 1425), 1, 1425, "_")],
        File::Same,
        File::Is(TERM_1425),
    ),
    (
        &[(Act::Terms(1426, 1426), 2, 1426, "_")],
        File::Same,
        File::Long(134),
    ),
    (&[(Act::Nothing, 2, 1426, "_")], File::Same, File::Same),
];

// 1,409 bodies of 46 bytes and 19 of 38 take 65,536 bytes, which is not too long yet.
const FULL_TAIL: &[Run] = &[(
    &[
        (Act::Terms(1, 1409), 1409, 1409, "_"),
        (Act::Commit(19), 1428, 1409, "_"),
        (Act::Commit(1), 1, 1409, "_"),
    ],
    File::Long(65_545),
    File::Long(88),
)];

// The second generation, which keeps term 1,425 and the initial state of b.
const TERM_1425_OF_B: &[u8] =
    b"ZENJRNL1\x01\0\0\0\x50\x84\0\0\0\0\0\0\0\x02\0\0\0\0\0\0\x05\x91\0\0\0\0\0\0\0\0\0\0\0\0\0\0\0\0\0\x01\x01\x62\x01\
    \x01\x62\0\0\0\0\0\x01\x01\x62\
    \xa9\x2a\x44\x8c\x25\x73\xfb\x1c\x61\xa9\xa2\xb4\x33\x3e\x86\xbe\x10\xa2\xf6\x2c\xe1\x64\x6d\xb8\x65\xe9\xa4\xcd\xcb\x86\xfc\xb7\0";

const BACK_ON_SIDE_ZERO: &[Run] = &[
    (
        &[
            (Act::Nothing, 1, 2, "_"),
            (Act::Accept(How::Spelled), 2, 2, "b"),
            (Act::Terms(3, 1424), 1424, 1424, "b"),
            (Act::Commit(1), 1425, 1424, "b"),
            (Act::Terms(1425, 1425), 1, 1425, "b"),
        ],
        File::Is(TERM_1425_OF_B),
        File::Long(65_604),
    ),
    (&[(Act::Nothing, 1, 1425, "b")], File::Same, File::Same),
];

const KEPT: &[Run] = &[
    (
        &[
            (Act::Terms(7, 7), 1, 7, "_"),
            (Act::Accept(How::Initial), 2, 7, "b"),
            (Act::Commit(1), 3, 7, "b"),
        ],
        File::Long(159),
        File::Is(EMPTY),
    ),
    (&[(Act::Nothing, 3, 7, "b")], File::Same, File::Same),
];

// The first generation of version 1, which keeps term 2 and no state.
const OLD_SECOND: &[u8] =
    b"ZENJRNL1\x01\0\0\0\x29\x04\0\0\0\0\0\0\0\x01\0\0\0\0\0\0\0\x02\0\0\0\0\0\0\0\0\0\0\0\0\0\0\0\0\0\0\0\0\0\0\0\0\0";

// The second generation, which keeps term 3 and no state.
const THIRD: &[u8] =
    b"ZENJRNL1\x01\0\0\0\x4a\x84\0\0\0\0\0\0\0\x02\0\0\0\0\0\0\0\x03\0\0\0\0\0\0\0\0\0\0\0\0\0\0\0\0\0\0\0\0\0\0\0\0\0\
    \xef\xa3\x73\xaf\xba\x99\xf1\x2d\x4d\x07\xd8\x54\xbe\x52\x7d\x3b\x62\x1d\x40\x03\x11\xc2\x26\x22\xed\x18\xbe\x2a\x75\x62\x52\x04\0";

// Bodies of version 1 that set term 7 and accept the initial state of b.
const OLD_B: &[u8] = b"ZENJRNL1\x01\0\0\0\x09\x01\0\0\0\0\0\0\0\x07\
    \x01\0\0\0\x1c\x02\0\0\0\0\0\0\0\0\0\0\0\0\0\0\0\0\x01\x01\x62\x01\x01\x62\0\0\0\0\0\0";

// The first generation, which keeps term 7 and that state.
const B_AFTER_OLD: &[u8] =
    b"ZENJRNL1\x01\0\0\0\x50\x84\0\0\0\0\0\0\0\x01\0\0\0\0\0\0\0\x07\0\0\0\0\0\0\0\0\0\0\0\0\0\0\0\0\0\x01\x01\x62\x01\
    \x01\x62\0\0\0\0\0\x01\x01\x62\
    \x20\x22\x20\x15\xc9\x73\x11\x56\x23\xde\x71\x56\xbe\x70\xf0\xd2\x8f\xa5\x4e\xe1\xa8\x34\xa5\x7e\xa5\xdf\x4e\x13\xc8\x33\x3a\xfc\0";

// Where a body in use is of version 1, the first act begins a generation, in which the next acts go on.
const AFTER_VERSION_1: &[Run] = &[
    (&[(Act::Nothing, 1, 1, "_")], File::Same, File::Is(EMPTY)),
    (
        &[(Act::Terms(2, 2), 1, 2, "_")],
        File::Same,
        File::Is(SECOND),
    ),
    (
        &[(Act::Terms(3, 3), 2, 3, "_")],
        File::Same,
        File::Long(134),
    ),
];

const AFTER_TWO_OF_VERSION_1: &[Run] = &[
    (&[(Act::Nothing, 1, 2, "_")], File::Same, File::Same),
    (
        &[(Act::Terms(3, 3), 1, 3, "_")],
        File::Is(THIRD),
        File::Same,
    ),
    (
        &[(Act::Terms(4, 4), 2, 4, "_")],
        File::Long(134),
        File::Same,
    ),
];

// The act may be any of the three.
const STATE_OF_VERSION_1: &[Run] = &[
    (
        &[(Act::Nothing, 2, 7, "b"), (Act::Commit(1), 1, 7, "b")],
        File::Same,
        File::Is(B_AFTER_OLD),
    ),
    (&[(Act::Nothing, 1, 7, "b")], File::Same, File::Same),
];

const ACCEPTED_AFTER_VERSION_1: &[Run] = &[
    (
        &[
            (Act::Nothing, 2, 7, "b"),
            (Act::Accept(How::Spelled), 1, 7, "b"),
        ],
        File::Same,
        File::Is(B_AFTER_OLD),
    ),
    (&[(Act::Nothing, 1, 7, "b")], File::Same, File::Same),
];

// The generation of the last epoch, of version 1, which keeps term 2 and no state.
const OLD_LAST: &[u8] =
    b"ZENJRNL1\x01\0\0\0\x29\x04\x40\0\0\0\0\0\0\0\0\0\0\0\0\0\0\x02\0\0\0\0\0\0\0\0\0\0\0\0\0\0\0\0\0\0\0\0\0\0\0\0\0";

// The same of version 2.
const LAST: &[u8] =
    b"ZENJRNL1\x01\0\0\0\x4a\x84\x40\0\0\0\0\0\0\0\0\0\0\0\0\0\0\x02\0\0\0\0\0\0\0\0\0\0\0\0\0\0\0\0\0\0\0\0\0\0\0\0\0\
    \x06\x96\xea\xb3\x8e\x78\xa1\xc4\x9c\x81\x86\x64\xc2\x7d\x3f\xc3\x55\x33\x9f\x02\x46\x76\x7b\x8b\x10\x76\x08\x86\x89\x7c\x3b\x8e\0";

// There is no generation after the last one: neither after version 1 nor at a long tail.
const LAST_OF_VERSION_1: &[Run] = &[
    (
        &[(Act::Terms(3, 4), 3, 4, "_")],
        File::Same,
        File::Long(147),
    ),
    (
        &[(Act::Nothing, 3, 4, "_"), (Act::Terms(5, 5), 4, 5, "_")],
        File::Same,
        File::Long(193),
    ),
];

const LAST_AT_A_LONG_TAIL: &[Run] = &[(
    &[(Act::Terms(3, 1427), 1426, 1427, "_")],
    File::Same,
    File::Long(65_638),
)];

const TESTS: &[Test] = &[
    ("keeps_these_bytes", b"", b"", FIRST_TERM),
    ("keeps_these_bytes", b"ABCDEFGHI", b"", FIRST_TERM),
    ("renews_at_a_long_tail", b"", b"", LONG_TAIL),
    ("a_tail_may_be_full", b"", b"", FULL_TAIL),
    (
        "renews_again_on_side_zero",
        TERM_ONE,
        SECOND,
        BACK_ON_SIDE_ZERO,
    ),
    ("finds_what_it_kept", b"", b"", KEPT),
    ("renews_after_version_1", OLD_TERM_ONE, b"", AFTER_VERSION_1),
    (
        "renews_after_version_1",
        OLD_TERM_ONE,
        OLD_SECOND,
        AFTER_TWO_OF_VERSION_1,
    ),
    (
        "keeps_the_state_of_version_1",
        OLD_B,
        b"",
        STATE_OF_VERSION_1,
    ),
    (
        "keeps_the_state_of_version_1",
        OLD_B,
        b"",
        ACCEPTED_AFTER_VERSION_1,
    ),
    (
        "goes_on_in_the_last_epoch",
        OLD_TERM_ONE,
        OLD_LAST,
        LAST_OF_VERSION_1,
    ),
    (
        "goes_on_in_the_last_epoch",
        TERM_ONE,
        LAST,
        LAST_AT_A_LONG_TAIL,
    ),
];

#[test]
fn a_journal_keeps_finds_and_renews(rt: HostRuntime) -> Result<(), Fail> {
    for test in TESTS {
        run_each(rt.alloc(), test)?;
    }
    Ok(())
}

// The answer to a term that this order strikes.
fn answer_struck(journal: &mut Journal, order: Order, term: u32) -> Result<(), KeepError> {
    let term = u64::from(term);
    if term <= journal.kept().term {
        return Ok(());
    }
    journal.arm(order);
    journal.set_term(term)
}

fn finds_term(alloc: Global, disk: MemDisks, term: u64) -> bool {
    match StateJournal::open(alloc, disk) {
        Ok(found) => found.kept().term == term,
        Err(_) => false,
    }
}

// Whether keeping this term in these files answers Disk where it is struck so, and that term is found after it.
fn leaves(alloc: Global, files: &Files, term: u32, order: Order, left: u64) -> bool {
    let Some(mut journal) = opened(alloc, &files.0, &files.1) else {
        return false;
    };
    let answer = answer_struck(&mut journal, order, term);
    let disk = journal.into_disk().into_disk();
    answer == Err(KeepError::Disk) && finds_term(alloc, disk, left)
}

// The same for each way in which this call is struck.
fn are_left(alloc: Global, files: &Files, term: u32, call: u64, want: &[u64]) -> bool {
    let orders = orders(call);
    for (order, left) in orders.iter().zip(want) {
        if !leaves(alloc, files, term, *order, *left) {
            return false;
        }
    }
    true
}

// Strikes each call of those that keep this term.
fn strike_each(alloc: Global, files: &Files, term: u32, calls: &[&[u64]]) -> Result<(), Fail> {
    let mut call = 0u64;
    for want in calls {
        call = call.saturating_add(1);
        if !are_left(alloc, files, term, call, want) {
            return Err(Fail::new(format_args!("term {term}, call {call}")));
        }
    }
    Ok(())
}

// Two files, the next term, which begins a generation, and what each call leaves: where
// the other side has a generation it is cleared before, with two calls more.
type Renewal = (&'static [u8], &'static [u8], u32, &'static [&'static [u64]]);

const RENEWALS: &[Renewal] = &[
    (
        OLD_TERM_ONE,
        EMPTY,
        2,
        &[&[1, 1, 1, 1], &[1, 1, 1, 1], &[1, 2, 2, 1], &[1, 2, 2, 2]],
    ),
    (
        OLD_TERM_ONE,
        OLD_SECOND,
        3,
        &[
            &[2, 2, 2, 2],
            &[2, 2, 2, 2],
            &[2, 2, 2, 2],
            &[2, 2, 2, 2],
            &[2, 3, 3, 2],
            &[2, 3, 3, 3],
        ],
    ),
];

fn strike_renewal(alloc: Global, renewal: &Renewal) -> Result<(), Fail> {
    let (zero, one, term, calls) = *renewal;
    strike_each(alloc, &files_of(alloc, zero, one)?, term, calls)
}

#[test]
fn a_renewal_that_is_struck_leaves_one_of_two_records(rt: HostRuntime) -> Result<(), Fail> {
    for renewal in RENEWALS {
        strike_renewal(rt.alloc(), renewal)?;
    }
    Ok(())
}

// A first generation whose state has a greater term than it: of version 1 and of version 2.
const OLD_OLDER: &[u8] =
    b"ZENJRNL1\x01\0\0\0\x29\x04\0\0\0\0\0\0\0\x01\0\0\0\0\0\0\0\x02\0\0\0\0\0\0\0\x03\0\0\0\0\0\0\0\0\0\0\0\0\0\0\0\0\0";

const OLDER: &[u8] =
    b"ZENJRNL1\x01\0\0\0\x4a\x84\0\0\0\0\0\0\0\x01\0\0\0\0\0\0\0\x02\0\0\0\0\0\0\0\x03\0\0\0\0\0\0\0\0\0\0\0\0\0\0\0\0\0\
    \xbd\x42\x14\x51\x1d\x05\x4f\x1c\xd6\x1c\x15\x82\x8e\x71\xc7\xbe\x03\x1d\xb3\xf1\x7c\xc5\x1f\xaa\x53\xac\xb1\xc0\xd4\xc9\x43\x2b\0";

// Two files, and the first fault of both.
type Refused = (&'static [u8], &'static [u8], &'static str);

// Bodies of version 1 on side zero.
const OLD_FAULTS: &[Refused] = &[
    (b"ABCDEFGHIJ", b"", "Header"),
    (b"ZENJRNL1\x01\0\0\0\xff\0", b"", "Cut(8)"),
    (b"ZENJRNL1\x01\xff\0\0\0\0", b"", "Long(8)"),
    (b"ZENJRNL1\x01\0\0\0\0\0", b"", "Body(8,Tag)"),
    (b"ZENJRNL1\x01\0\0\0\x01\x05\0", b"", "Body(8,Tag)"),
    (b"ZENJRNL1\x01\0\0\0\x01\x80\0", b"", "Body(8,Tag)"),
    (b"ZENJRNL1\x01\0\0\0\x01\x04\0", b"", "Order(8)"),
    (b"ZENJRNL1\x01\0\0\0\x03\x01\0\0\0", b"", "Body(8,Short)"),
    (
        b"ZENJRNL1\x01\0\0\0\x09\x01\x80\0\0\0\0\0\0\0\0",
        b"",
        "Body(8,TermTooLarge)",
    ),
    (
        b"ZENJRNL1\x01\0\0\0\x0a\x01\0\0\0\0\0\0\0\x01\xff\0",
        b"",
        "Body(8,Trailing)",
    ),
    (b"ZENJRNL1\x01\0\0\0\x02\x03\x03\0", b"", "Body(8,Trailing)"),
    (b"ZENJRNL1\x01\0\0\0\x02\x02\0\0", b"", "Body(8,Short)"),
    (
        b"ZENJRNL1\x01\0\0\0\x09\x01\0\0\0\0\0\0\0\0\0",
        b"",
        "Order(8)",
    ),
    (
        b"ZENJRNL1\x01\0\0\0\x09\x01\0\0\0\0\0\0\0\x01\x01\0\0\0\x09\x01\0\0\0\0\0\0\0\x01\0",
        b"",
        "Order(22)",
    ),
    (
        b"ZENJRNL1\x01\0\0\0\x18\x02\0\0\0\0\0\0\0\x01\0\0\0\0\0\0\0\0\0\0\0\0\0\0\0\0",
        b"",
        "Order(8)",
    ),
];

// The same of bodies of version 2: a digest that is not theirs comes before their fields.
const FAULTS: &[Refused] = &[
    (CHANGED, b"", "Damaged(8)"),
    (OLD_AFTER, b"", "Order(54)"),
    (
        b"ZENJRNL1\x01\0\0\0\x29\x81\0\0\0\0\0\0\0\x01\
        \x92\x01\x39\xd9\x73\x69\x77\xbb\xa9\xf8\x23\xbb\xa2\x04\x6e\xfd\x82\x28\x92\x77\xe0\x6e\xce\x8c\xf7\xd3\x41\xde\x67\x58\0\xc8\
        \x01\0\0\0\x01\x03\0",
        b"",
        "Order(54)",
    ),
    (
        b"ZENJRNL1\x01\0\0\0\x29\x81\0\0\0\0\0\0\0\x01\
        \x92\x01\x39\xd9\x73\x69\x77\xbb\xa9\xf8\x23\xbb\xa2\x04\x6e\xfd\x82\x28\x92\x77\xe0\x6e\xce\x8c\xf7\xd3\x41\xde\x67\x58\0\xc8\
        \x01\0\0\0\x02\x01\0\0",
        b"",
        "Body(54,Short)",
    ),
    (NO_DIGEST, b"", "Body(8,Short)"),
    (
        b"ZENJRNL1\x01\0\0\0\x21\x81\
        \x59\x1b\x7c\xc9\x50\x37\x82\x2d\xec\x5a\x4d\x59\x3a\x2e\x2e\x8b\x19\xc0\x7d\xdd\x25\x70\xe5\x69\x90\x03\xd1\x7f\x14\xc4\x40\xa6\0",
        b"",
        "Body(8,Short)",
    ),
    (
        b"ZENJRNL1\x01\0\0\0\x29\x81\x80\0\0\0\0\0\0\0\
        \xe7\x19\x78\x2f\xc4\xb4\xe9\xc6\xa0\xe3\x2e\x77\x8e\xa9\xaa\x61\xa7\x9c\x0b\x25\xde\x39\xc6\x90\x95\xd6\x14\xcc\x03\xe2\x82\xfd\0",
        b"",
        "Body(8,TermTooLarge)",
    ),
    (
        b"ZENJRNL1\x01\0\0\0\x2a\x81\0\0\0\0\0\0\0\x01\xff\
        \xd4\xcf\xc8\x36\x7c\xc7\x83\xf7\xaf\x7f\x22\x84\x9c\x29\x56\xc2\xba\x51\xb8\x56\x01\xe3\xb4\x7a\xbf\xa8\x76\x26\xd5\xca\x13\x30\0",
        b"",
        "Body(8,Trailing)",
    ),
    (
        b"ZENJRNL1\x01\0\0\0\x22\x83\x03\
        \xad\x49\xd7\x97\x2a\xb6\x52\xbc\x92\x9a\xf7\xdd\x2b\xde\x65\x19\xca\xfc\x0e\xfd\x37\xf5\xde\x86\x93\x3a\xa3\x20\x05\xf5\x20\x23\0",
        b"",
        "Body(8,Trailing)",
    ),
    (
        b"ZENJRNL1\x01\0\0\0\x22\x82\0\
        \x1c\x53\xd1\xa4\x6b\x33\x30\xcc\x47\x0e\xec\xfb\x6a\x3d\x9b\x8d\x61\xce\xbe\x92\xf8\x1c\x65\x51\xc5\xc6\xaf\xe5\xa3\x50\x71\xd5\0",
        b"",
        "Body(8,Short)",
    ),
    (
        b"ZENJRNL1\x01\0\0\0\x49\x82\0\0\0\0\0\0\0\0\0\0\0\0\0\0\0\0\x01\0\0\0\0\0\0\0\0\0\0\0\0\0\0\0\0\0\0\0\0\0\0\0\
        \xf9\xfa\xaa\x10\x90\x0e\x98\x8b\x15\x5d\x76\x9a\x43\x23\x49\x86\x8a\xd3\xe8\x2c\xd8\x7d\xd7\xec\xe3\xf8\xae\xc9\xf5\x73\x7b\xac\0",
        b"",
        "Body(8,BadParent)",
    ),
    (
        b"ZENJRNL1\x01\0\0\0\x29\x81\0\0\0\0\0\0\0\0\
        \x07\xcc\x70\x6b\x79\x51\x03\x10\x88\x73\x10\x12\xc0\xc4\xc8\xdd\xff\x0c\xd4\xd1\xc6\x5f\x8d\x4e\xb1\x9b\xe3\x7a\x4f\xd1\xfd\xba\0",
        b"",
        "Order(8)",
    ),
    (
        b"ZENJRNL1\x01\0\0\0\x29\x81\0\0\0\0\0\0\0\x01\
        \x92\x01\x39\xd9\x73\x69\x77\xbb\xa9\xf8\x23\xbb\xa2\x04\x6e\xfd\x82\x28\x92\x77\xe0\x6e\xce\x8c\xf7\xd3\x41\xde\x67\x58\0\xc8\
        \x01\0\0\0\x29\x81\0\0\0\0\0\0\0\x01\
        \x92\x01\x39\xd9\x73\x69\x77\xbb\xa9\xf8\x23\xbb\xa2\x04\x6e\xfd\x82\x28\x92\x77\xe0\x6e\xce\x8c\xf7\xd3\x41\xde\x67\x58\0\xc8\0",
        b"",
        "Order(54)",
    ),
    (
        b"ZENJRNL1\x01\0\0\0\x39\x82\0\0\0\0\0\0\0\x01\0\0\0\0\0\0\0\0\0\0\0\0\0\0\0\0\
        \x68\x4a\x16\xd2\x18\xee\x40\x8c\x76\x2d\0\xf0\x61\x68\x8e\x21\xf4\x10\x34\x6a\x09\x6a\xc1\x9a\xe2\x25\x52\x10\xe6\xf2\x6d\x14\0",
        b"",
        "Order(8)",
    ),
    (b"ZENJRNL1\x01\0\0\0\x01\x83\0", b"", "Body(8,Short)"),
    (b"ZENJRNL1\x01\0\0\0\x01\x84\0", b"", "Order(8)"),
    (b"ZENJRNL1\x01\0\0\0\x01\x85\0", b"", "Body(8,Tag)"),
];

const FAULTS_OF_BOTH: &[Refused] = &[
    (OLD_SECOND, OLD_SECOND, "Twin"),
    (SECOND, SECOND, "Twin"),
    (SECOND, OLD_SECOND, "Twin"),
    (CHANGED, SECOND, "Damaged(8)"),
    (TERM_ONE, SECOND_CHANGED, "1:Damaged(8)"),
    (CHANGED, SECOND_CHANGED, "Damaged(8)"),
    (SECOND, SECOND_CHANGED, "Twin"),
    (b"ABCDEFGHIJ", b"ABCDEFGHIJ", "Header"),
    (b"", b"ABCDEFGHIJ", "1:Header"),
    (b"", b"ZENJRNL1\x01\0\0\0\xff\0", "1:Cut(8)"),
    (
        b"ZENJRNL1\x01\0\0\0\0\0",
        b"ZENJRNL1\x01\xff\0\0\0\0",
        "1:Long(8)",
    ),
    (b"", b"ZENJRNL1\x01\0\0\0\0\0", "1:Order(8)"),
    (
        b"ZENJRNL1\x01\0\0\0\x09\x04\0\0\0\0\0\0\0\x01\0",
        b"",
        "Body(8,Short)",
    ),
    (
        b"",
        b"ZENJRNL1\x01\0\0\0\x09\x04\0\0\0\0\0\0\0\x01\0",
        "1:Body(8,Short)",
    ),
    (
        b"ZENJRNL1\x01\0\0\0\x09\x84\0\0\0\0\0\0\0\x01\0",
        b"",
        "Body(8,Short)",
    ),
    (b"ZENJRNL1\x01\0\0\0\0\0", OLD_OLDER, "Body(8,Tag)"),
    (b"", OLD_OLDER, "1:Order(8)"),
    (b"", OLDER, "1:Order(8)"),
];

// Why a journal is refused, as it is written or as it is.
#[derive(Clone, Copy)]
enum Wanted<'a> {
    Text(&'a str),
    Why(Why),
}

fn is_why(alloc: Global, error: &OpenError<MemDisks>, want: &Wanted<'_>) -> bool {
    match (error, want) {
        (OpenError::NotAJournal(why, _), Wanted::Text(text)) => is_written(alloc, why, text),
        (OpenError::NotAJournal(why, _), Wanted::Why(wanted)) => *why == *wanted,
        _ => false,
    }
}

// Whether the files of this disk are no journal, for this reason.
fn is_refused(alloc: Global, disk: MemDisks, want: &Wanted<'_>) -> bool {
    match StateJournal::open(alloc, disk) {
        Ok(_) => false,
        Err(error) => is_why(alloc, &error, want),
    }
}

// A test's name, and rows of refusals.
const REFUSALS: &[(&str, &[Refused])] = &[
    ("names_the_first_fault", OLD_FAULTS),
    ("names_the_first_fault", FAULTS),
    ("names_the_first_fault_of_both", FAULTS_OF_BOTH),
];

fn refuses_each(alloc: Global, name: &str, rows: &[Refused]) -> Result<(), Fail> {
    for (zero, one, want) in rows {
        if !is_refused(alloc, disk_of(alloc, zero, one)?, &Wanted::Text(want)) {
            return Err(Fail::new(format_args!("{name}: {want}")));
        }
    }
    Ok(())
}

#[test]
fn files_that_are_no_journal_are_refused(rt: HostRuntime) -> Result<(), Fail> {
    for (name, rows) in REFUSALS {
        refuses_each(rt.alloc(), name, rows)?;
    }
    Ok(())
}

// The digests of bodies that set term 1 and term 2.
const DIGEST_OF_ONE: [u8; 32] = [
    146, 1, 57, 217, 115, 105, 119, 187, 169, 248, 35, 187, 162, 4, 110, 253, 130, 40, 146, 119,
    224, 110, 206, 140, 247, 211, 65, 222, 103, 88, 0, 200,
];

const DIGEST_OF_TWO: [u8; 32] = [
    2, 83, 161, 45, 28, 53, 233, 82, 103, 20, 199, 172, 222, 71, 197, 238, 122, 115, 237, 163, 222,
    160, 238, 222, 153, 54, 253, 193, 105, 6, 140, 121,
];

const DAMAGED: Why = Why::At(
    Side::Zero,
    Fault::Damaged {
        at: 8,
        stored: DIGEST_OF_ONE,
        found: DIGEST_OF_TWO,
    },
);

#[test]
fn a_damaged_body_is_shown_with_both_digests(rt: HostRuntime) -> Result<(), Fail> {
    let disk = disk_of(rt.alloc(), CHANGED, b"")?;
    assert!(&rt; is_refused(rt.alloc(), disk, &Wanted::Why(DAMAGED)));
    Ok(())
}

// Bodies that set term 1, accept the state 1/1 of a and b where a was committed, and commit it.
const COMMITTED: &[u8] = b"ZENJRNL1\x01\0\0\0\x29\x81\0\0\0\0\0\0\0\x01\
    \x92\x01\x39\xd9\x73\x69\x77\xbb\xa9\xf8\x23\xbb\xa2\x04\x6e\xfd\x82\x28\x92\x77\xe0\x6e\xce\x8c\xf7\xd3\x41\xde\x67\x58\0\xc8\
    \x01\0\0\0\x55\x82\0\0\0\0\0\0\0\x01\0\0\0\0\0\0\0\x01\x01\0\0\0\0\0\0\0\0\0\0\0\0\0\0\0\0\x02\x01\x61\x01\x62\x01\
    \x01\x61\0\0\0\0\x01\0\x01\x76\0\x01\x78\
    \xa9\xf1\x2c\x7a\xbd\xb1\xd3\x8a\xdd\x73\x36\xf5\x9c\xbe\xe0\xe3\xd1\xea\x32\xc3\x66\xb1\x35\x0c\x94\x4a\xb0\xcf\x98\xf4\x48\x9a\
    \x01\0\0\0\x21\x83\
    \x5e\xe0\xdd\x4d\x48\x40\x22\x9f\xab\x4a\x86\x43\x8e\xfb\xca\xf1\xb9\x57\x1a\xf9\x4f\x5a\xce\x5a\xcc\x94\xde\x19\xe9\x8e\xa9\xab\0";

// The first generation, which keeps term 2 and that, and a body that sets term 3.
const NEWER: &[u8] =
    b"ZENJRNL1\x01\0\0\0\x6a\x84\0\0\0\0\0\0\0\x01\0\0\0\0\0\0\0\x02\0\0\0\0\0\0\0\x01\0\0\0\0\0\0\0\x01\x01\0\0\0\0\0\0\
    \0\0\0\0\0\0\0\0\0\0\x02\x01\x61\x01\x62\x01\x01\x61\0\0\0\0\x01\0\x01\x76\0\x01\x78\x02\x01\x61\x01\x62\
    \xa9\x9a\xc6\x82\xd9\x84\xe3\xfc\xf1\xfc\x44\xb6\x91\xed\xf1\xd5\x89\xe9\xf9\xea\xd9\xeb\x9c\x4e\xb0\xbc\x65\x07\x26\x34\xc7\x26\
    \x01\0\0\0\x29\x81\0\0\0\0\0\0\0\x03\
    \x25\xcd\xf2\x0c\x08\x7f\xc3\x66\x06\x26\xb2\x03\x5c\x56\xef\x93\x41\x1e\xfd\xfb\x62\x4c\xa3\x20\x75\x21\x4f\x96\x96\x72\xa6\xa4\0";

// An open gate of these files, and what is found once it is closed: the term, the accepted version, the committed ids and how many
// bodies are in use.
type Gate = (Side, usize, (u64, u64, &'static str, u64));

// Two files, and those of their gates without which another record is found.
const FILES: &[(&[u8], &[u8], &[Gate])] = &[
    (
        COMMITTED,
        EMPTY,
        &[
            (Side::Zero, 8, (0, 0, "_", 0)),
            (Side::Zero, 54, (1, 0, "_", 1)),
            (Side::Zero, 144, (1, 1, "a", 2)),
        ],
    ),
    (
        COMMITTED,
        NEWER,
        &[
            (Side::One, 8, (1, 1, "a,b", 3)),
            (Side::One, 119, (2, 1, "a,b", 1)),
        ],
    ),
];

fn is_same_record(kept: &Kept, other: &Kept) -> bool {
    let (state, wanted) = (&kept.accepted, &other.accepted);
    kept.term == other.term
        && kept.committed.is_same(&other.committed)
        && state.id().is_same(wanted.id())
        && state.parent == wanted.parent
        && state.config.is_same(&wanted.config)
        && state.committed.is_same(&wanted.committed)
        && state.value.is_same(&wanted.value)
}

// The record that is found once this gate is closed, where it is another one.
fn left_by<'a>(gates: &'a [Gate], side: Side, place: usize) -> Option<&'a Gate> {
    for gate in gates {
        if gate.0 == side && gate.1 == place {
            return Some(gate);
        }
    }
    None
}

fn is_left(kept: &Kept, records: u64, gate: &Gate) -> bool {
    let (term, version, committed, count) = gate.2;
    kept.term == term
        && kept.accepted.version == version
        && kept.committed.is_same(&VotingConfig::of(&ids(committed)))
        && records == count
}

// Whether these files, of which a byte was changed, are refused and stay as they are, or have the record of before; or what was
// kept before the body of this gate, which is closed by it.
fn is_as_before(
    alloc: Global,
    files: &Files,
    kept: &Kept,
    gate: Option<&Gate>,
) -> Result<bool, AllocError> {
    match StateJournal::open(alloc, disk_of(alloc, &files.0, &files.1)?) {
        Ok(journal) => match gate {
            Some(gate) => Ok(is_left(journal.kept(), journal.records(), gate)),
            None => Ok(is_same_record(journal.kept(), kept)),
        },
        Err(OpenError::NotAJournal(_, disk)) => {
            Ok(both_read(disk, &files.0, &files.1) && gate.is_none())
        }
        Err(_) => Ok(false),
    }
}

// Changes this bit of a byte.
fn change(file: &mut [u8], place: usize, bit: u8) {
    if let Some(byte) = file.get_mut(place) {
        *byte ^= bit;
    }
}

fn may_change(
    alloc: Global,
    files: &mut Files,
    kept: &Kept,
    gates: &[Gate],
    (side, place, bit): (Side, usize, u8),
) -> Result<bool, AllocError> {
    change(file_of(files, side), place, bit);
    let is_so = is_as_before(alloc, files, kept, left_by(gates, side, place))?;
    change(file_of(files, side), place, bit);
    Ok(is_so)
}

fn file_of(files: &mut Files, side: Side) -> &mut Vec<u8> {
    match side {
        Side::Zero => &mut files.0,
        Side::One => &mut files.1,
    }
}

// The lowest and the highest bit of the bytes of both sides.
const BITS: &[(Side, u8)] = &[
    (Side::Zero, 1),
    (Side::Zero, 128),
    (Side::One, 1),
    (Side::One, 128),
];

// The first byte of a side of which this bit may not be changed.
fn first_wrong(
    alloc: Global,
    files: &mut Files,
    kept: &Kept,
    gates: &[Gate],
    (side, bit): (Side, u8),
) -> Result<Option<usize>, AllocError> {
    for place in 0..file_of(files, side).len() {
        if !may_change(alloc, files, kept, gates, (side, place, bit))? {
            return Ok(Some(place));
        }
    }
    Ok(None)
}

fn each_may_change(
    alloc: Global,
    files: &mut Files,
    kept: &Kept,
    gates: &[Gate],
) -> Result<(), Fail> {
    for bit in BITS {
        if let Some(place) = first_wrong(alloc, files, kept, gates, *bit)? {
            return Err(Fail::new(format_args!("byte {place}")));
        }
    }
    Ok(())
}

fn each_byte_may_change(
    alloc: Global,
    zero: &[u8],
    one: &[u8],
    gates: &[Gate],
) -> Result<(), Fail> {
    let mut files = files_of(alloc, zero, one)?;
    match opened(alloc, zero, one) {
        Some(whole) => each_may_change(alloc, &mut files, whole.kept(), gates),
        None => Err(Fail::new("no journal")),
    }
}

#[test]
fn a_changed_byte_makes_no_other_record(rt: HostRuntime) -> Result<(), Fail> {
    for (zero, one, gates) in FILES {
        each_byte_may_change(rt.alloc(), zero, one, gates)?;
    }
    Ok(())
}

// Whether a commit is answered so by a journal that is stopped, and keeps what it had.
fn is_stopped(journal: &mut Journal, want: KeepError) -> bool {
    journal.mark_committed() == Err(want)
        && journal.stopped()
        && journal.records() == 1
        && is_kept(journal, 1, "_")
}

// Whether a journal whose second call fails is stopped by it, and stays so.
fn stays_so(alloc: Global) -> bool {
    let Some(mut journal) = opened(alloc, b"", b"") else {
        return false;
    };
    let is_kept = keeps_term(&mut journal, 1);
    journal.arm(Order::Fault(2));
    let is_struck = is_stopped(&mut journal, KeepError::Disk);
    is_kept && is_struck && is_stopped(&mut journal, KeepError::Stopped)
}

#[test]
fn stays_stopped(rt: HostRuntime) {
    assert!(rt; stays_so(rt.alloc()));
}
