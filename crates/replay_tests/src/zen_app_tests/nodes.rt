//! Runs of `node` over links and disks in memory. The lines are those of docs/formats.md.
use super::runs::{
    Call, Case, Ending, Fault, NO_READ, Rest, Run, UNREAD, all_end, all_end_by, run_of,
};
use std::alloc::{AllocError, Global};
use std::test::Fail;
use zen_app::Status;

// Node a, which is to bootstrap alone, for three turns. The link gives three ticks.
const THREE_TURNS: &[&str] = &[
    "node",
    "--id",
    "a",
    "--dir",
    "d",
    "--listen",
    "h:1",
    "--peers",
    "_",
    "--initial",
    "a",
    "--turns",
    "3",
];

const FOUR_TURNS: &[&str] = &[
    "node",
    "--id",
    "a",
    "--dir",
    "d",
    "--listen",
    "h:1",
    "--peers",
    "_",
    "--initial",
    "a",
    "--turns",
    "4",
];

const UNTIL_STOPPED: &[&str] = &[
    "node",
    "--id",
    "a",
    "--dir",
    "d",
    "--listen",
    "h:1",
    "--peers",
    "_",
    "--initial",
    "a",
    "--turns",
    "all",
];

const IN_ACTS: &[&str] = &[
    "node",
    "--id",
    "a",
    "--dir",
    "d",
    "--listen",
    "h:1",
    "--peers",
    "_",
    "--initial",
    "a",
    "--turns",
    "3",
    "--history",
    "acts",
];

const UNWRITTEN: &[&str] = &[
    "node",
    "--id",
    "a",
    "--dir",
    "d",
    "--listen",
    "h:1",
    "--peers",
    "_",
    "--initial",
    "a",
    "--turns",
    "3",
    "--history",
    "none",
];

const ENDS: &[Ending] = &[
    // it takes its turns
    (
        b"",
        THREE_TURNS,
        Status::Turns,
        b"record a 0 0/0 _ _\n> start\n> tick 1 0\nact a ok boot a\n> tick 2 0\n\
          m1 a->a startjoin a 1\n> tick 3 0\nzen: turns\n",
        2,
    ),
    // the link says stop
    (
        b"",
        FOUR_TURNS,
        Status::Ok,
        b"record a 0 0/0 _ _\n> start\n> tick 1 0\nact a ok boot a\n> tick 2 0\n\
          m1 a->a startjoin a 1\n> tick 3 0\n",
        2,
    ),
    (
        b"",
        UNTIL_STOPPED,
        Status::Ok,
        b"record a 0 0/0 _ _\n> start\n> tick 1 0\nact a ok boot a\n> tick 2 0\n\
          m1 a->a startjoin a 1\n> tick 3 0\n",
        2,
    ),
    // of its life it writes so much
    (
        b"",
        IN_ACTS,
        Status::Turns,
        b"record a 0 0/0 _ _\nact a ok boot a\nzen: turns\n",
        2,
    ),
    (
        b"",
        UNWRITTEN,
        Status::Turns,
        b"record a 0 0/0 _ _\nzen: turns\n",
        2,
    ),
    (
        b"ABCDEFGHIJ",
        THREE_TURNS,
        Status::NotAJournal,
        b"zen: not a journal: Header\n",
        1,
    ),
];

#[test]
fn a_node_ends_with_what_it_has_met(rt: HostRuntime) -> Result<(), Fail> {
    all_end(&rt, rt.alloc(), NO_READ, Rest::Nothing, ENDS)
}

// There is no folder, and the disk fails as it is opened.
const EARLY_FAULTS: &[Fault] = &[
    (b"", Call::Opening, &[1], Status::HostFault, b""),
    (b"", Call::Device, &[1], Status::DiskFault, b""),
];

// There is no link, it fails, and the disk and the output do. The opening of two empty files makes eight device calls: the ninth is the
// first one of the first act.
const FAULTS: &[Fault] = &[
    (b"", Call::Opening, &[2], Status::HostFault, b""),
    (
        b"",
        Call::Next,
        &[1],
        Status::LinkFault,
        b"record a 0 0/0 _ _\n> start\n",
    ),
    (
        b"",
        Call::Device,
        &[9],
        Status::DiskFault,
        b"record a 0 0/0 _ _\n> start\n> tick 1 0\nact a disk boot a\n",
    ),
    (
        b"",
        Call::Write,
        &[2],
        Status::WriteFault,
        b"record a 0 0/0 _ _\n",
    ),
];

#[test]
fn a_node_ends_at_a_fault(rt: HostRuntime) -> Result<(), Fail> {
    all_end_by(&rt, rt.alloc(), THREE_TURNS, EARLY_FAULTS, 1)?;
    all_end_by(&rt, rt.alloc(), THREE_TURNS, FAULTS, 2)
}

// Whether a run of a node gives back both its disk and its link.
fn gives_both_back(alloc: Global) -> Result<bool, AllocError> {
    let case = Case {
        words: THREE_TURNS,
        ..UNREAD
    };
    let Run { host, .. } = run_of(alloc, &case)?;
    let (disk, link) = host.into_given_back();
    Ok(disk.is_some() && link.is_some())
}

#[test]
fn a_node_gives_its_disk_and_its_link_back(rt: HostRuntime) -> Result<(), Fail> {
    let both = gives_both_back(rt.alloc())?;
    assert!(rt; both);
    Ok(())
}
