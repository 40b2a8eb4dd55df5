//! Journals in memory with the lines that show them, and each way in which an inspection ends. The lines are those of
//! docs/formats.md.
use crate::files::reads;
use crate::hosts::{Failing, host_of, sink_of};
use crate::journals::{
    CHANGED, NO_DIGEST, OLD_AFTER, OLD_TERM_ONE, SECOND, SECOND_CHANGED, TERM_ONE,
};
use journal_inspection::{Inspection, inspect};
use std::alloc::{AllocError, Global};
use std::test::Fail;
use zen_disk::{MemDisks, Side};

// The lines of a journal of term 1. The digest is that of 24 zero bytes.
const TERM_ONE_LINES: &str = "term=1\naccepted=0/0\nconfig=_\ncommitted=_\nrecords=1\n\
    sha256=9d908ecfb6b256def8b49a7c504e6c889c4b0e41fe6ce3e01863dd7b61a20aa0\n\
    state={\"committed\":[],\"config\":[],\"parent\":null,\"term\":0,\
    \"value\":{\"exclusions\":[],\"master\":null,\"members\":[],\"settings\":{}},\"version\":0}\n";

// The lines of a generation of one body, which keeps term 2 and no state.
const SECOND_LINES: &str = "term=2\naccepted=0/0\nconfig=_\ncommitted=_\nrecords=1\n\
    sha256=9d908ecfb6b256def8b49a7c504e6c889c4b0e41fe6ce3e01863dd7b61a20aa0\n\
    state={\"committed\":[],\"config\":[],\"parent\":null,\"term\":0,\
    \"value\":{\"exclusions\":[],\"master\":null,\"members\":[],\"settings\":{}},\"version\":0}\n";

const EMPTY_LINES: &str = "term=0\naccepted=0/0\nconfig=_\ncommitted=_\nrecords=0\n\
    sha256=9d908ecfb6b256def8b49a7c504e6c889c4b0e41fe6ce3e01863dd7b61a20aa0\n\
    state={\"committed\":[],\"config\":[],\"parent\":null,\"term\":0,\
    \"value\":{\"exclusions\":[],\"master\":null,\"members\":[],\"settings\":{}},\"version\":0}\n";

// A journal of version 1 that has set term 1 and accepted a state of voters a, b and c, in which that of a is the committed configuration.
const ACCEPTED: &[u8] =
    b"ZENJRNL1\x01\0\0\0\x09\x01\0\0\0\0\0\0\0\x01\x01\0\0\0\x20\x02\0\0\0\0\0\0\0\x01\0\0\0\0\0\0\0\x01\
    \x03\x01a\x01b\x01c\x01\x01a\0\0\0\0\0\0";

const ACCEPTED_LINES: &str = "term=1\naccepted=1/1\nconfig=a,b,c\ncommitted=a\nrecords=2\n\
    sha256=6e1b9fad16b42bd2b81d3cfa3999181e58456e86beedf8edaea03edd37906aaf\n\
    state={\"committed\":[\"a\"],\"config\":[\"a\",\"b\",\"c\"],\"parent\":null,\"term\":1,\
    \"value\":{\"exclusions\":[],\"master\":null,\"members\":[],\"settings\":{}},\"version\":1}\n";

const COMMITTED_LINES: &str = "term=0\naccepted=0/0\nconfig=_\ncommitted=_\nrecords=1\n\
    sha256=9d908ecfb6b256def8b49a7c504e6c889c4b0e41fe6ce3e01863dd7b61a20aa0\n\
    state={\"committed\":[],\"config\":[],\"parent\":null,\"term\":0,\
    \"value\":{\"exclusions\":[],\"master\":null,\"members\":[],\"settings\":{}},\"version\":0}\n";

// Whether the disk is given back of an inspection that ends so, unless it was given none, and has the first file as it was. A file of
// at most nine bytes is given a header.
fn is_left(disk: Option<MemDisks>, end: Inspection, file: &[u8]) -> bool {
    match disk {
        Some(mut disk) => {
            end != Inspection::HostFault && (file.len() <= 9 || reads(&mut disk, Side::Zero, file))
        }
        None => end == Inspection::HostFault,
    }
}

// Whether inspecting files with these bytes ends so, leaves the first one as it was, and writes this text.
fn ends(
    alloc: Global,
    files: (&[u8], &[u8]),
    failing: Failing,
    want: Inspection,
    text: &str,
) -> Result<bool, AllocError> {
    let mut sink = sink_of(alloc, failing)?;
    let mut host = host_of(alloc, files.0, files.1, failing)?;
    let end = inspect(alloc, "a", &mut sink, &mut host);
    let is_asked_once = host.asked().len() == 1;
    let is_left = is_left(host.into_disk_back(), want, files.0);
    Ok(end == want && is_asked_once && is_left && *sink.as_bytes() == *text.as_bytes())
}

// Two files, and what is shown of the journal in them.
type Shown = (&'static [u8], &'static [u8], &'static str);

const ONE_SIDE: &[Shown] = &[
    (TERM_ONE, b"", TERM_ONE_LINES),
    (OLD_TERM_ONE, b"", TERM_ONE_LINES),
    (ACCEPTED, b"", ACCEPTED_LINES),
];

// Behind a gate that is closed nothing counts.
const EMPTY_ONES: &[Shown] = &[
    (b"", b"", EMPTY_LINES),
    (b"ABCDEFGHI", b"", EMPTY_LINES),
    (b"ZENJRNL1\x02\0\0\0\x01\x05", b"", EMPTY_LINES),
];

// A body that commits the empty state.
const COMMITS: &[Shown] = &[(b"ZENJRNL1\x01\0\0\0\x01\x03\0", b"", COMMITTED_LINES)];

const SECONDS: &[Shown] = &[
    (TERM_ONE, SECOND, SECOND_LINES),
    (OLD_TERM_ONE, SECOND, SECOND_LINES),
];

const SHOWN: &[(&str, &[Shown])] = &[
    ("a_journal_is_shown_in_seven_lines", ONE_SIDE),
    ("nine_bytes_are_an_empty_journal", EMPTY_ONES),
    ("a_commit_alone_is_a_journal_of_one_record", COMMITS),
    ("the_newer_generation_is_shown", SECONDS),
];

// Says which row is not so, the first being row 0.
fn show_each(alloc: Global, name: &str, rows: &[Shown]) -> Result<(), Fail> {
    for (place, (zero, one, text)) in rows.iter().enumerate() {
        if !ends(alloc, (zero, one), Failing::Nothing, Inspection::Done, text)? {
            return Err(Fail::new(format_args!("{name}: row {place}")));
        }
    }
    Ok(())
}

#[test]
fn journals_are_shown(rt: HostRuntime) -> Result<(), Fail> {
    for (name, rows) in SHOWN {
        show_each(rt.alloc(), name, rows)?;
    }
    Ok(())
}

const CUT: &[u8] = b"ZENJRNL1\x01\0\0\0\xff\0";

const TAG: &[u8] = b"ZENJRNL1\x01\0\0\0\x01\x05\0";

const TERM_ZERO: &[u8] = b"ZENJRNL1\x01\0\0\0\x09\x01\0\0\0\0\0\0\0\0\0";

// The two files, and why they are no journal.
const FAULTS: &[(&[u8], &[u8], &str)] = &[
    (b"ABCDEFGHIJ", b"", "Header"),
    (b"ZENJRNL1\x01\0\0\0", b"", "Cut(8)"),
    (b"ZENJRNL1\x01\0\x80\0\x01", b"", "Long(8)"),
    (CUT, b"", "Cut(8)"),
    (b"ZENJRNL1\x01\0\x80\0\x01\0", b"", "Long(8)"),
    (b"ZENJRNL1\x01\0\0\0\x02\x01\0\0", b"", "Body(8,Short)"),
    (b"ZENJRNL1\x01\0\0\0\x02\x03\0\0", b"", "Body(8,Trailing)"),
    (TAG, b"", "Body(8,Tag)"),
    (
        b"ZENJRNL1\x01\0\0\0\x09\x01\xff\0\0\0\0\0\0\0\0",
        b"",
        "Body(8,TermTooLarge)",
    ),
    (TERM_ZERO, b"", "Order(8)"),
    (CHANGED, b"", "Damaged(8)"),
    (OLD_AFTER, b"", "Order(54)"),
    (NO_DIGEST, b"", "Body(8,Short)"),
    (CHANGED, SECOND, "Damaged(8)"),
    (TERM_ONE, SECOND_CHANGED, "1:Damaged(8)"),
    (TERM_ONE, b"ABCDEFGHIJ", "1:Header"),
    (TERM_ONE, CUT, "1:Cut(8)"),
    (CUT, b"ABCDEFGHIJ", "Cut(8)"),
    (TERM_ONE, TERM_ONE, "1:Order(8)"),
    (SECOND, SECOND, "Twin"),
    (TAG, CUT, "1:Cut(8)"),
    (TAG, SECOND, "Body(8,Tag)"),
    (TERM_ZERO, SECOND, "Order(8)"),
];

// Whether inspecting these files writes only why they are no journal.
fn is_refused(alloc: Global, zero: &[u8], one: &[u8], why: &str) -> Result<bool, AllocError> {
    let line = format!(in alloc; "zen: not a journal: {why}\n")?;
    ends(
        alloc,
        (zero, one),
        Failing::Nothing,
        Inspection::NotAJournal,
        &line,
    )
}

fn refuse_each(alloc: Global, table: &[(&[u8], &[u8], &str)]) -> Result<(), Fail> {
    for (zero, one, why) in table {
        if !is_refused(alloc, zero, one, why)? {
            return Err(Fail::new(format_args!("{why}")));
        }
    }
    Ok(())
}

#[test]
fn files_that_are_no_journal_are_refused_by_their_first_fault(rt: HostRuntime) -> Result<(), Fail> {
    refuse_each(rt.alloc(), FAULTS)
}

// A failing call, how it ends an inspection of the journal of term 1, and how much is written: the sink takes 100 bytes a call. The
// other file is empty and is given a header: seven calls of the disk.
const ENDS: &[(Failing, Inspection, usize)] = &[
    (Failing::Host(1), Inspection::HostFault, 0),
    (Failing::Disk(1), Inspection::DiskFault, 0),
    (Failing::Disk(2), Inspection::DiskFault, 0),
    (Failing::Disk(3), Inspection::DiskFault, 0),
    (Failing::Disk(4), Inspection::DiskFault, 0),
    (Failing::Disk(5), Inspection::DiskFault, 0),
    (Failing::Disk(6), Inspection::DiskFault, 0),
    (Failing::Disk(7), Inspection::DiskFault, 0),
    (Failing::Sink(2), Inspection::WriteFault, 100),
];

fn is_cut_short(
    alloc: Global,
    failing: Failing,
    end: Inspection,
    length: usize,
) -> Result<bool, AllocError> {
    match TERM_ONE_LINES.get(..length) {
        Some(begun) => ends(alloc, (TERM_ONE, b""), failing, end, begun),
        None => Ok(false),
    }
}

#[test]
fn a_fault_of_the_host_its_disk_or_the_sink_ends_it(rt: HostRuntime) -> Result<(), Fail> {
    for (failing, end, length) in ENDS {
        let is_cut = is_cut_short(rt.alloc(), *failing, *end, *length)?;
        assert!(&rt; is_cut);
    }
    Ok(())
}
