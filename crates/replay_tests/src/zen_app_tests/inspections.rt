//! Runs of `inspect` over disks in memory: what is shown of a journal, and how an inspection ends without one. The lines are
//! those of docs/formats.md.
use super::runs::{Call, Case, Fault, INSPECT, Run, Written, all_end_by, ends, run_of};
use std::alloc::{AllocError, Global};
use std::test::Fail;
use zen_app::Status;
use zen_disk::{Disks, MemDisks, Side};

// A journal that has set term 1, the same with term 2 in the place of term 1, and one that has then accepted a state and committed
// it.
pub const TERM_ONE: &[u8] = b"ZENJRNL1\x01\0\0\0\x29\x81\0\0\0\0\0\0\0\x01\
    \x92\x01\x39\xd9\x73\x69\x77\xbb\xa9\xf8\x23\xbb\xa2\x04\x6e\xfd\x82\x28\x92\x77\xe0\x6e\xce\x8c\xf7\xd3\x41\xde\x67\x58\0\xc8\0";

const CHANGED: &[u8] = b"ZENJRNL1\x01\0\0\0\x29\x81\0\0\0\0\0\0\0\x02\
    \x92\x01\x39\xd9\x73\x69\x77\xbb\xa9\xf8\x23\xbb\xa2\x04\x6e\xfd\x82\x28\x92\x77\xe0\x6e\xce\x8c\xf7\xd3\x41\xde\x67\x58\0\xc8\0";

pub const COMMITTED: &[u8] = b"ZENJRNL1\x01\0\0\0\x29\x81\0\0\0\0\0\0\0\x01\
    \x92\x01\x39\xd9\x73\x69\x77\xbb\xa9\xf8\x23\xbb\xa2\x04\x6e\xfd\x82\x28\x92\x77\xe0\x6e\xce\x8c\xf7\xd3\x41\xde\x67\x58\0\xc8\
    \x01\0\0\0\x5b\x82\0\0\0\0\0\0\0\x01\0\0\0\0\0\0\0\x01\x01\0\0\0\0\0\0\0\0\0\0\0\0\0\0\0\0\x03\x01\x61\x01\x62\x01\
    \x63\x03\x01\x61\x01\x62\x01\x63\0\0\0\0\x01\0\x01\x76\0\x01\x78\
    \0\x20\x45\x74\x30\xb8\x15\x05\xad\xa9\x42\x2b\x31\x9c\x4b\x53\x59\x72\x81\x3a\xd0\x21\x36\x0d\xd5\x87\xb5\xec\x0a\x37\xfe\x3f\
    \x01\0\0\0\x21\x83\
    \x5e\xe0\xdd\x4d\x48\x40\x22\x9f\xab\x4a\x86\x43\x8e\xfb\xca\xf1\xb9\x57\x1a\xf9\x4f\x5a\xce\x5a\xcc\x94\xde\x19\xe9\x8e\xa9\xab\0";

// The first generation of the other file, whose record has term 4682.
const RENEWED: &[u8] =
    b"ZENJRNL1\x01\0\0\0\x4a\x84\0\0\0\0\0\0\0\x01\0\0\0\0\0\0\x12\x4a\0\0\0\0\0\0\0\0\0\0\0\0\0\0\0\0\0\0\0\0\0\0\0\0\0\
    \xf9\xd0\xa7\x36\xc9\xb4\x4d\xad\x06\x98\x32\xa6\x2e\x11\x07\x16\x9a\xf8\x3b\xf2\xe5\x9f\x12\x17\x66\x09\x0f\xea\x46\x84\xfe\xff\0";

// The same three of version 1, whose bodies have no digest and whose states no parent.
const OLD_TERM_ONE: &[u8] = b"ZENJRNL1\x01\0\0\0\x09\x01\0\0\0\0\0\0\0\x01\0";

const OLD_COMMITTED: &[u8] =
    b"ZENJRNL1\x01\0\0\0\x09\x01\0\0\0\0\0\0\0\x01\x01\0\0\0*\x02\0\0\0\0\0\0\0\x01\0\0\0\0\0\0\0\x01\
    \x03\x01a\x01b\x01c\x03\x01a\x01b\x01c\0\0\0\0\x01\0\x01v\0\x01x\x01\0\0\0\x01\x03\0";

const OLD_RENEWED: &[u8] = b"ZENJRNL1\x01\0\0\0\x29\x04\0\0\0\0\0\0\0\x01\0\0\0\0\0\0\x12\x4a\
    \0\0\0\0\0\0\0\0\0\0\0\0\0\0\0\0\0\0\0\0\0\0\0\0\0";

const CUT: &[u8] = b"ZENJRNL1\x01\0\0\0\xff\0";

const EMPTY_SHOWN: &[u8] =
    b"term=0\naccepted=0/0\nconfig=_\ncommitted=_\nrecords=0\nsha256=9d908ecfb6b256de";

const COMMIT_SHOWN: &[u8] =
    b"term=0\naccepted=0/0\nconfig=_\ncommitted=_\nrecords=1\nsha256=9d908ecfb6b256de";

const TERM_ONE_SHOWN: &[u8] =
    b"term=1\naccepted=0/0\nconfig=_\ncommitted=_\nrecords=1\nsha256=9d908ecfb6b256de";

const RENEWED_SHOWN: &[u8] =
    b"term=4682\naccepted=0/0\nconfig=_\ncommitted=_\nrecords=1\nsha256=9d908ecfb6b256de";

// Two files that are a journal, and what is shown of it first.
const SHOWN: &[(&[u8], &[u8], &[u8])] = &[
    (b"", b"", EMPTY_SHOWN),
    (b"ABCDEFGHI", b"", EMPTY_SHOWN),
    (b"ZENJRNL1\x02\0\0\0\x01\x05", b"", EMPTY_SHOWN),
    (b"ZENJRNL1\x01\0\0\0\x01\x03\0", b"", COMMIT_SHOWN),
    (TERM_ONE, b"", TERM_ONE_SHOWN),
    (OLD_TERM_ONE, b"", TERM_ONE_SHOWN),
    (
        COMMITTED,
        b"",
        b"term=1\naccepted=1/1\nconfig=a,b,c\ncommitted=a,b,c\nrecords=3\nsha256=344c174f3c524022",
    ),
    (
        OLD_COMMITTED,
        b"",
        b"term=1\naccepted=1/1\nconfig=a,b,c\ncommitted=a,b,c\nrecords=3\nsha256=6fe920e56fe08565",
    ),
    (TERM_ONE, RENEWED, RENEWED_SHOWN),
    (OLD_TERM_ONE, RENEWED, RENEWED_SHOWN),
    (OLD_TERM_ONE, OLD_RENEWED, RENEWED_SHOWN),
    (RENEWED, b"", RENEWED_SHOWN),
    (OLD_RENEWED, b"", RENEWED_SHOWN),
];

// Whether an inspection of these files ends so, and writes this first or alone.
fn inspects<'a>(
    alloc: Global,
    file: &'a [u8],
    other_file: &'a [u8],
    status: Status,
    lines: &[u8],
) -> Result<bool, AllocError> {
    let case = Case {
        file,
        other_file,
        ..INSPECT
    };
    ends(alloc, &case, status, Written::after(status, lines), 1)
}

fn inspect_each(alloc: Global, rows: &[(&[u8], &[u8], &[u8])], status: Status) -> Result<(), Fail> {
    for (place, (file, other_file, lines)) in rows.iter().enumerate() {
        if !inspects(alloc, file, other_file, status, lines)? {
            return Err(Fail::new(format_args!("row {place}")));
        }
    }
    Ok(())
}

// Also that of two generations the newer one is shown.
#[test]
fn the_journal_in_a_folder_is_shown(rt: HostRuntime) -> Result<(), Fail> {
    inspect_each(rt.alloc(), SHOWN, Status::Ok)
}

// Whether a side has the nine bytes of a journal with no record.
fn is_new(disk: &mut MemDisks, side: Side) -> bool {
    let mut bytes = [1; 9];
    disk.len(side) == Ok(9) && disk.read(side, 0, &mut bytes).is_ok() && bytes == *b"ZENJRNL1\0"
}

// Whether an inspection of an empty folder gives its disk back, and both sides of it are such journals.
fn are_new(alloc: Global) -> Result<bool, AllocError> {
    let Run { host, .. } = run_of(alloc, &INSPECT)?;
    match host.into_disk_back() {
        Some(mut disk) => Ok(is_new(&mut disk, Side::Zero) && is_new(&mut disk, Side::One)),
        None => Ok(false),
    }
}

#[test]
fn an_empty_folder_gets_an_empty_journal(rt: HostRuntime) -> Result<(), Fail> {
    let are_new = are_new(rt.alloc())?;
    assert!(rt; are_new);
    Ok(())
}

// Two files that are no journal, and what is written of their first fault.
const OTHER_FILES: &[(&[u8], &[u8], &[u8])] = &[
    (b"ABCDEFGHIJ", b"", b"zen: not a journal: Header\n"),
    (CUT, b"", b"zen: not a journal: Cut(8)\n"),
    (b"ZENJRNL1\x01\0\0\0", b"", b"zen: not a journal: Cut(8)\n"),
    (
        b"ZENJRNL1\x01\0\x80\0\x01",
        b"",
        b"zen: not a journal: Long(8)\n",
    ),
    (
        b"ZENJRNL1\x01\0\0\0\x02\x01\0\0",
        b"",
        b"zen: not a journal: Body(8,Short)\n",
    ),
    (
        b"ZENJRNL1\x01\0\0\0\x02\x03\0\0",
        b"",
        b"zen: not a journal: Body(8,Trailing)\n",
    ),
    (
        b"ZENJRNL1\x01\0\x80\0\x01\0",
        b"",
        b"zen: not a journal: Long(8)\n",
    ),
    (
        b"ZENJRNL1\x01\0\0\0\x01\x05\0",
        b"",
        b"zen: not a journal: Body(8,Tag)\n",
    ),
    (
        b"ZENJRNL1\x01\0\0\0\x09\x01\0\0\0\0\0\0\0\0\0",
        b"",
        b"zen: not a journal: Order(8)\n",
    ),
    (CHANGED, b"", b"zen: not a journal: Damaged(8)\n"),
    (CHANGED, RENEWED, b"zen: not a journal: Damaged(8)\n"),
    (b"", CUT, b"zen: not a journal: 1:Cut(8)\n"),
    (b"", TERM_ONE, b"zen: not a journal: 1:Order(8)\n"),
    (b"", OLD_TERM_ONE, b"zen: not a journal: 1:Order(8)\n"),
    (RENEWED, RENEWED, b"zen: not a journal: Twin\n"),
    (RENEWED, OLD_RENEWED, b"zen: not a journal: Twin\n"),
    (OLD_RENEWED, OLD_RENEWED, b"zen: not a journal: Twin\n"),
    (CUT, b"ABCDEFGHIJ", b"zen: not a journal: Cut(8)\n"),
    (RENEWED, b"ABCDEFGHIJ", b"zen: not a journal: 1:Header\n"),
    (
        b"ZENJRNL1\x01\0\0\0\x01\x05\0",
        CUT,
        b"zen: not a journal: 1:Cut(8)\n",
    ),
];

#[test]
fn files_that_are_no_journal_are_refused_for_their_first_fault(
    rt: HostRuntime,
) -> Result<(), Fail> {
    inspect_each(rt.alloc(), OTHER_FILES, Status::NotAJournal)
}

// Whether an inspection of this file whose device calls of these numbers fail ends with that.
fn fails<'a>(alloc: Global, file: &'a [u8], calls: &'a [u64]) -> Result<bool, AllocError> {
    let case = Case {
        file,
        device_calls: calls,
        ..INSPECT
    };
    ends(alloc, &case, Status::DiskFault, Written::Whole(b""), 1)
}

// A file, and how many device calls opening makes: four for each side that is empty, and three for one with a journal.
const OPENINGS: &[(&[u8], u64)] = &[(b"", 8), (TERM_ONE, 7)];

#[test]
fn a_fault_of_the_disk_ends_an_inspection(rt: HostRuntime) -> Result<(), Fail> {
    for (file, calls) in OPENINGS {
        for call in 1..=*calls {
            let fails = fails(rt.alloc(), file, &[call])?;
            assert!(rt; fails, "{call}");
        }
    }
    Ok(())
}

// The first two rows: no call of the disk comes after the eight that open two empty files, or the seven that open one journal.
const FAULTS: &[Fault] = &[
    (b"", Call::Device, &[9], Status::Ok, b"term=0\n"),
    (TERM_ONE, Call::Device, &[8], Status::Ok, b"term=1\n"),
    (TERM_ONE, Call::Opening, &[1], Status::HostFault, b""),
    (TERM_ONE, Call::Write, &[1], Status::WriteFault, b""),
    (b"ABCDEFGHIJ", Call::Write, &[1], Status::WriteFault, b""),
];

#[test]
fn a_fault_of_the_host_or_the_output_ends_an_inspection(rt: HostRuntime) -> Result<(), Fail> {
    all_end_by(&rt, rt.alloc(), INSPECT.words, FAULTS, 1)
}
