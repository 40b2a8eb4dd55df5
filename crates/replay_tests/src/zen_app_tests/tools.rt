//! Runs of the tools over disks in memory. The journals that they are used on, and the digests that they show, were made apart from
//! the program.
use super::inspections::{COMMITTED, TERM_ONE};
use super::runs::{Call, Ending, Fault, NO_READ, Rest, all_end, all_end_by};
use std::test::Fail;
use zen_app::Status;

// A journal of the last version.
const LAST: &[u8] =
    b"ZENJRNL\x31\x01\x00\x00\x00\x29\x81\x00\x00\x00\x00\x00\x00\x00\x01\x92\x01\x39\xd9siw\xbb\xa9\xf8\x23\xbb\xa2\
    \x04n\xfd\x82\x28\x92w\xe0n\xce\x8c\xf7\xd3A\xdegX\x00\xc8\x01\x00\x00\x00M\x82\x00\x00\x00\x00\x00\x00\x00\x01\
    \x40\x00\x00\x00\x00\x00\x00\x00\x01\x00\x00\x00\x00\x00\x00\x00\x00\x00\x00\x00\x00\x00\x00\x00\x00\x01\x01a\
    \x01\x01a\x00\x00\x00\x00\x00\x5e\x1d\xb5\xbfrX\x9b\x34v\x3d\x21N\xe3\xect\x3b\xe1\x28\xd9\xb0q\xf2n\x7em\xbb\
    \xb0\x7b\x35\xcc\xe5\x9f\x00";

const NO_STATE: &[u8] = b"zen: refused: NoState\n";

// The node a is to go on alone.
const GO_ALONE: &[&str] = &["unsafe-bootstrap", "--id", "a", "--dir", "a"];

// The node is to leave its cluster.
const LEAVE: &[&str] = &["detach-cluster", "--dir", "a"];

const USES: &[Ending] = &[
    (
        COMMITTED,
        GO_ALONE,
        Status::Ok,
        b"term=1\naccepted=1/2\nconfig=a\ncommitted=a\nrecords=4\nsha256=853ba6494ff963ea",
        1,
    ),
    (
        COMMITTED,
        LEAVE,
        Status::Ok,
        b"term=1\naccepted=0/0\nconfig=_\ncommitted=_\nrecords=4\nsha256=9d908ecfb6b256de",
        1,
    ),
    // a node of no cluster neither goes on alone nor leaves one
    (TERM_ONE, GO_ALONE, Status::ToolRefused, NO_STATE, 1),
    (b"", LEAVE, Status::ToolRefused, NO_STATE, 1),
    // no version comes after the last
    (
        LAST,
        GO_ALONE,
        Status::ToolRefused,
        b"zen: refused: Exhausted(4611686018427387904)\n",
        1,
    ),
    (
        b"ABCDEFGHIJ",
        LEAVE,
        Status::NotAJournal,
        b"zen: not a journal: Header\n",
        1,
    ),
];

#[test]
fn a_tool_changes_a_record_or_refuses_it(rt: HostRuntime) -> Result<(), Fail> {
    all_end(&rt, rt.alloc(), NO_READ, Rest::MoreIfOk, USES)
}

// The first call of the disk after the seven that open it, the host, and the output.
const FAULTS: &[Fault] = &[
    (COMMITTED, Call::Device, &[8], Status::DiskFault, b""),
    (COMMITTED, Call::Opening, &[1], Status::HostFault, b""),
    (COMMITTED, Call::Write, &[1], Status::WriteFault, b""),
];

#[test]
fn a_tool_ends_at_a_fault(rt: HostRuntime) -> Result<(), Fail> {
    all_end_by(&rt, rt.alloc(), GO_ALONE, FAULTS, 1)
}
