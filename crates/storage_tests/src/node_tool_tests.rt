//! Journals in memory on which the tools are used, and each device call of both struck in each way. The files, their digests and
//! those in the lines were made apart from the program.
use crate::hosts::{Failing, host_of, is_used_once, sink_of};
use crate::journals::{OLD_TERM_ONE, TERM_ONE, opened};
use crate::strikes::orders;
use node_tool::{Tool, ToolEnd, ToolError, detach_cluster, run_tool, unsafe_bootstrap};
use state_journal::{ArmKeeper, Keeper, PlainKeeper, Ready, StateJournal};
use std::alloc::{AllocError, Global};
use std::test::Fail;
use voting_config::{NodeId, NodeSet};
use zen_disk::{MemDisks, Order};

// Of the voters a, b and c: one that has begun, is in term 1 and has accepted the state 1/1, in which v is x.
const ACCEPTED: &[u8] =
    b"ZENJRNL\x31\x01\x00\x00\x00E\x82\x00\x00\x00\x00\x00\x00\x00\x00\x00\x00\x00\x00\x00\x00\x00\x00\x00\x03\x01a\
    \x01b\x01c\x03\x01a\x01b\x01c\x00\x00\x00\x00\x00\x07\xf1\xa6\x0d\x27j\xeev\xd7\x1fG\x35\x38\x31\x10\x92\xf2\x3f\
    JZ\x0d\x7c\x5f\x8d\x00\xdd\x7b\x04\xad\xef\x12\xc5\x01\x00\x00\x00\x29\x81\x00\x00\x00\x00\x00\x00\x00\x01\x92\
    \x01\x39\xd9siw\xbb\xa9\xf8\x23\xbb\xa2\x04n\xfd\x82\x28\x92w\xe0n\xce\x8c\xf7\xd3A\xdegX\x00\xc8\x01\x00\x00\
    \x00\x5b\x82\x00\x00\x00\x00\x00\x00\x00\x01\x00\x00\x00\x00\x00\x00\x00\x01\x01\x00\x00\x00\x00\x00\x00\x00\x00\
    \x00\x00\x00\x00\x00\x00\x00\x00\x03\x01a\x01b\x01c\x03\x01a\x01b\x01c\x00\x00\x00\x00\x01\x00\x01v\x00\x01x\x00\
    \x20Et\x30\xb8\x15\x05\xad\xa9B\x2b\x31\x9cKSYr\x81\x3a\xd0\x21\x36\x0d\xd5\x87\xb5\xec\x0a\x37\xfe\x3f\x00";

// One that has begun and is in term 1.
const BEGUN: &[u8] =
    b"ZENJRNL\x31\x01\x00\x00\x00E\x82\x00\x00\x00\x00\x00\x00\x00\x00\x00\x00\x00\x00\x00\x00\x00\x00\x00\x03\x01a\
    \x01b\x01c\x03\x01a\x01b\x01c\x00\x00\x00\x00\x00\x07\xf1\xa6\x0d\x27j\xeev\xd7\x1fG\x35\x38\x31\x10\x92\xf2\x3f\
    JZ\x0d\x7c\x5f\x8d\x00\xdd\x7b\x04\xad\xef\x12\xc5\x01\x00\x00\x00\x29\x81\x00\x00\x00\x00\x00\x00\x00\x01\x92\
    \x01\x39\xd9siw\xbb\xa9\xf8\x23\xbb\xa2\x04n\xfd\x82\x28\x92w\xe0n\xce\x8c\xf7\xd3A\xdegX\x00\xc8\x00";

// One in term 5 that has accepted a state 3/7 with a master, members, an exclusion and two settings, over another committed
// configuration.
const FULL: &[u8] =
    b"ZENJRNL\x31\x01\x00\x00\x00\x80\x84\x00\x00\x00\x00\x00\x00\x00\x01\x00\x00\x00\x00\x00\x00\x00\x05\x00\x00\x00\
    \x00\x00\x00\x00\x03\x00\x00\x00\x00\x00\x00\x00\x07\x01\x00\x00\x00\x00\x00\x00\x00\x02\x00\x00\x00\x00\x00\x00\
    \x00\x06\x03\x01a\x01b\x01c\x02\x01a\x01b\x01\x01b\x03\x01a\x01b\x01c\x01\x01d\x00\x02\x00\x01k\x00\x03one\x00\
    \x01v\x00\x01x\x02\x01a\x01b\x23\x39n\x0f\x29\xd1\xfd\x85\xfd\xaa\xe3f\x5el\x2bQ\x17\x8e\xd0\x9c\x2e\xa9I\x33\
    \xdf\xe0\x33\xec\x34\x2a\xf1\xd8\x00";

// One that has accepted the last version.
const LAST: &[u8] =
    b"ZENJRNL\x31\x01\x00\x00\x00\x29\x81\x00\x00\x00\x00\x00\x00\x00\x01\x92\x01\x39\xd9siw\xbb\xa9\xf8\x23\xbb\xa2\
    \x04n\xfd\x82\x28\x92w\xe0n\xce\x8c\xf7\xd3A\xdegX\x00\xc8\x01\x00\x00\x00M\x82\x00\x00\x00\x00\x00\x00\x00\x01\
    \x40\x00\x00\x00\x00\x00\x00\x00\x01\x00\x00\x00\x00\x00\x00\x00\x00\x00\x00\x00\x00\x00\x00\x00\x00\x01\x01a\
    \x01\x01a\x00\x00\x00\x00\x00\x5e\x1d\xb5\xbfrX\x9b\x34v\x3d\x21N\xe3\xect\x3b\xe1\x28\xd9\xb0q\xf2n\x7em\xbb\
    \xb0\x7b\x35\xcc\xe5\x9f\x00";

const ACCEPTED_ALONE: &str =
    "term=1\naccepted=1/2\nconfig=a\ncommitted=a\nrecords=4\nsha256=853ba6494ff963ea7b2e2963cae2f5634\
    5db6b240a09dda33b968eb8a549a2b3\nstate={\"committed\":[\"a\"],\"config\":[\"a\"],\"parent\":{\"t\
    erm\":1,\"version\":1},\"term\":1,\"value\":{\"exclusions\":[],\"master\":null,\"members\":[\"a\
    \"],\"settings\":{\"v\":\"x\"}},\"version\":2}\n";

const BEGUN_ALONE: &str =
    "term=1\naccepted=1/1\nconfig=c\ncommitted=c\nrecords=3\nsha256=14f7ca9d076e9ab22053d4227b2d99d33\
    14d266b4675f288199a412e10f5f453\nstate={\"committed\":[\"c\"],\"config\":[\"c\"],\"parent\":{\"t\
    erm\":0,\"version\":0},\"term\":1,\"value\":{\"exclusions\":[],\"master\":null,\"members\":[\"c\
    \"],\"settings\":{}},\"version\":1}\n";

const FULL_ALONE: &str =
    "term=5\naccepted=5/8\nconfig=b\ncommitted=b\nrecords=2\nsha256=f2efefaaf64c1f3bb2ca8e7870aef2842\
    9b3ac68e24d87be33ffc1cbf570b9ce\nstate={\"committed\":[\"b\"],\"config\":[\"b\"],\"parent\":{\"t\
    erm\":3,\"version\":7},\"term\":5,\"value\":{\"exclusions\":[],\"master\":null,\"members\":[\"b\
    \"],\"settings\":{\"k\":\"one\",\"v\":\"x\"}},\"version\":8}\n";

const BEGUN_OUT: &str =
    "term=1\naccepted=0/0\nconfig=_\ncommitted=_\nrecords=3\nsha256=9d908ecfb6b256def8b49a7c504e6c889\
    c4b0e41fe6ce3e01863dd7b61a20aa0\nstate={\"committed\":[],\"config\":[],\"parent\":null,\"term\":\
    0,\"value\":{\"exclusions\":[],\"master\":null,\"members\":[],\"settings\":{}},\"version\":0}\n";

const FULL_OUT: &str =
    "term=5\naccepted=0/0\nconfig=_\ncommitted=_\nrecords=2\nsha256=9d908ecfb6b256def8b49a7c504e6c889\
    c4b0e41fe6ce3e01863dd7b61a20aa0\nstate={\"committed\":[],\"config\":[],\"parent\":null,\"term\":\
    0,\"value\":{\"exclusions\":[],\"master\":null,\"members\":[],\"settings\":{}},\"version\":0}\n";

const LAST_OUT: &str =
    "term=1\naccepted=0/0\nconfig=_\ncommitted=_\nrecords=3\nsha256=9d908ecfb6b256def8b49a7c504e6c889\
    c4b0e41fe6ce3e01863dd7b61a20aa0\nstate={\"committed\":[],\"config\":[],\"parent\":null,\"term\":\
    0,\"value\":{\"exclusions\":[],\"master\":null,\"members\":[],\"settings\":{}},\"version\":0}\n";

const NO_STATE: &str = "zen: refused: NoState\n";

const HEADER: &str = "zen: not a journal: Header\n";

const EXHAUSTED: &str = "zen: refused: Exhausted(4611686018427387904)\n";

fn tool_of(name: &str) -> Tool {
    match NodeId::from_bytes(name.as_bytes()) {
        Some(id) => Tool::UnsafeBootstrap(id),
        None => Tool::DetachCluster,
    }
}

const NONE: Failing = Failing::Nothing;

// A node that is to go on alone, or none where it is to leave, its first file, what fails, how that ends, and with which text.
type Row = (&'static str, &'static [u8], Failing, ToolEnd, &'static str);

fn holds(alloc: Global, row: &Row) -> Result<bool, AllocError> {
    let (alone, file, failing, want, text) = *row;
    let mut sink = sink_of(alloc, failing)?;
    let mut host = host_of(alloc, file, b"", failing)?;
    let end = run_tool(alloc, tool_of(alone), "a", &mut sink, &mut host);
    let is_used_once = is_used_once(host, want != ToolEnd::HostFault);
    Ok(end == want && is_used_once && *sink.as_bytes() == *text.as_bytes())
}

// Opening takes seven calls, and a write four.
const ROWS: &[Row] = &[
    ("a", ACCEPTED, NONE, ToolEnd::Done, ACCEPTED_ALONE),
    ("c", BEGUN, NONE, ToolEnd::Done, BEGUN_ALONE),
    ("b", FULL, NONE, ToolEnd::Done, FULL_ALONE),
    ("_", BEGUN, NONE, ToolEnd::Done, BEGUN_OUT),
    ("_", FULL, NONE, ToolEnd::Done, FULL_OUT),
    ("_", LAST, NONE, ToolEnd::Done, LAST_OUT),
    ("a", b"", NONE, ToolEnd::Refused, NO_STATE),
    ("_", b"", NONE, ToolEnd::Refused, NO_STATE),
    ("a", TERM_ONE, NONE, ToolEnd::Refused, NO_STATE),
    ("_", OLD_TERM_ONE, NONE, ToolEnd::Refused, NO_STATE),
    ("a", LAST, NONE, ToolEnd::Refused, EXHAUSTED),
    ("a", b"ABCDEFGHIJ", NONE, ToolEnd::NotAJournal, HEADER),
    ("a", FULL, Failing::Host(1), ToolEnd::HostFault, ""),
    ("_", FULL, Failing::Host(1), ToolEnd::HostFault, ""),
    ("a", FULL, Failing::Disk(1), ToolEnd::DiskFault, ""),
    ("a", FULL, Failing::Disk(7), ToolEnd::DiskFault, ""),
    ("a", FULL, Failing::Disk(8), ToolEnd::DiskFault, ""),
    ("_", FULL, Failing::Disk(11), ToolEnd::DiskFault, ""),
    ("a", FULL, Failing::Sink(1), ToolEnd::WriteFault, ""),
    ("_", b"", Failing::Sink(1), ToolEnd::WriteFault, ""),
];

#[test]
fn a_tool_is_used_on_a_folder(rt: HostRuntime) -> Result<(), Fail> {
    for (at, row) in ROWS.iter().enumerate() {
        assert!(&rt; holds(rt.alloc(), row)?, "row {at}");
    }
    Ok(())
}

fn id(name: &str) -> Result<NodeId, Fail> {
    match NodeId::from_bytes(name.as_bytes()) {
        Some(id) => Ok(id),
        None => Err(Fail::new("no id")),
    }
}

fn accepts(keeper: &mut PlainKeeper, initial: Ready) -> bool {
    initial.state().term == 0 && keeper.set_accepted(initial).is_ok()
}

fn is_alone(alloc: Global, id: NodeId, keeper: &mut PlainKeeper) -> bool {
    unsafe_bootstrap(alloc, id, keeper) == Ok(()) && keeper.kept().accepted.version == 1
}

// The answers in turn, to a node without a state and to one with.
fn answers_in_turn(alloc: Global, id: NodeId, keeper: &mut PlainKeeper, initial: Ready) -> bool {
    let at_first = unsafe_bootstrap(alloc, id, keeper);
    let is_set = accepts(keeper, initial);
    at_first == Err(ToolError::NoState)
        && is_set
        && is_alone(alloc, id, keeper)
        && detach_cluster(alloc, keeper) == Ok(())
        && detach_cluster(alloc, keeper) == Err(ToolError::NoState)
}

// Over a keeper in memory.
#[test]
fn the_tools_answer(rt: HostRuntime) -> Result<(), Fail> {
    let alloc = rt.alloc();
    let id = id("a")?;
    let initial = Ready::initial(alloc, &NodeSet::of(&[id]))?;
    let mut keeper = PlainKeeper::new(alloc)?;
    let are_answers = answers_in_turn(alloc, id, &mut keeper, initial);
    assert!(&rt; are_answers);
    Ok(())
}

// What files keep: an old state, one in which a node is alone, or none.
#[derive(Clone, Copy, PartialEq, Eq)]
enum Found {
    Old,
    Alone,
    Out,
    Nothing,
}

fn kept_by(voters: usize) -> Found {
    match voters {
        0 => Found::Out,
        1 => Found::Alone,
        _ => Found::Old,
    }
}

fn opened_again(alloc: Global, disk: MemDisks) -> Found {
    match StateJournal::open(alloc, disk) {
        Ok(journal) => kept_by(journal.kept().committed.members().len()),
        Err(_) => Found::Nothing,
    }
}

// What an opening finds where this order strikes a call of the tool, which answers Disk. A second use answers Stopped.
fn struck(alloc: Global, alone: &str, file: &[u8], order: Order) -> Option<Found> {
    let mut journal = opened(alloc, file, b"")?;
    journal.arm(order);
    let first = tool_of(alone).apply(alloc, &mut journal);
    let second = tool_of(alone).apply(alloc, &mut journal);
    let found = opened_again(alloc, journal.into_disk().into_disk());
    (first == Err(ToolError::Disk) && second == Err(ToolError::Stopped)).then_some(found)
}

// What each call leaves: where it is stopped and all that is not synced is lost, is kept or becomes 01, and where it fails.
// True where it is the new record.
const CALLS: &[[bool; 4]] = &[
    [false, false, false, false],
    [false, false, false, false],
    [false, true, true, false],
    [false, true, true, true],
];

fn strike_each(alloc: Global, alone: &str, file: &[u8], new: Found) -> Result<(), Fail> {
    let mut call = 0u64;
    for leaves in CALLS {
        call = call.saturating_add(1);
        let orders = orders(call);
        for (order, is_new) in orders.iter().zip(leaves) {
            let want = if *is_new { new } else { Found::Old };
            if struck(alloc, alone, file, *order) != Some(want) {
                return Err(Fail::new(format_args!("call {call}")));
            }
        }
    }
    Ok(())
}

const FILES: &[&[u8]] = &[ACCEPTED, BEGUN, FULL];

#[test]
fn each_device_call_leaves_the_old_record_or_the_new(rt: HostRuntime) -> Result<(), Fail> {
    for file in FILES {
        strike_each(rt.alloc(), "b", file, Found::Alone)?;
        strike_each(rt.alloc(), "_", file, Found::Out)?;
    }
    Ok(())
}
