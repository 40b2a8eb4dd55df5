//! Runs of `audit`. The verdicts follow from what the traces show.
use super::runs::{Call, Case, Fault, REPLAY, Written, all_end_by, ends};
use crate::trace_audit_tests::{ELECTION, UNSENT};
use std::alloc::{AllocError, Global};
use std::test::Fail;
use zen_app::Status;

const AUDIT: &[&str] = &["audit"];

const ONE_BOOT: &[u8] = b"initial a\nact a ok boot a\n";

// A recorded trace, the status, and what is written.
const TRACES: &[(&str, Status, &[u8])] = &[
    (
        ELECTION,
        Status::Ok,
        b"legal=8\nwinners=1\ncommitted=0\nwon a 1\n",
    ),
    (UNSENT, Status::NotLegal, b"zen: line 20: Unsent\n"),
    (
        "initial a,b,c\nfoo\n",
        Status::BadTrace,
        b"zen: bad trace at line 2: Word\n",
    ),
    ("", Status::BadTrace, b"zen: bad trace at line 1: Header\n"),
];

// Whether an audit of this trace ends so and writes this.
fn is_judged(alloc: Global, trace: &str, status: Status, text: &[u8]) -> Result<bool, AllocError> {
    let case = Case {
        words: AUDIT,
        input: trace.as_bytes(),
        ..REPLAY
    };
    ends(alloc, &case, status, Written::Whole(text), 0)
}

#[test]
fn an_audit_says_whether_a_trace_is_legal(rt: HostRuntime) -> Result<(), Fail> {
    for (trace, status, text) in TRACES {
        let is_judged = is_judged(rt.alloc(), trace, *status, text)?;
        assert!(rt; is_judged, "{trace}");
    }
    Ok(())
}

const FAULTS: &[Fault] = &[
    (ONE_BOOT, Call::Read, &[1], Status::ReadFault, b""),
    (ONE_BOOT, Call::Write, &[1], Status::WriteFault, b""),
];

#[test]
fn an_audit_ends_at_a_fault(rt: HostRuntime) -> Result<(), Fail> {
    all_end_by(&rt, rt.alloc(), AUDIT, FAULTS, 0)
}
