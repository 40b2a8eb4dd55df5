//! Frames byte by byte, streams however they are cut, and first faults. The bytes are those of docs/formats.md.
ghost use Rattle.std.specs.Prelude.{IfOk};
ghost use Rattle.wire_frames.specs.Frames.{IsFitFrame};
ghost use Rattle.wire_frames.specs.Messages.{IsFitMessage};

use crate::names::{id, set};
use cluster_state::{ClusterState, FieldError, SharedState, StateId};
use std::alloc::{AllocError, Global};
use std::test::Fail;
use voting_config::IdList;
use wire_frames::{
    Frame, FrameError, FrameReader, FrameView, Kind, MessageView, WireMessage, law_cut,
    law_first_frame, law_one_frame, law_stream, write_frame,
};

// The frame of a join from a to b in term 1, with 0/0 as the last accepted state.
const JOIN: &[u8; 33] = &[
    0, 0, 0, 29, 2, 1, 97, 1, 98, 0, 0, 0, 0, 0, 0, 0, 1, 0, 0, 0, 0, 0, 0, 0, 0, 0, 0, 0, 0, 0, 0,
    0, 0,
];

// A pre-vote ask from a to b.
const ASK: &[u8] = &[0, 0, 0, 5, 9, 1, 97, 1, 98];

// The ask without its first byte.
const ASK_BUT_A_BYTE: &[u8] = &[0, 0, 5, 9, 1, 97, 1, 98];

// The ask, and then a frame that is too long.
const ASK_AND_TOO_LONG: &[u8] = &[0, 0, 0, 5, 9, 1, 97, 1, 98, 0, 0x80, 0, 1];

fn says_join(message: &WireMessage) -> bool {
    match message {
        WireMessage::Join { term, last } => *term == 1 && last.term == 0 && last.version == 0,
        _ => false,
    }
}

fn is_join(frame: FrameView) -> bool {
    match &frame.message() {
        MessageView::Other(message) => {
            frame.from() == id("a") && frame.to() == id("b") && says_join(message)
        }
        MessageView::Publish(_) | MessageView::PeersAsk { .. } | MessageView::PeersAnswer { .. } =>
            false,
    }
}

// How many frames a reader gives, and the fault after them.
fn given(reader: &mut FrameReader) -> (usize, Option<FrameError>) {
    let mut frames: usize = 0;
    for _ in 0..100 {
        match reader.next() {
            None => return (frames, None),
            Some(Err(fault)) => return (frames, Some(fault)),
            Some(Ok(_)) => frames = frames.saturating_add(1),
        }
    }
    (frames, None)
}

// Whether a reader gives so many frames once these bytes have come, and this fault after them.
fn gives(reader: &mut FrameReader, bytes: &[u8], count: usize, fault: Option<FrameError>) -> bool {
    reader.push(bytes).is_ok() && given(reader) == (count, fault)
}

// Bytes that come in two parts, with the number of their frames and the fault after them.
#[derive(Clone, Copy)]
struct Parts<'a> {
    first: &'a [u8],
    second: &'a [u8],
    frames: usize,
    fault: Option<FrameError>,
}

// Whether a new reader gives so many frames for the two parts, with this fault after them.
fn are_given(alloc: Global, parts: Parts) -> bool {
    let mut reader = FrameReader::new(alloc);
    let is_first = reader.push(parts.first).is_ok();
    let (before, _) = given(&mut reader);
    let is_second = reader.push(parts.second).is_ok();
    let (after, fault) = given(&mut reader);
    let is_so = before.saturating_add(after) == parts.frames && fault == parts.fault;
    is_first && is_second && is_so
}

fn ends_the_join(reader: &mut FrameReader, bytes: &[u8]) -> bool {
    if reader.push(bytes).is_err() {
        return false;
    }
    match reader.next() {
        Some(Ok(frame)) => is_join(frame),
        _ => false,
    }
}

#[test]
fn a_join_byte_by_byte(rt: HostRuntime) -> Result<(), Fail> {
    let (begun, last) = JOIN.split_at_checked(32).ok_or("a join has 33 bytes")?;
    let mut reader = FrameReader::new(rt.alloc());
    for byte in begun {
        assert!(rt; gives(&mut reader, &[*byte], 0, None));
    }
    assert!(rt; ends_the_join(&mut reader, last));
    Ok(())
}

// The join with other bytes at these places.
fn join_with(changes: &[(usize, u8)]) -> [u8; 33] {
    let mut bytes = *JOIN;
    for (place, byte) in changes {
        if let Some(slot) = bytes.get_mut(*place) {
            *slot = *byte;
        }
    }
    bytes
}

// Changes of the join, bytes after it, how many frames they are, and the fault after those.
const FAULTS: &[(&str, &[(usize, u8)], &[u8], usize, Option<FrameError>)] = &[
    (
        "a byte too many",
        &[(3, 30)],
        &[0],
        0,
        Some(FrameError::Trailing),
    ),
    ("the greatest term", &[(9, 0x40), (16, 0)], &[], 1, None),
    (
        "a greater term",
        &[(9, 0x40)],
        &[],
        0,
        Some(FrameError::Field(FieldError::TermTooLarge)),
    ),
    (
        "a kind between two others",
        &[(4, 3)],
        &[],
        0,
        Some(FrameError::UnknownKind(3)),
    ),
    (
        "a kind before the last",
        &[(4, 16)],
        &[],
        0,
        Some(FrameError::UnknownKind(16)),
    ),
    (
        "a kind after the last",
        &[(4, 18)],
        &[],
        0,
        Some(FrameError::UnknownKind(18)),
    ),
    ("an empty state", &[(4, 17)], &[], 1, None),
    (
        "64 known peers, the first without a letter",
        &[(4, 7), (9, 64)],
        &[],
        0,
        Some(FrameError::Field(FieldError::BadId)),
    ),
    (
        "65 known peers",
        &[(4, 7), (9, 65)],
        &[],
        0,
        Some(FrameError::Field(FieldError::TooMany)),
    ),
    (
        "a state that is its own parent",
        &[(3, 45), (4, 17), (16, 0), (25, 1)],
        &[0; 16],
        0,
        Some(FrameError::Field(FieldError::BadParent)),
    ),
];

#[test]
fn the_first_fault_of_a_frame_is_named(rt: HostRuntime) {
    for row in FAULTS {
        let (name, changes, second, frames, fault) = *row;
        let first = join_with(changes);
        let parts = Parts {
            first: &first,
            second,
            frames,
            fault,
        };
        assert!(rt; are_given(rt.alloc(), parts), "{name}");
    }
}

// Bytes that come in two parts and are no frame, and their fault.
const LENGTHS: &[(&str, &[u8], &[u8], Option<FrameError>)] = &[
    ("three bytes", &[0, 0x80, 0], &[], None),
    ("the greatest length", &[0, 0x80, 0], &[0], None),
    (
        "a greater length",
        &[0, 0x80, 0],
        &[1],
        Some(FrameError::TooLong),
    ),
    (
        "no length",
        &[0; 4],
        &[],
        Some(FrameError::Field(FieldError::Short)),
    ),
];

#[test]
fn a_frame_of_more_than_8_388_608_bytes_is_too_long(rt: HostRuntime) {
    for row in LENGTHS {
        let (name, first, second, fault) = *row;
        let parts = Parts {
            first,
            second,
            frames: 0,
            fault,
        };
        assert!(rt; are_given(rt.alloc(), parts), "{name}");
    }
}

// The join, and then the ask.
const BOTH: &[u8; 42] =
    b"\0\0\0\x1d\x02\x01a\x01b\0\0\0\0\0\0\0\x01\0\0\0\0\0\0\0\0\0\0\0\0\0\0\0\0\0\0\0\x05\x09\x01a\x01b";

// Two whole frames, and no fault after them.
fn two<'a>(first: &'a [u8], second: &'a [u8]) -> Parts<'a> {
    Parts {
        first,
        second,
        frames: 2,
        fault: None,
    }
}

fn are_two_cut_at(alloc: Global, place: usize) -> bool {
    match BOTH.split_at_checked(place) {
        Some((first, second)) => are_given(alloc, two(first, second)),
        None => false,
    }
}

#[test]
fn two_frames_cut_at_each_place(rt: HostRuntime) {
    for place in 0..42 {
        assert!(rt; are_two_cut_at(rt.alloc(), place), "cut at {place}");
    }
}

// The same, and the first byte of another ask.
const BOTH_AND_A_BYTE: &[u8; 43] =
    b"\0\0\0\x1d\x02\x01a\x01b\0\0\0\0\0\0\0\x01\0\0\0\0\0\0\0\0\0\0\0\0\0\0\0\0\0\0\0\x05\x09\x01a\x01b\0";

#[test]
fn two_frames_and_what_begins_a_third(rt: HostRuntime) {
    let mut reader = FrameReader::new(rt.alloc());
    assert!(rt; gives(&mut reader, BOTH_AND_A_BYTE, 2, None));
    assert!(rt; gives(&mut reader, ASK_BUT_A_BYTE, 1, None));
}

// The publication of an empty state, and then the ask.
const PUBLICATION_AND_ASK: &[u8; 42] =
    b"\0\0\0\x1d\x11\x01a\x01b\0\0\0\0\0\0\0\x01\0\0\0\0\0\0\0\0\0\0\0\0\0\0\0\0\0\0\0\x05\x09\x01a\x01b";

const EMPTY_STATE: &[u8; 24] = b"\0\0\0\0\0\0\0\x01\0\0\0\0\0\0\0\0\0\0\0\0\0\0\0\0";

fn is_publication(frame: FrameView, state: &[u8]) -> bool {
    match &frame.message() {
        MessageView::Publish(view) => *view.bytes() == *state,
        MessageView::PeersAsk { .. } | MessageView::PeersAnswer { .. } | MessageView::Other(_) =>
            false,
    }
}

// Whether a publication stands first in these bytes, whose state has those.
fn lends(reader: &mut FrameReader, bytes: &[u8], state: &[u8]) -> bool {
    if reader.push(bytes).is_err() {
        return false;
    }
    match reader.next() {
        Some(Ok(frame)) => is_publication(frame, state),
        _ => false,
    }
}

#[test]
fn a_state_has_no_bytes_of_the_next_frame(rt: HostRuntime) {
    let mut reader = FrameReader::new(rt.alloc());
    assert!(rt; lends(&mut reader, PUBLICATION_AND_ASK, EMPTY_STATE));
}

#[test]
fn a_fault_behind_a_frame(rt: HostRuntime) {
    let mut reader = FrameReader::new(rt.alloc());
    let fault = Some(FrameError::TooLong);
    assert!(rt; gives(&mut reader, ASK_AND_TOO_LONG, 1, fault));
    assert!(rt; gives(&mut reader, ASK, 0, fault));
}

// Whether a reader that passes over the frames in these bytes has this fault after them, and gives none of them.
fn skips(alloc: Global, bytes: &[u8], fault: Option<FrameError>) -> bool {
    let mut reader = FrameReader::new(alloc);
    reader.push(bytes).is_ok() && reader.skip_frames() == fault && given(&mut reader) == (0, fault)
}

#[test]
fn frames_are_passed_over(rt: HostRuntime) {
    assert!(rt; skips(rt.alloc(), BOTH_AND_A_BYTE, None));
    assert!(rt; skips(rt.alloc(), ASK_AND_TOO_LONG, Some(FrameError::TooLong)));
}

// The body of a frame from a to b.
fn body(alloc: Global, kind: u8, fields: &[u8]) -> Result<Vec<u8>, AllocError> {
    let mut body = Vec::new(alloc);
    body.extend_from_slice(&[kind, 1, 97, 1, 98])?;
    body.extend_from_slice(fields)?;
    Ok(body)
}

// Whether a frame is the length of its short body, in four bytes, and the body.
fn is_frame_of(bytes: &[u8], body: &[u8]) -> bool {
    let Ok(size) = u8::try_from(body.len()) else {
        return false;
    };
    match bytes.split_at_checked(4) {
        Some((length, rest)) => length == [0, 0, 0, size].as_slice() && rest == body,
        None => false,
    }
}

fn copied(alloc: Global, read: &FrameView) -> Result<Frame, AllocError>
    ensures { IfOk result IsFitFrame }
{
    let frame = read.frame(alloc)?;
    frame.copy()
}

fn is_written_as(alloc: Global, frame: &Frame, bytes: &[u8]) -> bool
    requires { IsFitFrame frame.now }
{
    match write_frame(alloc, frame) {
        Ok(written) => written.as_slice() == bytes,
        Err(_) => false,
    }
}

fn is_copied_so(alloc: Global, read: &FrameView, bytes: &[u8]) -> bool {
    match copied(alloc, read) {
        Ok(copy) => is_written_as(alloc, &copy, bytes),
        Err(_) => false,
    }
}

// Whether a message of the kind with this byte is read from a body, whose copy is written as these bytes.
fn is_read_back(alloc: Global, kind: u8, body: &[u8], bytes: &[u8]) -> bool {
    match FrameView::of(body) {
        Ok(read) => Kind::of(kind) == Some(read.kind()) && is_copied_so(alloc, &read, bytes),
        Err(_) => false,
    }
}

const ID: StateId = StateId {
    term: 1,
    version: 2,
};

// A message of the kind.
fn message(alloc: Global, kind: Kind) -> Result<WireMessage, AllocError>
    ensures { IfOk result IsFitMessage }
{
    match kind {
        Kind::StartJoin => Ok(WireMessage::StartJoin {
            candidate: id("c"),
            term: 1,
        }),
        Kind::Join => Ok(WireMessage::Join { term: 1, last: ID }),
        Kind::Publish => publish(alloc),
        Kind::Response => Ok(WireMessage::Response(ID)),
        Kind::Commit => Ok(WireMessage::Commit(ID)),
        Kind::JoinAsk => Ok(WireMessage::JoinAsk { term: 3 }),
        Kind::PeersAsk => Ok(WireMessage::PeersAsk {
            known: IdList::of(alloc, &set("a,b"))?,
        }),
        Kind::PeersAnswer => Ok(WireMessage::PeersAnswer {
            master: None,
            term: 3,
            known: IdList::of(alloc, &set("a"))?,
        }),
        Kind::PreVoteAsk => Ok(WireMessage::PreVoteAsk),
        Kind::PreVoteAnswer => Ok(WireMessage::PreVoteAnswer { term: 1, last: ID }),
        Kind::PreVoteRefuse => Ok(WireMessage::PreVoteRefuse { leader: id("c") }),
        Kind::FollowerCheck => Ok(WireMessage::FollowerCheck { term: 3 }),
        Kind::FollowerAnswer => Ok(WireMessage::FollowerAnswer {
            good: true,
            term: 1,
            applied: ID,
        }),
        Kind::LeaderCheck => Ok(WireMessage::LeaderCheck { term: 3 }),
        Kind::LeaderAnswer => Ok(WireMessage::LeaderAnswer { good: false }),
    }
}

// The state that node a begins with.
fn publish(alloc: Global) -> Result<WireMessage, AllocError>
    ensures { IfOk result IsFitMessage }
{
    let state = ClusterState::initial(alloc, &set("a"))?;
    Ok(WireMessage::Publish(SharedState::spell(alloc, state)?))
}

// The message of the kind, from a to b.
fn frame(alloc: Global, kind: Kind) -> Result<Frame, AllocError>
    ensures { IfOk result IsFitFrame }
{
    Ok(Frame {
        from: id("a"),
        to: id("b"),
        message: message(alloc, kind)?,
    })
}

// Whether a frame is written as a length and this body, and is read back from it.
fn is_body_of(alloc: Global, frame: &Frame, byte: u8, body: &[u8]) -> bool
    requires { IsFitFrame frame.now }
{
    match write_frame(alloc, frame) {
        Ok(bytes) => {
            is_frame_of(bytes.as_slice(), body) && is_read_back(alloc, byte, body, bytes.as_slice())
        }
        Err(_) => false,
    }
}

// Whether a frame of the kind has its byte, and these bytes after the ids, and is read back from them.
fn is_spelled(alloc: Global, kind: Kind, byte: u8, fields: &[u8]) -> Result<bool, AllocError> {
    let frame = frame(alloc, kind)?;
    let body = body(alloc, byte, fields)?;
    Ok(is_body_of(alloc, &frame, byte, &body))
}

// Kinds, their bytes, and the bytes of the fields behind the ids.
const KINDS: &[(Kind, u8, &[u8])] = &[
    (Kind::StartJoin, 1, b"\x01c\0\0\0\0\0\0\0\x01"),
    (
        Kind::Join,
        2,
        b"\0\0\0\0\0\0\0\x01\0\0\0\0\0\0\0\x01\0\0\0\0\0\0\0\x02",
    ),
    (Kind::Response, 4, b"\0\0\0\0\0\0\0\x01\0\0\0\0\0\0\0\x02"),
    (Kind::Commit, 5, b"\0\0\0\0\0\0\0\x01\0\0\0\0\0\0\0\x02"),
    (Kind::JoinAsk, 6, b"\0\0\0\0\0\0\0\x03"),
    (Kind::PeersAsk, 7, b"\x02\x01a\x01b"),
    (Kind::PeersAnswer, 8, b"\0\0\0\0\0\0\0\0\x03\x01\x01a"),
    (Kind::PreVoteAsk, 9, b""),
    (
        Kind::PreVoteAnswer,
        10,
        b"\0\0\0\0\0\0\0\x01\0\0\0\0\0\0\0\x01\0\0\0\0\0\0\0\x02",
    ),
    (Kind::PreVoteRefuse, 11, b"\x01c"),
    (Kind::FollowerCheck, 12, b"\0\0\0\0\0\0\0\x03"),
    (
        Kind::FollowerAnswer,
        13,
        b"\x01\0\0\0\0\0\0\0\x01\0\0\0\0\0\0\0\x01\0\0\0\0\0\0\0\x02",
    ),
    (Kind::LeaderCheck, 14, b"\0\0\0\0\0\0\0\x03"),
    (Kind::LeaderAnswer, 15, b"\0"),
    // 0/0 with no parent, the configurations of a, no master, and a value of nothing.
    (
        Kind::Publish,
        17,
        b"\0\0\0\0\0\0\0\0\0\0\0\0\0\0\0\0\0\x01\x01a\x01\x01a\0\0\0\0\0",
    ),
];

#[test]
fn each_kind_is_spelled_so(rt: HostRuntime) -> Result<(), Fail> {
    for row in KINDS {
        let (kind, byte, fields) = *row;
        assert!(rt; is_spelled(rt.alloc(), kind, byte, fields)?, "{byte}");
    }
    Ok(())
}

// A law is an empty function: its contract says it all, and the call shows that it can be called.
#[test]
fn the_laws_can_be_called() {
    law_one_frame();
    law_first_frame();
    law_stream();
    law_cut();
}
