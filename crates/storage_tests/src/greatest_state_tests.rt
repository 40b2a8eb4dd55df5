//! The greatest state: its bytes, a frame that publishes it, and a journal that keeps it. The bytes are those of docs/formats.md.
use crate::files::files_in;
use crate::journals::{Journal, opened};
use cluster_state::{LAST_NUMBER, SharedState, StateView, encode_state};
use state_journal::{Keeper, Ready};
use std::alloc::{AllocError, Global};
use wire_frames::{FrameReader, FrameView, write_frame};

// 33 bytes of numbers, three times 2,113 of 64 ids, 34 of a master, 331 of ten exclusions, and 4,096 times 1,156 of a setting behind the
// two of their count.
const LENGTH: usize = 4_741_715;

// The greatest term and version, and a parent of the same term and the version before.
const NUMBERS: &[u8] = &[
    64, 0, 0, 0, 0, 0, 0, 0, 64, 0, 0, 0, 0, 0, 0, 0, 1, 64, 0, 0, 0, 0, 0, 0, 0, 63, 255, 255,
    255, 255, 255, 255, 255,
];

// The id of 32 bytes that ends with the two digits of a number below 100.
fn push_id(bytes: &mut Vec<u8>, number: u8) -> Result<(), AllocError> {
    bytes.push(32)?;
    bytes.extend_from_slice(&[b'n'; 30])?;
    bytes.extend_from_slice(&[b'0' + number / 10 % 10, b'0' + number % 10])
}

fn push_ids(bytes: &mut Vec<u8>, count: u8) -> Result<(), AllocError> {
    bytes.push(count)?;
    for number in 0..count {
        push_id(bytes, number)?;
    }
    Ok(())
}

fn digit(number: u16) -> u8 {
    b'0' + (number % 10) as u8
}

// The setting whose key of 128 bytes ends with the four digits of a number, and whose value has 1,024 bytes.
fn push_setting(bytes: &mut Vec<u8>, number: u16) -> Result<(), AllocError> {
    let digits = [
        digit(number / 1000),
        digit(number / 100),
        digit(number / 10),
        digit(number),
    ];
    bytes.extend_from_slice(&[0, 128])?;
    bytes.extend_from_slice(&[b'k'; 124])?;
    bytes.extend_from_slice(&digits)?;
    bytes.extend_from_slice(&[4, 0])?;
    bytes.extend_from_slice(&[b'v'; 1_024])
}

fn push_settings(bytes: &mut Vec<u8>) -> Result<(), AllocError> {
    bytes.extend_from_slice(&[16, 0])?;
    for number in 0..4_096u16 {
        push_setting(bytes, number)?;
    }
    Ok(())
}

fn greatest(alloc: Global) -> Result<Vec<u8>, AllocError> {
    let mut bytes = Vec::with_capacity(alloc, LENGTH)?;
    bytes.extend_from_slice(NUMBERS)?;
    push_ids(&mut bytes, 64)?;
    push_ids(&mut bytes, 64)?;
    bytes.push(1)?;
    push_id(&mut bytes, 0)?;
    push_ids(&mut bytes, 64)?;
    push_ids(&mut bytes, 10)?;
    push_settings(&mut bytes)?;
    Ok(bytes)
}

// The state that has these bytes.
fn state(alloc: Global, bytes: &[u8]) -> Option<SharedState> {
    StateView::of(bytes).ok()?.decode(alloc).ok()
}

fn has_bytes(alloc: Global, state: &SharedState, bytes: &[u8]) -> bool {
    if !state.is_fit() {
        return false;
    }
    match encode_state(alloc, state) {
        Ok(written) => written.as_slice() == bytes,
        Err(_) => false,
    }
}

fn is_read_back(alloc: Global, bytes: &[u8]) -> bool {
    match state(alloc, bytes) {
        Some(state) => has_bytes(alloc, &state, bytes),
        None => false,
    }
}

// The length of a body, its kind, and whose frame it is: from a to b.
const HEAD: &[u8] = &[0, 0x48, 0x5a, 0x58, 17, 1, b'a', 1, b'b'];

// The frame that publishes it.
fn framed(alloc: Global, bytes: &[u8]) -> Result<Vec<u8>, AllocError> {
    let mut frame = Vec::from_slice(alloc, HEAD)?;
    frame.extend_from_slice(bytes)?;
    Ok(frame)
}

fn is_written(alloc: Global, read: &FrameView, frame: &[u8]) -> bool {
    let Ok(message) = read.frame(alloc) else {
        return false;
    };
    match write_frame(alloc, &message) {
        Ok(written) => written.as_slice() == frame,
        Err(_) => false,
    }
}

fn is_one_frame(alloc: Global, frame: &[u8]) -> bool {
    let mut reader = FrameReader::new(alloc);
    if reader.push(frame).is_err() {
        return false;
    }
    match reader.next() {
        Some(Ok(read)) => is_written(alloc, &read, frame),
        _ => false,
    }
}

fn keeps_its_term(journal: &mut Journal) -> bool {
    journal.kept().term < LAST_NUMBER && journal.set_term(LAST_NUMBER).is_ok()
}

fn accepts(alloc: Global, journal: &mut Journal, state: &SharedState) -> bool {
    if !state.is_fit() || state.term > journal.kept().term {
        return false;
    }
    match Ready::of(alloc, state) {
        Ok(ready) => journal.set_accepted(ready).is_ok(),
        Err(_) => false,
    }
}

fn is_accepted(alloc: Global, journal: &mut Journal, bytes: &[u8]) -> bool {
    match state(alloc, bytes) {
        Some(state) => keeps_its_term(journal) && accepts(alloc, journal, &state),
        None => false,
    }
}

// Whether the state is in the files of a journal that has accepted it. It is longer than a tail may be, so it begins a generation.
fn is_kept(alloc: Global, bytes: &[u8]) -> Option<bool> {
    let mut journal = opened(alloc, b"", b"")?;
    let is_accepted = is_accepted(alloc, &mut journal, bytes);
    let files = files_in(alloc, &mut journal.into_disk().into_disk())?;
    let again = opened(alloc, &files.0, &files.1)?;
    let has_bytes = has_bytes(alloc, &again.kept().accepted, bytes);
    Some(is_accepted && again.records() == 1 && has_bytes)
}

// What is done with its bytes.
#[derive(Clone, Copy)]
enum Use {
    Read,
    Framed,
    Kept,
}

fn is_used_so(alloc: Global, bytes: &[u8], what: Use) -> bool {
    match what {
        Use::Read => bytes.len() == LENGTH && LENGTH <= 4_800_000 && is_read_back(alloc, bytes),
        Use::Framed => match framed(alloc, bytes) {
            Ok(frame) => is_one_frame(alloc, &frame),
            Err(_) => false,
        },
        Use::Kept => is_kept(alloc, bytes) == Some(true),
    }
}

fn is_so(alloc: Global, what: Use) -> bool {
    match greatest(alloc) {
        Ok(bytes) => is_used_so(alloc, &bytes, what),
        Err(_) => false,
    }
}

#[test]
fn it_has_few_enough_bytes_and_is_read_back(rt: HostRuntime) {
    assert!(rt; is_so(rt.alloc(), Use::Read));
}

#[test]
fn one_frame_publishes_it(rt: HostRuntime) {
    assert!(rt; is_so(rt.alloc(), Use::Framed));
}

#[test]
fn one_body_of_a_journal_keeps_it(rt: HostRuntime) {
    assert!(rt; is_so(rt.alloc(), Use::Kept));
}
