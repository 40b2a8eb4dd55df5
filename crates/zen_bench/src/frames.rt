//! Frames out of bytes that come in pieces, as they come over a socket.
ghost use Rattle.wire_frames.specs.Frames.{IsFitFrame};

use crate::fault::{Fault, expected};
use crate::figures::Figures;
use crate::states::{add_all, state_bytes};
use std::alloc::{AllocError, Global};
use wire_frames::{Frame, FrameReader, FrameView, write_frame};

// As many bytes as a socket is asked for at once.
const PIECE: usize = 4096;

// The frame of a join from a to b in term 1, with 0/0 as the last accepted state.
const JOIN: [u8; 33] = [
    0, 0, 0, 29, 2, 1, 97, 1, 98, 0, 0, 0, 0, 0, 0, 0, 1, 0, 0, 0, 0, 0, 0, 0, 0, 0, 0, 0, 0, 0, 0,
    0, 0,
];

// What stands in a publish request from a to b before its state.
const PUBLISH: [u8; 5] = [17, 1, 97, 1, 98];

// The frame of a state of 1,024 full settings.
fn publish(alloc: Global) -> Result<Vec<u8>, AllocError> {
    let state = state_bytes(alloc, 1, 1024)?;
    let size = u32::try_from(state.len()).unwrap_or(0).saturating_add(5);
    let mut bytes = Vec::new(alloc);
    add_all(
        &mut bytes,
        &[&size.to_be_bytes(), &PUBLISH, state.as_slice()],
    )?;
    Ok(bytes)
}

// How many frames are given now, and made where they are to be.
fn take(alloc: Global, reader: &mut FrameReader, makes: bool) -> Result<u64, Fault> {
    let mut count: u64 = 0;
    for _ in 0..PIECE {
        match reader.next() {
            None => break,
            Some(Err(_)) => return Err(Fault::Unexpected("no frame")),
            Some(Ok(frame)) => {
                if makes {
                    let _ = frame.frame(alloc)?;
                }
                count = count.saturating_add(1);
            }
        }
    }
    Ok(count)
}

// Has a frame come once, and says how many were given.
fn read_once(
    alloc: Global,
    reader: &mut FrameReader,
    frame: &[u8],
    makes: bool,
) -> Result<u64, Fault> {
    let mut count: u64 = 0;
    for piece in frame.chunks(PIECE) {
        reader.push(piece)?;
        count = count.saturating_add(take(alloc, reader, makes)?);
    }
    Ok(count)
}

// Has a frame come so often, and says how many were given.
fn read(alloc: Global, frame: &[u8], makes: bool, rounds: u64) -> Result<u64, Fault> {
    let mut reader = FrameReader::new(alloc);
    let mut count: u64 = 0;
    for _ in 0..rounds {
        count = count.saturating_add(read_once(alloc, &mut reader, frame, makes)?);
    }
    Ok(count)
}

// Writes the frame so often, and says how often that was.
fn write_often(alloc: Global, frame: &Frame, rounds: u64) -> Result<u64, Fault>
    requires { IsFitFrame frame.now }
{
    for _ in 0..rounds {
        let _ = write_frame(alloc, frame)?;
    }
    Ok(rounds)
}

// Writes the frame with this body so often, and says how often that was.
fn write(alloc: Global, body: &[u8], rounds: u64) -> Result<u64, Fault> {
    let view = expected(FrameView::of(body), "no frame")?;
    let frame = view.frame(alloc)?;
    write_often(alloc, &frame, rounds)
}

fn frame_of(alloc: Global, kind: &str) -> Result<Vec<u8>, Fault> {
    match kind {
        "join" => Ok(Vec::from_slice(alloc, &JOIN)?),
        "publish" => Ok(publish(alloc)?),
        _ => Err(Fault::Unexpected("a kind of frame is join or publish")),
    }
}

// Lends, makes or writes a frame so often, and says how often that was.
fn repeat(alloc: Global, what: &str, frame: &[u8], rounds: u64) -> Result<Figures, Fault> {
    let count = match what {
        "lend" => read(alloc, frame, false, rounds)?,
        "make" => read(alloc, frame, true, rounds)?,
        "write" => write(alloc, frame.get(4..).unwrap_or(&[]), rounds)?,
        _ => return Err(Fault::Unexpected("what is done with frames is lend, make or write")),
    };
    Ok(Figures::Frames(count))
}

/// Has a join, or a publish request of 1,024 full settings, come so often, and lends it, or makes it too; or writes it so
/// often. Says how often that was.
pub fn run_frames(alloc: Global, what: &str, kind: &str, rounds: u64) -> Result<Figures, Fault> {
    let frame = frame_of(alloc, kind)?;
    repeat(alloc, what, frame.as_slice(), rounds)
}
