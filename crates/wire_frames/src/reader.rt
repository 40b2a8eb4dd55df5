//! Frames out of a stream of bytes, however it is cut.

ghost use Rattle.std.specs.Prelude.{◌≡◌, ◌++◌, ℕ, List, [], OnOk, OnErr, ⊤};
ghost use Rattle.wire_frames.specs.declared.frame.Frame.{Frame};

use crate::buffer::Buffer;
use crate::fault::FrameError;
use crate::lent::FrameView;
use std::alloc::{AllocError, Global};
use std::marker::Model;

/// Reads frames out of a stream of bytes that comes in pieces. Contracts see it as the stream of what is left: the frames
/// that it has not given yet, and what stands after them, less than a frame or a fault.
#[derive(Drop)]
pub struct FrameReader {
    buffer: Buffer,
}

impl Model for FrameReader {
    ghost use Rattle.wire_frames.specs.Streams.{Stream};
    ghost use Rattle.wire_frames.specs.Buffers.{left_in};

    ghost Value = { Stream };

    ghost view = { λ r. left_in r.buffer };
}

impl FrameReader {
    ghost use Rattle.std.specs.Borrow.{sem, follows_so};
    ghost use mathlib.Core.Option.{none};
    ghost use Rattle.wire_frames.specs.Streams.{Rest, fault_in, read_up, next_of, after_next, pushed, frames_in, IsCarried};
    ghost use Rattle.wire_frames.specs.Views.{shown_next};
    ghost use Rattle.wire_frames.specs.contracts.reader.FrameReader.{the_row};

    /// A reader to which nothing came yet.
    pub fn new(alloc: Global) -> FrameReader
        ensures empty { result ≡ read_up (Rest []) }
        ensures carried { IsCarried [] [] result }
    {
        FrameReader {
            buffer: Buffer::new(alloc),
        }
    }

    /// Takes the next bytes of the stream. Where memory runs out the reader is as it was.
    pub fn push(&mut self, bytes: &[u8]) -> Result<(), AllocError>
        ensures ok { OnOk result (self.new ≡ pushed self.old bytes.now) }
        ensures err { OnErr result (self.new ≡ self.old) }
        // The frames given so far and what is left are still the stream of all bytes that came.
        ensures carried { OnOk result
            ((came : List ℕ) (given : List Frame) → IsCarried came given self.old → IsCarried (came ++ bytes.now) given self.new) }
    {
        self.add(bytes)
    }

    // Has the contract of one call. `push` only calls it, and says from it what holds of all bytes so far.
    fn add(&mut self, bytes: &[u8]) -> Result<(), AllocError>
        ensures ok { OnOk result (self.new ≡ pushed self.old bytes.now) }
        ensures err { OnErr result (self.new ≡ self.old) }
    {
        self.buffer.push(bytes)
    }

    /// The next frame, lent out of the buffer, or where none is left the fault that stands there, again at each call. None
    /// comes exactly where less than a frame is left. Takes no memory.
    pub fn next(&mut self) -> Option<Result<FrameView<'_>, FrameError>>
        ensures given { shown_next result ≡ next_of self.old }
        // What is left once the frame is given back.
        ensures* after { sem 𝓛 (follows_so the_row the_row self.entry.ghost_name none (λ _ _. ⊤) (λ left. left ≡ after_next self.old)) }
        // The frames given so far and what is left are still the stream of all bytes that came.
        ensures carried { (came : List ℕ) (given : List Frame) → IsCarried came given self.old
            → IsCarried came (given ++ frames_in (next_of self.old)) (after_next self.old) }
    {
        match self.buffer.advance() {
            None => None,
            Some(Err(fault)) => Some(Err(fault)),
            Some(Ok(())) => Some(Ok(self.buffer.current())),
        }
    }

    /// Passes over the frames that are left, and gives the fault that stands after them, if one does.
    pub fn skip_frames(&mut self) -> Option<FrameError>
        ensures fault { result ≡ fault_in self.old.ending }
        ensures left { self.new ≡ read_up self.old.ending }
    {
        loop {
            match self.buffer.advance() {
                None => return None,
                Some(Err(fault)) => return Some(fault),
                Some(Ok(())) => {}
            }
        }
    }
}
