//! The bytes that came of a stream, and how far frames were given out of them.

ghost use Rattle.std.specs.Prelude.{◌≡◌, ◌≤◌, ◌++◌, ℕ, [], Some, None, Ok, IsOk, OnOk, OnErr, length, take, drop};
ghost use Rattle.wire_frames.specs.Frames.{frame_of};
ghost use Rattle.wire_frames.specs.Measures.{Looks, Measures};
ghost use Rattle.wire_frames.specs.declared.buffer.BodyLength.TheVariants as body;

use crate::fault::FrameError;
use crate::frame::MAX_BODY;
use crate::lent::FrameView;
use crate::view::check_body;
use bytes::BytesMut;
use std::alloc::{AllocError, Global};

/// Bytes of a stream, from the frame on that was given last.
#[derive(Drop)]
pub struct Buffer {
    bytes: BytesMut,
    // So many of the first bytes are the frame that was given last, which may still be lent.
    given: usize,
    ghost fits: { given ≤ length bytes.items },
}

impl Buffer {
    ghost use Rattle.wire_frames.specs.Streams.{stream, pushed};
    ghost use Rattle.wire_frames.specs.Buffers.{left_in, Advances};
    ghost use Rattle.wire_frames.specs.Views.{shown};

    pub(crate) fn new(alloc: Global) -> Buffer
        ensures { left_in result ≡ stream [] }
    {
        Buffer {
            bytes: BytesMut::new(alloc),
            given: 0,
        }
    }

    pub(crate) fn push(&mut self, bytes: &[u8]) -> Result<(), AllocError>
        ensures ok { OnOk result (left_in self.new ≡ pushed (left_in self.old) bytes.now) }
        ensures err { OnErr result (left_in self.new ≡ left_in self.old) }
    {
        self.bytes.extend_from_slice(bytes)
    }

    // Goes past the frame that was given last, and looks at what stands first.
    pub(crate) fn advance(&mut self) -> Option<Result<(), FrameError>>
        ensures { Advances result self.new (left_in self.old) }
    {
        self.bytes.advance(self.given);
        self.given = 0;
        match look(self.bytes.as_slice()) {
            None => None,
            Some(Err(fault)) => Some(Err(fault)),
            Some(Ok(used)) => {
                self.given = used;
                Some(Ok(()))
            }
        }
    }

    // The frame that was given last.
    pub(crate) fn current(&self) -> FrameView<'_>
        requires long { 4 ≤ self.now.given }
        requires found { IsOk (frame_of (drop 4 (take self.now.given self.now.bytes.items))) }
        ensures { frame_of (drop 4 (take self.now.given self.now.bytes.items)) ≡ Ok (shown result) }
    {
        let whole = self.bytes.as_slice();
        let prefix = &whole[..self.given];
        FrameView::of_checked(&prefix[4..])
    }
}

// What the first four bytes say of the body after them.
#[derive(Clone, Copy)]
enum BodyLength {
    Unfinished,
    TooLong,
    Whole(usize),
}

fn body_length(bytes: &[u8]) -> BodyLength
    ensures { Measures result bytes.now }
{
    if bytes.len() < 4 {
        return BodyLength::Unfinished;
    }
    let (prefix, rest) = bytes.split_at(4);
    let size = u32::from_be_bytes([prefix[0], prefix[1], prefix[2], prefix[3]]);
    if size > MAX_BODY {
        return BodyLength::TooLong;
    }
    let size = size as usize;
    if rest.len() < size {
        return BodyLength::Unfinished;
    }
    BodyLength::Whole(size)
}

// What stands first in bytes: nothing whole, a fault, or a frame of so many bytes.
fn look(bytes: &[u8]) -> Option<Result<usize, FrameError>>
    ensures { Looks result bytes.now }
{
    match body_length(bytes) {
        BodyLength::Unfinished => None,
        BodyLength::TooLong => Some(Err(FrameError::TooLong)),
        BodyLength::Whole(size) => look_at(bytes, size),
    }
}

// The same, where a body of so many bytes stands there.
fn look_at(bytes: &[u8], size: usize) -> Option<Result<usize, FrameError>>
    requires { Measures (body.Whole size) bytes.now }
    ensures { Looks result bytes.now }
{
    match check_body(body_in(bytes, size)) {
        Ok(()) => Some(Ok(4 + size)),
        Err(fault) => Some(Err(fault)),
    }
}

// The body of so many bytes behind the length.
fn body_in(bytes: &[u8], size: usize) -> &[u8]
    requires long { 4 ≤ length bytes.now }
    requires fits { size ≤ length (drop 4 bytes.now) }
    ensures { result.now ≡ take size (drop 4 bytes.now) }
{
    let rest = &bytes[4..];
    &rest[..size]
}
