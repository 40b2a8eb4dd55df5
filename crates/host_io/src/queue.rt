//! The bytes of the frames that wait to be written to a connection, in order, up to a bound. A frame is put whole or not at all.
ghost use Rattle.std.specs.Prelude.{◌≡◌, ◌≤◌, ◌==◌, ◌+◌, ◌++◌, [], length, nat_le, drop, IfOk, OnOk, OnErr, IfSome, None};
ghost use Rattle.host_io.specs.Queued.{Queued, most_waiting};

use bytes::{Bytes, BytesMut};
use std::alloc::{AllocError, Global};
use std::collections::VecDeque;
use std::io;
use std::io::Write;
use std::marker::Model;

// The most bytes that wait: a frame of the greatest length.
const MOST: usize = 8_388_612;

// The longest frame that is kept together with others, so that one write takes them.
const SHORT: usize = 4096;

/// Frames that wait. Seen as their bytes, the oldest first.
#[derive(Drop)]
pub(crate) struct FrameQueue {
    // The oldest, each alone or several short ones together. Of the first, a prefix may be gone.
    frames: VecDeque<Bytes>,
    // Short ones that came after these.
    tail: BytesMut,
    // How many bytes they have.
    size: usize,
}

impl Model for FrameQueue {
    ghost use Rattle.std.specs.Prelude.{◌≡◌, ◌≤◌, ◌++◌, ℕ, List, length};
    ghost use Rattle.host_io.specs.Queued.{bytes_of, most_waiting};

    ghost Value = { List ℕ };

    ghost view = { λ queue. bytes_of queue.frames.items ++ queue.tail.items };

    ghost invariant = { λ queue. (queue.size ≡ length (bytes_of queue.frames.items ++ queue.tail.items)) × (queue.size ≤ most_waiting) };
}

impl FrameQueue {
    pub(crate) fn new(alloc: Global) -> FrameQueue
        ensures { result ≡ [] }
    {
        FrameQueue {
            frames: VecDeque::new(alloc),
            tail: BytesMut::new(alloc),
            size: 0,
        }
    }

    pub(crate) fn is_empty(&self) -> bool
        ensures { result ≡ (length self.now == 0) }
    {
        self.size == 0
    }

    /// Whether there is room for all of a frame.
    pub(crate) fn has_room(&self, frame: &Bytes) -> bool
        ensures room { result ≡ nat_le (length self.now + length frame.now) most_waiting }
        ensures bound { length self.now ≤ most_waiting }
    {
        frame.len() <= MOST - self.size
    }

    // The short ones at the end are closed, and then a long frame comes after them.
    fn push_long(&mut self, frame: Bytes) -> Result<(), AllocError>
        requires { length self.old + length frame ≤ most_waiting }
        ensures whole { OnOk result (self.new ≡ self.old ++ frame) }
        ensures refused { OnErr result (self.new ≡ self.old) }
    {
        self.frames.reserve(2)?;
        let count = self.tail.len();
        let size = frame.len();
        if count > 0 {
            let short = self.tail.freeze_to(count)?;
            self.frames.push_back_reserved(short);
        }
        self.frames.push_back_reserved(frame);
        self.size += size;
        Ok(())
    }

    // A short frame comes after those at the end.
    fn push_short(&mut self, frame: Bytes) -> Result<(), AllocError>
        requires { length self.old + length frame ≤ most_waiting }
        ensures whole { OnOk result (self.new ≡ self.old ++ frame) }
        ensures refused { OnErr result (self.new ≡ self.old) }
    {
        self.tail.extend_from_slice(frame.as_slice())?;
        self.size += frame.len();
        Ok(())
    }

    /// Puts a frame after those that wait, where there is room for all of it.
    pub(crate) fn put(&mut self, frame: Bytes) -> Result<bool, AllocError>
        ensures whole { IfOk result (λ is_put. Queued is_put self.old self.new frame) }
        ensures room { IfOk result (λ is_put. is_put ≡ nat_le (length self.old + length frame) most_waiting) }
        ensures refused { OnErr result (self.new ≡ self.old) }
        ensures bound { length self.new ≤ most_waiting }
    {
        if !self.has_room(&frame) {
            return Ok(false);
        }
        if frame.len() > SHORT {
            self.push_long(frame)?;
        } else {
            self.push_short(frame)?;
        }
        Ok(true)
    }

    /// Takes the oldest, or several short ones together. Where memory runs out, all stay.
    pub(crate) fn take(&mut self) -> Result<Option<Bytes>, AllocError>
        ensures taken { IfOk result (λ taken. IfSome taken (λ bytes. self.old ≡ bytes ++ self.new)) }
        ensures none { IfOk result (λ taken. taken ≡ None → (self.old ≡ []) × (self.new ≡ [])) }
        ensures refused { OnErr result (self.new ≡ self.old) }
    {
        if let Some(frame) = self.frames.pop_front() {
            self.size -= frame.len();
            return Ok(Some(frame));
        }
        if self.tail.is_empty() {
            return Ok(None);
        }
        let short = self.tail.freeze_to(self.size)?;
        self.size = 0;
        Ok(Some(short))
    }

    /// Writes what waits, from its start on, once.
    pub(crate) fn write_to<W: Write>(&mut self, writer: &mut W) -> io::Result<usize>
        ensures written { IfOk result (λ count. self.new ≡ drop count self.old) }
        ensures kept { OnErr result (self.new ≡ self.old) }
    {
        let Some(mut frame) = self.frames.pop_front() else {
            let count = writer.write(self.tail.as_slice())?;
            self.tail.advance(count);
            self.size -= count;
            return Ok(count);
        };
        match writer.write(frame.as_slice()) {
            Ok(count) => {
                frame.advance(count);
                self.size -= count;
                if !frame.is_empty() {
                    self.frames.push_front_reserved(frame);
                }
                Ok(count)
            }
            Err(error) => {
                self.frames.push_front_reserved(frame);
                Err(error)
            }
        }
    }
}
