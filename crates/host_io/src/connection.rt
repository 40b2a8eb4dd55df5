//! One connection over a socket: what its first bytes say that it is, what came over it, and what waits to be written.
ghost use Rattle.std.specs.Prelude.{◌≡◌, ◌≤◌, ◌<◌, ◌+◌, IsTrue, IfSome, IsSomeAnd, None, Some, length};

use crate::framing::Framing;
use crate::queue::FrameQueue;
use arrayvec::ArrayVec;
use bytes::{Bytes, BytesMut};
use memchr::memchr;
use mio::net::TcpStream;
use mio::{Interest, Registry, Token};
use std::alloc::{AllocError, Global};
use std::io;
use std::io::{ErrorKind, Read};
use std::net::Shutdown;
use voting_config::NodeId;
use zen_link::CONNECTIONS;

// The most bytes of one read, and so those that are held of a connection and not given yet, but for a few first ones.
const READ: usize = 16_384;

// What the first bytes of a connection are that stops the node.
const STOP: &[u8; 5] = b"stop\n";

// As many first bytes as a frame needs to show its sender: a length, a kind and an id.
const PREFIX: usize = 38;

// The bytes of a frame's length.
const LENGTH: u64 = 4;

// The longest time that a client which has ended its writing is kept for its replies, in milliseconds: longer than the
// publication in flight and the one after it may take, after which each of its lines has been answered.
const LINGER_MS: u64 = 65_000;

// Under which a connection is registered that waits for a number: nothing asks which of them woke a wait, since each look
// sees what their first bytes show.
pub(crate) const UNNUMBERED: Token = Token(CONNECTIONS as usize);

// What a look at a connection finds.
#[derive(Drop)]
pub(crate) enum Heard {
    Nothing,
    Bytes(Bytes),
    Stop,
    // The other side writes no more, and may read on.
    Shut,
    End,
}

// What is known of the other side's writing.
#[derive(Clone, Copy, PartialEq, Eq)]
enum Coming {
    // More may come.
    More,
    // It has ended.
    Ended,
    // The connection is broken.
    Broken,
}

// What the first bytes of a connection show, none of which was read.
#[derive(Clone, Copy, PartialEq, Eq)]
pub(crate) enum Prefix {
    // Too little to tell.
    Unclear,
    Stop,
    // A frame that this node sends.
    Frame(NodeId),
    // The end, or what is neither a frame nor a stop.
    Other,
}

// What these first bytes show. A frame's length begins with a zero byte.
fn prefix_of<F: Framing>(framing: &F, bytes: &[u8]) -> Prefix {
    let stop = &STOP[..];
    if let Some(id) = framing.sender(bytes) {
        Prefix::Frame(id)
    } else if bytes.starts_with(stop) {
        Prefix::Stop
    } else if !bytes.is_empty() && stop.starts_with(bytes) {
        Prefix::Unclear
    } else if bytes.len() < PREFIX && bytes.starts_with(&[0]) {
        Prefix::Unclear
    } else {
        Prefix::Other
    }
}

/// An open connection.
#[derive(Drop)]
pub(crate) struct Connection {
    stream: TcpStream,
    // The listed peer that it was opened to.
    peer: Option<NodeId>,
    // Whose frames it carries, by its first bytes.
    sender: Option<NodeId>,
    // The higher, the later it came.
    age: u64,
    // The higher, the later bytes of it were given.
    heard: u64,
    // Whether the end of the one that had this number before is still to be told.
    owes_end: bool,
    // The first bytes that were given.
    prefix: ArrayVec<u8, PREFIX>,
    // How many bytes were given.
    given: u64,
    // Whether a line feed was given.
    has_line: bool,
    // What was read, and not given yet.
    incoming: BytesMut,
    // Whether a read may find something: it was reported, and no read has found nothing since.
    is_ready: bool,
    coming: Coming,
    // Whether it is known to be no stop.
    goes_on: bool,
    // What waits to be written.
    outgoing: FrameQueue,
    // Under which it is registered.
    token: Token,
    // Whether it is reported when it can be written to.
    is_watched: bool,
    // Once its other side has ended its writing: until when it is kept.
    shut_until: Option<u64>,
    // Whether it was ended here.
    over: bool,
}

// Whether the call may be made again later.
pub(crate) fn is_later(error: &io::Error) -> bool {
    matches!(error.kind(), ErrorKind::WouldBlock | ErrorKind::Interrupted)
}

impl Connection {
    pub(crate) fn new(
        alloc: Global,
        stream: TcpStream,
        peer: Option<NodeId>,
        age: u64,
    ) -> Connection {
        Connection {
            stream,
            peer,
            sender: None,
            age,
            heard: age,
            owes_end: false,
            prefix: ArrayVec::new(),
            given: 0,
            has_line: false,
            incoming: BytesMut::new(alloc),
            is_ready: true,
            coming: Coming::More,
            goes_on: false,
            outgoing: FrameQueue::new(alloc),
            token: UNNUMBERED,
            is_watched: false,
            shut_until: None,
            over: false,
        }
    }

    // The listed peer that it was opened to.
    pub(crate) fn peer(&self) -> Option<NodeId> {
        self.peer
    }

    // Whose frames it carries, by the first bytes that were given.
    pub(crate) fn sender(&self) -> Option<NodeId> {
        self.sender
    }

    // What its first bytes show, where none was read.
    pub(crate) fn prefix<F: Framing>(&self, framing: &F) -> Prefix {
        let mut buffer = [0u8; PREFIX];
        match self.stream.peek(&mut buffer) {
            Ok(count) => prefix_of(framing, &buffer[..count]),
            Err(error) if is_later(&error) => Prefix::Unclear,
            Err(_) => Prefix::Other,
        }
    }

    // The higher, the later it came.
    pub(crate) fn age(&self) -> u64 {
        self.age
    }

    // The higher, the later bytes of it were given.
    pub(crate) fn heard(&self) -> u64 {
        self.heard
    }

    // Whether its number's end is to be told: bytes of it were given, or of the one before it.
    pub(crate) fn was_heard(&self) -> bool {
        self.owes_end || !self.prefix.is_empty()
    }

    // Whether the end of the one that had this number before is still to be told.
    pub(crate) fn owes_end(&self) -> bool {
        self.owes_end
    }

    // It takes the number of one whose end is to be reported, or was reported.
    pub(crate) fn set_owes_end(&mut self, owes_end: bool) {
        self.owes_end = owes_end;
    }

    pub(crate) fn is_over(&self) -> bool {
        self.over
    }

    // Whether another may take its place: it came from outside, and has given neither a whole line nor a whole frame.
    pub(crate) fn is_idle(&self) -> bool {
        self.over || self.peer.is_none() && !self.has_whole()
    }

    // Whether it was given as lines of a client: it came from outside, and no frame's length begins it.
    pub(crate) fn brings_lines(&self) -> bool {
        self.peer.is_none() && matches!(self.prefix.as_slice(), [first, ..] if *first != 0)
    }

    // Whether a whole line or a whole frame was given. A frame's length begins with a zero byte, and no line does.
    fn has_whole(&self) -> bool {
        match self.prefix.as_slice() {
            [0, second, third, fourth, ..] => {
                let length = u32::from_be_bytes([0, *second, *third, *fourth]);
                self.given >= LENGTH + length as u64
            }
            [0, ..] => false,
            _ => self.has_line,
        }
    }

    // It has a number, under which what comes over it is reported from now on.
    pub(crate) fn set_number(&mut self, registry: &Registry, number: u64) {
        self.token = Token(number as usize);
        self.is_ready = true;
        if self.register(registry).is_err() {
            self.end();
        }
    }

    // A read may find something.
    pub(crate) fn note_ready(&mut self) {
        self.is_ready = true;
    }

    // Whether a look may find something: all else is known to bring nothing.
    pub(crate) fn may_bring(&self) -> bool {
        self.owes_end
            || self.over
            || self.is_ready
            || !self.incoming.is_empty()
            || !matches!(self.coming, Coming::More)
    }

    // What has come by now, in the order of this count. Where memory runs out, nothing is taken.
    pub(crate) fn hear<F: Framing>(
        &mut self,
        framing: &F,
        order: u64,
    ) -> Result<Heard, AllocError> {
        if self.over {
            return Ok(Heard::End);
        }
        if self.is_ready && matches!(self.coming, Coming::More) && self.is_unclear() {
            self.read_once()?;
        }
        if !self.goes_on && self.take_stop() {
            return Ok(Heard::Stop);
        }
        if self.is_unclear() && (matches!(self.coming, Coming::More) || self.incoming.is_empty()) {
            return Ok(self.heard_nothing());
        }
        self.give(framing, order)
    }

    // Takes a stop, where what was read begins with one.
    fn take_stop(&mut self) -> bool {
        let is_stop = self.incoming.len() >= STOP.len()
            && self.incoming.as_slice().starts_with(&STOP[..]);
        if is_stop {
            self.incoming.advance(STOP.len());
        }
        is_stop
    }

    // What a look finds where nothing is to be given.
    fn heard_nothing(&self) -> Heard {
        match self.coming {
            Coming::More => Heard::Nothing,
            Coming::Ended => Heard::Shut,
            Coming::Broken => Heard::End,
        }
    }

    // Whether what was read is not enough to give anything: nothing, or what a stop begins with.
    fn is_unclear(&self) -> bool {
        let bytes = self.incoming.as_slice();
        bytes.is_empty() || !self.goes_on && STOP[..].starts_with(bytes)
    }

    // Reads what has come, once.
    fn read_once(&mut self) -> Result<(), AllocError> {
        self.incoming.reserve(READ)?;
        match self
            .incoming
            .read_from(&mut self.stream.by_ref().take(READ as u64))
        {
            Ok(0) => self.coming = Coming::Ended,
            Ok(_) => {}
            Err(error) if error.kind() == ErrorKind::WouldBlock => self.is_ready = false,
            Err(error) if is_later(&error) => {}
            Err(_) => self.coming = Coming::Broken,
        }
        Ok(())
    }

    // Whether it is kept at this moment though its other side has ended its writing: a client is, for the replies that it is
    // owed and those that wait to be written, but not for ever.
    pub(crate) fn is_kept(&mut self, owed: u64, now: u64) -> bool
        ensures bounded { IsTrue result → IsSomeAnd self.new.shut_until (λ until. now < until) }
        ensures first { self.old.shut_until ≡ None → IfSome self.new.shut_until (λ until. until ≤ now + 65000) }
        ensures once { IfSome self.old.shut_until (λ until. self.new.shut_until ≡ Some until) }
    {
        let until = match self.shut_until {
            Some(until) => until,
            None => now.saturating_add(LINGER_MS),
        };
        self.shut_until = Some(until);
        self.brings_lines() && now < until && (owed > 0 || !self.outgoing.is_empty())
    }

    // Gives what was read, as much as is given at once.
    fn give<F: Framing>(&mut self, framing: &F, order: u64) -> Result<Heard, AllocError> {
        let count = self.next_part();
        let bytes = self.incoming.freeze_to(count)?;
        self.heard = order;
        self.goes_on = true;
        self.note(bytes.as_slice());
        if self.sender.is_none() {
            self.sender = framing.sender(self.prefix.as_slice());
        }
        Ok(Heard::Bytes(bytes))
    }

    // How many bytes are given at once: of lines those up to the first line feed, so that no input is more than one event.
    fn next_part(&self) -> usize
        ensures { result ≤ length self.now.incoming.items }
    {
        let bytes = self.incoming.as_slice();
        if self.carries_frames() {
            return bytes.len();
        }
        match memchr(b'\n', bytes) {
            Some(place) => place + 1,
            None => bytes.len(),
        }
    }

    // Whether its first byte is a frame's.
    fn carries_frames(&self) -> bool {
        match self.prefix.as_slice() {
            [first, ..] => *first == 0,
            [] => self.incoming.as_slice().starts_with(&[0]),
        }
    }

    // Notes bytes that are given.
    fn note(&mut self, bytes: &[u8]) {
        self.given = self.given.saturating_add(bytes.len() as u64);
        self.has_line = self.has_line || bytes.contains(&b'\n');
        for byte in bytes {
            if self.prefix.is_full() {
                break;
            }
            self.prefix.push(*byte);
        }
    }

    // Has a frame wait to be written, whole or not at all. What waits is written first where there is no room for it.
    pub(crate) fn put(&mut self, registry: &Registry, frame: Bytes) -> Result<(), AllocError> {
        if !self.outgoing.has_room(&frame) {
            self.flush(registry);
        }
        if !self.over {
            self.outgoing.put(frame)?;
        }
        Ok(())
    }

    // Writes what waits, as far as the system takes it. One that is broken is over.
    pub(crate) fn flush(&mut self, registry: &Registry) {
        if self.over || self.outgoing.is_empty() && !self.is_watched {
            return;
        }
        if self.write_out().is_err() || self.watch(registry).is_err() {
            self.end();
        }
    }

    // Writes until nothing waits or the system takes no more.
    fn write_out(&mut self) -> io::Result<()> {
        for _ in 0..u32::MAX {
            if self.outgoing.is_empty() {
                break;
            }
            match self.outgoing.write_to(&mut self.stream) {
                Ok(0) => break,
                Ok(_) => {}
                Err(error) if is_later(&error) => break,
                Err(error) => return Err(error),
            }
        }
        Ok(())
    }

    // While something waits, it is reported when it can be written to.
    fn watch(&mut self, registry: &Registry) -> io::Result<()> {
        let waits = !self.outgoing.is_empty();
        if waits == self.is_watched {
            return Ok(());
        }
        self.is_watched = waits;
        self.register(registry)
    }

    // Has reported under its token that it can be read from, and, where it is watched, that it can be written to.
    fn register(&mut self, registry: &Registry) -> io::Result<()> {
        let mut interest = Interest::READABLE;
        if self.is_watched {
            interest = Interest::READABLE | Interest::WRITABLE;
        }
        registry.reregister(&mut self.stream, self.token, interest)
    }

    // What waits is dropped with the connection.
    fn end(&mut self) {
        self.over = true;
        // A socket that is closed already is no error.
        let _ = self.stream.shutdown(Shutdown::Both);
    }
}
