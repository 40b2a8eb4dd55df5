//! What reads the bytes of a connection: frames where its first byte is 0, else lines.
ghost use Rattle.std.specs.Prelude.{◌≡◌, ℕ, ◌<◌, List, [], ◌∷◌, IfOk, OnErr, IsTrue, length, slice_set};
ghost use Rattle.wire_frames.specs.Streams.{fault_in};
ghost use Rattle.node_loop.specs.Feeding.{FeedsAt};
ghost use Rattle.node_loop.specs.Feeds.{Feeds, FeedsFrames, FeedsLines, kept_frames};
ghost use Rattle.node_loop.specs.declared.connection.Connection.TheVariants as connection;

use client_lines::{LineReader, Lines, law_cuts};
use std::alloc::{AllocError, Global};
use wire_frames::{FrameError, FrameReader};

/// What reads the bytes of a connection.
#[derive(Drop)]
pub enum Connection {
    /// No byte has come.
    Fresh,
    Frames(FrameReader),
    Lines(LineReader),
}

/// What bytes of a connection brought.
#[derive(Drop)]
pub enum Came {
    Nothing,
    /// A reader with the frames, which is put back once they are done.
    Frames(FrameReader),
    Lines(Lines),
}

impl Connection {
    /// Takes the next bytes of the connection, and gives what they bring. Where no memory is found, it begins anew.
    pub fn feed(&mut self, alloc: Global, bytes: &[u8]) -> Result<Came, AllocError>
        ensures ok { IfOk result (λ came. Feeds self.old bytes.now came self.new) }
        ensures err { OnErr result (self.new ≡ connection.Fresh) }
    {
        let held = std::mem::replace(self, Connection::Fresh);
        let (next, came) = feed_held(held, alloc, bytes)?;
        *self = next;
        Ok(came)
    }
}

fn feed_held(
    held: Connection,
    alloc: Global,
    bytes: &[u8],
) -> Result<(Connection, Came), AllocError>
    ensures { IfOk result (λ fed. Feeds held bytes.now fed.1 fed.0) }
{
    match held {
        Connection::Fresh => begin(alloc, bytes),
        Connection::Frames(reader) => feed_frames(reader, bytes),
        Connection::Lines(reader) => feed_lines(reader, bytes),
    }
}

// The first byte says what the connection carries.
fn begin(alloc: Global, bytes: &[u8]) -> Result<(Connection, Came), AllocError>
    ensures { IfOk result (λ fed. Feeds connection.Fresh bytes.now fed.1 fed.0) }
{
    if bytes.is_empty() {
        return Ok((Connection::Fresh, Came::Nothing));
    }
    if bytes[0] == 0 {
        feed_frames(FrameReader::new(alloc), bytes)
    } else {
        feed_lines(LineReader::new(alloc), bytes)
    }
}

fn feed_frames(reader: FrameReader, bytes: &[u8]) -> Result<(Connection, Came), AllocError>
    ensures { IfOk result (λ fed. FeedsFrames reader bytes.now fed.1 fed.0) }
{
    let mut reader = reader;
    reader.push(bytes)?;
    Ok((Connection::Fresh, Came::Frames(reader)))
}

fn feed_lines(reader: LineReader, bytes: &[u8]) -> Result<(Connection, Came), AllocError>
    ensures { IfOk result (λ fed. FeedsLines reader bytes.now fed.1 fed.0) }
{
    let mut reader = reader;
    let lines = reader.feed(bytes)?;
    // For the proof alone: how the bytes were cut makes no difference.
    law_cuts();
    Ok((Connection::Lines(reader), Came::Lines(lines)))
}

// Takes the next bytes of one connection. Where no memory is found it begins anew.
pub(crate) fn feed_at(
    connections: &mut [Connection],
    alloc: Global,
    conn: u64,
    bytes: &[u8],
) -> Result<Came, AllocError>
    requires { conn < length connections.old }
    ensures ok { IfOk result (λ came. FeedsAt connections.old conn bytes.now came connections.new) }
    ensures err { OnErr result (connections.new ≡ slice_set connections.old conn connection.Fresh) }
{
    connections[conn as usize].feed(alloc, bytes)
}

// Puts back the reader of one connection, without the frames that are left. A connection in which a fault stands, which
// is given, begins anew.
pub(crate) fn keep_at(
    connections: &mut [Connection],
    conn: u64,
    reader: FrameReader,
) -> Option<FrameError>
    requires { conn < length connections.old }
    ensures kept { connections.new ≡ slice_set connections.old conn (kept_frames reader.ending) }
    ensures fault { result ≡ fault_in reader.ending }
{
    let mut reader = reader;
    let fault = reader.skip_frames();
    connections[conn as usize] = match fault {
        None => Connection::Frames(reader),
        Some(_) => Connection::Fresh,
    };
    fault
}

// Forgets what came over one connection.
pub(crate) fn close_at(connections: &mut [Connection], conn: u64)
    requires { conn < length connections.old }
    ensures { connections.new ≡ slice_set connections.old conn connection.Fresh }
{
    connections[conn as usize] = Connection::Fresh;
}
