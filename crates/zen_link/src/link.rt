//! The trait `Link`: what comes to a node, and what it sends.
ghost use Rattle.std.specs.Prelude.{◌≡◌, ℕ, ◌≤◌, Option, List, Result, IsTrue, IfOk, IsErrOf};
ghost use Rattle.zen_disk.specs.Faults.{Rose};
ghost use Rattle.zen_link.specs.Told.{Takes, Adds, counted, has_low_conn};
ghost use Rattle.zen_link.specs.declared.link.Traffic.{Traffic as Told};
ghost use Rattle.zen_link.specs.declared.link.Traffic.TheVariants.{Gave, Dropped};

use bytes::Bytes;
use std::alloc::AllocError;
use thiserror::Error;
use voting_config::NodeId;

/// The numbers of connections are below this.
pub const CONNECTIONS: u64 = 192;

/// What comes to a node over its link.
#[derive(Drop)]
pub enum Input {
    /// The next bytes of a connection.
    Bytes { conn: u64, bytes: Bytes },
    /// The connection is over. Its number may come again, for another one.
    Closed { conn: u64 },
    /// The peer is lost: the last connection that brought its frames has ended, or one that was opened to it has ended or was
    /// refused while no other brings its frames. A peer that only fell silent is not told: its connection still stands.
    Disconnected { peer: NodeId },
    /// The milliseconds since the link was opened, and a random word. A tick comes when nothing else came for 50 ms, and at
    /// least every 100 ms all the same: a client that floods must not stop the node's clock. So it doesn't say that
    /// nothing waits.
    Tick { now: u64, word: u64 },
    /// The node is to end.
    Stop,
}

impl Clone for Input {
    ghost is_clone = { λ input copy. copy ≡ input };

    fn clone(&self) -> Result<Input, AllocError> {
        Ok(match self {
            Input::Bytes { conn, bytes } => Input::Bytes {
                conn: *conn,
                bytes: bytes.clone()?,
            },
            Input::Closed { conn } => Input::Closed { conn: *conn },
            Input::Disconnected { peer } => Input::Disconnected { peer: *peer },
            Input::Tick { now, word } => Input::Tick {
                now: *now,
                word: *word,
            },
            Input::Stop => Input::Stop,
        })
    }
}

/// Why no input was given. None was taken then.
#[derive(Clone, Copy, Debug, PartialEq, Eq, Error)]
pub enum LinkError {
    /// The link has failed, and its count of faults rose.
    #[error("the link failed")]
    Failed,
    /// There is no memory for the input.
    #[error("memory ran out")]
    Memory,
}

/// What went over a link.
#[derive(Drop)]
pub enum Traffic<O: Drop> {
    /// An input was taken.
    Took(Input),
    /// This was given to be sent.
    Gave(O),
    /// The connection with this number was to end.
    Dropped(u64),
}

/// A peer, and the address at which it listens.
#[derive(Drop)]
pub struct Peer {
    pub id: NodeId,
    pub address: String,
}

/// What a link is opened with: the node, the address at which it listens, and its peers.
#[derive(Drop)]
pub struct LinkSettings {
    pub me: NodeId,
    pub listen: String,
    pub peers: Vec<Peer>,
}

/// A node's link to its peers and its clients.
pub trait Link {
    ghost use Rattle.zen_link.specs.declared.link.Input.{Input as Taken};
    ghost use Rattle.zen_link.specs.declared.link.LinkError.{LinkError};

    /// What a node sends.
    type Out: Drop;

    /// What was taken, given and dropped, in order, where the link tells.
    ghost told: { Self → Option (List (Told Self.Out)) };

    /// How often `next` was called, whatever it answered. A link that tells nothing else counts these calls too.
    ghost asked: { Self → ℕ };

    /// How many faults there were.
    ghost faults: { Self → ℕ };

    /// Whether a `next` with this result leads from one to the other, as far as the link tells.
    ghost moves: { Self → Self → Result Taken LinkError → Type 0 };

    /// Gives the next input; the number of its connection is below 192. `Failed` only where the count of faults rose. At an
    /// `Err` no input was taken.
    fn next(&mut self) -> Result<Input, LinkError>
        ensures takes { Takes (told self.old) (told self.new) result }
        ensures asked { asked self.new ≡ counted (asked self.old) 1 }
        ensures conn { IfOk result (λ input. IsTrue (has_low_conn input)) }
        ensures later { faults self.old ≤ faults self.new }
        ensures failed { IsErrOf result LinkError.Failed → Rose (faults self.old) (faults self.new) }
        ensures moves { moves self.old self.new result };

    /// Sends. What is sent may be lost, and no answer says so.
    fn send(&mut self, out: Self::Out)
        ensures gives { Adds (told self.old) (told self.new) (Gave out) (faults self.old) (faults self.new) }
        ensures asked { asked self.new ≡ asked self.old }
        ensures later { faults self.old ≤ faults self.new };

    /// Ends the connection with this number, if there is one.
    fn drop_conn(&mut self, conn: u64)
        ensures drops { Adds (told self.old) (told self.new) (Dropped conn) (faults self.old) (faults self.new) }
        ensures asked { asked self.new ≡ asked self.old }
        ensures later { faults self.old ≤ faults self.new };
}
