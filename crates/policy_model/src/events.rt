//! What comes to a node, and what it shows of what it does.

use client_lines::Line;
use voting_config::NodeId;
use wire_frames::BoxedFrame;
use world_model::{Act, Outcome};

/// What a node is to the others.
#[derive(Clone, Copy, Debug, PartialEq, Eq)]
pub enum Mode {
    Candidate,
    Leader,
    /// It follows this leader.
    Follower(NodeId),
}

/// What comes to a node.
#[derive(Drop)]
pub enum Event {
    /// The first one after the journal was opened.
    Start,
    /// The moment, in ms, and a random word.
    Tick { now: u64, word: u64 },
    Frame(BoxedFrame),
    /// A line of a client, by its connection.
    Client { conn: u64, line: Line },
    /// The connection to a node has ended, and no other one leads to it.
    Disconnected { peer: NodeId },
}

/// Why a leader has a member removed.
#[derive(Clone, Copy, Debug, PartialEq, Eq)]
pub enum DropCause {
    /// Too many of its checks failed in a row.
    Checks,
    /// It was behind a finished state for too long.
    Lag,
    /// The connection to it has ended.
    Disconnect,
}

/// A member that is to be removed.
#[derive(Clone, Copy)]
pub struct MemberDrop {
    pub member: NodeId,
    pub cause: DropCause,
}

/// What a node does at an event, one after the other.
#[derive(Drop)]
pub enum Deed {
    /// An act, and how it ended.
    Act(Act, Outcome),
    /// The mode changed, in this term.
    Mode(Mode, u64),
}
