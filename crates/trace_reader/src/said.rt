//! What a line of a trace says.
ghost use Rattle.std.specs.Prelude.{◌≡◌};

use schedule_text::LineBytes;
use std::marker::Model;
use voting_config::NodeId;

/// How an act ended.
#[derive(Clone, Copy, Debug, PartialEq, Eq)]
pub enum Ending {
    /// It was taken.
    Taken,
    /// It was refused.
    Refused,
    /// The node had stopped before.
    Stopped,
    /// The disk failed in it.
    Disk,
    /// The node stopped inside it.
    Crashed,
}

/// What a node is.
#[derive(Clone, Copy, Debug, PartialEq, Eq)]
pub enum Mode {
    Candidate,
    Leader,
    Follower,
}

/// What a line of a trace says. The node is the one that it speaks of: of a line that names none, the one of the last line of the
/// schedule.
#[derive(Clone, Copy)]
pub enum Said {
    /// A line of the schedule that hands the node the message with this number, counted from 1.
    Delivery(NodeId, u64),
    /// Any other line of the schedule.
    Event(NodeId),
    /// The node was given an act.
    Act(NodeId, Ending),
    /// The node won this term.
    Won(NodeId, u64),
    /// A response made the node commit a state.
    Committed(NodeId),
    /// The node sent the next message, to a node, or to any where there is none.
    Sent(NodeId, Option<NodeId>),
    /// The message was not sent yet.
    Unsent(NodeId),
    /// The message is for another node.
    Misrouted(NodeId),
    /// The node stopped between two acts, or as it opened its journal.
    Crashed(NodeId),
    /// The node's disk failed as it opened its journal.
    Disk(NodeId),
    /// The node opened its journal.
    Opened(NodeId),
    /// The node is down.
    Down(NodeId),
    /// The node is up already.
    Up(NodeId),
    /// The node has this mode from now on, in this term.
    Mode(NodeId, Mode, u64),
    /// The node removes a member.
    Dropped(NodeId),
    /// The node answers a client.
    Replied(NodeId),
}

/// A line of a trace.
#[derive(Drop)]
pub struct TraceLine {
    /// Its bytes, without the line feed.
    pub text: LineBytes,
    pub said: Said,
}

/// The lines of a trace, seen as a list.
#[derive(Drop)]
pub struct Trace {
    lines: Vec<TraceLine>,
}

impl Model for Trace {
    ghost use Rattle.std.specs.Prelude.{List};
    ghost use Rattle.trace_reader.specs.declared.said.TraceLine.{TraceLine};

    ghost Value = { List TraceLine };

    ghost view = { λ t. t.lines.items };
}

impl Trace {
    /// The trace of these lines.
    pub fn of(lines: Vec<TraceLine>) -> Trace
        ensures { result ≡ lines.items }
    {
        Trace { lines }
    }

    /// The lines, in order.
    pub fn as_slice(&self) -> &[TraceLine]
        ensures { result.now ≡ self.now }
    {
        self.lines.as_slice()
    }
}
