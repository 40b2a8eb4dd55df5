//! Schedules and their lines, as types.
ghost use Rattle.std.specs.Prelude.{◌≡◌};

use crate::line_bytes::LineBytes;
use crate::setting_text::SettingText;
use std::marker::Model;
use text::Boxed;
use voting_config::{IdList, NodeId, NodeSet};
use zen_disk::Way;

/// A line of a schedule after its header. The first id is the node that acts. `Boot`, `StartJoin` and `Value` stand at
/// level core alone, `Tick`, `Client` and `Disconnect` at level node alone.
#[derive(Drop)]
pub enum Line {
    /// The node takes the initial configuration.
    Boot(NodeId),
    /// The node starts a join for a candidate in a term.
    StartJoin(NodeId, Boxed<NodeId>, u64),
    /// A client's value reaches the node: as this version, with this text as its one setting, and with this
    /// configuration.
    Value(NodeId, u64, Boxed<SettingText>, Boxed<IdList>),
    /// The node is handed the message with this number, counted from 1.
    Deliver(NodeId, u64),
    /// The node crashes between two acts, and its disk is left so.
    Crash(NodeId, Way),
    /// The node starts again.
    Restart(NodeId),
    /// The node crashes inside its device call of this number, the next one being 1, and its disk is left so.
    Fuse(NodeId, u64, Way),
    /// The node's device call of this number fails, the next one being 1.
    Fail(NodeId, u64),
    /// The node's clock stands at this moment, in milliseconds from 0 to 2^62, and the node is handed this random word.
    Tick(NodeId, u64, u64),
    /// A client's line reaches the node.
    Client(NodeId, LineBytes),
    /// The connection of the node to another has ended.
    Disconnect(NodeId, Boxed<NodeId>),
}

/// The lines of a schedule, seen as a list.
#[derive(Drop)]
pub struct Lines {
    lines: Vec<Line>,
}

impl Model for Lines {
    ghost use Rattle.std.specs.Prelude.{List};
    ghost use Rattle.schedule_text.specs.declared.schedule.Line.{Line};

    ghost Value = { List Line };

    ghost view = { λ l. l.lines.items };
}

impl Lines {
    /// These lines.
    pub fn of(lines: Vec<Line>) -> Lines
        ensures { result ≡ lines.items }
    {
        Lines { lines }
    }

    /// The lines, in order.
    pub fn as_slice(&self) -> &[Line]
        ensures { result.now ≡ self.now }
    {
        self.lines.as_slice()
    }
}

/// A schedule: its header, and the lines after it. A text of no bytes names no node and has no line.
#[derive(Drop)]
pub struct Schedule {
    /// All nodes.
    pub nodes: NodeSet,
    /// The nodes of the initial configuration.
    pub initial: NodeSet,
    /// The nodes that vote and never lead, at level node; none at level core.
    pub voting_only: NodeSet,
    /// Whether the nodes go by the second profile of the policy, at level node; never at level core.
    pub second: bool,
    pub lines: Lines,
}
