//! The lines of nodes that crash, are down or up, and open their journals.
ghost use Rattle.std.specs.Prelude.{◌≡◌, ◌++◌, OnOk};
ghost use Rattle.trace_text.specs.Trace.{down_line, up_line, crashed_line, disk_line, record_line};

use crate::acts::write_state_id;
use cluster_state::Kept;
use std::alloc::AllocError;
use text::Text;
use voting_config::NodeId;

/// Writes that a node is down, and so takes nothing.
pub fn write_down_line(text: &mut Text, node: NodeId) -> Result<(), AllocError>
    ensures { OnOk result (text.new ≡ text.old ++ down_line node) }
{
    text.word("down ")?;
    text.id_and(&node, b'\n')
}

/// Writes that a node is up already.
pub fn write_up_line(text: &mut Text, node: NodeId) -> Result<(), AllocError>
    ensures { OnOk result (text.new ≡ text.old ++ up_line node) }
{
    text.word("up ")?;
    text.id_and(&node, b'\n')
}

/// Writes that a node has crashed, between two acts or as it opened its journal.
pub fn write_crashed(text: &mut Text, node: NodeId) -> Result<(), AllocError>
    ensures { OnOk result (text.new ≡ text.old ++ crashed_line node) }
{
    text.word("crashed ")?;
    text.id_and(&node, b'\n')
}

/// Writes that a node's disk has failed as it opened its journal.
pub fn write_disk(text: &mut Text, node: NodeId) -> Result<(), AllocError>
    ensures { OnOk result (text.new ≡ text.old ++ disk_line node) }
{
    text.word("disk ")?;
    text.id_and(&node, b'\n')
}

/// Writes that a node has opened its journal, and the record that it found: its term, the term and the version of its
/// accepted state, that state's configuration, and the committed configuration.
pub fn write_record(text: &mut Text, node: NodeId, found: &Kept) -> Result<(), AllocError>
    ensures { OnOk result (text.new ≡ text.old ++ record_line node found.now.term found.now.accepted found.now.committed) }
{
    text.word("record ")?;
    text.id_and(&node, b' ')?;
    text.number_and(found.term, b' ')?;
    write_state_id(text, found.accepted.term, found.accepted.version)?;
    text.word(" ")?;
    text.ids(found.accepted.config.as_slice())?;
    text.word(" ")?;
    text.ids(found.committed.members().as_slice())?;
    text.word("\n")
}
