//! Columns: which nodes have a lifeline, and where it stands.
ghost use Rattle.std.specs.Prelude.{◌≡◌, ◌+◌, ◌*◌, ◌≤◌, length, IfOk, []};
ghost use Rattle.sequence_chart.specs.Columns.{node_of as node_said, with_receiver as with_receiver_of, nodes_from, widened as widened_of, widest_from, columns_from, left_of as left_of_columns};

use crate::labels::label;
use std::alloc::{AllocError, Global};
use trace_reader::{Said, TraceLine};
use voting_config::{NodeId, NodeSet};

/// A lifeline: its node, and how many units to the right its column begins. The line itself stands 24 units further.
#[derive(Clone, Copy)]
pub struct Column {
    pub node: NodeId,
    pub left: u32,
}

/// The node that a line tells of.
pub fn node_of(said: &Said) -> NodeId
    ensures { result ≡ node_said said.now }
{
    match said {
        Said::Delivery(node, _) => *node,
        Said::Event(node) => *node,
        Said::Act(node, _) => *node,
        Said::Won(node, _) => *node,
        Said::Committed(node) => *node,
        Said::Sent(node, _) => *node,
        Said::Unsent(node) => *node,
        Said::Misrouted(node) => *node,
        Said::Crashed(node) => *node,
        Said::Disk(node) => *node,
        Said::Opened(node) => *node,
        Said::Down(node) => *node,
        Said::Up(node) => *node,
        Said::Mode(node, _, _) => *node,
        Said::Dropped(node) => *node,
        Said::Replied(node) => *node,
    }
}

fn add_receiver(nodes: &mut NodeSet, said: &Said)
    ensures { nodes.new ≡ with_receiver_of said.now nodes.old }
{
    let Said::Sent(_, to) = said else {
        return;
    };
    let Some(to) = to else {
        return;
    };
    nodes.put_if_room(*to);
}

/// The nodes of a trace: those that its lines tell of, and those that messages are for. Of more than 64 those that come first.
pub fn nodes_of(lines: &[TraceLine]) -> NodeSet
    ensures { result ≡ nodes_from [] lines.now }
{
    let mut nodes = NodeSet::new();
    for line in lines {
        nodes.put_if_room(node_of(&line.said));
        add_receiver(&mut nodes, &line.said);
    }
    nodes
}

// How many characters wide the labels of a node are, with a line more.
fn widened(alloc: Global, most: usize, node: NodeId, line: &TraceLine) -> Result<usize, AllocError>
    requires { most ≤ 48 }
    ensures is { IfOk result (λ w. w ≡ widened_of most node line.now) }
    ensures few { IfOk result (λ w. w ≤ 48) }
{
    if node_of(&line.said) != node {
        return Ok(most);
    }
    let text = label(alloc, line)?;
    Ok(most.max(text.len().min(48)))
}

// How many characters wide the labels of a node are, and its name.
#[tactic(auto, using(voting_config::specs::Padded::id_length))]
fn widest(alloc: Global, node: NodeId, lines: &[TraceLine]) -> Result<u32, AllocError>
    ensures is { IfOk result (λ w. w ≡ widest_from (length node) node lines.now) }
    ensures few { IfOk result (λ w. w ≤ 48) }
{
    let mut most = node.as_bytes().len();
    for line in lines {
        most = widened(alloc, most, node, line)?;
    }
    Ok(most as u32)
}

/// A lifeline for each node, from the left, the first column beginning so far to the right. And how far the last one reaches.
pub fn columns_of(
    alloc: Global,
    left: u32,
    nodes: &NodeSet,
    lines: &[TraceLine],
) -> Result<(Vec<Column>, u32), AllocError>
    requires { left ≤ 1000 }
    ensures is { IfOk result (λ c. c.0.items ≡ columns_from left nodes.now lines.now) }
    ensures few { IfOk result (λ c. c.1 ≤ 23000) }
{
    let mut columns = Vec::new(alloc);
    let mut left = left;
    for node in nodes.as_slice() {
        columns.push(Column { node: *node, left })?;
        let wide = widest(alloc, *node, lines)?;
        left += 44 + 6 * wide;
    }
    Ok((columns, left))
}

/// How many units to the right the column of a node begins.
pub fn left_of(columns: &[Column], node: NodeId) -> u32
    ensures { result ≡ left_of_columns columns.now node }
{
    for column in columns {
        if column.node.as_bytes() == node.as_bytes() {
            return column.left;
        }
    }
    0
}
