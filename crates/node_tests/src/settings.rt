//! The settings of the nodes that tests start.
use master_tasks::Policy;
use policy_model::{NodeIds, Settings};
use std::alloc::Global;
use std::test::Fail;
use voting_config::{NodeId, NodeSet};

/// A node and the nodes about it, each a list of ids with `,` between them, or `_` for none.
#[derive(Clone, Copy)]
pub(crate) struct Names {
    pub me: &'static str,
    /// Its listed peers, and itself.
    pub nodes: &'static str,
    /// The first voters.
    pub initial: &'static str,
    pub voting_only: &'static str,
}

/// A node that is the only first voter and knows no other node.
pub(crate) const ALONE: Names = Names {
    me: "a",
    nodes: "a",
    initial: "a",
    voting_only: "_",
};

/// A node whose peer is its fellow voter.
pub(crate) const OF_TWO: Names = Names {
    nodes: "a,b",
    initial: "a,b",
    ..ALONE
};

const NO_LIST: &str = "the names are no list of ids";

fn peers_of(alloc: Global, me: NodeId, nodes: &str) -> Result<NodeIds, Fail> {
    let mut peers = NodeSet::parse(nodes).ok_or(NO_LIST)?;
    let _ = peers.remove(me);
    Ok(NodeIds::of(Vec::from_slice(alloc, peers.as_slice())?))
}

/// The settings of a node. Where some nodes are voting-only no configuration shrinks by itself, so that both settings are seen.
pub(crate) fn settings_of(alloc: Global, names: &Names) -> Result<Settings, Fail> {
    let me = NodeId::parse(names.me)?;
    let initial = NodeSet::parse(names.initial).ok_or(NO_LIST)?;
    let voting_only = NodeSet::parse(names.voting_only).ok_or(NO_LIST)?;
    Ok(Settings {
        me,
        policy: Policy {
            shrink: voting_only.as_slice().is_empty(),
            second: false,
        },
        initial,
        voting_only,
        peers: peers_of(alloc, me, names.nodes)?,
    })
}
