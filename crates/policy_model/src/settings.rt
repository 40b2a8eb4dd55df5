//! What a node knows before its start: its id, its peers, the first voters, and who votes and never leads.
use master_tasks::Policy;
use std::marker::Model;
use voting_config::{NodeId, NodeSet};

/// Ids in an order of their own. Contracts see the list of them.
#[derive(Drop)]
pub struct NodeIds {
    ids: Vec<NodeId>,
}

impl Model for NodeIds {
    ghost use Rattle.std.specs.Prelude.{ℕ, List};
    ghost use Rattle.std.specs.Coded.{coded_list, coded_ℕ};
    ghost use Rattle.voting_config.specs.Ids.{Id};

    ghost Value = { List Id };

    ghost coded = { coded_list (coded_list coded_ℕ) };

    ghost view = { λ l. l.ids.items };
}

impl NodeIds {
    ghost use Rattle.std.specs.Prelude.{◌≡◌};

    /// The ids in this order.
    pub fn of(ids: Vec<NodeId>) -> NodeIds
        ensures { result ≡ ids.items }
    {
        NodeIds { ids }
    }

    /// The ids.
    pub fn as_slice(&self) -> &[NodeId]
        ensures { result.now ≡ self.now }
    {
        &self.ids
    }
}

/// What a node is given before its start.
#[derive(Drop)]
pub struct Settings {
    /// The node itself.
    pub me: NodeId,
    /// The listed peers, in the order listed.
    pub peers: NodeIds,
    /// The first voters of a new cluster, or none.
    pub initial: NodeSet,
    /// The nodes that this one takes for voting-only, as the role `voting_only` has it: it asks none of them to be elected, and
    /// where it is one itself it never is.
    pub voting_only: NodeSet,
    /// How it makes states as a leader, and by which profile of the policy it goes.
    pub policy: Policy,
}
