//! Whether a node takes the configuration that the cluster begins with.
#![tactic(auto)]

ghost use Rattle.std.specs.Prelude.{◌≡◌, ◌≤◌, ◌||◌, count_by};
ghost use Rattle.voting_config.specs.Ids.{has, is_quorum_of, most_ids, same, with_id};
ghost use Rattle.bootstrap.specs.Decisions.{decision_of};

use voting_config::{NodeId, NodeSet, VotingConfig};

/// The initial configuration that the node `me` takes: all `names`, exactly where it has no configuration yet, is
/// one of the named itself, and more than half of the named are the node itself or among the `known` nodes. Else
/// None. So a node that has met a minority waits (`cluster.initial_master_nodes` of the Elasticsearch reference 7.x,
/// Bootstrapping a cluster, which names the first voters).
pub fn decide(
    names: &NodeSet,
    known: &NodeSet,
    me: NodeId,
    has_config: bool,
) -> Option<VotingConfig>
    ensures { result ≡ decision_of names.now known.now me has_config }
{
    if has_config || !names.contains(me) || !is_quorum_with(me, known, names) {
        return None;
    }
    Some(VotingConfig::of(names))
}

// Whether the node and those that it knows, who may be as many as a set holds, are more than half of the names.
fn is_quorum_with(me: NodeId, known: &NodeSet, names: &NodeSet) -> bool
    ensures { result ≡ is_quorum_of names.now (with_id me known.now) }
{
    2 * count_with(me, known, names) > names.len()
}

// How many of the names are the node itself or known.
fn count_with(me: NodeId, known: &NodeSet, names: &NodeSet) -> usize
    ensures value { result ≡ count_by (λ id. same me id || has id known.now) names.now }
    ensures fits { result ≤ most_ids }
{
    // For the proof alone: a set has at most `MAX_IDS` ids.
    let _ = names.len();
    names
        .as_slice()
        .iter()
        .filter(|id| me == **id || known.contains(**id))
        .count()
}
