//! What is asked of the ids of a set, whichever way they are held.
ghost use Rattle.std.specs.Prelude.{◌≡◌};
ghost use Rattle.voting_config.specs.Ids.{IsIdSet, among, has, outside, is_quorum_of, same_config};

use crate::node_id::NodeId;
use crate::node_set::NodeSet;

// Whether the id is one of them.
pub(crate) fn is_among(ids: &[NodeId], id: NodeId) -> bool
    ensures { result ≡ has id ids.now }
{
    ids.contains(&id)
}

// Whether the two are the same ids.
pub(crate) fn are_same(ids: &[NodeId], others: &[NodeId]) -> bool
    ensures { result ≡ same_config ids.now others.now }
{
    ids == others
}

// Those of the ids that the others have too.
pub(crate) fn ids_within(ids: &[NodeId], others: &NodeSet) -> NodeSet
    requires { IsIdSet ids.now }
    ensures { result ≡ among ids.now others.now }
{
    let mut kept = NodeSet::new();
    for id in ids {
        if others.contains(*id) {
            kept.push(*id);
        }
    }
    kept
}

// Those of the ids that the others do not have.
pub(crate) fn ids_without(ids: &[NodeId], others: &NodeSet) -> NodeSet
    requires { IsIdSet ids.now }
    ensures { result ≡ outside ids.now others.now }
{
    let mut kept = NodeSet::new();
    for id in ids {
        if !others.contains(*id) {
            kept.push(*id);
        }
    }
    kept
}

// Whether the votes are a quorum of the configuration of these ids.
pub(crate) fn is_quorum(ids: &[NodeId], votes: &NodeSet) -> bool
    requires { IsIdSet ids.now }
    ensures { result ≡ is_quorum_of ids.now votes.now }
{
    let cast = votes.as_slice();
    // Most votes are counted while they are too few.
    if 2 * cast.len() <= ids.len() {
        return false;
    }
    let mut present = 0;
    for id in ids {
        if votes.contains(*id) {
            present += 1;
            // The nodes after it change nothing.
            if 2 * present > ids.len() {
                return true;
            }
        }
    }
    false
}
