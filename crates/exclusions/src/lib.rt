//! Voting exclusions: nodes that are to leave the voting configuration before they are shut down (Elasticsearch
//! reference 7.x, Voting configuration exclusions API).
#![tactic(auto)]

ghost use Rattle.std.specs.Prelude.{◌≡◌, find};
ghost use Rattle.voting_config.specs.Ids.{has};
ghost use Rattle.exclusions.specs.Exclusions.{added_of, cleared_of, may_win_of};

use thiserror::Error;
use voting_config::{IdList, NodeId, NodeSet, VotingConfig};

/// How many nodes may be excluded at most: `cluster.max_voting_config_exclusions` of the Elasticsearch reference
/// 7.x, Voting configuration exclusion settings, 10.
pub const MAX_EXCLUSIONS: usize = 10;

/// Why ids are not excluded.
#[derive(Clone, Copy, Debug, PartialEq, Eq, Error)]
pub enum AddError {
    /// How many would be excluded.
    #[error("{0} nodes would be excluded, and {MAX_EXCLUSIONS} may be")]
    TooMany(usize),
}

/// The least excluded id that is still a member, so that the exclusions stay.
#[derive(Clone, Copy, Debug, PartialEq, Eq, Error)]
#[error("{0} is excluded and still a member")]
pub struct StillMember(pub NodeId);

/// The exclusions with those asked for. `TooMany` exactly where more than [`MAX_EXCLUSIONS`] would be excluded, with
/// their number. An id is its node's name, so it may be excluded whoever the members are: one that is no member yet is
/// excluded from the moment it joins.
pub fn add(now_excluded: &IdList, _members: &IdList, asked: &IdList) -> Result<NodeSet, AddError>
    ensures { result ≡ added_of now_excluded.now asked.now }
{
    let (now_excluded, asked) = (now_excluded.to_set(), asked.to_set());
    let count = asked.union_count(&now_excluded);
    if count > MAX_EXCLUSIONS {
        return Err(AddError::TooMany(count));
    }
    Ok(now_excluded.union(&asked))
}

/// Whether the exclusions may be cleared. `StillMember` exactly where `wait` is true and an excluded id is a member,
/// with the least such.
pub fn clear(excluded: &IdList, members: &IdList, wait: bool) -> Result<(), StillMember>
    ensures { result ≡ cleared_of excluded.now members.now wait }
{
    if !wait {
        return Ok(());
    }
    match first_within(excluded, members) {
        Some(id) => Err(StillMember(id)),
        None => Ok(()),
    }
}

/// Whether a node may win an election: true exactly where it is in its committed or its accepted configuration, or
/// is not excluded.
pub fn may_win(me: NodeId, committed: &VotingConfig, accepted: &IdList, excluded: &IdList) -> bool
    ensures { result ≡ may_win_of me committed.now accepted.now excluded.now }
{
    committed.members().contains(me) || accepted.contains(me) || !excluded.contains(me)
}

// The least of the ids that the set has.
fn first_within(ids: &IdList, set: &IdList) -> Option<NodeId>
    ensures { result ≡ find (λ id. has id set.now) ids.now }
{
    ids.as_slice().iter().copied().find(|id| set.contains(*id))
}
