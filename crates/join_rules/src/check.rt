//! Whether a node counts a join.
ghost use Rattle.std.specs.Prelude.{◌≡◌};
ghost use Rattle.cluster_state.specs.JoinCheck.{join_checked};

use cluster_state::{Join, JoinCause, StateId};
use voting_config::{IdList, NodeId};

/// Whether the node `me` counts a join, by its current term, the id and the configuration of its last accepted state,
/// and whether it has started a join since it was opened. Otherwise the first cause that refuses it, in the order in
/// which [`JoinCause`] lists them. A join whose source has accepted a fresher state is refused, so a node that wins has
/// accepted whatever a quorum of its voters has.
#[tactic(auto, unfolding(cluster_state::specs::JoinCheck::join_checked))]
pub fn join_check(
    me: NodeId,
    term: u64,
    accepted: StateId,
    config: &IdList,
    started: bool,
    join: &Join,
) -> Result<(), JoinCause>
    ensures { result ≡ join_checked me term accepted config.now started join.now }
{
    if join.target != me {
        return Err(JoinCause::NotForMe(join.target));
    }
    if term != join.term {
        return Err(JoinCause::TermMismatch(term, join.term));
    }
    if !started {
        return Err(JoinCause::NotStarted);
    }
    if accepted.term < join.last_term {
        return Err(JoinCause::FresherTerm(accepted.term, join.last_term));
    }
    if accepted.term == join.last_term && accepted.version < join.last_version {
        return Err(JoinCause::FresherVersion(accepted.version, join.last_version));
    }
    if config.is_empty() {
        return Err(JoinCause::NoConfig);
    }
    Ok(())
}
