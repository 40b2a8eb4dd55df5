//! What a node answers that is asked for a pre-vote.
ghost use Rattle.std.specs.Prelude.{◌≡◌};
ghost use Rattle.pre_vote.specs.Replies.{reply_to};

use voting_config::NodeId;

/// What a node answers that is asked for a pre-vote.
#[derive(Clone, Copy, Debug, PartialEq, Eq)]
pub enum Reply {
    /// It tells its term and what it has accepted.
    Answer,
    /// It has this leader.
    Refused(NodeId),
}

/// The reply of a node with this leader, if it has one: `Refused` exactly where it has a leader other than the asker.
pub fn answer(asker: NodeId, leader: Option<NodeId>) -> Reply
    ensures { result ≡ reply_to asker leader }
{
    match leader {
        Some(leader) if leader != asker => Reply::Refused(leader),
        _ => Reply::Answer,
    }
}
