//! What a client is answered. The types stand here, below the crates that make answers and those that write them.
use crate::shared::SharedState;
use crate::state::StateId;
use voting_config::{NodeId, NodeSet};

/// What a request is answered.
#[derive(Drop)]
pub enum Answer {
    /// The request is done: the state of this term and version is committed.
    Acked(StateId),
    /// The accepted state.
    State(SharedState),
    /// The node is not the master, and knows of this one.
    NotMaster(Option<NodeId>),
    /// A put whose key is empty or too long, or else whose value is too long: its number of bytes.
    BadSetting(u64),
    /// So many requests are not yet answered, and no more are taken.
    QueueFull(u64),
    /// So many settings there would be, which are too many.
    TooManySettings(u64),
    /// So many nodes would be excluded, which are too many.
    TooManyExclusions(u64),
    /// The least excluded id that is still a member.
    StillMember(NodeId),
    /// The node has ceased to be the master that it was in this term, and the request may be done or not.
    FailedToCommit(u64),
    /// These of the ids to be excluded are still voters at the end of the wait.
    ExclusionTimeout(NodeSet),
}

/// What is wrong with a client's line, in the order in which it is tested.
#[derive(Clone, Copy, Debug, PartialEq, Eq, thiserror::Error)]
pub enum LineFault {
    #[error("the line has more than 8192 bytes")]
    TooLong,
    #[error("the line is no JSON value")]
    NotJson,
    #[error("the JSON value is no request")]
    BadShape,
}

/// What is sent to a client.
#[derive(Drop)]
pub enum Reply {
    /// The answer to the request of this id.
    To { id: u64, answer: Answer },
    /// A line that is no request.
    BadLine(LineFault),
}
