//! Why an act of a node is refused. Each cause carries the values that differ, the node's own first.

use thiserror::Error;
use voting_config::NodeId;

/// Why the initial configuration is not taken.
#[derive(Clone, Copy, Debug, PartialEq, Eq, Error)]
pub enum InitialCause {
    #[error("the node has a configuration already")]
    AlreadySet,
    #[error("the initial configuration is empty")]
    EmptyConfig,
}

/// Why no join is started.
#[derive(Clone, Copy, Debug, PartialEq, Eq, Error)]
pub enum StartCause {
    #[error("the node is in term {0}, and term {1} is not greater")]
    TermNotGreater(u64, u64),
    #[error("term {0} is over 2^62")]
    TermTooLarge(u64),
}

/// Why a join is not counted.
#[derive(Clone, Copy, Debug, PartialEq, Eq, Error)]
pub enum JoinCause {
    #[error("the join is for {0}")]
    NotForMe(NodeId),
    #[error("the node is in term {0}, and the join in term {1}")]
    TermMismatch(u64, u64),
    #[error("the node has started no join since it was opened")]
    NotStarted,
    #[error("the source has accepted a state of term {1}, and the node one of term {0}")]
    FresherTerm(u64, u64),
    #[error("the source has accepted version {1} of the same term, and the node version {0}")]
    FresherVersion(u64, u64),
    #[error("the node has no configuration")]
    NoConfig,
}

/// Why a client's value is not published.
#[derive(Clone, Copy, Debug, PartialEq, Eq, Error)]
pub enum ValueCause {
    #[error("the node has not won an election in this term")]
    NotWon,
    #[error("the node has published version {0} and accepted version {1}")]
    NotAccepted(u64, u64),
    #[error("the node has published version {0}, and version {1} is not greater")]
    VersionNotGreater(u64, u64),
    #[error("version {0} is over 2^62")]
    VersionTooLarge(u64),
    #[error("an earlier change of the configuration is not committed yet")]
    Reconfiguring,
    #[error("the node's votes are no quorum of the new configuration")]
    NoJoinQuorum,
}

/// Why a published state is not accepted.
#[derive(Clone, Copy, Debug, PartialEq, Eq, Error)]
pub enum PublishCause {
    #[error("the node is in term {0}, and the state of term {1}")]
    TermMismatch(u64, u64),
    #[error("the node has accepted version {0} of this term, and version {1} is not greater")]
    VersionNotGreater(u64, u64),
}

/// Why the response to a publication is not counted.
#[derive(Clone, Copy, Debug, PartialEq, Eq, Error)]
pub enum ResponseCause {
    #[error("the response is for {0}")]
    NotForMe(NodeId),
    #[error("the node has not won an election in this term")]
    NotWon,
    #[error("the node is in term {0}, and the response in term {1}")]
    TermMismatch(u64, u64),
    #[error("the node has published version {0}, and the response is to version {1}")]
    VersionMismatch(u64, u64),
}

/// Why a commit is not taken.
#[derive(Clone, Copy, Debug, PartialEq, Eq, Error)]
pub enum CommitCause {
    #[error("the node is in term {0}, and the commit in term {1}")]
    TermMismatch(u64, u64),
    #[error("the node has accepted a state of term {0}, and the commit is of term {1}")]
    AcceptedTermMismatch(u64, u64),
    #[error("the node has accepted version {0}, and the commit is of version {1}")]
    VersionMismatch(u64, u64),
    #[error("the node has accepted version {0}, and its publication of version {1} is not accepted yet")]
    Publishing(u64, u64),
}
