//! What a node does: its acts, what they send, and how they end.

use crate::BoxedKept;
use cluster_state::{
    ApplyCommit, CommitCause, InitialCause, Join, JoinCause, PublishCause, PublishRequest,
    PublishResponse, ResponseCause, SharedConfig, SharedValue, StartCause, ValueCause,
};
use voting_config::NodeId;

/// An act of a node, with its whole message. It shares the states in it with all others that have them.
#[derive(Drop)]
pub enum Act {
    /// The initial configuration is taken.
    Bootstrap(SharedConfig),
    /// A join is started for a candidate in a term.
    StartJoin(NodeId, u64),
    /// A join is counted.
    TakeJoin(Join),
    /// A client's value is published, as this version and with this configuration.
    Value(u64, SharedConfig, SharedValue),
    /// A published state is accepted.
    Publish(PublishRequest),
    /// The response to a publication is counted.
    Response(PublishResponse),
    /// The accepted state is committed.
    Commit(ApplyCommit),
    /// The journal is opened, and holds this record.
    Open(BoxedKept),
}

/// What an act sends.
#[derive(Drop)]
pub enum Message {
    Join(Join),
    Publish(PublishRequest),
    Response(PublishResponse),
    Commit(ApplyCommit),
}

/// Why an act is refused.
#[derive(Clone, Copy, Debug, PartialEq, Eq)]
pub enum Cause {
    Initial(InitialCause),
    Start(StartCause),
    Join(JoinCause),
    Value(ValueCause),
    Publish(PublishCause),
    Response(ResponseCause),
    Commit(CommitCause),
}

/// What an act answers.
#[derive(Drop)]
pub enum ActReply {
    /// It is taken. It may send a message, and a join may win the election.
    Taken(Option<Message>, bool),
    Refused(Cause),
    /// An earlier act met a fault of the disk, and the journal was not opened since.
    Stopped,
}

/// How an act ended: with its reply, at a fault of the disk, or at a crash. The last two kept what the act writes, or not.
#[derive(Drop)]
pub enum Outcome {
    Answered(ActReply),
    Disk(bool),
    Crashed(bool),
}
