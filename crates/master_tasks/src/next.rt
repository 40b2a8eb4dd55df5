//! What comes of a leader's tasks: nothing, or a next state.
use crate::replies::Replies;
use crate::waiting::Waiting;
use cluster_state::ClusterValue;
use voting_config::IdList;

/// What comes of a leader's tasks.
#[derive(Drop)]
pub enum Next {
    /// The accepted state stays: nothing is new.
    Same(Replies),
    /// There is a state to publish, with this configuration and this value.
    New {
        config: IdList,
        value: ClusterValue,
        replies: Replies,
    },
}

/// What comes of a leader's tasks, and the requests that wait on after it.
#[derive(Drop)]
pub struct Prepared {
    pub next: Next,
    pub waiting: Vec<Waiting>,
}
