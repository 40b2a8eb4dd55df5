//! What is known of the nodes that are up, and the plan for them, or why there is none.
ghost use Rattle.std.specs.Prelude.{◌≡◌};
ghost use Rattle.rescue_plan.specs.declared.answer.PlanError.TheVariants as error;

use cluster_state::StateId;
use schedule_text::Lines;
use std::alloc::AllocError;
use voting_config::{NodeId, VotingConfig};

/// A node that is up and runs: its term, the id and the configuration of the state that it accepted last, and the configuration
/// that it knows to be committed.
#[derive(Drop)]
pub struct UpNode {
    pub id: NodeId,
    pub term: u64,
    pub accepted: StateId,
    pub config: VotingConfig,
    pub committed: VotingConfig,
}

/// Why the nodes that are up cannot be brought to commit a new state.
#[derive(Clone, Copy, Debug, PartialEq, Eq)]
pub enum RescueRefused {
    /// They are no quorum of one of the configurations of the node that has accepted the newest state. Of the committed one and of the
    /// accepted one: how many of its nodes are up, and how many it has.
    NoQuorum {
        committed: (usize, usize),
        accepted: (usize, usize),
    },
    /// There is no term above the greatest one of the nodes, or no version above that of the newest state.
    Exhausted {
        term: u64,
        version: u64,
    },
}

/// How the nodes are brought to commit a new state: which one is elected, in which term, with which version it publishes, and the lines
/// that do it.
#[derive(Drop)]
pub struct Plan {
    pub master: NodeId,
    pub term: u64,
    pub version: u64,
    pub lines: Lines,
}

/// Why there is no plan: the nodes cannot do it, or memory ran out.
#[derive(Clone, Copy, Debug, PartialEq, Eq)]
pub enum PlanError {
    Refused(RescueRefused),
    Memory,
}

impl From<AllocError> for PlanError {
    ghost from_gives = { λ _ e. e ≡ error.Memory };

    fn from(_e: AllocError) -> PlanError {
        PlanError::Memory
    }
}
