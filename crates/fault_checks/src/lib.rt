//! Fault detection: whether the followers answer and keep up, and whether the leader answers.
#![tactic(auto)]

mod checking;
mod followers;
mod laws;
mod leader;
mod spans;

pub use checking::Check;
pub use followers::{Behind, Checked, Follower, FollowerChecks};
pub use laws::{law_asked, law_dropped, law_leader_lost};
pub use leader::{LeaderCheck, LeaderTick};
pub use spans::{CHECK_INTERVAL_MS, CHECK_RETRY_COUNT, CHECK_TIMEOUT_MS, FOLLOWER_LAG_TIMEOUT_MS};
