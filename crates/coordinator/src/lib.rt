//! What a node does at each event: the rules of `policy_model`, over the core and the parts.
#![tactic(auto)]

mod acting;
mod ahead;
mod asking;
mod checks;
mod committing;
mod coordinator;
mod discovery;
mod dispatch;
mod elections;
mod following;
mod joining;
mod lines;
mod losing;
mod modes;
mod next;
mod opening;
mod outcomes;
mod output;
mod plan;
mod pre_votes;
mod publishing;
mod responding;
mod sending;
mod sorting;
mod step;
mod tick;
mod ticking;

pub use coordinator::{Coordinator, DiskFailed, EventError};
pub use output::{Listed, Output};
pub use plan::{NewState, Plan};
pub use sending::Broadcast;
pub use step::{Entries, Sealed, StepError};
