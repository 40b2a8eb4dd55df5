//! Three nodes, run as children of the program and waited for.
#![tactic(auto)]

mod ends;
mod node;
mod running;

pub use ends::{TrialEnds, has_won};
pub use node::{Trial, TrialNode};
pub use running::{TrialEnd, run_trial};
