//! The tools for a cluster whose quorum is lost for good. They are used on the journal of a node that does not run.
#![tactic(auto)]

mod error;
mod laws;
mod running;
mod tool;
mod using;

pub use error::ToolError;
pub use running::{ToolEnd, run_tool};
pub use tool::{Tool, detach_cluster, unsafe_bootstrap};
pub use using::{Tooled, use_tool};
