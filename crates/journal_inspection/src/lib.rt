//! What is shown of a folder's journal.
#![tactic(auto)]

mod inspecting;
mod report;
mod showing;

pub use inspecting::{Inspection, inspect, say};
pub use report::{write_not_a_journal, write_report};
pub use showing::{Shown, show};
