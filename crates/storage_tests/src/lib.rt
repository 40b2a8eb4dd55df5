//! The tests of zen_disk, gate_log, state_journal, journal_inspection, node_tool, and of the greatest state in a frame and a journal. They stand
//! apart, so that a check of one of these, or of what stands on it, does not prove them again.
#![tactic(auto)]

#[cfg(test)]
mod files;
#[cfg(test)]
mod gate_log_tests;
#[cfg(test)]
mod greatest_state_tests;
#[cfg(test)]
mod hosts;
#[cfg(test)]
mod journal_inspection_tests;
#[cfg(test)]
mod journals;
#[cfg(test)]
mod node_tool_tests;
#[cfg(test)]
mod state_journal_tests;
#[cfg(test)]
mod strikes;
#[cfg(test)]
mod zen_disk_tests;
