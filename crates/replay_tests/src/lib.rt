//! The tests of trace_audit, replay_node, cluster_replay, linearizability, schedule_replay, zen_app. They stand apart, so that a check of one of
//! these, or of what stands on it, does not prove them again.
#![tactic(auto)]

#[cfg(test)]
mod cluster_replay_tests;
#[cfg(test)]
mod linearizability_tests;
#[cfg(test)]
mod replay_node_tests;
#[cfg(test)]
mod schedule_replay_laws_tests;
#[cfg(test)]
mod schedule_replay_tests;
#[cfg(test)]
mod trace_audit_tests;
#[cfg(test)]
mod zen_app_tests;
