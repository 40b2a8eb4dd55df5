//! The tests of policy_model, system_laws, client_guarantees, coordinator, node_loop, node_bytes. They stand apart, so that a
//! check of one of these, or of what stands on it, does not prove them again.
#![tactic(auto)]

#[cfg(test)]
mod client_guarantees_tests;
#[cfg(test)]
mod coordinator_tests;
#[cfg(test)]
mod node_bytes_tests;
#[cfg(test)]
mod node_loop_tests;
#[cfg(test)]
mod policy_model_tests;
#[cfg(test)]
mod settings;
#[cfg(test)]
mod system_laws_tests;
