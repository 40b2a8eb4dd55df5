//! The tests of voting_config, cluster_state, join_rules, coord_state, and of the core beside the model that an audit computes. They stand
//! apart, so that a check of one of these, or of what stands on it, does not prove them again.
#![tactic(auto)]

#[cfg(test)]
mod cluster_state_tests;
#[cfg(test)]
mod coord_state_tests;
#[cfg(test)]
mod join_rules_tests;
#[cfg(test)]
mod model_tests;
#[cfg(test)]
mod names;
#[cfg(test)]
mod voting_config_tests;
