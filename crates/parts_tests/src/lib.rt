//! The tests of bootstrap, election_clock, exclusions, reconfigurator, pre_vote, publication, peer_finder, fault_checks,
//! master_tasks, client_lines, wire_frames. They stand apart, so that a check of one of these, or of what stands on it, does not
//! prove them again.
#![tactic(auto)]

#[cfg(test)]
mod bootstrap_tests;
#[cfg(test)]
mod client_lines_tests;
#[cfg(test)]
mod election_clock_tests;
#[cfg(test)]
mod exclusions_tests;
#[cfg(test)]
mod fault_checks_tests;
#[cfg(test)]
mod master_tasks_tests;
#[cfg(test)]
mod names;
#[cfg(test)]
mod peer_finder_tests;
#[cfg(test)]
mod pre_vote_tests;
#[cfg(test)]
mod publication_tests;
#[cfg(test)]
mod reconfigurator_tests;
#[cfg(test)]
mod wire_frames_tests;
