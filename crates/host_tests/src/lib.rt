//! The tests of zen_link, zen_host, host_io, node_trial. They stand apart, so that a check of one of these, or of what stands on
//! it, does not prove them again.
#![tactic(auto)]

#[cfg(test)]
mod host_io_child_tests;
#[cfg(test)]
mod host_io_link_tests;
#[cfg(test)]
mod host_io_stream_tests;
#[cfg(test)]
mod host_io_tests;
#[cfg(test)]
mod hosts;
#[cfg(test)]
mod node_trial_tests;
#[cfg(test)]
mod zen_host_tests;
#[cfg(test)]
mod zen_link_tests;
