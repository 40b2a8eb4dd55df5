//! A trace summed up: its counts, its size and its digest.
#![tactic(auto)]

mod counts;
mod printing;
mod summary;

pub use counts::Counts;
pub use printing::write_summary;
pub use summary::{Summary, Tally};
