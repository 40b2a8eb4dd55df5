//! Which joins are counted.
#![tactic(auto)]

mod check;

pub use check::join_check;
