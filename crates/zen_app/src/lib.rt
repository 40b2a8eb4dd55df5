//! The program: its words, its commands, and how it ends.
#![tactic(auto)]

mod choosing;
mod generating;
mod refusals;
mod replaying;
mod rescue_text;
mod rescuing;
mod running;
mod serving;
mod status;
mod tooling;
mod trying;

pub use running::run;
pub use status::Status;
