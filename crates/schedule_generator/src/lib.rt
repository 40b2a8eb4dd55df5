//! Schedules drawn from a number: the same number gives the same schedule.
#![tactic(auto)]

mod drawing;
mod generator;
mod laws;

pub use generator::{Generator, MAX_STEPS, empty_schedule};
pub use laws::law_generated_is_spelled;
