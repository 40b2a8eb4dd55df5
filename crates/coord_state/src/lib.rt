//! The rules of one node: seven acts over what keeps its record.
#![tactic(auto)]

mod coord;
mod ending;

pub use coord::{ActError, CoordState, Joined};
pub use ending::{ActAnswer, ActCause, NotTaken, outcome_of, outcome_of_value};
