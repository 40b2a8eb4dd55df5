//! A trace drawn as a sequence chart: a lifeline for each node, time running down, and an arrow for each delivery.
#![tactic(auto)]

mod arrows;
mod chart;
mod columns;
mod escaping;
mod event_rows;
mod frame;
mod labels;
mod laws;
mod lifelines;
mod marks;
mod messages;
mod rows;
mod words;

pub use chart::{draw_trace, write_chart};
pub use laws::{law_each_delivery, law_each_label};
