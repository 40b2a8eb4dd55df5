//! A text that grows at its end: what traces, schedules, reports and answers are written into.
#![tactic(auto)]

mod boxed;
mod numbers;
mod text;

pub use boxed::Boxed;
pub use text::Text;
