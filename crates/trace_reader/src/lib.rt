//! Traces as text: read whole or with the first bad line.
#![tactic(auto)]

mod acts;
mod echoes;
mod fault;
mod progress;
mod reading;
mod results;
mod said;
mod words;

pub use fault::{BadTrace, write_bad_trace};
pub use progress::{MAX_TRACE_BYTES, MAX_TRACE_LINES};
pub use reading::read_trace;
pub use said::{Ending, Mode, Said, Trace, TraceLine};
