//! Recorded traces as text: what each line shows, and which line is the first bad one.
#![tactic(auto)]

mod acts;
mod causes;
mod entry;
mod fault;
mod json;
mod kind;
mod lines;
mod progress;
mod reading;
mod words;

pub use entry::Entry;
pub use fault::{BadTrace, Why};
pub use progress::{MAX_BYTES, Progress, no_header};
pub use reading::{check_end, entry_at, header};
