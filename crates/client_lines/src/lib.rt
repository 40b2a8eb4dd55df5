//! Requests of clients, a line of JSON each, and the replies to them.
#![tactic(auto)]

mod fault;
mod lines;
mod reading;
mod writing;

pub use cluster_state::{Answer, Ask, LineFault, MAX_KEY, MAX_VALUE, Reply, Request, Text};
pub use fault::LineError;
pub use lines::{Line, LineReader, Lines, law_cuts, law_kept};
pub use reading::{MAX_LINE, MAX_REQUEST_ID, read_line};
pub use writing::write_reply;
