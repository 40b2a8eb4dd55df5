//! A node over its link: it turns inputs into events, does them, writes what it did and sends what it has to.
#![tactic(auto)]

mod connection;
mod event_node;
mod history;
mod laws;
mod lines;
mod node;
mod opening;
mod reporter;

pub use connection::{Came, Connection};
pub use event_node::{Done, EventNode, NotDone};
pub use history::{Acts, All, History, Nothing};
pub use laws::{
    law_crash_is_kill, law_end_is_kept, law_moment_is_cut, law_next_after_end, law_next_after_kill,
};
pub use lines::LastSent;
pub use node::{End, Node, law_holds_little};
pub use opening::JournalNode;
pub use reporter::Reporter;
