//! What the lines that `zen` writes are made of, and what an audit reads in them. No call of this crate does anything: what it promises is
//! proved.
#![tactic(auto)]

mod laws;

pub use laws::{law_act, law_echo, law_event, law_node, law_record, law_shown, law_trace};
