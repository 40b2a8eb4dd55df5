//! What an audit finds in the trace of a replay. No call of this crate does anything: what it promises is proved.
#![tactic(auto)]

mod laws;

pub use laws::{
    law_lines, law_replay_is_audited, law_replay_is_read, law_summary, law_whole_lines,
    law_whole_replay_is_audited, law_whole_replay_is_read, law_whole_summary,
};
