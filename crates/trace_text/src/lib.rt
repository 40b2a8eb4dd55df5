//! The lines of a trace: what each act of a node did, what it sent, and what became of the node.
#![tactic(auto)]

mod acts;
mod causes;
mod ending;
mod messages;
mod nodes;

pub use acts::{
    write_act_head, write_boot, write_commit, write_join, write_publish, write_publish_shown,
    write_response, write_start_join, write_state_id, write_state_json, write_taken_head,
    write_value,
};
pub use causes::{write_cause, write_ending};
pub use ending::Ending;
pub use messages::{
    write_commit_message, write_committed, write_committed_shown, write_join_message,
    write_publish_message, write_response_message, write_won,
};
pub use nodes::{write_crashed, write_disk, write_down_line, write_record, write_up_line};
