//! The lines of a trace that show one event of a node: its acts and changes of mode, the members that it drops, the
//! frames that it sends and the replies to its clients.
#![tactic(auto)]

mod acts;
mod committing;
mod deeds;
mod events;
mod frames;
mod publishing;

pub use deeds::{write_deeds, write_mode, write_struck_deeds};
pub use events::{write_drops, write_event, write_replies, write_struck_event};
pub use frames::{write_frame_line, write_frames, write_message};
