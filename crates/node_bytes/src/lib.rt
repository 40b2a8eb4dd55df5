//! What a node sends as bytes: its frames to other nodes, and its replies to clients, a line each.
#![tactic(auto)]

mod fitting;
mod framing;
mod laws;

pub use fitting::is_fit;
pub use framing::SealedFrames;
pub use laws::law_prefix_names_sender;
