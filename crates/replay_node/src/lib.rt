//! One node of a replay: its acts over a journal on a memory disk, crashes inside them, and openings.
#![tactic(auto)]

mod did;
mod disk;
mod message;
mod node;
mod packed;
mod sent_messages;
mod state;
mod writing;

pub use did::{Did, Effects};
pub use disk::{crashed, empty_disk, restarted, stay_down};
pub use message::{FitPublishRequest, SentMessage};
pub use node::{ReplayNode, Slot};
pub use sent_messages::SentMessages;
pub use state::OpenNode;
pub use writing::{write_delivery, write_did};
