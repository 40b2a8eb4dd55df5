//! What a node keeps durably, and what keeps it.
#![tactic(auto)]

mod arm_keeper;
mod body;
mod change;
mod draft;
mod error;
mod fold;
mod journal;
mod keep;
mod keeper;
mod laws;
mod plain;
mod ready;
mod refusal;
mod why;

pub use arm_keeper::ArmKeeper;
pub use change::{Change, Generation};
pub use cluster_state::Kept;
pub use error::OpenError;
pub use journal::StateJournal;
pub use keeper::{KeepError, Keeper};
pub use plain::PlainKeeper;
pub use ready::{NotReady, Ready};
pub use why::{BodyFault, Fault, Why};
