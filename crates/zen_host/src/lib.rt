//! What opens the disk and the link of a program and runs its children, and names the types of its input and output.
#![tactic(auto)]

mod host;
mod mem_host;

pub use host::{Ended, Host, HostError};
pub use mem_host::{Asked, MemChild, MemHost};
