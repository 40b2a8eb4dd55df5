//! The outside of the program as the system has it: the two files of a journal, the standard streams, a node's link over
//! sockets, the children of the process, and the host that opens a folder's journal and a link and runs the children. What
//! they hold is not told, so no clause speaks of it: that they keep and carry bytes is tested.
#![tactic(auto)]

mod children;
mod connection;
mod disk;
mod errors;
mod folder;
mod framing;
mod host;
mod link;
mod owner;
mod queue;
mod sockets;
mod streams;

pub use children::{Children, SystemChild, Unwaited};
pub use disk::FileDisks;
pub use framing::{Framing, Piece, Target};
pub use host::SystemHost;
pub use link::SocketLink;
pub use owner::Owner;
pub use streams::{DescriptorOutput, STANDSTILL_MS, StandardInput, StandardOutput};
