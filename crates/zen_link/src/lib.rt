//! What a program has outside itself: a source and a sink of text, and a node's link to its peers and clients.
#![tactic(auto)]

mod link;
mod mem_link;
mod mem_stream;
mod reading;
mod stream;

pub use link::{CONNECTIONS, Input, Link, LinkError, LinkSettings, Peer, Traffic};
pub use mem_link::MemLink;
pub use mem_stream::{MemSink, MemSource};
pub use reading::{InputError, read_input};
pub use stream::{Failed, Sink, Source, write_all};
