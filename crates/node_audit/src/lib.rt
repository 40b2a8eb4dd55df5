//! One node of an audit: what it answers to an act, what it keeps, and what an act, a fault, a crash or an opening makes of it.
#![tactic(auto)]

mod node;
mod placed;
mod running;
mod sources;

pub use node::{Node, Struck, shows_as};
pub use placed::Placed;
pub use running::Running;
pub use sources::Sources;
