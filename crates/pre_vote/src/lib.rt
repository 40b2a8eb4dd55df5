//! Pre-votes: before a node raises its term for an election, it asks whether enough nodes would vote for it
//! (Elasticsearch reference 7.x, Quorum-based decision making and Leader elections).
#![tactic(auto)]

mod laws;
mod replies;
mod rounds;

pub use laws::law_counted;
pub use replies::{Reply, answer};
pub use rounds::{Added, PreVotes};
