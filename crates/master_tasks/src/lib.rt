//! What a leader has to do: the queue of clients' requests, the members that are to come and to go, and the next
//! cluster state that it makes of them.
#![tactic(auto)]

mod answering;
mod laws;
mod members;
mod next;
mod policy;
mod processing;
mod replies;
mod tasks;
mod waiting;

pub use answering::EXCLUSION_SPAN_MS;
pub use laws::{
    law_answered_or_left, law_left_are_good, law_next_answered_or_left, law_nothing_new,
    law_offered_are_good,
};
pub use next::{Next, Prepared};
pub use policy::Policy;
pub use replies::Replies;
pub use tasks::{Applied, MAX_OPEN, MasterTasks, OfferError};
pub use waiting::{Outgoing, Waiting};
