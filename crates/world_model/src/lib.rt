//! The model: what nodes do, what follows from it, when a history is legal, and what a legal history promises.
#![tactic(auto)]

mod acts;
mod boxed;
mod laws;

pub use acts::{Act, ActReply, Cause, Message, Outcome};
pub use boxed::BoxedKept;
pub use laws::{
    law_assemble, law_assemble_runs, law_bare, law_forget, law_kept, law_kept_alone, law_literal,
    law_literal_kept, law_parent, law_set,
};
