//! The lines that `zen` writes are read by `zen_chart` as what they are.
#![tactic(auto)]

mod laws;

pub use laws::{
    law_committed, law_delivery, law_echo, law_framed, law_note, law_outcome, law_sent, law_state,
    law_trace, law_won,
};
