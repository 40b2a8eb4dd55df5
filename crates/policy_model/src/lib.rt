//! The policy of a node: what it does at each event, told by what it saw and did before.
#![tactic(auto)]

mod events;
mod laws;
mod part_laws;
mod queue;
mod settings;
mod witnessed;

pub use events::{Deed, DropCause, Event, MemberDrop, Mode};
pub use laws::{
    law_answers_few, law_event_holds_set, law_event_holds_settings, law_event_is_short,
    law_event_moves, law_first_profile, law_life_is_local, law_no_voting_only, law_opened_is_fit,
    law_opened_is_small, law_opening_moves, law_sends_few, law_stays_fit, law_struck_is_short,
};
pub use part_laws::law_parts_look_back;
pub use queue::law_queue;
pub use settings::{NodeIds, Settings};
pub use witnessed::law_determined;
