//! A schedule replayed over the rules of the core, and its trace.
#![tactic(auto)]

mod cluster;
mod generating;
mod laws;
mod observing;
mod places;
mod replayer;
mod replaying;
mod surveyed;
mod surveying;

pub use generating::generate;
pub use laws::{
    law_cluster_parts_go_on, law_cluster_trace_agrees, law_cluster_trace_gives_history,
    law_cluster_trace_shows, law_generated, law_parts_go_on, law_plan_goes_on, law_replay_is_legal,
    law_trace_agrees, law_trace_follows, law_trace_gives_history, law_trace_shows,
};
pub use replaying::{ReplayError, replay, write_trace};
pub use surveyed::{Survey, SurveyedNode};
pub use surveying::survey;
