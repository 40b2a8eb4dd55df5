//! The laws can be called: nothing else of them runs.
use schedule_replay::{
    law_cluster_parts_go_on, law_cluster_trace_agrees, law_cluster_trace_gives_history,
    law_cluster_trace_shows, law_generated, law_parts_go_on, law_replay_is_legal, law_trace_agrees,
    law_trace_follows, law_trace_gives_history, law_trace_shows,
};

// A law is an empty function: its contract says it all, and the call shows that it can be called.
#[test]
fn the_laws_can_be_called() {
    law_replay_is_legal();
    law_trace_gives_history();
    law_parts_go_on();
    law_trace_follows();
    law_trace_shows();
    law_trace_agrees();
    law_cluster_trace_gives_history();
    law_cluster_parts_go_on();
    law_cluster_trace_shows();
    law_cluster_trace_agrees();
    law_generated();
}
