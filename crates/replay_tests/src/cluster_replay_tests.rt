//! The laws can be called: nothing else of them runs.
use cluster_replay::*;

// A law is an empty function: its contract says it all, and the call shows that it can be called.
#[test]
fn the_laws_can_be_called() {
    law_lives_follow();
    law_cluster_replay_is_legal();
    law_cluster_replies_are_true();
    law_system_replies_are_true();
    law_cluster_settings_last();
    law_cluster_acks_last();
    law_cluster_acks_are_in_order();
    law_system_acks_are_in_order();
    law_restarted_acks_are_in_order();
    law_system_settings_last();
    law_system_acks_last();
    law_restarted_system_replies_are_true();
    law_restarted_killed_replies_are_true();
    law_restarted_settings_last();
    law_restarted_acks_last();
    law_killed_replies_are_true();
}
