//! What holds of each schedule in which whole nodes run, and what a client may rely on where nodes talk over a network.
#![tactic(auto)]

mod laws;

pub use laws::{
    law_cluster_acks_are_in_order, law_cluster_acks_last, law_cluster_replay_is_legal,
    law_cluster_replies_are_true, law_cluster_settings_last, law_killed_replies_are_true,
    law_lives_follow, law_restarted_acks_are_in_order, law_restarted_acks_last,
    law_restarted_killed_replies_are_true, law_restarted_settings_last,
    law_restarted_system_replies_are_true, law_system_acks_are_in_order, law_system_acks_last,
    law_system_replies_are_true, law_system_settings_last, law_voting_only_never_wins,
};
