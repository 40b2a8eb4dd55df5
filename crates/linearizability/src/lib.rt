//! What clients are told is linearizable. The calls do nothing: what they promise is proved.
#![tactic(auto)]

ghost use Rattle.linearizability.specs.Linearizations.{LawRestartedSystemIsLinearizable, LawSystemIsLinearizable};

/// Of a system of nodes that each follow the policy, killed anywhere, there is one order of all requests that runs of the
/// second profile acknowledged or answered with a state, and of some others, in which each reply is the one that a map of
/// registers would give, and whatever came after a reply stands behind what it answers (Herlihy and Wing, 1990).
pub fn law_system_is_linearizable()
    ensures { LawSystemIsLinearizable }
{}

/// So there is from the restart of one node on, over the settings that it had kept.
pub fn law_restarted_system_is_linearizable()
    ensures { LawRestartedSystemIsLinearizable }
{}
