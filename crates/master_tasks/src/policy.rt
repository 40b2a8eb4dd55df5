//! By which policy a leader makes states.

/// By which policy a node leads: the profile, and whether voting configurations shrink.
#[derive(Clone, Copy)]
pub struct Policy {
    /// Whether the voting configuration may shrink (`cluster.auto_shrink_voting_configuration`).
    pub shrink: bool,
    /// Whether it is the second profile of the policy. In it a configuration is aimed at only once a state of the term is accepted; a node
    /// that joins is sent a state, even where it is a member already; and each request that is not refused makes a new state, even where it
    /// changes nothing, and also one to be shown the state.
    pub second: bool,
}
