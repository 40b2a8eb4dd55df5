//! What holds of words over rosters. The call does nothing: what it promises is proved.
ghost use Rattle.voting_config.specs.Rosters.{LawQuorumMask};

/// Votes on a roster are a quorum of a configuration exactly where their words say so, whichever order the roster has, and whether or not
/// the configuration's ids are on it.
pub fn law_quorum_mask()
    ensures { LawQuorumMask }
{}
