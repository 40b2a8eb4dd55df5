//! What the checks answer, told by the outcomes of the checks. The calls do nothing: what they promise is proved.
ghost use Rattle.fault_checks.specs.Laws.{LawAsked, LawDropped, LawLeaderLost};

/// A tick drops a follower for its checks exactly where it is watched and the last [`crate::CHECK_RETRY_COUNT`]
/// outcomes of its checks since it became watched are failures. The outcome of a check is the first answer after it,
/// where that is yes or no, or that a tick finds it without one [`crate::CHECK_TIMEOUT_MS`] or more after it. An answer
/// while no check is outstanding is none. A check that times out at this tick counts.
pub fn law_dropped()
    ensures { LawDropped }
{}

/// A tick asks a follower exactly where it is watched, is not behind a state for too long, the last outcomes of its
/// checks are not all failures, no check is outstanding, and [`crate::CHECK_INTERVAL_MS`] or more have gone by since the
/// last outcome or since it became watched.
pub fn law_asked()
    ensures { LawAsked }
{}

/// The same of the checks of a leader: a tick finds it lost exactly where the last [`crate::CHECK_RETRY_COUNT`]
/// outcomes of its checks are failures, and else asks it exactly where the next check is due.
pub fn law_leader_lost()
    ensures { LawLeaderLost }
{}
