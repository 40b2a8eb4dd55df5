//! What became of the requests that a leader queued. The call does nothing: what it promises is proved.
ghost use Rattle.policy_model.specs.Queues.{LawOnlyLeaders, LawQueue};

/// Of a life that follows the policy, and whose last event was not struck: each request that was queued since the
/// journal was opened either still waits, in the order of arrival, or has been replied to, once; and only a leader has
/// requests that wait, so that none is lost where a node ceases to lead.
pub fn law_queue()
    ensures queue { LawQueue }
    ensures only_leaders { LawOnlyLeaders }
{}
