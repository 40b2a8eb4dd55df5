//! What a node knows of its parts, told by the parts' own look-backs. The call does nothing: what it promises is proved.
ghost use Rattle.policy_model.specs.PartLaws.{LawFinder, LawFollowers, LawLeaderCheck, LawPublication, LawRound};

/// Of each part a node knows what the part looks back to from its calls, and these are among what the node saw and
/// did: the peers that it met, and what each answered since the node became a candidate; the answers of the round of
/// pre-votes that began last; who responded to the last value; the checks of the members since they became watched,
/// and of the leader since the node follows it.
pub fn law_parts_look_back()
    ensures finder { LawFinder }
    ensures round { LawRound }
    ensures publication { LawPublication }
    ensures followers { LawFollowers }
    ensures leader_check { LawLeaderCheck }
{}
