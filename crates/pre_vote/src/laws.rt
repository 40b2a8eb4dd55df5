//! Who is counted, told by the answers of a round. The call does nothing: what it promises is proved.
ghost use Rattle.pre_vote.specs.Laws.{LawCounted};

/// A source is a voter of a round exactly where it is the node itself, or where the newest of its answers is one that
/// counts: the id of the state that it has accepted is not above the one that the node had accepted at the start.
pub fn law_counted()
    ensures { LawCounted }
{}
