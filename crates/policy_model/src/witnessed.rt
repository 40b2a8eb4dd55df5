//! That a life which follows the policy is determined. The call does nothing: what it promises is proved.
ghost use Rattle.policy_model.specs.Witnessed.{LawDetermined};

/// Two lives that follow the policy are equal where they have the same openings, events and faults: what a node does
/// in an event, also all that no trace shows, is determined by what came before.
pub fn law_determined()
    ensures { LawDetermined }
{}
