//! What nodes make together that each follow the policy. The calls do nothing: what they promise is proved.
#![tactic(auto)]

ghost use Rattle.system_laws.specs.EventLaws.{
  LawBootstrapsFirstVoters,
  LawSendsItsMessages,
  LawTakesWhatCame,
};
ghost use Rattle.system_laws.specs.Laws.{
  LawAnyInterleaving,
  LawAnyOrder,
  LawLivesAssemble,
  LawSystemIsSafe,
};
ghost use Rattle.system_laws.specs.VotingOnly.{LawVotingOnlyNeverLeads, LawVotingOnlyNeverWins};
ghost use Rattle.system_laws.specs.OlderSystems.{LawOlderSystemIsSafe};
ghost use Rattle.system_laws.specs.RestartedSystems.{
  LawRestartedLivesAssemble,
  LawRestartedLost,
  LawRestartedSystemIsSafe,
};
ghost use Rattle.system_laws.specs.Restarts.{LawFaultIsSettled, LawKillLeaves, LawLastRunIsKept};

/// What a node sends at an event is from the node itself, and the message of an act in it was sent by an act of this
/// event.
pub fn law_sends_its_messages()
    ensures { LawSendsItsMessages }
{}

/// What an act takes at an event is what came with the event.
pub fn law_takes_what_came()
    ensures { LawTakesWhatCame }
{}

/// A node bootstraps with the first voters of its settings, and it is one of them.
pub fn law_bootstraps_first_voters()
    ensures { LawBootstrapsFirstVoters }
{}

/// The runs of all nodes are right just where those of each node are right by themselves, in whatever order they come.
pub fn law_any_interleaving()
    ensures { LawAnyInterleaving }
{}

/// Runs of nodes that each follow the policy make a legal history, in whatever order their events come, where each
/// begins with what its node had kept, each frame is sent before it is taken, and all that name first voters name the
/// same.
pub fn law_lives_assemble()
    ensures { LawLivesAssemble }
{}

/// So that history is safe.
pub fn law_system_is_safe()
    ensures { LawSystemIsSafe }
{}

/// So is each other order of the acts that keeps each node's own, and it is legal where no message is taken before it
/// was sent.
pub fn law_any_order()
    ensures { LawAnyOrder }
{}

/// A node that lists itself as voting-only counts no join in all its life, so it wins no election.
pub fn law_voting_only_never_leads()
    ensures { LawVotingOnlyNeverLeads }
{}

/// So no winner of a system is a node each of whose runs lists it so, whatever the lists of the other nodes name.
pub fn law_voting_only_never_wins()
    ensures { LawVotingOnlyNeverWins }
{}

/// What a node keeps of all its runs is what it keeps of the last one. So a run begins with what the run before it left.
pub fn law_last_run_is_kept()
    ensures { LawLastRunIsKept }
{}

/// A life whose last act met a fault of the disk, or a crash, follows the policy with that act kept and with it not kept,
/// and the event sent nothing.
pub fn law_fault_is_settled()
    ensures { LawFaultIsSettled }
{}

/// Whatever is kept at a moment of an event, the acts so far, without the act in hand or, where that is taken, with it:
/// a node that is killed there did a part of the event that leaves just that.
pub fn law_kill_leaves()
    ensures { LawKillLeaves }
{}

/// From the restart of one node on, as by the tools, runs of nodes that each follow the policy make a legal history too.
pub fn law_restarted_lives_assemble()
    ensures { LawRestartedLivesAssemble }
{}

/// So it is safe, over the state that this node had kept.
pub fn law_restarted_system_is_safe()
    ensures { LawRestartedSystemIsSafe }
{}

/// In a history from such a restart on, what a node has accepted descends from just those committed states whose id is not
/// above its own.
pub fn law_restarted_lost()
    ensures { LawRestartedLost }
{}

/// Runs of nodes whose journals were begun before states had parents go on with what these nodes did then, and all of it is
/// safe, if read without parents.
pub fn law_older_system_is_safe()
    ensures { LawOlderSystemIsSafe }
{}
