//! What holds of each schedule of whole nodes, and of what nodes over a network reply. The calls do nothing: what they
//! promise is proved.
ghost use Rattle.cluster_replay.specs.Laws.{LawClusterRepliesAreTrue, LawClusterReplayIsLegal, LawLivesFollow, LawVotingOnlyNeverWins};
ghost use Rattle.cluster_replay.specs.Lasting.{
  LawClusterAcksLast,
  LawClusterSettingsLast,
  LawClusterAcksAreInOrder,
  LawRestartedAcksLast,
  LawRestartedSettingsLast,
  LawRestartedAcksAreInOrder,
  LawSystemAcksLast,
  LawSystemSettingsLast,
  LawSystemAcksAreInOrder,
};
ghost use Rattle.cluster_replay.specs.SystemReplies.{
  LawKilledRepliesAreTrue,
  LawRestartedSystemRepliesAreTrue,
  LawRestartedKilledRepliesAreTrue,
  LawSystemRepliesAreTrue,
};

/// Wherever its nodes crash and their disks fail, each node of a schedule lives by the policy, and the history has just
/// the acts of these lives.
pub fn law_lives_follow()
    ensures { LawLivesFollow }
{}

/// The history is legal for the initial names: no node takes a message that was not sent, none begins with another
/// configuration, and each finds what it kept. So it is safe.
pub fn law_cluster_replay_is_legal()
    ensures { LawClusterReplayIsLegal }
{}

/// No winner is one of the nodes that the schedule's header lists as voting-only.
pub fn law_voting_only_never_wins()
    ensures { LawVotingOnlyNeverWins }
{}

/// Each reply of each node is true by the end of its event. An ack names a committed state that has what the request
/// asked for, and a state that is shown is committed.
pub fn law_cluster_replies_are_true()
    ensures { LawClusterRepliesAreTrue }
{}

/// Of a system of nodes that each follow the policy, each reply of each run of each node is true by the end of its
/// event, in a first run as in each later one, and also where the node was killed while it sent the reply.
pub fn law_system_replies_are_true()
    ensures { LawSystemRepliesAreTrue }
{}

/// Of an event within which a node was killed, each reply that it sent is true, also where acts were still to come.
pub fn law_killed_replies_are_true()
    ensures { LawKilledRepliesAreTrue }
{}

/// In a schedule of whole nodes, each published state whose id is not below that of a committed one was made of it, one
/// state over another, and under each key it has what the last of the requests says that were processed into these.
pub fn law_cluster_settings_last()
    ensures { LawClusterSettingsLast }
{}

/// So what an ack of a put or a remove says is there in each committed state from the id of the ack on, until a later
/// request that was processed sets or removes the key.
pub fn law_cluster_acks_last()
    ensures { LawClusterAcksLast }
{}

/// By the second profile acks are in order of time: the acked state is above each one that was committed as the line
/// came, and was made of it; so it is above each one that had been acked or shown by then, by whichever node. And what a
/// put or a remove says is there from then on, until a later request changes it.
pub fn law_cluster_acks_are_in_order()
    ensures { LawClusterAcksAreInOrder }
{}

/// The same of a system of nodes, each of whose runs follows the policy.
pub fn law_system_settings_last()
    ensures { LawSystemSettingsLast }
{}

/// And of its acks.
pub fn law_system_acks_last()
    ensures { LawSystemAcksLast }
{}

/// And of the order of its acks.
pub fn law_system_acks_are_in_order()
    ensures { LawSystemAcksAreInOrder }
{}

/// Each reply of each run of each node is true too in a system that one node begins alone, restarted from what it kept, as
/// by the tools.
pub fn law_restarted_system_replies_are_true()
    ensures { LawRestartedSystemRepliesAreTrue }
{}

/// So is each reply that a node sent there of an event within which it was killed.
pub fn law_restarted_killed_replies_are_true()
    ensures { LawRestartedKilledRepliesAreTrue }
{}

/// And what is committed, and acked, there lasts.
pub fn law_restarted_settings_last()
    ensures { LawRestartedSettingsLast }
{}

/// The same of its acks.
pub fn law_restarted_acks_last()
    ensures { LawRestartedAcksLast }
{}

/// And of the order of its acks.
pub fn law_restarted_acks_are_in_order()
    ensures { LawRestartedAcksAreInOrder }
{}
