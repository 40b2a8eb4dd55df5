//! What holds of the history and the trace of every schedule. The calls do nothing: what they promise is proved.
ghost use Rattle.schedule_replay.specs.ClusterLaws.{LawClusterPartsGoOn, LawClusterTraceAgrees, LawClusterTraceShows, LawClusterTraceGivesHistory};
ghost use Rattle.schedule_replay.specs.Generated.{LawGenerated};
ghost use Rattle.schedule_replay.specs.GoesOn.{LawGoesOn};
ghost use Rattle.schedule_replay.specs.Legal.{LawReplayIsLegal};
ghost use Rattle.schedule_replay.specs.TraceLaws.{LawPartsGoOn, LawTraceAgrees, LawTraceFollows, LawTraceShows, LawTraceGivesHistory};

/// The history of a schedule is legal, wherever its nodes crash and their disks fail: of each schedule whose lines are of
/// level core and of its nodes, and whose initial configuration is a set of ids, which is not empty unless there is no line.
pub fn law_replay_is_legal()
    ensures { LawReplayIsLegal }
{}

/// The trace of each schedule is the text of its parts, and the history of the schedule is read off these parts: its acts and
/// openings, with their outcomes, in order. The parts echo the lines, and number the messages in the order in which they were sent.
pub fn law_trace_gives_history()
    ensures { LawTraceGivesHistory }
{}

/// More lines leave the parts of the lines before as they are, so the trace shows the history at each moment.
pub fn law_parts_go_on()
    ensures { LawPartsGoOn }
{}

/// After the echo of each line stands what the line asks for, by the parts before it.
pub fn law_trace_follows()
    ensures { LawTraceFollows }
{}

/// The `won` lines of a trace are the wins of the history, and its `committed` lines show just the states committed in it.
pub fn law_trace_shows()
    ensures { LawTraceShows }
{}

/// No two `won` lines of one term name two nodes, and no two `committed` lines of one version differ.
pub fn law_trace_agrees()
    ensures { LawTraceAgrees }
{}

/// The trace of each schedule of whole nodes is the text of its parts, and the history of the schedule is read off these parts.
/// The parts echo the lines. They show just the frames that were sent, in order and numbered from 1, and of each node just the
/// replies of its life, in order.
pub fn law_cluster_trace_gives_history()
    ensures { LawClusterTraceGivesHistory }
{}

/// More lines leave the parts of the lines before as they are, also of whole nodes.
pub fn law_cluster_parts_go_on()
    ensures { LawClusterPartsGoOn }
{}

/// Where the history of a schedule of whole nodes is legal, the `won` lines of its trace are the wins of the history, and its
/// `committed` lines show just the states committed in it.
pub fn law_cluster_trace_shows()
    ensures { LawClusterTraceShows }
{}

/// Then no two `won` lines of one term name two nodes, and no two `committed` lines of one version differ.
pub fn law_cluster_trace_agrees()
    ensures { LawClusterTraceAgrees }
{}

/// The text of each generated schedule spells that schedule at level core, so it is read back from its text.
pub fn law_generated()
    ensures { LawGenerated }
{}

/// After every schedule the lines of a plan, for nodes that are up, run and have no order left, do the acts of the plan and commit a
/// new state.
pub fn law_plan_goes_on()
    ensures { LawGoesOn }
{}
