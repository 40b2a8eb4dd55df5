//! What an audit finds in what a replay writes.

ghost use Rattle.replay_audit.specs.Audits.{LawReplayIsAudited, LawReplayIsRead, LawWholeReplayIsAudited, LawWholeReplayIsRead};
ghost use Rattle.replay_audit.specs.ShownLines.{LawLines, LawWholeLines};
ghost use Rattle.replay_audit.specs.Summed.{LawSummary, LawWholeSummary};

/// The trace of each schedule of level core, after a line `initial` with its configuration, is a recorded trace, whose entries make the
/// schedule's own history. The trace is no longer than an audit takes.
pub fn law_replay_is_read()
    ensures { LawReplayIsRead }
{}

/// So an audit of it finds that it is legal, unless memory runs out: with as many entries as the history has, with its winners in order,
/// and with its number of committed states.
pub fn law_replay_is_audited()
    ensures { LawReplayIsAudited }
{}

/// The same of each schedule of whole nodes.
pub fn law_whole_replay_is_read()
    ensures { LawWholeReplayIsRead }
{}

/// So an audit finds it legal too.
pub fn law_whole_replay_is_audited()
    ensures { LawWholeReplayIsAudited }
{}

/// The summary of the trace of a schedule of level core, which counts its lines, counts what the history has: the lines of the schedule,
/// the acts, those that were refused, the wins, the commits that were sent,
/// and the crashes.
pub fn law_summary()
    ensures { LawSummary }
{}

/// The same of each schedule of whole nodes.
pub fn law_whole_summary()
    ensures { LawWholeSummary }
{}

/// Of the bytes of the trace of a schedule of level core: the lines that begin with the word `won` are those of the wins of its history, in
/// order, and the lines that begin with the word `committed` are those of the states that are committed in it. Two lines `won` of one term
/// are the same line, and so are two lines `committed` of one version.
pub fn law_lines()
    ensures { LawLines }
{}

/// The same of each schedule of whole nodes.
pub fn law_whole_lines()
    ensures { LawWholeLines }
{}
