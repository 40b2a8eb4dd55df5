//! What a client may rely on. The calls do nothing: what they promise is proved.
#![tactic(auto)]

ghost use Rattle.client_guarantees.specs.InTime.{
  LawAnswersArePublishedAfterTheyCame,
  LawAnswersFollowTime,
  LawRestartedAnswersArePublishedAfterTheyCame,
  LawRestartedAnswersFollowTime,
};
ghost use Rattle.client_guarantees.specs.Laws.{
  LawExcludedStayOut,
  LawLastRepliesAreTrue,
  LawLastSettingStands,
  LawNextMeetsEach,
  LawProcessedCame,
  LawRepliesAreTrue,
  LawRestartedRepliesAreTrue,
};

/// Where a run of a node follows the policy and its acts are those of a legal history, each reply of its last event is
/// true, whatever the node did before and after. An ack names a committed state that has what the request asked for,
/// unless one that was processed after it undoes it; and of the nodes that the request excludes none votes in that state.
/// A state that is shown is committed.
pub fn law_last_replies_are_true()
    ensures { LawLastRepliesAreTrue }
{}

/// So is each reply of each of its events.
pub fn law_replies_are_true()
    ensures { LawRepliesAreTrue }
{}

/// So it is from the restart of one node on.
pub fn law_restarted_replies_are_true()
    ensures { LawRestartedRepliesAreTrue }
{}

/// What a node that follows the policy has processed since it was opened last came as a line, by the connection to
/// which its replies go.
pub fn law_processed_came()
    ensures { LawProcessedCame }
{}

/// The value that a leader makes of the requests that wait has what each request that it processes asks for, unless a
/// later one undoes it.
pub fn law_next_meets_each()
    ensures { LawNextMeetsEach }
{}

/// Under each key it has what the last of these requests says that sets or removes it.
pub fn law_last_setting_stands()
    ensures { LawLastSettingStands }
{}

/// A node that is excluded from voting and is no voter of the state that the leader has accepted is no voter of the next
/// one, member or not: so a node that was excluded before it joins stays out as it joins.
pub fn law_excluded_stay_out()
    ensures { LawExcludedStayOut }
{}

/// By the second profile a request is acknowledged with a state that was published after its line came, and shown such a
/// state, and so one that no node had published by then. An acknowledged request was processed into that state, or into
/// one that was published since its line came and of which that one was made.
pub fn law_answers_are_published_after_they_came()
    ensures { LawAnswersArePublishedAfterTheyCame }
{}

/// So such a state is above each one that was committed as the line came, and was made of it.
pub fn law_answers_follow_time()
    ensures { LawAnswersFollowTime }
{}

/// So it is from the restart of one node on.
pub fn law_restarted_answers_are_published_after_they_came()
    ensures { LawRestartedAnswersArePublishedAfterTheyCame }
{}

/// And that state is above each one that was committed since the restart as the line came.
pub fn law_restarted_answers_follow_time()
    ensures { LawRestartedAnswersFollowTime }
{}
