//! What holds of the next state, and of the requests that wait. The calls do nothing: what they promise is proved.
ghost use Rattle.std.specs.Prelude.{◌≡◌, IsTrue, List, None, Option};
ghost use Rattle.cluster_state.specs.declared.reply.Answer.{Answer};
ghost use Rattle.cluster_state.specs.Puts.{bad_setting_of};
ghost use Rattle.master_tasks.specs.declared.waiting.Waiting.{Waiting};
ghost use Rattle.master_tasks.specs.Answering.{left_by};
ghost use Rattle.master_tasks.specs.Counts.{AreCounted, NextIsCounted};
ghost use Rattle.master_tasks.specs.Fitting.{HaveGoodSettings};
ghost use Rattle.master_tasks.specs.Queue.{Tasks, offered};
ghost use Rattle.master_tasks.specs.NextState.{Leader, is_nothing_new, StaysAccepted};

/// Where nothing is new, the accepted state is of the leader's term, and the next configuration and value are equal to
/// its own.
pub fn law_nothing_new()
    ensures { (l : Leader) (t : Tasks) → IsTrue (is_nothing_new l t) → StaysAccepted l t }
{}

/// Whatever decides on answers, each request that waits is answered or waits on.
pub fn law_answered_or_left()
    ensures { (decide : Waiting → Option Answer) (waiting : List Waiting) → AreCounted decide waiting }
{}

/// Each request that waits is answered by the next state, or waits on after it.
pub fn law_next_answered_or_left()
    ensures { (l : Leader) (t : Tasks) → NextIsCounted l t }
{}

/// Where no request that waits is to put a bad setting, none of those is that wait on when others are answered.
pub fn law_left_are_good()
    ensures { (decide : Waiting → Option Answer) (waiting : List Waiting) → HaveGoodSettings waiting
        → HaveGoodSettings (left_by decide waiting) }
{}

/// Nor is one after the arrival of a request that is not to put one.
pub fn law_offered_are_good()
    ensures { (t : Tasks) (w : Waiting) → HaveGoodSettings t.waiting → bad_setting_of w.request.ask ≡ None
        → HaveGoodSettings (offered t w).waiting }
{}
