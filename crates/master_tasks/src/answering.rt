//! Which requests that wait are answered, and why.
ghost use Rattle.std.specs.Prelude.{◌≡◌, IfOk};
ghost use Rattle.master_tasks.specs.Answering.{
  answer_applied as answer_applied_of,
  applied_in as applied_in_of,
  nothing_new as nothing_new_of,
  timed_out as timed_out_of,
  waits_applied as waits_applied_of,
};
ghost use Rattle.master_tasks.specs.Deciding.{decided};
ghost use Rattle.voting_config.specs.Ids.{some_among};

use crate::waiting::Waiting;
use cluster_state::{Answer, Ask, SharedState, StateId};
use election_clock::has_passed;
use std::alloc::AllocError;
use voting_config::{IdList, VotingConfig};

/// How long an exclusion waits, in ms: 30 s, the default of `timeout` of the voting configuration exclusions API
/// (Elasticsearch reference 7.x).
pub const EXCLUSION_SPAN_MS: u64 = 30_000;

/// Why requests that wait are answered.
#[derive(Clone, Copy)]
pub enum Decision<'a> {
    /// The node is the leader of this term no more.
    Failed(u64),
    /// The state of this id is committed.
    Committed(StateId),
    /// It is this late, in ms, and this configuration is the committed one.
    Late(&'a VotingConfig, u64),
    /// The accepted state, of this id, has what all ask for, and this configuration is the committed one.
    NothingNew(&'a VotingConfig, StateId),
}

impl Decision<'_> {
    /// The answer that a request gets, if it gets one.
    pub fn answer(&self, w: &Waiting) -> Option<Answer>
        ensures { result ≡ decided self.now w.now }
    {
        match self {
            Decision::Failed(term) => Some(Answer::FailedToCommit(*term)),
            Decision::Committed(id) => {
                if w.processed && !waits_applied(&w.request.ask) {
                    Some(Answer::Acked(*id))
                } else {
                    None
                }
            }
            Decision::Late(committed, now) => timed_out(committed, *now, w),
            Decision::NothingNew(committed, id) => nothing_new(committed, *id, w),
        }
    }
}

// Whether a request waits until the leader has taken the commit of its state.
fn waits_applied(ask: &Ask) -> bool
    ensures { result ≡ waits_applied_of ask.now }
{
    match ask {
        Ask::Exclude(_) | Ask::State => true,
        Ask::Put { .. } | Ask::Remove { .. } | Ask::Clear { .. } => false,
    }
}

// Nothing is new: what asks for nothing else is acked, an exclusion once it was processed and none of its ids votes.
fn nothing_new(committed: &VotingConfig, id: StateId, w: &Waiting) -> Option<Answer>
    ensures { result ≡ nothing_new_of committed.now id w.now }
{
    match &w.request.ask {
        Ask::Put { .. } | Ask::Remove { .. } | Ask::Clear { .. } => Some(Answer::Acked(id)),
        Ask::Exclude(ids) => {
            if w.processed && !some_vote(ids, committed) {
                Some(Answer::Acked(id))
            } else {
                None
            }
        }
        Ask::State => None,
    }
}

// What a request is answered that waited for the leader to take the commit of this state.
fn answer_applied(
    committed: &VotingConfig,
    accepted: &SharedState,
    ask: &Ask,
) -> Result<Option<Answer>, AllocError>
    ensures { IfOk result (λ a. a ≡ answer_applied_of committed.now accepted.now ask.now) }
{
    match ask {
        Ask::Put { .. } | Ask::Remove { .. } | Ask::Clear { .. } => Ok(None),
        Ask::Exclude(ids) => {
            if some_vote(ids, committed) {
                Ok(None)
            } else {
                Ok(Some(Answer::Acked(accepted.id())))
            }
        }
        Ask::State => Ok(Some(Answer::State(accepted.share()?))),
    }
}

/// The answer of a request once the leader has taken the commit of this state, by which this configuration is committed, if it gets one: an
/// exclusion that was processed, where none of its ids votes any more; and a processed request to be shown the state.
pub fn applied_in(
    committed: &VotingConfig,
    accepted: &SharedState,
    w: &Waiting,
) -> Result<Option<Answer>, AllocError>
    ensures { IfOk result (λ a. a ≡ applied_in_of committed.now accepted.now w.now) }
{
    if !w.processed {
        return Ok(None);
    }
    let answer = answer_applied(committed, accepted, &w.request.ask)?;
    Ok(answer)
}

// Whether one of the ids votes.
fn some_vote(ids: &IdList, committed: &VotingConfig) -> bool
    ensures { result ≡ some_among ids.now committed.now }
{
    let voters = committed.members();
    ids.as_slice().iter().any(|id| voters.contains(*id))
}

// An exclusion that came long ago is answered with those of its ids that still vote.
fn timed_out(committed: &VotingConfig, now: u64, w: &Waiting) -> Option<Answer>
    ensures { result ≡ timed_out_of committed.now now w.now }
{
    match &w.request.ask {
        Ask::Exclude(ids) => {
            if has_passed(w.arrived, EXCLUSION_SPAN_MS, now) {
                Some(Answer::ExclusionTimeout(ids.within(committed.members())))
            } else {
                None
            }
        }
        _ => None,
    }
}
