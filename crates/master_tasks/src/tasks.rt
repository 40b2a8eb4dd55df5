//! `MasterTasks`: the requests that are not answered yet, the members that are to come and to go, and the next state that is made of them.
ghost use Rattle.std.specs.Prelude.{◌≡◌, not, ◌&&◌, ◌↔◌, ◌<◌, ◌≤◌, [], length, slice_get, Some, Err, IsTrue, IfOk, IfErr, OnOk, OnErr};
ghost use Rattle.master_tasks.specs.declared.tasks.OfferError.TheVariants as offer_error;
ghost use Rattle.master_tasks.specs.Answering.{answers_by, committed_in, applied_in, failed, left_by, timed_out, without_answered};
ghost use Rattle.master_tasks.specs.Deciding.{decided};
ghost use Rattle.cluster_state.specs.States.{IsFitValue};
ghost use Rattle.reconfigurator.specs.Targets.{target_of};
ghost use Rattle.voting_config.specs.Ids.{among};
ghost use Rattle.master_tasks.specs.Fitting.{HaveGoodSettings, IsFitNext};
ghost use Rattle.master_tasks.specs.Members.{members_after as members_after_of};
ghost use Rattle.master_tasks.specs.NextState.{
  IsAtRest,
  config_for as config_for_of,
  is_accepted as is_accepted_of,
  may_reconfigure as may_reconfigure_of,
  makes_anew as makes_anew_of,
  leader_of,
  next_of,
  value_before as value_before_of,
  tasks_after,
  waiting_after,
};
ghost use Rattle.master_tasks.specs.Processing.{processed_all};
ghost use Rattle.master_tasks.specs.Replying.{room_for, with_sent};

use crate::answering::{Decision, applied_in as applied_in_by};
use crate::members::join;
use crate::next::{Next, Prepared};
use crate::policy::Policy;
use crate::processing::process_once;
use crate::replies::Replies;
use crate::waiting::Waiting;
use cluster_state::{ClusterState, ClusterValue, Request, SharedState, StateId};
use reconfigurator::{stays, target};
use std::alloc::{AllocError, Global};
use std::marker::Model;
use voting_config::{IdList, JoinVotes, NodeId, NodeSet, VotingConfig};

/// How many requests wait at most.
pub const MAX_OPEN: usize = 64;

/// What a leader has to do. Seen as the requests that are not answered yet, in order of arrival, and the sets of the
/// members that are to go and to come.
#[derive(Drop)]
pub struct MasterTasks {
    alloc: Global,
    waiting: Vec<Waiting>,
    removals: NodeSet,
    additions: NodeSet,
}

impl Model for MasterTasks {
    ghost use Rattle.master_tasks.specs.Queue.{Tasks};

    ghost Value = { Tasks };

    ghost use Rattle.std.specs.Prelude.{◌≤◌, length};
    ghost use Rattle.master_tasks.specs.Queue.{most_open};

    ghost view = { λ t. record { waiting = t.waiting.items; removals = t.removals; additions = t.additions } };

    ghost invariant = { λ t. length t.waiting.items ≤ most_open };
}

/// Why a request was not taken. It is handed back.
#[derive(Drop)]
pub enum OfferError {
    /// [`MAX_OPEN`] requests wait.
    QueueFull(Request),
    Memory(Request),
}

/// What a leader has left once it has taken a commit, and the replies that it sends then.
#[derive(Drop)]
pub struct Applied {
    pub tasks: MasterTasks,
    pub replies: Replies,
}

// Requests that were processed: those that wait on, whether one of these was not processed before, and the replies to the others.
#[derive(Drop)]
struct Processed {
    waiting: Vec<Waiting>,
    anew: bool,
    replies: Replies,
}

impl MasterTasks {
    ghost use Rattle.master_tasks.specs.Queue.{
      arriving,
      is_full_of,
      no_tasks,
      offered,
      only,
      settled,
      to_be_added,
      to_be_removed,
    };
    ghost use Rattle.master_tasks.specs.Offers.{request_in};

    /// Nothing to do.
    pub fn new(alloc: Global) -> MasterTasks
        ensures { result ≡ no_tasks }
    {
        MasterTasks {
            alloc,
            waiting: Vec::new(alloc),
            removals: NodeSet::new(),
            additions: NodeSet::new(),
        }
    }

    /// Nothing is left to do: who waits is not answered, and nobody is to come or to go.
    pub fn clear(&mut self)
        ensures { self.new ≡ no_tasks }
    {
        self.waiting.clear();
        self.removals.clear();
        self.additions.clear();
    }

    /// Only these requests wait, and nobody is to come or to go.
    pub fn leave_only(&mut self, waiting: Vec<Waiting>)
        requires { length waiting.items ≤ MAX_OPEN }
        ensures { self.new ≡ only waiting.items }
    {
        self.waiting = waiting;
        self.removals.clear();
        self.additions.clear();
    }

    /// How many requests are not answered yet: at most [`MAX_OPEN`].
    pub fn open_count(&self) -> usize
        ensures count { result ≡ length self.now.waiting }
        ensures few { result ≤ MAX_OPEN }
    {
        self.waiting.len()
    }

    /// Whether [`MAX_OPEN`] requests are not answered yet, so that no more are taken.
    pub fn is_full(&self) -> bool
        ensures { result ≡ is_full_of self.now }
    {
        self.waiting.len() >= MAX_OPEN
    }

    /// The request at a place in order of arrival, counted from 0.
    pub fn waiting(&self, place: usize) -> &Waiting
        requires { place < length self.now.waiting }
        ensures { slice_get self.now.waiting place ≡ Some result.now }
    {
        &self.waiting[place]
    }

    /// Takes the request at a place out.
    pub fn settle(&mut self, place: usize) -> Waiting
        requires { place < length self.old.waiting }
        ensures left { self.new ≡ settled self.old place }
        ensures taken { slice_get self.old.waiting place ≡ Some result }
    {
        self.waiting.remove(place)
    }

    /// Takes a request that came by a connection at a moment, in ms. `QueueFull` exactly where [`MAX_OPEN`] are not
    /// answered yet. At an error nothing changed.
    pub fn offer(&mut self, conn: u64, now: u64, request: Request) -> Result<(), OfferError>
        ensures ok { OnOk result (self.new ≡ offered self.old (arriving conn now request)) }
        ensures err { OnErr result (self.new ≡ self.old) }
        ensures full { (result ≡ Err (offer_error.QueueFull request)) ↔ IsTrue (is_full_of self.old) }
        ensures back { IfErr result (λ e. request_in e ≡ request) }
    {
        if self.is_full() {
            return Err(OfferError::QueueFull(request));
        }
        let arriving = Waiting {
            conn,
            arrived: now,
            request,
            processed: false,
        };
        match self.waiting.push(arriving) {
            Ok(()) => Ok(()),
            Err(failed) => Err(OfferError::Memory(failed.value.request)),
        }
    }

    /// The id is to become a member, unless 64 others already are to.
    pub fn add_member(&mut self, id: NodeId)
        ensures { self.new ≡ to_be_added self.old id }
    {
        self.additions.put_if_room(id);
    }

    /// The id is to be a member no more, unless 64 others already are to go.
    pub fn drop_member(&mut self, id: NodeId)
        ensures { self.new ≡ to_be_removed self.old id }
    {
        self.removals.put_if_room(id);
    }

    /// Who is to be a member no more.
    pub fn removals(&self) -> &NodeSet
        ensures { result.now ≡ self.now.removals }
    {
        &self.removals
    }

    /// The same tasks once more.
    pub fn copy(&self) -> Result<MasterTasks, AllocError>
        ensures { IfOk result (λ t. t ≡ self.now) }
    {
        Ok(MasterTasks {
            alloc: self.alloc,
            waiting: copied(self.alloc, &self.waiting)?,
            removals: self.removals.copy(),
            additions: self.additions.copy(),
        })
    }

    /// The node is the leader of this term no more: all requests are answered with `FailedToCommit`.
    pub fn fail_all(&mut self, term: u64, out: &mut Replies)
        requires { length self.old.waiting ≤ out.old.room }
        ensures left { self.new ≡ without_answered (failed term) self.old }
        ensures sent { out.new ≡ with_sent out.old (answers_by (failed term) self.old.waiting) }
    {
        self.answer(&Decision::Failed(term), out);
    }

    /// The state of this id is committed: the requests that were processed are acknowledged, but for exclusions.
    pub fn ack_committed(&mut self, id: StateId, out: &mut Replies)
        requires { length self.old.waiting ≤ out.old.room }
        ensures left { self.new ≡ without_answered (committed_in id) self.old }
        ensures sent { out.new ≡ with_sent out.old (answers_by (committed_in id) self.old.waiting) }
    {
        self.answer(&Decision::Committed(id), out);
    }

    /// What a leader will have left once it has taken the commit of this state, by which this configuration is committed, and the replies
    /// that it will send then: the exclusions that were processed and none of whose ids is in it are acknowledged, and who was to be shown
    /// the state is. The tasks stay as they are.
    pub fn once_applied(
        &self,
        committed: &VotingConfig,
        accepted: &SharedState,
    ) -> Result<Applied, AllocError>
        ensures left { IfOk result (λ a. a.tasks ≡ without_answered (applied_in committed.now accepted.now) self.now) }
        ensures sent { IfOk result (λ a. a.replies.sent ≡ answers_by (applied_in committed.now accepted.now) self.now.waiting) }
    {
        let mut waiting = Vec::new(self.alloc);
        let mut replies = Replies::with_room(self.alloc, self.waiting.len())?;
        for w in &self.waiting {
            match applied_in_by(committed, accepted, w)? {
                Some(answer) => replies.push(w.answer(answer)),
                None => waiting.push(w.copy()?)?,
            }
        }
        let tasks = MasterTasks {
            alloc: self.alloc,
            waiting,
            removals: self.removals.copy(),
            additions: self.additions.copy(),
        };
        Ok(Applied { tasks, replies })
    }

    /// It is this late, in ms: the exclusions that have waited 30,000 ms or more are answered with those of their ids
    /// that are still in the committed configuration.
    pub fn time_out_exclusions(&mut self, committed: &VotingConfig, now: u64, out: &mut Replies)
        requires { length self.old.waiting ≤ out.old.room }
        ensures left { self.new ≡ without_answered (timed_out committed.now now) self.old }
        ensures sent { out.new ≡ with_sent out.old (answers_by (timed_out committed.now now) self.old.waiting) }
    {
        self.answer(&Decision::Late(committed, now), out);
    }

    // Answers the requests that get an answer.
    fn answer(&mut self, decision: &Decision, out: &mut Replies)
        requires { length self.old.waiting ≤ out.old.room }
        ensures left { self.new ≡ without_answered (decided decision.now) self.old }
        ensures sent { out.new ≡ with_sent out.old (answers_by (decided decision.now) self.old.waiting) }
    {
        answer_by(&mut self.waiting, decision, out);
    }

    // Processes the requests from the first on, each on the value so far. Where there is no memory, the value may be
    // anything.
    fn process(
        &self,
        second: bool,
        accepted: &SharedState,
        value: &mut ClusterValue,
    ) -> Result<Processed, AllocError>
        ensures value { OnOk result (value.new ≡ (processed_all second accepted.now value.old self.now.waiting).value) }
        ensures waiting { IfOk result (λ p. p.waiting.items ≡ (processed_all second accepted.now value.old self.now.waiting).waiting) }
        ensures anew { IfOk result (λ p. p.anew ≡ (processed_all second accepted.now value.old self.now.waiting).anew) }
        ensures replies { IfOk result
            (λ p. p.replies ≡ with_sent (room_for (length self.now.waiting))
            (processed_all second accepted.now value.old self.now.waiting).answers) }
        ensures fits { IfOk result (λ p. length p.waiting.items ≤ p.replies.room) }
        ensures few { IfOk result (λ p. length p.waiting.items ≤ MAX_OPEN) }
    {
        let mut waiting = Vec::new(self.alloc);
        let mut anew = false;
        let mut replies = Replies::with_room(self.alloc, self.waiting.len())?;
        for w in &self.waiting {
            match process_once(self.alloc, second, accepted, value, w)? {
                Some(answer) => replies.push(w.answer(answer)),
                None => {
                    anew |= !w.processed;
                    waiting.push(w.processed()?)?;
                }
            }
        }
        Ok(Processed {
            waiting,
            anew,
            replies,
        })
    }

    // Whether nothing waits, and nobody is to come or to go.
    fn is_idle(&self) -> bool
        ensures { IsTrue result → self.now ≡ no_tasks }
    {
        self.waiting.is_empty() && self.keeps_members()
    }

    // Whether a state is made since anybody joins, or a request was processed.
    fn makes_anew(&self, policy: Policy, anew: bool) -> bool
        ensures { result ≡ makes_anew_of policy self.now.additions anew }
    {
        (self.additions.len() > 0 || anew) && policy.second
    }

    // Whether no state is sent for itself, and the configuration and the value are the accepted ones, in this term.
    fn is_nothing_new(
        &self,
        term: u64,
        accepted: &ClusterState,
        policy: Policy,
        anew: bool,
        config: &IdList,
        value: &ClusterValue,
    ) -> bool
        ensures { result ≡ (not (makes_anew_of policy self.now.additions anew) && is_accepted_of term accepted.now config.now value.now) }
    {
        !self.makes_anew(policy, anew) && is_accepted(term, accepted, config, value)
    }

    /// Whether it is plain that nothing comes of the tasks, before [`prepare`](MasterTasks::prepare) makes a value: nothing waits, nobody
    /// is to come or to go, and the accepted state is the leader's own and stays. It takes no memory. Where it is false, `prepare` tells.
    pub fn is_at_rest(
        &self,
        me: NodeId,
        term: u64,
        accepted: &ClusterState,
        committed: &VotingConfig,
        votes: &JoinVotes,
        policy: Policy,
    ) -> bool
        ensures { IsTrue result → IsAtRest (leader_of me term accepted.now committed.now votes.now policy) self.now }
    {
        if !self.is_idle() {
            return false;
        }
        if !is_master(me, &accepted.value) {
            return false;
        }
        accepted_stays(me, term, accepted, committed, votes, policy)
    }

    /// What comes of the tasks, made by a leader in its `term` of its accepted state, the committed configuration and
    /// those who voted for it. `New` is to be published: it begins with the accepted value and the node as master;
    /// members that are to go leave it, but never the node itself; members that are to come join it as far as there
    /// is room, the node itself first; and the requests that were not processed yet are processed from the first on, each
    /// on the value so far. Where that is the accepted value and configuration, in the current term, it is `Same`, and
    /// what waits is acknowledged; but in the second profile it is `New` where anybody is to come, or a request was
    /// processed. The tasks stay as they are: [`MasterTasks::leave_only`] takes over who waits on.
    pub fn prepare(
        &self,
        me: NodeId,
        term: u64,
        accepted: &SharedState,
        committed: &VotingConfig,
        votes: &JoinVotes,
        policy: Policy,
    ) -> Result<Prepared, AllocError>
        ensures waiting { IfOk result
            (λ p. p.waiting.items ≡ waiting_after (leader_of me term accepted.now committed.now votes.now policy) self.now) }
        ensures next { IfOk result (λ p. p.next ≡ next_of (leader_of me term accepted.now committed.now votes.now policy) self.now) }
        ensures few { IfOk result (λ p. length p.waiting.items ≤ MAX_OPEN) }
        // What is published is within the limits, if the accepted value is and no request is to put a bad setting.
        ensures fits { IsFitValue accepted.now.value → HaveGoodSettings self.now.waiting → IfOk result (λ p. IsFitNext p.next) }
        ensures good { HaveGoodSettings self.now.waiting → IfOk result (λ p. HaveGoodSettings p.waiting.items) }
    {
        let state: &ClusterState = accepted;
        // For the proof alone: settings ascend by key.
        let _ = state.value.settings.texts();
        let mut value = self.value_before(me, &state.value)?;
        let Processed {
            mut waiting,
            anew,
            mut replies,
        } = self.process(policy.second, accepted, &mut value)?;
        let config = config_for(
            self.alloc, me, term, state, committed, votes, policy, &value,
        )?;
        if self.is_nothing_new(term, state, policy, anew, &config, &value) {
            answer_by(
                &mut waiting,
                &Decision::NothingNew(committed, state.id()),
                &mut replies,
            );
            return Ok(Prepared {
                next: Next::Same(replies),
                waiting,
            });
        }
        Ok(Prepared {
            next: Next::New {
                config,
                value,
                replies,
            },
            waiting,
        })
    }

    /// [`prepare`](MasterTasks::prepare), with the tasks as they are after it: who waits on, and nobody to come or to go. At an
    /// error nothing changed.
    pub fn next_state(
        &mut self,
        me: NodeId,
        term: u64,
        accepted: &SharedState,
        committed: &VotingConfig,
        votes: &JoinVotes,
        policy: Policy,
    ) -> Result<Next, AllocError>
        ensures tasks { OnOk result (self.new ≡ tasks_after (leader_of me term accepted.now committed.now votes.now policy) self.old) }
        ensures next { IfOk result (λ n. n ≡ next_of (leader_of me term accepted.now committed.now votes.now policy) self.old) }
        ensures err { OnErr result (self.new ≡ self.old) }
        ensures fits { IsFitValue accepted.now.value → HaveGoodSettings self.old.waiting → IfOk result IsFitNext }
        ensures good { HaveGoodSettings self.old.waiting → OnOk result (HaveGoodSettings self.new.waiting) }
    {
        let Prepared { next, waiting } = self.prepare(
            me, term, accepted, committed, votes, policy,
        )?;
        self.leave_only(waiting);
        Ok(next)
    }

    // The value with the node as master, with the members that are to come and without those that are to go.
    fn value_before(&self, me: NodeId, value: &ClusterValue) -> Result<ClusterValue, AllocError>
        ensures { IfOk result (λ v. v ≡ value_before_of me self.now value.now) }
    {
        let members = self.members_after(me, &value.members)?;
        let exclusions = value.exclusions.copy()?;
        let settings = value.settings.copy()?;
        Ok(ClusterValue {
            master: Some(me),
            members,
            exclusions,
            settings,
        })
    }

    // The members with those that are to come and without those that are to go. Most often nobody is, and no set is made then.
    fn members_after(&self, me: NodeId, members: &IdList) -> Result<IdList, AllocError>
        ensures { IfOk result (λ ids. ids ≡ members_after_of me self.now members.now) }
    {
        if self.keeps_members() {
            return members.copy();
        }
        IdList::of(self.alloc, &self.members_moved(me, members))
    }

    // Whether nobody is to come or to go.
    fn keeps_members(&self) -> bool
        ensures removals { IsTrue result → self.now.removals ≡ [] }
        ensures additions { IsTrue result → self.now.additions ≡ [] }
    {
        self.removals.len() == 0 && self.additions.len() == 0
    }

    // The members once they came and went.
    fn members_moved(&self, me: NodeId, members: &IdList) -> NodeSet
        ensures { result ≡ members_after_of me self.now members.now }
    {
        let mut gone = self.removals.copy();
        gone.remove(me);
        let mut members = members.without(&gone);
        join(me, &self.additions, &mut members);
        members
    }
}

// Answers the requests that get an answer, and takes them out.
fn answer_by(waiting: &mut Vec<Waiting>, decision: &Decision, out: &mut Replies)
    requires { length waiting.old.items ≤ out.old.room }
    ensures left { waiting.new.items ≡ left_by (decided decision.now) waiting.old.items }
    ensures sent { out.new ≡ with_sent out.old (answers_by (decided decision.now) waiting.old.items) }
    ensures few { length waiting.new.items ≤ length waiting.old.items }
{
    let mut place = 0;
    while place < waiting.len() {
        match decision.answer(&waiting[place]) {
            Some(answer) => {
                let w = waiting.remove(place);
                out.push(w.answer(answer));
            }
            None => place += 1,
        }
    }
}

// Whether another configuration may be wanted.
fn may_reconfigure(
    term: u64,
    accepted: &ClusterState,
    committed: &VotingConfig,
    policy: Policy,
) -> bool
    ensures { result ≡ may_reconfigure_of term accepted.now committed.now policy }
{
    committed.is_same_list(&accepted.config) && (!policy.second || accepted.term == term)
}

// The configuration that is wanted for the value.
#[tactic(auto, unfolding(crate::specs::NextState::config_for))]
fn config_for(
    alloc: Global,
    me: NodeId,
    term: u64,
    accepted: &ClusterState,
    committed: &VotingConfig,
    votes: &JoinVotes,
    policy: Policy,
    value: &ClusterValue,
) -> Result<IdList, AllocError>
    ensures { IfOk result (λ config. config ≡ config_for_of me term accepted.now committed.now votes.now policy value.now) }
{
    if !may_reconfigure(term, accepted, committed, policy) {
        return accepted.config.copy();
    }
    target_for(alloc, me, &accepted.config, votes, policy.shrink, value)
}

// The configuration that a master aims at for the value. Most often it is that of today, and no set is made then.
fn target_for(
    alloc: Global,
    me: NodeId,
    config: &IdList,
    votes: &JoinVotes,
    shrink: bool,
    value: &ClusterValue,
) -> Result<IdList, AllocError>
    ensures { IfOk result
        (λ wanted. wanted ≡ target_of (among value.now.members votes.now) value.now.exclusions me config.now shrink) }
{
    if stays(&value.members, votes, &value.exclusions, me, config, shrink) {
        return config.copy();
    }
    let wanted = aim(me, config, votes, shrink, value);
    IdList::of(alloc, wanted.members())
}

// The same, in place, by the sets.
fn aim(
    me: NodeId,
    config: &IdList,
    votes: &JoinVotes,
    shrink: bool,
    value: &ClusterValue,
) -> VotingConfig
    ensures { result ≡ target_of (among value.now.members votes.now) value.now.exclusions me config.now shrink }
{
    let live = value.members.within(&votes.sources());
    target(&live, &value.exclusions, me, config, shrink)
}

// Whether the configuration is the one that a master aims at for the value.
fn is_target(
    me: NodeId,
    config: &IdList,
    votes: &JoinVotes,
    shrink: bool,
    value: &ClusterValue,
) -> bool
    ensures { IsTrue result
        → target_of (among value.now.members votes.now) value.now.exclusions me config.now shrink ≡ config.now }
{
    if stays(&value.members, votes, &value.exclusions, me, config, shrink) {
        return true;
    }
    aim(me, config, votes, shrink, value).is_same_list(config)
}

fn is_master(me: NodeId, value: &ClusterValue) -> bool
    ensures { IsTrue result → value.now.master ≡ Some me }
{
    match value.master {
        None => false,
        Some(master) => master == me,
    }
}

// Whether the accepted state is of this term, and has the configuration that is wanted for its value.
fn accepted_stays(
    me: NodeId,
    term: u64,
    accepted: &ClusterState,
    committed: &VotingConfig,
    votes: &JoinVotes,
    policy: Policy,
) -> bool
    ensures { IsTrue result
        → IsTrue (is_accepted_of term accepted.now (config_for_of me term accepted.now committed.now votes.now policy accepted.now.value)
        accepted.now.value) }
{
    if accepted.term != term {
        return false;
    }
    keeps_config(me, term, accepted, committed, votes, policy)
}

// Whether the accepted configuration is the one that is wanted for the accepted value.
#[tactic(auto, unfolding(crate::specs::NextState::config_for))]
fn keeps_config(
    me: NodeId,
    term: u64,
    accepted: &ClusterState,
    committed: &VotingConfig,
    votes: &JoinVotes,
    policy: Policy,
) -> bool
    ensures { IsTrue result
        → config_for_of me term accepted.now committed.now votes.now policy accepted.now.value ≡ accepted.now.config }
{
    if !may_reconfigure(term, accepted, committed, policy) {
        return true;
    }
    is_target(me, &accepted.config, votes, policy.shrink, &accepted.value)
}

// Whether the configuration and the value are the accepted ones, in this term.
#[tactic(auto, unfolding(crate::specs::NextState::is_accepted))]
fn is_accepted(term: u64, accepted: &ClusterState, config: &IdList, value: &ClusterValue) -> bool
    ensures { result ≡ is_accepted_of term accepted.now config.now value.now }
{
    accepted.term == term && value.is_same(&accepted.value) && config.is_same(&accepted.config)
}

// The same requests once more.
fn copied(alloc: Global, waiting: &[Waiting]) -> Result<Vec<Waiting>, AllocError>
    ensures { IfOk result (λ copies. copies.items ≡ waiting.now) }
{
    let mut copies = Vec::new(alloc);
    for w in waiting {
        copies.push(w.copy()?)?;
    }
    Ok(copies)
}
