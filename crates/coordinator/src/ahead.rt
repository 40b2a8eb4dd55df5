//! The plan for a join, made before its term is raised.
ghost use Rattle.std.specs.Prelude.{◌≡◌, ◌&&◌, not, IfOk, if◌then◌else◌};
ghost use Rattle.policy_model.specs.Doing.{is_candidate};
ghost use Rattle.master_tasks.specs.Queue.{no_tasks};
ghost use Rattle.world_model.specs.Replies.{elects};
ghost use Rattle.policy_model.specs.Parts.{all_to_be_added, policy_at as policy_at_of};
ghost use Rattle.coordinator.specs.Ahead.{ahead_of, HasPlan, IsPlannedAhead};
ghost use Rattle.master_tasks.specs.NextState.{leader_of};
ghost use Rattle.coordinator.specs.Views.{view_in};

use crate::coordinator::Coordinator;
use crate::plan::{Plan, plan_state};
use election_clock::has_passed;
use master_tasks::{MasterTasks, Policy};
use policy_model::Mode;
use state_journal::Keeper;
use std::alloc::{AllocError, Global};
use voting_config::{JoinVotes, NodeId, VotingConfig};

/// For how long a leader of the second profile takes no voter out for being away, in ms: what it takes for all that are up to be heard of
/// after an election.
pub const SHRINK_DELAY_MS: u64 = 10_000;

/// What a node will be once its term has risen, as far as the next state is made of it.
#[derive(Drop)]
pub struct Ahead {
    pub term: u64,
    pub votes: JoinVotes,
    pub won: bool,
    pub leads: bool,
    pub tasks: MasterTasks,
}

/// These are to become members.
pub(crate) fn add_members(tasks: &mut MasterTasks, ids: &[NodeId])
    ensures { tasks.new ≡ all_to_be_added tasks.old ids.now }
{
    for id in ids {
        tasks.add_member(*id);
    }
}

impl<K: Keeper> Coordinator<K> {
    // What a candidate that is none yet will have left to do.
    fn tasks_of_candidate(&self, alloc: Global) -> Result<MasterTasks, AllocError>
        ensures { IfOk result (λ t. t ≡ (if is_candidate self.now.mode then self.now.tasks else no_tasks)) }
    {
        let mode = self.mode;
        match mode {
            Mode::Candidate => self.tasks.copy(),
            Mode::Leader | Mode::Follower(_) => Ok(MasterTasks::new(alloc)),
        }
    }

    fn ahead(&self, alloc: Global, term: u64) -> Result<Ahead, AllocError>
        ensures { IfOk result (λ a. a ≡ ahead_of (view_in K.Keeper self.now) term) }
    {
        if self.core.term() < term {
            return Ok(Ahead {
                term,
                votes: JoinVotes::new(),
                won: false,
                leads: false,
                tasks: self.tasks_of_candidate(alloc)?,
            });
        }
        Ok(Ahead {
            term: self.core.term(),
            votes: self.core.votes().copy(),
            won: self.core.won(),
            leads: self.is_leader(),
            tasks: self.tasks.copy()?,
        })
    }

    // Whether these votes win.
    fn wins_with(&self, won: bool, votes: &mut JoinVotes) -> bool
        ensures value { result ≡ (not won && elects (view_in K.Keeper self.now).node votes.old) }
        ensures same { votes.new ≡ votes.old }
    {
        !won && votes.is_quorum_with_state(self.core.committed(), &self.core.accepted().config)
    }

    // By which policy it leads now, where it became a leader at that moment.
    fn policy_at(&self, led_from: u64) -> Policy
        ensures { result ≡ policy_at_of self.now.settings led_from self.now.moment }
    {
        let Policy { shrink, second } = self.settings.policy;
        Policy {
            shrink: shrink && (!second || has_passed(led_from, SHRINK_DELAY_MS, self.moment)),
            second,
        }
    }

    // What making the next state of these tasks comes to, of a leader since a moment, in a term, with this committed configuration and
    // with these votes.
    pub(crate) fn plan_over(
        &self,
        alloc: Global,
        led_from: u64,
        term: u64,
        committed: &VotingConfig,
        tasks: &MasterTasks,
        votes: &JoinVotes,
    ) -> Result<Option<Plan>, AllocError>
        ensures { IfOk result
            (λ plan. HasPlan (leader_of self.now.settings.me term (K.record_of self.now.core.keeper).accepted
            committed.now votes.now (policy_at_of self.now.settings led_from self.now.moment)) tasks.now plan) }
    {
        let plan = plan_state(
            alloc,
            self.settings.me,
            self.policy_at(led_from),
            tasks,
            term,
            &self.core.kept().accepted,
            committed,
            votes,
        )?;
        Ok(Some(plan))
    }

    // The same, with the committed configuration of the node.
    pub(crate) fn plan_with(
        &self,
        alloc: Global,
        led_from: u64,
        term: u64,
        tasks: &MasterTasks,
        votes: &JoinVotes,
    ) -> Result<Option<Plan>, AllocError>
        ensures { IfOk result
            (λ plan. HasPlan (leader_of self.now.settings.me term (K.record_of self.now.core.keeper).accepted
            (K.record_of self.now.core.keeper).committed votes.now (policy_at_of self.now.settings led_from self.now.moment)) tasks.now plan) }
    {
        self.plan_over(alloc, led_from, term, self.core.committed(), tasks, votes)
    }

    // The plan of a node that will be this, once it has counted the join of p, which the votes and tasks then have.
    fn plan_ahead(
        &self,
        alloc: Global,
        ahead: &mut Ahead,
        p: NodeId,
    ) -> Result<Option<Plan>, AllocError>
        ensures { IfOk result (λ plan. IsPlannedAhead self.now.settings (view_in K.Keeper self.now) ahead.old p plan) }
    {
        if !ahead.votes.has_room(p) {
            return Ok(None);
        }
        ahead.votes.add(p);
        if self.wins_with(ahead.won, &mut ahead.votes) {
            let sources = ahead.votes.sources();
            ahead.tasks.add_member(self.settings.me);
            add_members(&mut ahead.tasks, sources.as_slice());
            return self.plan_with(alloc, self.moment, ahead.term, &ahead.tasks, &ahead.votes);
        }
        if ahead.leads {
            ahead.tasks.add_member(p);
            return self.plan_with(alloc, self.led_from, ahead.term, &ahead.tasks, &ahead.votes);
        }
        Ok(None)
    }

    /// What going on will take if the join of p in this term wins, or is counted by a leader.
    pub(crate) fn plan_join(
        &self,
        alloc: Global,
        p: NodeId,
        term: u64,
    ) -> Result<Option<Plan>, AllocError>
        ensures { IfOk result
            (λ plan. IsPlannedAhead self.now.settings (view_in K.Keeper self.now) (ahead_of (view_in K.Keeper self.now) term) p plan) }
    {
        let mut ahead = self.ahead(alloc, term)?;
        self.plan_ahead(alloc, &mut ahead, p)
    }
}
