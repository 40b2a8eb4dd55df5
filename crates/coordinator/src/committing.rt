//! Commits, by which a publication is finished.
ghost use Rattle.std.specs.Prelude.{◌≡◌, ◌≤◌, ◌+◌, [], ◌∷◌, true, length, is_ok, IfOk};
ghost use Rattle.policy_model.specs.Publications.{answers_applied, on_commit};
ghost use Rattle.policy_model.specs.Moves.{moved_all};
ghost use Rattle.coordinator.specs.Ahead.{IsAnswered, IsPlannedCommit, finishes};
ghost use Rattle.coordinator.specs.Does.{Does, DoesAll};
ghost use Rattle.coordinator.specs.Plans.{IsPlanned, replies_planned};
ghost use Rattle.coordinator.specs.Rooms.{Uses, to_set};
ghost use Rattle.coordinator.specs.Views.{view_in, IsReady};

use crate::coordinator::{Acted, Coordinator, DiskFailed, EventError};
use crate::output::Output;
use crate::plan::Plan;
use cluster_state::{ApplyCommit, StateId};
use master_tasks::Applied;
use state_journal::Keeper;
use std::alloc::{AllocError, Global};
use voting_config::{NodeId, VotingConfig};

/// What a leader does once it has taken a commit: what it has left then with the replies that it sends, where requests wait, and what going
/// on will take.
#[derive(Drop)]
pub struct Finish {
    pub applied: Option<Applied>,
    pub plan: Option<Plan>,
}

impl<K: Keeper> Coordinator<K> {
    // What going on will take once the accepted state is committed.
    fn plan_commit(&self, alloc: Global) -> Result<Finish, AllocError>
        ensures { IfOk result (λ finish. IsPlannedCommit self.now.settings (view_in K.Keeper self.now) finish) }
    {
        if self.is_leader() {
            return self.plan_finish(alloc);
        }
        Ok(Finish {
            applied: None,
            plan: None,
        })
    }

    // The same, of a leader. The accepted configuration is committed then, which most often is the committed one already.
    fn plan_finish(&self, alloc: Global) -> Result<Finish, AllocError>
        ensures { IfOk result (λ finish. IsPlannedCommit self.now.settings (view_in K.Keeper self.now) finish) }
    {
        let committed = self.core.committed();
        let accepted = self.core.accepted();
        if committed.is_same_list(&accepted.config) {
            return self.plan_committed(alloc, committed);
        }
        self.plan_committed(alloc, &VotingConfig::of_list(&accepted.config))
    }

    // The same, with the configuration that is committed then. Most often nothing waits, and nothing is copied then.
    fn plan_committed(&self, alloc: Global, committed: &VotingConfig) -> Result<Finish, AllocError>
        requires { committed.now ≡ (K.record_of self.now.core.keeper).accepted.config }
        ensures { IfOk result (λ finish. IsPlannedCommit self.now.settings (view_in K.Keeper self.now) finish) }
    {
        let (led_from, term, votes) = (self.led_from, self.core.term(), self.core.votes());
        if self.tasks.open_count() == 0 {
            let plan = self.plan_over(alloc, led_from, term, committed, &self.tasks, votes)?;
            return Ok(Finish {
                applied: None,
                plan,
            });
        }
        let applied = self
            .tasks
            .once_applied(committed, &self.core.kept().accepted)?;
        let plan = self.plan_over(alloc, led_from, term, committed, &applied.tasks, votes)?;
        Ok(Finish {
            applied: Some(applied),
            plan,
        })
    }

    // Who waited for the leader to take the commit is answered.
    fn answer_applied(&mut self, out: &mut Output, applied: &mut Option<Applied>)
        requires applied { IsAnswered K.Keeper self.old applied.old }
        requires replies { length self.old.tasks.waiting ≤ out.old.replies.room }
        ensures does { Does K.Keeper self.old self.new out.old out.new answers_applied true }
        ensures uses { Uses out.old out.new 0 0 (length self.old.tasks.waiting) }
    {
        if let Some(Applied { tasks, replies }) = applied.take() {
            self.tasks = tasks;
            out.replies.append(replies);
        }
    }

    // A leader that has taken the commit goes on as planned.
    fn finish_publication(&mut self, out: &mut Output, finish: &mut Finish)
        requires ready { IsReady self.old }
        requires applied { IsAnswered K.Keeper self.old finish.old.applied }
        requires plan { IsPlanned self.old.settings
            (moved_all self.old.settings (view_in K.Keeper self.old) (answers_applied self.old.settings (view_in K.Keeper self.old))) finish.old.plan }
        requires deeds { 2 ≤ out.old.deeds.room }
        requires frames { to_set ≤ out.old.frames.room }
        requires replies { length self.old.tasks.waiting + replies_planned finish.old.plan ≤ out.old.replies.room }
        ensures does { Does K.Keeper self.old self.new out.old out.new finishes true }
    {
        self.answer_applied(out, &mut finish.applied);
        self.go_on(out, &mut finish.plan);
    }

    // Takes the commit, and goes on as planned.
    fn take_commit(
        &mut self,
        out: &mut Output,
        p: NodeId,
        id: StateId,
        finish: &mut Finish,
    ) -> Acted
        requires ready { IsReady self.old }
        requires plan { IsPlannedCommit self.old.settings (view_in K.Keeper self.old) finish.old }
        requires deeds { 3 ≤ out.old.deeds.room }
        requires frames { to_set ≤ out.old.frames.room }
        requires replies { length self.old.tasks.waiting + replies_planned finish.old.plan ≤ out.old.replies.room }
        ensures does { Does K.Keeper self.old self.new out.old out.new (λ s v. on_commit s v p id) (is_ok result) }
    {
        let commit = ApplyCommit {
            source: p,
            term: id.term,
            version: id.version,
        };
        match self.act_commit(out, &commit) {
            Err(_) => Err(DiskFailed),
            Ok(taken) => {
                if !taken {
                    return Ok(());
                }
                if self.is_leader() {
                    self.finish_publication(out, finish);
                    return Ok(());
                }
                Ok(())
            }
        }
    }

    // A commit from p.
    pub(crate) fn on_commit(
        &mut self,
        out: &mut Output,
        p: NodeId,
        id: StateId,
    ) -> Result<(), EventError>
        requires ready { IsReady self.old }
        requires deeds { 3 ≤ out.old.deeds.room }
        requires frames { to_set ≤ out.old.frames.room }
        ensures does { DoesAll K.Keeper self.old self.new out.old out.new (λ s v. on_commit s v p id) result }
    {
        let Ok(mut finish) = self.plan_commit(out.alloc) else {
            return Err(EventError::Memory);
        };
        let Ok(()) = out.make_room(self.tasks.open_count(), &finish.plan) else {
            return Err(EventError::Memory);
        };
        match self.take_commit(out, p, id, &mut finish) {
            Ok(()) => Ok(()),
            Err(_) => Err(EventError::Struck),
        }
    }
}
