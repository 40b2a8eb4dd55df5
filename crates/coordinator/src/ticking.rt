//! The tick of a leader.
ghost use Rattle.std.specs.Prelude.{◌≡◌, ◌≤◌, ◌+◌, ◌++◌, [], ◌∷◌, map, true, false, IfOk, IsTrue, length};
ghost use Rattle.std.specs.List.{list_all};
ghost use Rattle.voting_config.specs.Ids.{Id};
ghost use Rattle.fault_checks.specs.declared.followers.Follower.{Follower};
ghost use Rattle.fault_checks.specs.Followers.{stays, to_ask, to_drop_for_checks, to_drop_for_lag};
ghost use Rattle.policy_model.specs.Checks.{checks_followers};
ghost use Rattle.policy_model.specs.Requests.{times_out_exclusions};
ghost use Rattle.policy_model.specs.Doing.{becomes_candidate};
ghost use Rattle.policy_model.specs.Rules.{gives_up as gives_up_of, has_timed_out, is_failed, ticks_leader};
ghost use Rattle.policy_model.specs.NextState.{is_hopeless as is_hopeless_of, may_respond};
ghost use Rattle.world_model.specs.Replies.{commits};
ghost use Rattle.coordinator.specs.Does.{Does, DoesAll};
ghost use Rattle.coordinator.specs.Rooms.{Uses, tick_drops, to_set, to_two_sets};
ghost use Rattle.coordinator.specs.Showing.{shown_in};
ghost use Rattle.coordinator.specs.Ticks.{all_removed, dropped, tasks_ticked, ticks_members, IsPlannedTick};
ghost use Rattle.coordinator.specs.Views.{view_in, IsReady};

use crate::coordinator::{Coordinator, EventError};
use crate::output::Output;
use crate::plan::Plan;
use crate::sending::Broadcast;
use fault_checks::Checked;
use master_tasks::{MasterTasks, Replies};
use policy_model::{DropCause, MemberDrop};
use publication::{Publication, Stage};
use state_journal::Keeper;
use std::alloc::{AllocError, Global};
use voting_config::NodeId;

// These are to be members no more.
fn remove_members(tasks: &mut MasterTasks, ids: &[NodeId])
    ensures { tasks.new ≡ all_removed tasks.old ids.now }
{
    for id in ids {
        tasks.drop_member(*id);
    }
}

// The drop of each of these is shown.
fn show_drops(out: &mut Output, ids: &[NodeId], cause: DropCause)
    requires { length ids.now ≤ out.old.drops.room }
    ensures shown { shown_in out.new
        ≡ record (shown_in out.old) { drops = (shown_in out.old).drops ++ map (λ (id : Id). dropped cause id) ids.now } }
    ensures room { out.old.drops.room ≤ out.new.drops.room + length ids.now }
    ensures uses { Uses out.old out.new 0 0 0 }
{
    for id in ids {
        out.drops.push(MemberDrop { member: *id, cause });
    }
}

impl<K: Keeper> Coordinator<K> {
    // Exclusions that have waited too long are answered.
    fn time_out_exclusions(&mut self, out: &mut Output)
        requires { length self.old.tasks.waiting ≤ out.old.replies.room }
        ensures does { Does K.Keeper self.old self.new out.old out.new times_out_exclusions true }
        ensures uses { Uses out.old out.new 0 0 (length self.old.tasks.waiting) }
        ensures drops { out.new.drops ≡ out.old.drops }
    {
        self.tasks
            .time_out_exclusions(self.core.committed(), self.moment, &mut out.replies);
    }

    // Followers that are due are asked. None fails or lags.
    fn ask_followers(&mut self, out: &mut Output)
        requires keeps { list_all (λ (f : Follower). stays f self.old.moment) self.old.followers.watched ≡ true }
        requires frames { to_set ≤ out.old.frames.room }
        ensures does { Does K.Keeper self.old self.new out.old out.new checks_followers true }
        ensures uses { Uses out.old out.new 0 to_set 0 }
    {
        let ask = self.followers.tick_all(self.moment);
        // For the proof alone: a set has at most `MAX_IDS` ids.
        let _ = ask.len();
        let check = Broadcast::FollowerCheck(self.core.term());
        out.send_all(self.settings.me, ask.as_slice(), &check);
    }

    // Followers that fail or lag are dropped, and those that are due are asked.
    fn drop_and_ask_followers(&mut self, out: &mut Output)
        requires frames { to_set ≤ out.old.frames.room }
        requires drops { tick_drops ≤ out.old.drops.room }
        ensures does { Does K.Keeper self.old self.new out.old out.new checks_followers true }
        ensures uses { Uses out.old out.new 0 to_set 0 }
    {
        let Checked { ask, checks, lag } = self.followers.tick(self.moment);
        // For the proof alone: each of the sets has at most `MAX_IDS` ids.
        let _ = ask.len();
        let _ = checks.len();
        let _ = lag.len();
        show_drops(out, checks.as_slice(), DropCause::Checks);
        show_drops(out, lag.as_slice(), DropCause::Lag);
        remove_members(&mut self.tasks, checks.as_slice());
        remove_members(&mut self.tasks, lag.as_slice());
        let check = Broadcast::FollowerCheck(self.core.term());
        out.send_all(self.settings.me, ask.as_slice(), &check);
    }

    // The same. Most often none is dropped, and no sets are made then but of those to ask.
    fn check_followers(&mut self, out: &mut Output)
        requires frames { to_set ≤ out.old.frames.room }
        requires drops { tick_drops ≤ out.old.drops.room }
        ensures does { Does K.Keeper self.old self.new out.old out.new checks_followers true }
        ensures uses { Uses out.old out.new 0 to_set 0 }
    {
        if self.followers.keeps_all(self.moment) {
            self.ask_followers(out);
        } else {
            self.drop_and_ask_followers(out);
        }
    }

    // Whether a tick changes no task before it goes on: nothing waits, so no exclusion times out, and no follower is dropped.
    fn keeps_tasks(&self) -> bool
        ensures { IsTrue result → tasks_ticked (view_in K.Keeper self.now) ≡ self.now.tasks }
    {
        if self.tasks.open_count() > 0 {
            return false;
        }
        self.followers.keeps_all(self.moment)
    }

    // What going on will take after them. Most often they change nothing, and nothing is copied then.
    fn plan_tick(&self, alloc: Global) -> Result<Option<Plan>, AllocError>
        ensures { IfOk result (λ plan. IsPlannedTick self.now.settings (view_in K.Keeper self.now) plan) }
    {
        if self.keeps_tasks() {
            return self.plan_of(alloc, &self.tasks);
        }
        self.plan_ticked(alloc)
    }

    // The same, by what they make of copies.
    fn plan_ticked(&self, alloc: Global) -> Result<Option<Plan>, AllocError>
        ensures { IfOk result (λ plan. IsPlannedTick self.now.settings (view_in K.Keeper self.now) plan) }
    {
        let mut tasks = self.tasks.copy()?;
        let mut answers = Replies::with_room(alloc, tasks.open_count())?;
        tasks.time_out_exclusions(self.core.committed(), self.moment, &mut answers);
        let mut followers = self.followers.copy();
        let checked = followers.tick(self.moment);
        remove_members(&mut tasks, checked.checks.as_slice());
        remove_members(&mut tasks, checked.lag.as_slice());
        self.plan_of(alloc, &tasks)
    }

    // Whether its publication is not finished in time.
    fn has_timed_out(&self) -> bool
        ensures { result ≡ has_timed_out self.now.publication self.now.moment }
    {
        match &self.publication {
            None => false,
            Some(publication) => is_failed(&publication.tick(self.moment)),
        }
    }

    // Whether those of its targets that have responded, or are not to be removed, are a quorum that commits.
    fn may_commit(&self, publication: &Publication) -> bool
        ensures { result ≡ commits (view_in K.Keeper self.now).node (may_respond publication.now self.now.tasks.removals) }
    {
        let responders = publication.responders().sources();
        let gone = self.tasks.removals().without(&responders);
        let left = publication.targets().without(&gone);
        self.core.committed().is_quorum(&left) && self.core.published().1.is_quorum(&left)
    }

    // Whether those who may still respond to its publication are no quorum.
    pub(crate) fn is_hopeless(&self) -> bool
        ensures { result ≡ is_hopeless_of (view_in K.Keeper self.now) self.now.publication }
    {
        match &self.publication {
            None => false,
            Some(publication) => { !publication.is_finished() && !self.may_commit(publication) }
        }
    }

    // Whether its publication is given up.
    fn gives_up(&self) -> bool
        ensures { result ≡ gives_up_of self.now.settings (view_in K.Keeper self.now) }
    {
        if self.has_timed_out() {
            return true;
        }
        self.settings.policy.second && self.is_hopeless()
    }

    // What a leader does at a tick before it goes on.
    fn tick_members(&mut self, out: &mut Output)
        requires frames { to_set ≤ out.old.frames.room }
        requires drops { tick_drops ≤ out.old.drops.room }
        requires replies { length self.old.tasks.waiting ≤ out.old.replies.room }
        ensures does { Does K.Keeper self.old self.new out.old out.new ticks_members true }
        ensures uses { Uses out.old out.new 0 to_set (length self.old.tasks.waiting) }
    {
        self.time_out_exclusions(out);
        self.check_followers(out);
    }

    // A leader whose publication is not finished in time gives up.
    fn give_up(&mut self, out: &mut Output) -> Result<(), EventError>
        requires deeds { 1 ≤ out.old.deeds.room }
        ensures does { DoesAll K.Keeper self.old self.new out.old out.new becomes_candidate result }
    {
        let Ok(()) = out.make_room(self.tasks.open_count(), &None) else {
            return Err(EventError::Memory);
        };
        self.become_candidate(out);
        Ok(())
    }

    // A leader's tick, at a moment that is kept already.
    pub(crate) fn ticks_leader(&mut self, out: &mut Output) -> Result<(), EventError>
        requires ready { IsReady self.old }
        requires deeds { 2 ≤ out.old.deeds.room }
        requires frames { to_two_sets ≤ out.old.frames.room }
        requires drops { tick_drops ≤ out.old.drops.room }
        ensures does { DoesAll K.Keeper self.old self.new out.old out.new ticks_leader result }
    {
        if self.gives_up() {
            return self.give_up(out);
        }
        let Ok(mut plan) = self.plan_tick(out.alloc) else {
            return Err(EventError::Memory);
        };
        let Ok(()) = out.make_room(self.tasks.open_count(), &plan) else {
            return Err(EventError::Memory);
        };
        self.tick_members(out);
        self.go_on(out, &mut plan);
        Ok(())
    }
}

fn is_failed(stage: &Stage) -> bool
    ensures { result ≡ is_failed stage.now }
{
    match stage {
        Stage::Failed => true,
        Stage::Running | Stage::Done(_) => false,
    }
}
