//! Joins and elections.
ghost use Rattle.std.specs.Prelude.{◌≡◌, ◌≤◌, [], ◌∷◌, true, false, Err};
ghost use Rattle.world_model.specs.declared.acts.Act.TheVariants as act;
ghost use Rattle.policy_model.specs.Doing.{is_leader};
ghost use Rattle.policy_model.specs.Joins.{on_join, takes_join, leads, takes_member, join_from};
ghost use Rattle.policy_model.specs.Events.{Notes, Joined};
ghost use Rattle.policy_model.specs.declared.events.Mode.TheVariants.{Leader};
ghost use Rattle.policy_model.specs.Moves.{moved_all};
ghost use Rattle.coordinator.specs.Ahead.{winning, IsPlannedJoin};
ghost use Rattle.coordinator.specs.Does.{Does, DoesAll};
ghost use Rattle.coordinator.specs.Plans.{IsPlanned, replies_planned};
ghost use Rattle.coordinator.specs.Rooms.{Uses, event_deeds, to_set, to_set_and_one};
ghost use Rattle.coordinator.specs.Views.{view_in, IsReady};

use crate::ahead::add_members;
use crate::coordinator::{Coordinator, DiskFailed, EventError};
use crate::output::Output;
use crate::plan::Plan;
use cluster_state::{Join, StateId};
use policy_model::Mode;
use state_journal::Keeper;
use voting_config::NodeId;

impl<K: Keeper> Coordinator<K> {
    // It leads from now on, with all who voted as members.
    fn lead(&mut self, out: &mut Output)
        requires deeds { 1 ≤ out.old.deeds.room }
        ensures does { Does K.Keeper self.old self.new out.old out.new winning true }
        ensures uses { Uses out.old out.new 1 0 0 }
    {
        let term = self.core.term();
        self.mode = Mode::Leader;
        self.leader_term = term;
        self.led_from = self.moment;
        self.leader_check = None;
        self.tasks.add_member(self.settings.me);
        let votes = self.core.votes().sources();
        add_members(&mut self.tasks, votes.as_slice());
        out.change_mode(Mode::Leader, term);
    }

    // A node is to become a member.
    fn add_member(&mut self, p: NodeId)
        ensures { (out : _) → Does K.Keeper self.old self.new out out (λ s v. Notes (Joined (p ∷ [])) ∷ []) true }
    {
        self.tasks.add_member(p);
    }

    // It leads from now on, and goes on as planned.
    fn win(&mut self, out: &mut Output, plan: &mut Option<Plan>)
        requires ready { IsReady self.old }
        requires plan { IsPlanned self.old.settings
            (moved_all self.old.settings (view_in K.Keeper self.old) (winning self.old.settings (view_in K.Keeper self.old))) plan.old }
        requires deeds { 3 ≤ out.old.deeds.room }
        requires frames { to_set ≤ out.old.frames.room }
        requires replies { replies_planned plan.old ≤ out.old.replies.room }
        ensures does { Does K.Keeper self.old self.new out.old out.new leads true }
    {
        self.lead(out);
        self.go_on(out, plan);
    }

    // A node is to become a member, and the leader goes on as planned.
    pub(crate) fn take_member(&mut self, out: &mut Output, p: NodeId, plan: &mut Option<Plan>)
        requires ready { IsReady self.old }
        requires plan { IsPlanned self.old.settings (moved_all self.old.settings (view_in K.Keeper self.old) (Notes (Joined (p ∷ [])) ∷ []))
            plan.old }
        requires deeds { 2 ≤ out.old.deeds.room }
        requires frames { to_set ≤ out.old.frames.room }
        requires replies { replies_planned plan.old ≤ out.old.replies.room }
        ensures does { Does K.Keeper self.old self.new out.old out.new (λ s v. takes_member s v p) true }
    {
        self.add_member(p);
        self.go_on(out, plan);
    }

    // Counts the join of p, and goes on as planned where that makes it a leader or it is one.
    fn take_join(
        &mut self,
        out: &mut Output,
        p: NodeId,
        term: u64,
        last: StateId,
        plan: &mut Option<Plan>,
    )
        requires ready { IsReady self.old }
        requires plan { IsPlannedJoin self.old.settings (view_in K.Keeper self.old) p
            (act.TakeJoin (join_from p self.old.settings.me term last)) plan.old }
        requires deeds { 4 ≤ out.old.deeds.room }
        requires frames { to_set ≤ out.old.frames.room }
        requires replies { replies_planned plan.old ≤ out.old.replies.room }
        ensures does { Does K.Keeper self.old self.new out.old out.new (λ s v. takes_join s v p term last) true }
    {
        if !self.core.votes().has_room(p) {
            return;
        }
        let join = Join {
            source: p,
            target: self.settings.me,
            term,
            last_term: last.term,
            last_version: last.version,
        };
        let counted = self.act_join(out, &join);
        if counted.wins {
            self.win(out, plan);
            return;
        }
        if !counted.taken {
            return;
        }
        if self.is_leader() {
            self.take_member(out, p, plan);
        }
    }

    pub(crate) fn is_leader(&self) -> bool
        ensures { result ≡ is_leader self.now.mode }
    {
        let mode = self.mode;
        match mode {
            Mode::Leader => true,
            Mode::Candidate | Mode::Follower(_) => false,
        }
    }

    /// A join from p, by which the node's own term may rise. A voting-only node does nothing with it.
    pub(crate) fn on_join(
        &mut self,
        out: &mut Output,
        p: NodeId,
        term: u64,
        last: StateId,
    ) -> Result<(), EventError>
        requires ready { IsReady self.old }
        requires deeds { event_deeds ≤ out.old.deeds.room }
        requires frames { to_set_and_one ≤ out.old.frames.room }
        ensures does { DoesAll K.Keeper self.old self.new out.old out.new (λ s v. on_join s v p term last) result }
    {
        if self.is_voting_only() {
            return Ok(());
        }
        let Ok(mut plan) = self.plan_join(out.alloc, p, term) else {
            return Err(EventError::Memory);
        };
        let Ok(()) = out.make_room(self.tasks.open_count(), &plan) else {
            return Err(EventError::Memory);
        };
        let me = self.settings.me;
        match self.raise_term(out, me, term) {
            Ok(()) => {
                self.take_join(out, p, term, last, &mut plan);
                Ok(())
            }
            Err(_) => Err(EventError::Struck),
        }
    }
}
