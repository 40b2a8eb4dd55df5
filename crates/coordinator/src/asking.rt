//! What comes of being asked for a join.
ghost use Rattle.std.specs.Prelude.{◌≡◌, ◌≤◌, ◌+◌, [], ◌∷◌, IfOk};
ghost use Rattle.policy_model.specs.Events.{Notes, Joined};
ghost use Rattle.policy_model.specs.Joins.{on_join_ask};
ghost use Rattle.policy_model.specs.Moves.{moved_all};
ghost use Rattle.coordinator.specs.Does.{DoesAll};
ghost use Rattle.coordinator.specs.Plans.{IsPlanned};
ghost use Rattle.coordinator.specs.Rooms.{to_set};
ghost use Rattle.coordinator.specs.Views.{view_in, IsReady};

use crate::coordinator::{Coordinator, EventError};
use crate::output::Output;
use crate::plan::Plan;
use state_journal::Keeper;
use std::alloc::{AllocError, Global};
use voting_config::NodeId;

impl<K: Keeper> Coordinator<K> {
    // What going on will take once p is to become a member.
    fn plan_member(&self, alloc: Global, p: NodeId) -> Result<Option<Plan>, AllocError>
        ensures { IfOk result
            (λ plan. IsPlanned self.now.settings (moved_all self.now.settings (view_in K.Keeper self.now) (Notes (Joined (p ∷ [])) ∷ []))
            plan) }
    {
        let mut tasks = self.tasks.copy()?;
        tasks.add_member(p);
        self.plan_of(alloc, &tasks)
    }

    /// Who asks is to become a member, where its term is none above the node's; else the term rises first.
    pub(crate) fn on_join_ask(
        &mut self,
        out: &mut Output,
        p: NodeId,
        term: u64,
    ) -> Result<(), EventError>
        requires ready { IsReady self.old }
        requires deeds { 2 ≤ out.old.deeds.room }
        requires frames { to_set ≤ out.old.frames.room }
        ensures does { DoesAll K.Keeper self.old self.new out.old out.new (λ s v. on_join_ask s v p term) result }
    {
        if !self.is_leader() {
            return Ok(());
        }
        if term <= self.core.term() {
            let Ok(mut plan) = self.plan_member(out.alloc, p) else {
                return Err(EventError::Memory);
            };
            let Ok(()) = out.make_room(self.tasks.open_count(), &plan) else {
                return Err(EventError::Memory);
            };
            self.take_member(out, p, &mut plan);
            return Ok(());
        }
        self.on_start_join(out, self.settings.me, term)
    }
}
