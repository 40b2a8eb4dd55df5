//! A tick, by the mode of the node.
ghost use Rattle.std.specs.Prelude.{◌≤◌};
ghost use Rattle.policy_model.specs.Checks.{checks_leader};
ghost use Rattle.policy_model.specs.Rules.{ticks, ticks_candidate};
ghost use Rattle.coordinator.specs.Does.{DoesAll};
ghost use Rattle.coordinator.specs.Rooms.{tick_drops, to_three_sets};
ghost use Rattle.coordinator.specs.Views.{IsReady};

use crate::coordinator::{Coordinator, EventError};
use crate::output::Output;
use policy_model::Mode;
use state_journal::Keeper;
use voting_config::NodeId;

impl<K: Keeper> Coordinator<K> {
    // A candidate's tick, at a moment that is kept already.
    fn ticks_candidate(&mut self, out: &mut Output, word: u64) -> Result<(), EventError>
        requires ready { IsReady self.old }
        requires deeds { 1 ≤ out.old.deeds.room }
        requires frames { to_three_sets ≤ out.old.frames.room }
        ensures does { DoesAll K.Keeper self.old self.new out.old out.new (λ s v. ticks_candidate s v word) result }
    {
        let Ok(first) = self.plan_bootstrap(out.alloc) else {
            return Err(EventError::Memory);
        };
        let Ok(asks) = self.plan_asks(out.alloc) else {
            return Err(EventError::Memory);
        };
        match self.tick_candidate(out, first, asks, word) {
            Ok(()) => Ok(()),
            Err(_) => Err(EventError::Struck),
        }
    }

    // The tick of a follower of this leader, at a moment that is kept already.
    fn ticks_follower(&mut self, out: &mut Output, leader: NodeId) -> Result<(), EventError>
        requires deeds { 1 ≤ out.old.deeds.room }
        requires frames { 1 ≤ out.old.frames.room }
        ensures does { DoesAll K.Keeper self.old self.new out.old out.new (λ s v. checks_leader s v leader v.leader_check) result }
    {
        let Ok(()) = out.make_room(self.tasks.open_count(), &None) else {
            return Err(EventError::Memory);
        };
        self.check_leader(out, leader);
        Ok(())
    }

    // A tick, at a moment that is kept already.
    pub(crate) fn tick_by_mode(&mut self, out: &mut Output, word: u64) -> Result<(), EventError>
        requires ready { IsReady self.old }
        requires deeds { 2 ≤ out.old.deeds.room }
        requires frames { to_three_sets ≤ out.old.frames.room }
        requires drops { tick_drops ≤ out.old.drops.room }
        ensures does { DoesAll K.Keeper self.old self.new out.old out.new (λ s v. ticks s v word v.mode) result }
    {
        let mode = self.mode;
        match mode {
            Mode::Candidate => self.ticks_candidate(out, word),
            Mode::Leader => self.ticks_leader(out),
            Mode::Follower(leader) => self.ticks_follower(out, leader),
        }
    }
}
