//! Accepting the states that a leader publishes.
ghost use Rattle.std.specs.Prelude.{◌≡◌, ◌≤◌, ◌+◌, true, length, is_ok};
ghost use Rattle.cluster_state.specs.States.{IsFit};
ghost use Rattle.policy_model.specs.Publications.{accepts, on_publish};
ghost use Rattle.coordinator.specs.Accepts.{follows_other, responds};
ghost use Rattle.coordinator.specs.Does.{Does, DoesAll};
ghost use Rattle.coordinator.specs.Rooms.{Uses};
ghost use Rattle.coordinator.specs.Views.{IsReady};

use crate::coordinator::{Acted, Coordinator, DiskFailed, EventError};
use crate::output::Output;
use cluster_state::{SharedState, StateId};
use state_journal::{Keeper, Ready};
use voting_config::NodeId;
use wire_frames::WireMessage;

impl<K: Keeper> Coordinator<K> {
    // The publisher is followed, unless it is the node itself.
    fn follow_other(&mut self, out: &mut Output, p: NodeId)
        requires deeds { 2 ≤ out.old.deeds.room }
        requires replies { length self.old.tasks.waiting ≤ out.old.replies.room }
        ensures does { Does K.Keeper self.old self.new out.old out.new (λ s v. follows_other s v p) true }
    {
        if p != self.settings.me {
            self.become_follower(out, p);
        }
    }

    // It is responded to, and followed.
    fn respond(&mut self, out: &mut Output, p: NodeId, id: StateId)
        requires deeds { 2 ≤ out.old.deeds.room }
        requires frames { 1 ≤ out.old.frames.room }
        requires replies { length self.old.tasks.waiting ≤ out.old.replies.room }
        ensures does { Does K.Keeper self.old self.new out.old out.new (λ s v. responds s v p id) true }
    {
        self.send(out, p, WireMessage::Response(id));
        self.follow_other(out, p);
    }

    // A state is accepted, which the entry shares.
    fn accept(&mut self, out: &mut Output, p: NodeId, state: Ready, entry: SharedState) -> Acted
        requires ready { IsReady self.old }
        requires entry { entry ≡ state.state }
        requires deeds { 3 ≤ out.old.deeds.room }
        requires frames { 1 ≤ out.old.frames.room }
        requires replies { length self.old.tasks.waiting ≤ out.old.replies.room }
        ensures does { Does K.Keeper self.old self.new out.old out.new (λ s v. accepts s v p state.state) (is_ok result) }
    {
        let id = entry.id();
        match self.act_publish(out, p, state, entry) {
            Err(_) => Err(DiskFailed),
            Ok(taken) => {
                if taken {
                    self.respond(out, p, id);
                }
                Ok(())
            }
        }
    }

    // A state of p, which may raise the node's term.
    fn take_state(&mut self, out: &mut Output, p: NodeId, state: Ready, entry: SharedState) -> Acted
        requires ready { IsReady self.old }
        requires entry { entry ≡ state.state }
        requires deeds { 5 ≤ out.old.deeds.room }
        requires frames { 2 ≤ out.old.frames.room }
        requires replies { length self.old.tasks.waiting ≤ out.old.replies.room }
        ensures does { Does K.Keeper self.old self.new out.old out.new (λ s v. on_publish s v p state.state) (is_ok result) }
    {
        match self.raise_term(out, p, entry.term) {
            Err(_) => Err(DiskFailed),
            Ok(()) => self.accept(out, p, state, entry),
        }
    }

    // A state of p came.
    pub(crate) fn on_publish(
        &mut self,
        out: &mut Output,
        p: NodeId,
        state: &SharedState,
    ) -> Result<(), EventError>
        requires ready { IsReady self.old }
        requires fit { IsFit state.now }
        requires deeds { 5 ≤ out.old.deeds.room }
        requires frames { 2 ≤ out.old.frames.room }
        ensures does { DoesAll K.Keeper self.old self.new out.old out.new (λ s v. on_publish s v p state.now) result }
    {
        let Ok(()) = out.make_room(self.tasks.open_count(), &None) else {
            return Err(EventError::Memory);
        };
        let Ok(entry) = state.share() else {
            return Err(EventError::Memory);
        };
        let Ok(ready) = Ready::of(out.alloc, state) else {
            return Err(EventError::Memory);
        };
        match self.take_state(out, p, ready, entry) {
            Ok(()) => Ok(()),
            Err(_) => Err(EventError::Struck),
        }
    }
}
