//! What comes of a connection that has ended.
ghost use Rattle.std.specs.Prelude.{◌≡◌, ◌≤◌, [], ◌∷◌, true, length, IfOk};
ghost use Rattle.policy_model.specs.Disconnects.{drops_follower, goes_on_with_rest, stands_anew, keeps_quorum as keeps_quorum_of, loses, loses_follower, loses_leader, loses_peer};
ghost use Rattle.policy_model.specs.Events.{LeaderLost, Notes, PeerLost};
ghost use Rattle.policy_model.specs.Moves.{moved_all};
ghost use Rattle.coordinator.specs.Does.{Does, DoesAll};
ghost use Rattle.coordinator.specs.Plans.{IsPlanned, replies_planned};
ghost use Rattle.coordinator.specs.Rooms.{Uses, to_set};
ghost use Rattle.coordinator.specs.Views.{view_in, IsReady};

use crate::coordinator::{Coordinator, EventError};
use crate::output::Output;
use crate::plan::Plan;
use policy_model::{DropCause, MemberDrop, Mode};
use state_journal::Keeper;
use std::alloc::{AllocError, Global};
use voting_config::NodeId;

/// How long after it has lost its leader a node asks its peers, in ms: the others are to have lost it too.
const LOSS_GRACE_MS: u64 = 100;

impl<K: Keeper> Coordinator<K> {
    // What going on will take once p is to be a member no more.
    fn plan_loss(&self, alloc: Global, p: NodeId) -> Result<Option<Plan>, AllocError>
        ensures { IfOk result
            (λ plan. IsPlanned self.now.settings
            (moved_all self.now.settings (view_in K.Keeper self.now) (drops_follower self.now.settings p)) plan) }
    {
        let mut tasks = self.tasks.copy()?;
        tasks.drop_member(p);
        self.plan_of(alloc, &tasks)
    }

    // What p answered is forgotten, and it is watched no more.
    fn forget_peer(&mut self, p: NodeId)
        ensures does { (out : _) → Does K.Keeper self.old self.new out out (λ s v. Notes (PeerLost p) ∷ []) true }
    {
        self.finder.disconnected(p, self.moment);
        self.followers.disconnected(p);
    }

    // The same, where it has answered.
    fn lose_peer(&mut self, p: NodeId)
        ensures does { (out : _) → Does K.Keeper self.old self.new out out (λ s v. loses_peer s v p) true }
    {
        if self.finder.found(p).is_some() {
            self.forget_peer(p);
        }
    }

    // A follower is to be a member no more.
    fn drop_follower(&mut self, out: &mut Output, p: NodeId)
        requires drops { 1 ≤ out.old.drops.room }
        ensures does { Does K.Keeper self.old self.new out.old out.new (λ s v. drops_follower s p) true }
        ensures uses { Uses out.old out.new 0 0 0 }
        ensures waiting { self.new.tasks.waiting ≡ self.old.tasks.waiting }
    {
        out.drops.push(MemberDrop {
            member: p,
            cause: DropCause::Disconnect,
        });
        self.tasks.drop_member(p);
        self.forget_peer(p);
    }

    // Whether the leader may still commit: by those that may respond to a publication in flight, in the second profile, or with the
    // followers that it watches.
    fn keeps_quorum(&self) -> bool
        ensures { result ≡ keeps_quorum_of self.now.settings (view_in K.Keeper self.now) }
    {
        if self.settings.policy.second && self.is_in_flight() {
            return !self.is_hopeless();
        }
        let mut up = self.followers.watched();
        up.put_if_room(self.settings.me);
        self.elects(&up)
    }

    // Leads no more, and asks all for their votes.
    fn lead_anew(&mut self, out: &mut Output)
        requires ready { IsReady self.old }
        requires deeds { 2 ≤ out.old.deeds.room }
        requires frames { to_set ≤ out.old.frames.room }
        requires waiting { length self.old.tasks.waiting ≤ out.old.replies.room }
        ensures does { Does K.Keeper self.old self.new out.old out.new stands_anew true }
    {
        self.become_candidate(out);
        let term = self.core.term() + 1;
        self.stand_for_election(out, term);
    }

    // Goes on as planned, or leads no more.
    fn go_on_with_rest(&mut self, out: &mut Output, plan: &mut Option<Plan>)
        requires ready { IsReady self.old }
        requires plan { IsPlanned self.old.settings (view_in K.Keeper self.old) plan.old }
        requires deeds { 2 ≤ out.old.deeds.room }
        requires frames { to_set ≤ out.old.frames.room }
        requires waiting { length self.old.tasks.waiting ≤ out.old.replies.room }
        requires replies { replies_planned plan.old ≤ out.old.replies.room }
        ensures does { Does K.Keeper self.old self.new out.old out.new goes_on_with_rest true }
    {
        if self.keeps_quorum() {
            self.go_on(out, plan);
        } else {
            self.lead_anew(out);
        }
    }

    // A follower that is watched is dropped, and the leader goes on.
    fn lose_follower(&mut self, out: &mut Output, p: NodeId) -> Result<(), EventError>
        requires ready { IsReady self.old }
        requires deeds { 2 ≤ out.old.deeds.room }
        requires drops { 1 ≤ out.old.drops.room }
        requires frames { to_set ≤ out.old.frames.room }
        ensures does { DoesAll K.Keeper self.old self.new out.old out.new (λ s v. loses_follower s v p) result }
    {
        if !self.followers.watches(p) {
            return Ok(());
        }
        let Ok(mut plan) = self.plan_loss(out.alloc, p) else {
            return Err(EventError::Memory);
        };
        let Ok(()) = out.make_room(self.tasks.open_count(), &plan) else {
            return Err(EventError::Memory);
        };
        self.drop_follower(out, p);
        self.go_on_with_rest(out, &mut plan);
        Ok(())
    }

    // The leader was lost, and peers are asked a little later.
    fn note_loss(&mut self)
        ensures does { (out : _) → Does K.Keeper self.old self.new out out (λ s v. Notes LeaderLost ∷ []) true }
    {
        self.finder.hold(self.moment, LOSS_GRACE_MS);
        self.lost_leader = true;
    }

    // A follower has lost its leader.
    fn lose_leader(&mut self, out: &mut Output) -> Result<(), EventError>
        requires ready { IsReady self.old }
        requires deeds { 1 ≤ out.old.deeds.room }
        ensures does { DoesAll K.Keeper self.old self.new out.old out.new loses_leader result }
    {
        let Ok(()) = out.make_room(self.tasks.open_count(), &None) else {
            return Err(EventError::Memory);
        };
        self.become_candidate(out);
        self.note_loss();
        Ok(())
    }

    /// The connection to p has ended, and no other one leads to it.
    pub(crate) fn lose(&mut self, out: &mut Output, p: NodeId) -> Result<(), EventError>
        requires ready { IsReady self.old }
        requires deeds { 2 ≤ out.old.deeds.room }
        requires drops { 1 ≤ out.old.drops.room }
        requires frames { to_set ≤ out.old.frames.room }
        ensures does { DoesAll K.Keeper self.old self.new out.old out.new (λ s v. loses s v p v.mode) result }
    {
        let mode = self.mode;
        match mode {
            Mode::Candidate => {
                self.lose_peer(p);
                Ok(())
            }
            Mode::Leader => self.lose_follower(out, p),
            Mode::Follower(leader) => {
                if leader == p {
                    self.lose_leader(out)
                } else {
                    Ok(())
                }
            }
        }
    }
}
