//! Following another node.
ghost use Rattle.std.specs.Prelude.{◌≡◌, ◌≤◌, [], ◌∷◌, true, length};
ghost use Rattle.policy_model.specs.Doing.{becomes_follower, follows_node};
ghost use Rattle.policy_model.specs.Events.{ChangesMode};
ghost use Rattle.policy_model.specs.declared.events.Mode.TheVariants.{Follower};
ghost use Rattle.coordinator.specs.Does.{Does};
ghost use Rattle.coordinator.specs.Rooms.{Uses};

use crate::coordinator::Coordinator;
use crate::output::Output;
use fault_checks::LeaderCheck;
use policy_model::Mode;
use state_journal::Keeper;
use voting_config::NodeId;

/// Whether a node in this mode follows this leader.
pub(crate) fn follows(mode: Mode, leader: NodeId) -> bool
    ensures { result ≡ follows_node mode leader }
{
    match mode {
        Mode::Follower(followed) => followed == leader,
        Mode::Candidate | Mode::Leader => false,
    }
}

impl<K: Keeper> Coordinator<K> {
    // Follows a node from now on, unless it does already.
    pub(crate) fn become_follower(&mut self, out: &mut Output, leader: NodeId)
        requires deeds { 2 ≤ out.old.deeds.room }
        requires replies { length self.old.tasks.waiting ≤ out.old.replies.room }
        ensures does { Does K.Keeper self.old self.new out.old out.new (λ s v. becomes_follower s v leader) true }
        ensures uses { Uses out.old out.new 2 0 (length self.old.tasks.waiting) }
        ensures waiting { length self.new.tasks.waiting ≤ out.new.replies.room }
    {
        if follows(self.mode, leader) {
            return;
        }
        if self.is_leader() {
            self.become_candidate(out);
            self.change_to_follower(out, leader);
            return;
        }
        self.change_to_follower(out, leader);
    }

    // The mode changes to that of a follower.
    fn change_to_follower(&mut self, out: &mut Output, leader: NodeId)
        requires deeds { 1 ≤ out.old.deeds.room }
        ensures does { Does K.Keeper self.old self.new out.old out.new (λ s v. ChangesMode (Follower leader) v.node.term ∷ []) true }
        ensures uses { Uses out.old out.new 1 0 0 }
        ensures tasks { self.new.tasks ≡ self.old.tasks }
    {
        self.mode = Mode::Follower(leader);
        self.leader_check = Some(LeaderCheck::start(leader, self.moment));
        out.change_mode(Mode::Follower(leader), self.core.term());
    }
}
