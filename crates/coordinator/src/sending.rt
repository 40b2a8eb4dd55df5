//! Frames to one node and to several.
ghost use Rattle.std.specs.Prelude.{◌≡◌, ◌≤◌, ◌+◌, ◌++◌, ◌∷◌, [], true, map, length};
ghost use Rattle.voting_config.specs.Ids.{Id};
ghost use Rattle.policy_model.specs.Doing.{send, send_all};
ghost use Rattle.coordinator.specs.Broadcasts.{message_of};
ghost use Rattle.coordinator.specs.Does.{Does};
ghost use Rattle.coordinator.specs.Plans.{frame_to};
ghost use Rattle.coordinator.specs.Rooms.{Uses, to_set};
ghost use Rattle.coordinator.specs.Showing.{shown_in};

use crate::coordinator::Coordinator;
use crate::output::Output;
use cluster_state::StateId;
use state_journal::Keeper;
use voting_config::{NodeId, NodeSet};
use wire_frames::WireMessage;

/// A message that goes to several nodes, and takes no memory.
#[derive(Drop)]
pub enum Broadcast {
    StartJoin(NodeId, u64),
    Commit(StateId),
    PreVoteAsk,
    FollowerCheck(u64),
}

impl Broadcast {
    /// The message once more.
    pub fn message(&self) -> WireMessage
        ensures { result ≡ message_of self.now }
    {
        match self {
            Broadcast::StartJoin(candidate, term) => WireMessage::StartJoin {
                candidate: *candidate,
                term: *term,
            },
            Broadcast::Commit(id) => WireMessage::Commit(*id),
            Broadcast::PreVoteAsk => WireMessage::PreVoteAsk,
            Broadcast::FollowerCheck(term) => WireMessage::FollowerCheck { term: *term },
        }
    }
}

impl Output {
    // A frame of `me` to each of the nodes.
    pub(crate) fn send_all(&mut self, me: NodeId, ids: &[NodeId], what: &Broadcast)
        requires { length ids.now ≤ self.old.frames.room }
        ensures shown { shown_in self.new
            ≡ record (shown_in self.old)
            { frames = (shown_in self.old).frames ++ map (λ (to : Id). frame_to me (message_of what.now) to) ids.now } }
        ensures uses { Uses self.old self.new 0 (length ids.now) 0 }
    {
        for to in ids {
            self.send(me, *to, what.message());
        }
    }
}

impl<K: Keeper> Coordinator<K> {
    // Sends a frame.
    pub(crate) fn send(&self, out: &mut Output, to: NodeId, message: WireMessage)
        requires { 1 ≤ out.old.frames.room }
        ensures does { Does K.Keeper self.now self.now out.old out.new (λ s v. send s to message ∷ []) true }
        ensures uses { Uses out.old out.new 0 1 0 }
    {
        out.send(self.settings.me, to, message);
    }

    // Sends a message to each of the nodes.
    pub(crate) fn send_all(&self, out: &mut Output, ids: &NodeSet, what: &Broadcast)
        requires { to_set ≤ out.old.frames.room }
        ensures does { Does K.Keeper self.now self.now out.old out.new (λ s v. send_all s ids.now (message_of what.now)) true }
        ensures uses { Uses out.old out.new 0 to_set 0 }
    {
        // For the proof alone: a set has at most `MAX_IDS` ids.
        let _ = ids.len();
        out.send_all(self.settings.me, ids.as_slice(), what);
    }
}
