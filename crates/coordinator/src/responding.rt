//! Responses to a publication, and the commit that they come to.
ghost use Rattle.std.specs.Prelude.{◌≡◌, ◌≤◌, ◌+◌, ◌++◌, ◌&&◌, true, map, length, is_some};
ghost use Rattle.voting_config.specs.Ids.{Id, among, has_room as has_room_of};
ghost use Rattle.wire_frames.specs.declared.frame.WireMessage.TheVariants as message;
ghost use Rattle.policy_model.specs.Doing.{is_leader as is_leader_of};
ghost use Rattle.policy_model.specs.NextState.{responders_of, targets_of};
ghost use Rattle.policy_model.specs.Publications.{is_commit_sent as is_commit_sent_of, on_response, sends_commit, sends_first_commit};
ghost use Rattle.coordinator.specs.Commits.{takes_response, acks_commit};
ghost use Rattle.coordinator.specs.Does.{Does, DoesAll};
ghost use Rattle.coordinator.specs.Plans.{frame_to};
ghost use Rattle.coordinator.specs.Rooms.{Uses, to_set};
ghost use Rattle.coordinator.specs.Showing.{shown_in};
ghost use Rattle.coordinator.specs.Views.{IsReady};

use crate::coordinator::{Coordinator, EventError};
use crate::output::Output;
use cluster_state::{PublishResponse, StateId};
use publication::Publication;
use state_journal::Keeper;
use voting_config::{NodeId, NodeSet};
use wire_frames::WireMessage;

// Whether its commit was sent.
fn is_commit_sent(publication: &Option<Publication>) -> bool
    ensures { result ≡ is_commit_sent_of publication.now }
{
    match publication {
        None => false,
        Some(publication) => publication.is_commit_sent(),
    }
}

// The commit goes to those of the nodes that are among the others.
fn send_commits(out: &mut Output, me: NodeId, ids: &[NodeId], others: &NodeSet, id: StateId)
    requires { length ids.now ≤ out.old.frames.room }
    ensures shown { shown_in out.new
        ≡ record (shown_in out.old)
        { frames = (shown_in out.old).frames ++ map (λ (to : Id). frame_to me (message.Commit id) to) (among ids.now others.now) } }
    ensures uses { Uses out.old out.new 0 (length ids.now) 0 }
{
    for to in ids {
        if others.contains(*to) {
            out.send(me, *to, WireMessage::Commit(id));
        }
    }
}

impl<K: Keeper> Coordinator<K> {
    // Whether a response of p is counted: by a leader that has published, where it fits.
    fn counts_responses_of(&self, p: NodeId) -> bool
        ensures { result ≡ (is_leader_of self.now.mode && is_some self.now.publication && has_room_of self.now.core.publish_votes p) }
    {
        self.is_leader() && self.publication.is_some() && self.core.acks().has_room(p)
    }

    // The commit goes to each target that has responded.
    fn broadcast_commit(&self, out: &mut Output, id: StateId)
        requires frames { to_set ≤ out.old.frames.room }
        ensures shown { shown_in out.new
            ≡ record (shown_in out.old) {
              frames = (shown_in out.old).frames
                  ++ map (λ (to : Id). frame_to self.now.settings.me (message.Commit id) to)
                  (among (responders_of self.now.publication) (targets_of self.now.publication));
            } }
        ensures uses { Uses out.old out.new 0 to_set 0 }
    {
        let Some(publication) = &self.publication else {
            return;
        };
        let responders = publication.responders().sources();
        // For the proof alone: a set has at most `MAX_IDS` ids.
        let _ = responders.len();
        send_commits(
            out,
            self.settings.me,
            responders.as_slice(),
            publication.targets(),
            id,
        );
    }

    // The requests in the published state are acknowledged.
    fn ack_commit(&mut self, out: &mut Output)
        requires { length self.old.tasks.waiting ≤ out.old.replies.room }
        ensures does { Does K.Keeper self.old self.new out.old out.new acks_commit true }
        ensures uses { Uses out.old out.new 0 0 (length self.old.tasks.waiting) }
    {
        let (version, _) = self.core.published();
        let id = StateId {
            term: self.core.term(),
            version,
        };
        self.tasks.ack_committed(id, &mut out.replies);
    }

    // The first commit goes to each target that has responded, and the requests in the state are acknowledged.
    fn send_first_commit(&mut self, out: &mut Output, id: StateId)
        requires frames { to_set ≤ out.old.frames.room }
        requires replies { length self.old.tasks.waiting ≤ out.old.replies.room }
        ensures does { Does K.Keeper self.old self.new out.old out.new (λ s v. sends_first_commit s v id) true }
    {
        self.broadcast_commit(out, id);
        self.ack_commit(out);
    }

    // The commit goes to the one that responded, where it was sent before.
    fn send_commit(&mut self, out: &mut Output, sent: bool, p: NodeId, id: StateId)
        requires frames { to_set ≤ out.old.frames.room }
        requires replies { length self.old.tasks.waiting ≤ out.old.replies.room }
        ensures does { Does K.Keeper self.old self.new out.old out.new (λ s v. sends_commit s v sent p id) true }
    {
        if sent {
            self.send(out, p, WireMessage::Commit(id));
        } else {
            self.send_first_commit(out, id);
        }
    }

    // Counts a response of p.
    fn take_response(&mut self, out: &mut Output, p: NodeId, id: StateId)
        requires ready { IsReady self.old }
        requires room { has_room_of self.old.core.publish_votes p ≡ true }
        requires deeds { 1 ≤ out.old.deeds.room }
        requires frames { to_set ≤ out.old.frames.room }
        requires replies { length self.old.tasks.waiting ≤ out.old.replies.room }
        ensures does { Does K.Keeper self.old self.new out.old out.new (λ s v. takes_response s v p id) true }
    {
        let sent = is_commit_sent(&self.publication);
        let response = PublishResponse {
            source: p,
            target: self.settings.me,
            term: id.term,
            version: id.version,
        };
        if self.act_response(out, &response) {
            self.send_commit(out, sent, p, id);
        }
    }

    // A response of p came.
    pub(crate) fn on_response(
        &mut self,
        out: &mut Output,
        p: NodeId,
        id: StateId,
    ) -> Result<(), EventError>
        requires ready { IsReady self.old }
        requires deeds { 1 ≤ out.old.deeds.room }
        requires frames { to_set ≤ out.old.frames.room }
        ensures does { DoesAll K.Keeper self.old self.new out.old out.new (λ s v. on_response s v p id) result }
    {
        if !self.counts_responses_of(p) {
            return Ok(());
        }
        let Ok(()) = out.make_room(self.tasks.open_count(), &None) else {
            return Err(EventError::Memory);
        };
        self.take_response(out, p, id);
        Ok(())
    }
}
