//! Changes of mode, and raising the term.
ghost use Rattle.std.specs.Prelude.{◌≡◌, ◌≤◌, ◌+◌, ◌++◌, [], true, false, length, is_ok, if◌then◌else◌};
ghost use Rattle.cluster_state.specs.States.{id_of};
ghost use Rattle.master_tasks.specs.Answering.{answers_by, failed};
ghost use Rattle.master_tasks.specs.Queue.{no_tasks};
ghost use Rattle.wire_frames.specs.declared.frame.WireMessage.TheVariants as message;
ghost use Rattle.policy_model.specs.Doing.{becomes_candidate, becomes_candidate_once, on_start_join, raises_term, is_leader, send};
ghost use Rattle.coordinator.specs.Does.{Does, DoesAll};
ghost use Rattle.coordinator.specs.Views.{IsReady};
ghost use Rattle.coordinator.specs.Rooms.{Uses};
ghost use Rattle.coordinator.specs.Showing.{shown_in, showing};

use crate::coordinator::{Acted, Coordinator, EventError};
use crate::output::Output;
use fault_checks::FollowerChecks;
use master_tasks::MasterTasks;
use policy_model::Mode;
use state_journal::Keeper;
use voting_config::NodeId;
use wire_frames::WireMessage;

// The open requests of a leader fail, with the term in which it led.
fn fail_requests(mode: Mode, term: u64, tasks: &mut MasterTasks, out: &mut Output)
    requires replies { length tasks.old.waiting ≤ out.old.replies.room }
    ensures shown { shown_in out.new
        ≡ record (shown_in out.old)
        { replies = (shown_in out.old).replies ++ (if is_leader mode then answers_by (failed term) tasks.old.waiting else []) } }
    ensures uses { Uses out.old out.new 0 0 (length tasks.old.waiting) }
{
    match mode {
        Mode::Leader => tasks.fail_all(term, &mut out.replies),
        Mode::Candidate | Mode::Follower(_) => {}
    }
}

impl<K: Keeper> Coordinator<K> {
    // Becomes a candidate, and drops what it did in another mode and in earlier elections.
    pub(crate) fn become_candidate(&mut self, out: &mut Output)
        requires deeds { 1 ≤ out.old.deeds.room }
        requires replies { length self.old.tasks.waiting ≤ out.old.replies.room }
        ensures does { Does K.Keeper self.old self.new out.old out.new becomes_candidate true }
        ensures uses { Uses out.old out.new 1 0 (length self.old.tasks.waiting) }
        ensures tasks { self.new.tasks ≡ no_tasks }
        ensures core { self.new.core ≡ self.old.core }
    {
        fail_requests(self.mode, self.leader_term, &mut self.tasks, out);
        self.mode = Mode::Candidate;
        self.finder.forget_answers(self.moment);
        self.deadline = None;
        self.attempt = 0;
        self.round = None;
        self.publication = None;
        self.followers = FollowerChecks::new();
        self.leader_check = None;
        self.tasks.clear();
        out.change_mode(Mode::Candidate, self.core.term());
    }

    // The same where it is none.
    fn leave(&mut self, out: &mut Output)
        requires deeds { 1 ≤ out.old.deeds.room }
        requires replies { length self.old.tasks.waiting ≤ out.old.replies.room }
        ensures does { Does K.Keeper self.old self.new out.old out.new becomes_candidate_once true }
        ensures uses { Uses out.old out.new 1 0 (length self.old.tasks.waiting) }
        ensures waiting { length self.new.tasks.waiting ≤ out.new.replies.room }
    {
        let mode = self.mode;
        match mode {
            Mode::Candidate => {}
            Mode::Leader | Mode::Follower(_) => self.become_candidate(out),
        }
    }

    // Starts a join for a candidate in a term. The join goes to it.
    pub(crate) fn start_join(&mut self, out: &mut Output, candidate: NodeId, term: u64) -> Acted
        requires ready { IsReady self.old }
        requires deeds { 2 ≤ out.old.deeds.room }
        requires frames { 1 ≤ out.old.frames.room }
        requires replies { length self.old.tasks.waiting ≤ out.old.replies.room }
        ensures does { Does K.Keeper self.old self.new out.old out.new (λ s v. on_start_join s v candidate term) (is_ok result) }
        ensures uses { Uses out.old out.new 2 1 (length self.old.tasks.waiting) }
        ensures waiting { length self.new.tasks.waiting ≤ out.new.replies.room }
    {
        let taken = self.act_start_join(out, candidate, term)?;
        if taken {
            self.send_join(out, candidate, term);
            self.leave(out);
        }
        Ok(())
    }

    fn send_join(&self, out: &mut Output, candidate: NodeId, term: u64)
        requires frames { 1 ≤ out.old.frames.room }
        ensures shown { shown_in out.new
            ≡ showing (shown_in out.old)
            (send self.now.settings candidate (message.Join term (id_of (K.record_of self.now.core.keeper).accepted))) }
        ensures uses { Uses out.old out.new 0 1 0 }
    {
        let last = self.core.accepted().id();
        out.send(
            self.settings.me,
            candidate,
            WireMessage::Join { term, last },
        );
    }

    // The same where the term is above the node's.
    pub(crate) fn raise_term(&mut self, out: &mut Output, candidate: NodeId, term: u64) -> Acted
        requires ready { IsReady self.old }
        requires deeds { 2 ≤ out.old.deeds.room }
        requires frames { 1 ≤ out.old.frames.room }
        requires replies { length self.old.tasks.waiting ≤ out.old.replies.room }
        ensures does { Does K.Keeper self.old self.new out.old out.new (λ s v. raises_term s v candidate term) (is_ok result) }
        ensures uses { Uses out.old out.new 2 1 (length self.old.tasks.waiting) }
        ensures waiting { length self.new.tasks.waiting ≤ out.new.replies.room }
    {
        if self.core.term() < term {
            self.start_join(out, candidate, term)
        } else {
            Ok(())
        }
    }

    /// A start join came: a join for its candidate is started in its term.
    pub(crate) fn on_start_join(
        &mut self,
        out: &mut Output,
        candidate: NodeId,
        term: u64,
    ) -> Result<(), EventError>
        requires ready { IsReady self.old }
        requires deeds { 2 ≤ out.old.deeds.room }
        requires frames { 1 ≤ out.old.frames.room }
        ensures does { DoesAll K.Keeper self.old self.new out.old out.new (λ s v. on_start_join s v candidate term) result }
    {
        let Ok(()) = out.make_room(self.tasks.open_count(), &None) else {
            return Err(EventError::Memory);
        };
        match self.start_join(out, candidate, term) {
            Ok(()) => Ok(()),
            Err(_) => Err(EventError::Struck),
        }
    }
}
