//! How leaders and followers check each other.
ghost use Rattle.std.specs.Prelude.{◌≡◌, ◌≤◌, true, length, is_ok};
ghost use Rattle.std.specs.Option.{option_map};
ghost use Rattle.voting_config.specs.Ids.{has};
ghost use Rattle.fault_checks.specs.Leaders.{leader_tick};
ghost use Rattle.policy_model.specs.NextState.{targets_of};
ghost use Rattle.policy_model.specs.Parts.{leader_ticked, leader_answered};
ghost use Rattle.policy_model.specs.Checks.{does_check, checks_leader, answers_leader, follows_checker, on_follower_check, on_leader_check, on_follower_answer, on_leader_answer};
ghost use Rattle.policy_model.specs.Doing.{then_rule, raises_term};
ghost use Rattle.coordinator.specs.Does.{Does, DoesAll};
ghost use Rattle.coordinator.specs.Rooms.{Uses};
ghost use Rattle.coordinator.specs.Views.{IsReady};

use crate::coordinator::{Acted, Coordinator, DiskFailed, EventError};
use crate::following::follows;
use crate::output::Output;
use cluster_state::StateId;
use fault_checks::{LeaderCheck, LeaderTick};
use publication::Publication;
use state_journal::Keeper;
use voting_config::NodeId;
use wire_frames::WireMessage;

// What to do about the leader now, in ms.
fn tick_of(check: &mut Option<LeaderCheck>, now: u64) -> Option<LeaderTick>
    ensures tick { result ≡ option_map (λ c. leader_tick c now) check.old }
    ensures check { check.new ≡ leader_ticked check.old now }
{
    match check {
        None => None,
        Some(check) => Some(check.tick(now)),
    }
}

// The leader answers now, in ms.
fn answer_of(check: &mut Option<LeaderCheck>, good: bool, now: u64)
    ensures { check.new ≡ leader_answered check.old good now }
{
    match check {
        None => {}
        Some(check) => check.answer(good, now),
    }
}

// Whether a node is a target of the publication.
fn is_target(publication: &Option<Publication>, id: NodeId) -> bool
    ensures { result ≡ has id (targets_of publication.now) }
{
    match publication {
        None => false,
        Some(publication) => publication.targets().contains(id),
    }
}

impl<K: Keeper> Coordinator<K> {
    // A follower asks its leader, or has lost it.
    pub(crate) fn check_leader(&mut self, out: &mut Output, leader: NodeId)
        requires deeds { 1 ≤ out.old.deeds.room }
        requires frames { 1 ≤ out.old.frames.room }
        requires replies { length self.old.tasks.waiting ≤ out.old.replies.room }
        ensures does { Does K.Keeper self.old self.new out.old out.new (λ s v. checks_leader s v leader v.leader_check) true }
        ensures uses { Uses out.old out.new 1 1 (length self.old.tasks.waiting) }
    {
        match tick_of(&mut self.leader_check, self.moment) {
            None => {}
            Some(tick) => self.do_check(out, leader, tick),
        }
    }

    fn do_check(&mut self, out: &mut Output, leader: NodeId, tick: LeaderTick)
        requires deeds { 1 ≤ out.old.deeds.room }
        requires frames { 1 ≤ out.old.frames.room }
        requires replies { length self.old.tasks.waiting ≤ out.old.replies.room }
        ensures does { Does K.Keeper self.old self.new out.old out.new (λ s v. does_check s v leader tick) true }
        ensures uses { Uses out.old out.new 1 1 (length self.old.tasks.waiting) }
    {
        match tick {
            LeaderTick::Quiet => {}
            LeaderTick::Ask => {
                let term = self.core.term();
                self.send(out, leader, WireMessage::LeaderCheck { term });
            }
            LeaderTick::Lost => self.become_candidate(out),
        }
    }

    // Answers the check of a leader.
    fn answer_leader(&self, out: &mut Output, leader: NodeId, good: bool)
        requires frames { 1 ≤ out.old.frames.room }
        ensures does { Does K.Keeper self.now self.now out.old out.new (λ s v. answers_leader s v leader good) true }
        ensures uses { Uses out.old out.new 0 1 0 }
    {
        let answer = WireMessage::FollowerAnswer {
            good,
            term: self.core.term(),
            applied: self.applied,
        };
        self.send(out, leader, answer);
    }

    // A leader does not follow; another node follows the one that checks it.
    fn follow_checker(&mut self, out: &mut Output, leader: NodeId)
        requires deeds { 2 ≤ out.old.deeds.room }
        requires frames { 1 ≤ out.old.frames.room }
        requires replies { length self.old.tasks.waiting ≤ out.old.replies.room }
        ensures does { Does K.Keeper self.old self.new out.old out.new (λ s v. follows_checker s v leader) true }
        ensures uses { Uses out.old out.new 2 1 (length self.old.tasks.waiting) }
    {
        if self.settings.policy.second {
            self.answer_leader(out, leader, follows(self.mode, leader));
            return;
        }
        if self.is_leader() {
            self.answer_leader(out, leader, false);
            return;
        }
        self.become_follower(out, leader);
        self.answer_leader(out, leader, true);
    }

    // A check of an earlier term is answered no; one of a later term raises the node's own first.
    fn take_follower_check(&mut self, out: &mut Output, leader: NodeId, term: u64) -> Acted
        requires ready { IsReady self.old }
        requires deeds { 4 ≤ out.old.deeds.room }
        requires frames { 2 ≤ out.old.frames.room }
        requires replies { length self.old.tasks.waiting ≤ out.old.replies.room }
        ensures does { Does K.Keeper self.old self.new out.old out.new (λ s v. on_follower_check s v leader term) (is_ok result) }
    {
        if term < self.core.term() {
            self.answer_leader(out, leader, false);
            return Ok(());
        }
        self.follow_later(out, leader, term)
    }

    /// A leader checks this node.
    pub(crate) fn on_follower_check(
        &mut self,
        out: &mut Output,
        leader: NodeId,
        term: u64,
    ) -> Result<(), EventError>
        requires ready { IsReady self.old }
        requires deeds { 4 ≤ out.old.deeds.room }
        requires frames { 2 ≤ out.old.frames.room }
        ensures does { DoesAll K.Keeper self.old self.new out.old out.new (λ s v. on_follower_check s v leader term) result }
    {
        let Ok(()) = out.make_room(self.tasks.open_count(), &None) else {
            return Err(EventError::Memory);
        };
        match self.take_follower_check(out, leader, term) {
            Ok(()) => Ok(()),
            Err(_) => Err(EventError::Struck),
        }
    }

    // A leader of the node's term or a later one is followed.
    fn follow_later(&mut self, out: &mut Output, leader: NodeId, term: u64) -> Acted
        requires ready { IsReady self.old }
        requires deeds { 4 ≤ out.old.deeds.room }
        requires frames { 2 ≤ out.old.frames.room }
        requires replies { length self.old.tasks.waiting ≤ out.old.replies.room }
        ensures does { Does K.Keeper self.old self.new out.old out.new
            (λ s v. then_rule s v (raises_term s v leader term) (λ u. follows_checker s u leader)) (is_ok result) }
    {
        match self.raise_term(out, leader, term) {
            Err(_) => Err(DiskFailed),
            Ok(()) => {
                self.follow_checker(out, leader);
                Ok(())
            }
        }
    }

    // A member is answered whether the node leads it.
    pub(crate) fn on_leader_check(&self, out: &mut Output, from: NodeId, term: u64)
        requires frames { 1 ≤ out.old.frames.room }
        ensures does { Does K.Keeper self.now self.now out.old out.new (λ s v. on_leader_check s v from term) true }
        ensures uses { Uses out.old out.new 0 1 0 }
    {
        let good = self.is_leader()
            && term == self.core.term()
            && is_target(&self.publication, from);
        self.send(out, from, WireMessage::LeaderAnswer { good });
    }

    // A follower answers a check.
    pub(crate) fn on_follower_answer(&mut self, from: NodeId, good: bool, applied: StateId)
        ensures { (out : _) → Does K.Keeper self.old self.new out out (λ s v. on_follower_answer s v from good applied) true }
    {
        if self.is_leader() {
            self.followers.answer(from, good, applied, self.moment);
        }
    }

    // The leader answers a check.
    pub(crate) fn on_leader_answer(&mut self, from: NodeId, good: bool)
        ensures { (out : _) → Does K.Keeper self.old self.new out out (λ s v. on_leader_answer s v from good) true }
    {
        if follows(self.mode, from) {
            answer_of(&mut self.leader_check, good, self.moment);
        }
    }
}
