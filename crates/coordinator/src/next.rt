//! What a leader does that has no publication in flight.
ghost use Rattle.std.specs.Prelude.{◌≡◌, ◌≤◌, ◌+◌, ◌^◌, Some, true, false, not, ◌&&◌, length, find, if◌then◌else◌};
ghost use Rattle.voting_config.specs.Ids.{has};
ghost use Rattle.master_tasks.specs.NextState.{next_answers};
ghost use Rattle.policy_model.specs.Views.{View, master_now};
ghost use Rattle.policy_model.specs.Doing.{is_leader, may_win as may_win_of};
ghost use Rattle.policy_model.specs.NextState.{asks_votes, goes_on, lacks_vote as lacks_vote_of, wants_votes as wants_votes_of, makes_state, hands_over, publishes, is_in_flight as is_in_flight_of, asks_successor, successor_of};
ghost use Rattle.coord_state.specs.StandsFor.{request_of};
ghost use Rattle.coordinator.specs.Does.{Does, Ends};
ghost use Rattle.coordinator.specs.Plans.{IsPlan, IsNewState, IsPlanned, makes_next, replies_planned, state_by};
ghost use Rattle.coordinator.specs.Rooms.{to_set};
ghost use Rattle.coordinator.specs.Views.{view_in, IsReady};

use crate::coordinator::Coordinator;
use crate::output::Output;
use crate::plan::{NewState, Plan};
use crate::sending::Broadcast;
use cluster_state::LAST_NUMBER;
use election_clock::due;
use exclusions::may_win;
use policy_model::Mode;
use state_journal::Keeper;
use voting_config::{NodeId, NodeSet};

/// How long after a hand-over the next one may come, in ms.
pub const HANDOVER_INTERVAL_MS: u64 = 1000;

// The first of these nodes that is among some others, and not among those that are barred.
fn first_among(ids: &NodeSet, others: &NodeSet, barred: &NodeSet) -> Option<NodeId>
    ensures { result ≡ find (λ id. not (has id barred.now) && has id others.now) ids.now }
{
    ids.as_slice()
        .iter()
        .copied()
        .find(|id| !barred.contains(*id) && others.contains(*id))
}

impl<K: Keeper> Coordinator<K> {
    // Whether a publication is in flight.
    pub(crate) fn is_in_flight(&self) -> bool
        ensures { result ≡ is_in_flight_of self.now.publication }
    {
        match &self.publication {
            None => false,
            Some(publication) => !publication.is_finished(),
        }
    }

    // Whether it leads and has no publication in flight.
    pub(crate) fn is_free_leader(&self) -> bool
        ensures { result ≡ (is_leader self.now.mode && not (is_in_flight_of self.now.publication)) }
    {
        let mode = self.mode;
        match mode {
            Mode::Leader => !self.is_in_flight(),
            Mode::Candidate | Mode::Follower(_) => false,
        }
    }

    // Whether it votes or is not excluded.
    fn may_win(&self) -> bool
        ensures { result ≡ may_win_of self.now.settings (view_in K.Keeper self.now) }
    {
        let accepted = self.core.accepted();
        may_win(
            self.settings.me,
            self.core.committed(),
            &accepted.config,
            &accepted.value.exclusions,
        )
    }

    // Publishes a new state, which was made of the tasks of a node that was v, or becomes a candidate where that is refused.
    fn publish(&mut self, out: &mut Output, new: NewState)
        requires ready { IsReady self.old }
        requires request { new.request ≡ request_of K.Keeper self.old.core new.request.state.version new.config new.value }
        requires all { length new.frames.list ≡ length new.value.members }
        requires deeds { 2 ≤ out.old.deeds.room }
        requires frames { to_set ≤ out.old.frames.room }
        requires replies { length self.old.tasks.waiting ≤ out.old.replies.room }
        ensures does { (v : View) → v.node ≡ (view_in K.Keeper self.old).node
            → IsNewState self.old.settings.me (state_by (master_now self.old.settings v) v.tasks) new
            → Does K.Keeper self.old self.new out.old out.new (λ s u. publishes s v u) true }
    {
        let NewState {
            request,
            config,
            value,
            frames,
        } = new;
        // For the proof alone: a set has at most `MAX_IDS` ids.
        let _ = value.members.len();
        let taken = self.act_value(out, request, config, value);
        if taken {
            out.frames.append(frames);
        } else {
            self.become_candidate(out);
        }
    }

    // Makes the next state as planned.
    fn make_state(&mut self, out: &mut Output, plan: Plan)
        requires ready { IsReady self.old }
        requires plan { IsPlan (master_now self.old.settings (view_in K.Keeper self.old)) self.old.tasks plan }
        requires deeds { 2 ≤ out.old.deeds.room }
        requires frames { to_set ≤ out.old.frames.room }
        requires replies { length plan.replies.sent + length plan.waiting.items ≤ out.old.replies.room }
        ensures does { Does K.Keeper self.old self.new out.old out.new makes_state true }
    {
        let Plan {
            waiting,
            replies,
            new,
        } = plan;
        out.replies.append(replies);
        self.tasks.leave_only(waiting);
        match new {
            None => {}
            Some(new) => self.publish(out, new),
        }
    }

    // The least responder that votes and is not voting-only is asked to be elected, unless that was done a short time ago.
    fn hand_over(&mut self, out: &mut Output)
        requires ready { IsReady self.old }
        requires frames { to_set ≤ out.old.frames.room }
        ensures does { Does K.Keeper self.old self.new out.old out.new hands_over true }
    {
        if !due(self.handover_due, self.moment) {
            return;
        }
        self.handover_due = self.moment + HANDOVER_INTERVAL_MS;
        self.ask_successor(out);
    }

    // All members are asked to vote for this node in the next term, where there is one.
    fn ask_members(&self, out: &mut Output, id: NodeId)
        requires frames { to_set ≤ out.old.frames.room }
        ensures { Does K.Keeper self.now self.now out.old out.new (λ s v. asks_successor s v (Some id)) true }
    {
        let Some(publication) = &self.publication else {
            return;
        };
        let term = self.core.term() + 1;
        if term <= LAST_NUMBER {
            let targets = publication.targets();
            // For the proof alone: a set has at most `MAX_IDS` ids.
            let _ = targets.len();
            let join = Broadcast::StartJoin(id, term);
            out.send_all(self.settings.me, targets.as_slice(), &join);
        }
    }

    // Whether one that responded to the last publication has voted for another node in this term.
    fn lacks_vote(&self) -> bool
        ensures { result ≡ lacks_vote_of self.now.settings (view_in K.Keeper self.now) }
    {
        let Some(publication) = &self.publication else {
            return false;
        };
        let responders = publication.responders().sources();
        responders
            .as_slice()
            .iter()
            .any(|id| !self.core.votes().contains(*id))
    }

    // Whether it asks for votes that it lacks, in the second profile.
    fn wants_votes(&self) -> bool
        ensures { result ≡ wants_votes_of self.now.settings (view_in K.Keeper self.now) }
    {
        self.settings.policy.second && due(self.handover_due, self.moment) && self.lacks_vote()
    }

    // All members are asked to vote for this node in the next term.
    fn ask_votes(&mut self, out: &mut Output)
        requires ready { IsReady self.old }
        requires frames { to_set ≤ out.old.frames.room }
        ensures does { Does K.Keeper self.old self.new out.old out.new asks_votes true }
    {
        self.handover_due = self.moment + HANDOVER_INTERVAL_MS;
        self.ask_members(out, self.settings.me);
    }

    // The least responder that votes and is not voting-only is asked to be elected, where there is one.
    fn ask_successor(&self, out: &mut Output)
        requires frames { to_set ≤ out.old.frames.room }
        ensures { Does K.Keeper self.now self.now out.old out.new (λ s v. asks_successor s v (successor_of s v)) true }
    {
        let Some(publication) = &self.publication else {
            return;
        };
        let responders = publication.responders().sources();
        let Some(id) = first_among(
            &responders,
            self.core.committed().members(),
            &self.settings.voting_only,
        ) else {
            return;
        };
        self.ask_members(out, id);
    }

    /// Goes on as planned: the plan is taken where it is used.
    pub(crate) fn go_on(&mut self, out: &mut Output, plan: &mut Option<Plan>)
        requires ready { IsReady self.old }
        requires plan { IsPlanned self.old.settings (view_in K.Keeper self.old) plan.old }
        requires deeds { 2 ≤ out.old.deeds.room }
        requires frames { to_set ≤ out.old.frames.room }
        requires replies { replies_planned plan.old ≤ out.old.replies.room }
        ensures does { Does K.Keeper self.old self.new out.old out.new goes_on true }
    {
        if !self.is_free_leader() {
            return;
        }
        if !self.may_win() {
            self.hand_over(out);
            return;
        }
        if self.wants_votes() {
            self.ask_votes(out);
            return;
        }
        match plan.take() {
            Some(plan) => self.make_state(out, plan),
            None => unreachable!(),
        }
    }
}
