//! How a candidate comes to be elected: the first configuration, and the wait for an election.
ghost use Rattle.std.specs.Prelude.{◌≡◌, ◌≤◌, ◌+◌, ◌*◌, not, ◌&&◌, [], ◌∷◌, true, length, filter, is_ok, IfOk};
ghost use Rattle.voting_config.specs.Ids.{without_id};
ghost use Rattle.world_model.specs.Replies.{elects as elects_of};
ghost use Rattle.policy_model.specs.Doing.{is_voting_only as is_voting_only_of, may_win as may_win_of, then_rule};
ghost use Rattle.policy_model.specs.Discovery.{asks_peers};
ghost use Rattle.policy_model.specs.Rules.{ticks_candidate};
ghost use Rattle.policy_model.specs.Events.{Notes, RoundBegun};
ghost use Rattle.policy_model.specs.Elections.{bootstraps, comes_first as comes_first_of, election_rank as election_rank_of, stands_for_election, free_nodes as free_nodes_of, begins_round, waits_until, waits_for_election};
ghost use Rattle.policy_model.specs.Parts.{election_duration, next_attempt as next_attempt_of, round_begun};
ghost use Rattle.coordinator.specs.Asks.{ArePlannedAsks};
ghost use Rattle.coordinator.specs.Bootstraps.{IsPlannedFirst};
ghost use Rattle.coordinator.specs.Does.{Does};
ghost use Rattle.coordinator.specs.Rooms.{Uses, to_set, to_two_sets, to_three_sets};
ghost use Rattle.coordinator.specs.Rounds.{stands_alone};
ghost use Rattle.coordinator.specs.Views.{view_in, IsReady};

use crate::coordinator::{Acted, Coordinator, DiskFailed};
use crate::discovery::with;
use crate::output::{Listed, Output};
use crate::plan::{FirstState, first_state};
use crate::sending::Broadcast;
use cluster_state::LAST_NUMBER;
use election_clock::{DURATION_MS, delay, due};
use exclusions::may_win;
use pre_vote::PreVotes;
use state_journal::Keeper;
use std::alloc::{AllocError, Global};
use voting_config::{NodeId, NodeSet};
use wire_frames::Frame;

// Attempts are counted up to this one.
const MOST_ATTEMPTS: u32 = 99;

// The set without an id.
fn without(ids: &NodeSet, id: NodeId) -> NodeSet
    ensures { result ≡ without_id id ids.now }
{
    let mut others = ids.copy();
    others.remove(id);
    others
}

/// One more, up to the most that are counted.
pub(crate) fn next_attempt(attempt: u32) -> u32
    ensures { result ≡ next_attempt_of attempt }
{
    if attempt < MOST_ATTEMPTS {
        attempt + 1
    } else {
        MOST_ATTEMPTS
    }
}

impl<K: Keeper> Coordinator<K> {
    /// The state that a candidate will bootstrap with, if it will.
    pub(crate) fn plan_bootstrap(&self, alloc: Global) -> Result<Option<FirstState>, AllocError>
        ensures { IfOk result (λ first. IsPlannedFirst self.now.settings (view_in K.Keeper self.now) first) }
    {
        let has_config = !self.core.accepted().config.is_empty();
        let known = self.finder.answered_set();
        match bootstrap::decide(&self.settings.initial, &known, self.settings.me, has_config) {
            None => Ok(None),
            Some(config) => {
                let first = first_state(alloc, config.members())?;
                Ok(Some(first))
            }
        }
    }

    // Takes the first configuration, if it will.
    fn bootstrap(&mut self, out: &mut Output, first: Option<FirstState>) -> Acted
        requires ready { IsReady self.old }
        requires first { IsPlannedFirst self.old.settings (view_in K.Keeper self.old) first }
        requires deeds { 1 ≤ out.old.deeds.room }
        ensures does { Does K.Keeper self.old self.new out.old out.new bootstraps (is_ok result) }
        ensures uses { Uses out.old out.new 1 0 0 }
        ensures rest { self.new ≡ record self.old { core = self.new.core } }
    {
        match first {
            None => Ok(()),
            Some(first) => match self.act_set_initial(out, first) {
                Ok(_) => Ok(()),
                Err(_) => Err(DiskFailed),
            },
        }
    }

    // Takes the first configuration, if it will, and asks all peers where discovery is due.
    fn find_peers(
        &mut self,
        out: &mut Output,
        first: Option<FirstState>,
        asks: Option<Listed<Frame>>,
    ) -> Acted
        requires ready { IsReady self.old }
        requires first { IsPlannedFirst self.old.settings (view_in K.Keeper self.old) first }
        requires asks { ArePlannedAsks self.old.settings.me self.old.finder self.old.moment asks }
        requires deeds { 1 ≤ out.old.deeds.room }
        requires frames { to_set ≤ out.old.frames.room }
        ensures does { Does K.Keeper self.old self.new out.old out.new (λ s v. then_rule s v (bootstraps s v) (asks_peers s))
            (is_ok result) }
        ensures uses { Uses out.old out.new 1 to_set 0 }
    {
        match self.bootstrap(out, first) {
            Err(_) => Err(DiskFailed),
            Ok(()) => {
                self.ask_peers(out, asks);
                Ok(())
            }
        }
    }

    // A tick of a candidate, with what it will bootstrap with and the frames that ask for peers.
    pub(crate) fn tick_candidate(
        &mut self,
        out: &mut Output,
        first: Option<FirstState>,
        asks: Option<Listed<Frame>>,
        word: u64,
    ) -> Acted
        requires ready { IsReady self.old }
        requires first { IsPlannedFirst self.old.settings (view_in K.Keeper self.old) first }
        requires asks { ArePlannedAsks self.old.settings.me self.old.finder self.old.moment asks }
        requires deeds { 1 ≤ out.old.deeds.room }
        requires frames { to_three_sets ≤ out.old.frames.room }
        ensures does { Does K.Keeper self.old self.new out.old out.new (λ s v. ticks_candidate s v word) (is_ok result) }
        ensures uses { Uses out.old out.new 1 to_three_sets 0 }
    {
        match self.find_peers(out, first, asks) {
            Err(_) => Err(DiskFailed),
            Ok(()) => {
                self.wait_for_election(out, word);
                Ok(())
            }
        }
    }

    // The round ends, and all peers and the node itself are asked to join.
    pub(crate) fn stand_for_election(&mut self, out: &mut Output, term: u64)
        requires frames { to_set ≤ out.old.frames.room }
        ensures does { Does K.Keeper self.old self.new out.old out.new (λ s v. stands_for_election s v term) true }
        ensures uses { Uses out.old out.new 0 to_set 0 }
    {
        self.round = None;
        if LAST_NUMBER < term {
            return;
        }
        let me = self.settings.me;
        let all = with(self.finder.known_set(), me);
        self.send_all(out, &all, &Broadcast::StartJoin(me, term));
    }

    // A node that is a quorum alone stands for election.
    fn stand_alone(&mut self, out: &mut Output)
        requires frames { to_set ≤ out.old.frames.room }
        ensures does { Does K.Keeper self.old self.new out.old out.new stands_alone true }
        ensures uses { Uses out.old out.new 0 to_set 0 }
    {
        let alone = with(NodeSet::new(), self.settings.me);
        if !self.elects(&alone) {
            return;
        }
        let term = self.core.term() + 1;
        self.stand_for_election(out, term);
    }

    // The node, and the peers whose last answer names no master.
    fn free_nodes(&self) -> NodeSet
        ensures { result ≡ free_nodes_of self.now.settings (view_in K.Keeper self.now) }
    {
        with(self.finder.free_set(), self.settings.me)
    }

    // Whether these are an election quorum.
    pub(crate) fn elects(&self, ids: &NodeSet) -> bool
        ensures { result ≡ elects_of (view_in K.Keeper self.now).node ids.now }
    {
        self.core.committed().is_quorum(ids) && self.core.accepted().config.is_quorum(ids)
    }

    // Whether the node itself is voting-only.
    pub(crate) fn is_voting_only(&self) -> bool
        ensures { result ≡ is_voting_only_of self.now.settings self.now.settings.me }
    {
        self.settings.voting_only.contains(self.settings.me)
    }

    // Whether the node is not voting-only, votes or is not excluded, and these are an election quorum.
    fn may_be_elected(&self, ids: &NodeSet) -> bool
        ensures { result ≡ (not (is_voting_only_of self.now.settings self.now.settings.me)
            && (may_win_of self.now.settings (view_in K.Keeper self.now) && elects_of (view_in K.Keeper self.now).node ids.now)) }
    {
        if self.is_voting_only() {
            return false;
        }
        let accepted = self.core.accepted();
        may_win(
            self.settings.me,
            self.core.committed(),
            &accepted.config,
            &accepted.value.exclusions,
        ) && self.elects(ids)
    }

    // A round that begins now.
    fn new_round(&self) -> PreVotes
        ensures { result ≡ round_begun self.now.settings.me (view_in K.Keeper self.now).node }
    {
        PreVotes::start(
            self.settings.me,
            self.core.accepted().id(),
            self.core.term(),
        )
    }

    // A round begins, and so does the wait for the next.
    fn open_round(&mut self, word: u64)
        requires { IsReady self.old }
        ensures { (out : _) → Does K.Keeper self.old self.new out out (λ s v. Notes (RoundBegun word) ∷ []) true }
    {
        let attempt = next_attempt(self.attempt);
        let round = self.new_round();
        self.round = Some(round);
        self.attempt = attempt;
        self.deadline = Some(self.moment + delay(attempt as u64, word) + DURATION_MS);
    }

    // A round of pre-votes, which a node that is a quorum alone ends at once.
    fn begin_round(&mut self, out: &mut Output, free: &NodeSet, word: u64)
        requires ready { IsReady self.old }
        requires free { free.now ≡ free_nodes_of self.old.settings (view_in K.Keeper self.old) }
        requires frames { to_two_sets ≤ out.old.frames.room }
        ensures does { Does K.Keeper self.old self.new out.old out.new (λ s v. begins_round s v word) true }
        ensures uses { Uses out.old out.new 0 to_two_sets 0 }
    {
        let others = without(free, self.settings.me);
        self.open_round(word);
        self.send_all(out, &others, &Broadcast::PreVoteAsk);
        self.stand_alone(out);
    }

    // Whether a voter that may lead, is free, and comes before this node.
    fn comes_first(&self, free: &NodeSet, id: NodeId) -> bool
        requires free { free.now ≡ free_nodes_of self.now.settings (view_in K.Keeper self.now) }
        ensures { result ≡ comes_first_of self.now.settings (view_in K.Keeper self.now) id }
    {
        id < self.settings.me && free.contains(id) && !self.settings.voting_only.contains(id)
    }

    // How many such voters there are.
    fn rank(&self, free: &NodeSet) -> u32
        requires free { free.now ≡ free_nodes_of self.now.settings (view_in K.Keeper self.now) }
        ensures count { result ≡ length (filter (λ id. comes_first_of self.now.settings (view_in K.Keeper self.now) id) (view_in K.Keeper self.now).node.accepted.config) }
        ensures few { result ≤ 64 }
    {
        let config = &self.core.accepted().config;
        // For the proof alone: a set has at most `MAX_IDS` ids.
        let _ = config.len();
        let voters = config.as_slice();
        let mut rank = 0u32;
        for id in voters {
            if self.comes_first(free, *id) {
                rank += 1;
            }
        }
        rank
    }

    // How long the node leaves those that come first, in ms, where it has lost its leader.
    fn yielded(&self, free: &NodeSet) -> u64
        requires free { free.now ≡ free_nodes_of self.now.settings (view_in K.Keeper self.now) }
        ensures { result ≡ election_duration * election_rank_of self.now.settings (view_in K.Keeper self.now) }
    {
        if self.lost_leader {
            DURATION_MS * self.rank(free) as u64
        } else {
            0
        }
    }

    // A deadline is set, or a round begins that was waited for.
    fn wait_until(&mut self, out: &mut Output, free: &NodeSet, word: u64, deadline: Option<u64>)
        requires ready { IsReady self.old }
        requires free { free.now ≡ free_nodes_of self.old.settings (view_in K.Keeper self.old) }
        requires frames { to_two_sets ≤ out.old.frames.room }
        ensures does { Does K.Keeper self.old self.new out.old out.new (λ s v. waits_until s v word deadline) true }
        ensures uses { Uses out.old out.new 0 to_two_sets 0 }
    {
        match deadline {
            None => {
                self.attempt = 0;
                self.deadline = Some(self.moment + delay(0, word));
            }
            Some(deadline) => {
                let yielded = self.yielded(free);
                if due(deadline, self.moment.saturating_sub(yielded)) {
                    self.begin_round(out, free, word);
                }
            }
        }
    }

    // Waits for an election, where the node may be elected.
    fn wait_for_election(&mut self, out: &mut Output, word: u64)
        requires ready { IsReady self.old }
        requires frames { to_two_sets ≤ out.old.frames.room }
        ensures does { Does K.Keeper self.old self.new out.old out.new (λ s v. waits_for_election s v word) true }
        ensures uses { Uses out.old out.new 0 to_two_sets 0 }
    {
        let free = self.free_nodes();
        if !self.may_be_elected(&free) {
            self.deadline = None;
            return;
        }
        let deadline = self.deadline;
        self.wait_until(out, &free, word, deadline);
    }
}
