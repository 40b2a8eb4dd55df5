//! Pre-votes, asked and answered.
ghost use Rattle.std.specs.Prelude.{◌≡◌, ◌≤◌, true};
ghost use Rattle.cluster_state.specs.Field.{last_number};
ghost use Rattle.policy_model.specs.Elections.{on_pre_vote_ask, goes_to_election, on_pre_vote_answer, on_pre_vote_refuse};
ghost use Rattle.coordinator.specs.Does.{Does};
ghost use Rattle.coordinator.specs.Rooms.{Uses, to_set};
ghost use Rattle.coordinator.specs.Rounds.{counted_of, round_after};

use crate::coordinator::Coordinator;
use crate::discovery::{is_candidate, leader_of};
use crate::output::Output;
use cluster_state::StateId;
use pre_vote::{Added, PreVotes, Reply, answer};
use state_journal::Keeper;
use voting_config::{IdList, NodeId, VotingConfig};
use wire_frames::WireMessage;

// An answer is added to an open round, where it fits.
fn count(
    round: &mut Option<PreVotes>,
    from: NodeId,
    term: u64,
    last: StateId,
    committed: &VotingConfig,
    accepted: &IdList,
) -> Option<Added>
    requires { term ≤ last_number }
    ensures added { result ≡ counted_of round.old from term last committed.now accepted.now }
    ensures round { round.new ≡ round_after round.old from term last }
{
    match round {
        None => None,
        Some(round) => {
            if round.fits(from) {
                Some(round.add(from, term, last, committed, accepted))
            } else {
                None
            }
        }
    }
}

impl<K: Keeper> Coordinator<K> {
    // Who asks for a pre-vote is answered, or told of another leader.
    pub(crate) fn on_pre_vote_ask(&self, out: &mut Output, from: NodeId)
        requires frames { 1 ≤ out.old.frames.room }
        ensures does { Does K.Keeper self.now self.now out.old out.new (λ s v. on_pre_vote_ask s v from) true }
        ensures uses { Uses out.old out.new 0 1 0 }
    {
        let message = match answer(from, leader_of(self.settings.me, self.mode)) {
            Reply::Answer => WireMessage::PreVoteAnswer {
                term: self.core.term(),
                last: self.core.accepted().id(),
            },
            Reply::Refused(leader) => WireMessage::PreVoteRefuse { leader },
        };
        self.send(out, from, message);
    }

    // An answer to a candidate with an open round.
    pub(crate) fn on_pre_vote_answer(
        &mut self,
        out: &mut Output,
        from: NodeId,
        term: u64,
        last: StateId,
    )
        requires term { term ≤ last_number }
        requires frames { to_set ≤ out.old.frames.room }
        ensures does { Does K.Keeper self.old self.new out.old out.new (λ s v. on_pre_vote_answer s v v.round from term last) true }
        ensures uses { Uses out.old out.new 0 to_set 0 }
    {
        if !is_candidate(self.mode) {
            return;
        }
        let counted = count(
            &mut self.round,
            from,
            term,
            last,
            self.core.committed(),
            &self.core.accepted().config,
        );
        match counted {
            None => {}
            Some(added) => self.go_to_election(out, added),
        }
    }

    fn go_to_election(&mut self, out: &mut Output, added: Added)
        requires frames { to_set ≤ out.old.frames.room }
        ensures does { Does K.Keeper self.old self.new out.old out.new (λ s v. goes_to_election s v added) true }
        ensures uses { Uses out.old out.new 0 to_set 0 }
    {
        match added {
            Added::Counted | Added::Fresher => {}
            Added::Quorum(term) => self.stand_for_election(out, term),
        }
    }

    // Who refuses a pre-vote names the leader.
    pub(crate) fn on_pre_vote_refuse(&mut self, leader: NodeId)
        ensures { (out : _) → Does K.Keeper self.old self.new out out (λ s v. on_pre_vote_refuse s v leader) true }
    {
        self.finder.add(leader);
    }
}
