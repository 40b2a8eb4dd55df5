//! `PreVotes`: one round of pre-votes, from its start on.
ghost use Rattle.std.specs.Prelude.{◌≡◌, ◌+◌, ◌≤◌, ◌||◌, length, IsTrue};
ghost use Rattle.voting_config.specs.Ids.{most_ids};
ghost use Rattle.voting_config.specs.Rosters.{marked};
ghost use Rattle.cluster_state.specs.Field.{last_number};
ghost use Rattle.pre_vote.specs.Calls.{Calls, Start, Add, has_room, is_vote as vote_of};

use cluster_state::StateId;
use std::marker::Model;
use voting_config::{IdList, JoinVotes, MAX_IDS, NodeId, Roster, Tally, VotingConfig};

/// What an answer brings about.
#[derive(Clone, Copy, Debug, PartialEq, Eq)]
pub enum Added {
    /// It counts, and the node and those that count are no election quorum yet.
    Counted,
    /// Its source has accepted a state that is fresher than the node's, so it doesn't count.
    Fresher,
    /// It counts, and they are one now: the term of the election is one above all terms of the round.
    Quorum(u64),
}

/// A round of pre-votes. It stands for the calls so far: its start, and the answers since.
#[derive(Drop)]
pub struct PreVotes {
    me: NodeId,
    last: StateId,
    greatest: u64,
    voters: JoinVotes,
    others: Tally,
}

impl Model for PreVotes {
    ghost use Rattle.std.specs.Prelude.{◌+◌, ◌≤◌, length};
    ghost use Rattle.voting_config.specs.Ids.{most_ids};
    ghost use Rattle.cluster_state.specs.Field.{last_number};
    ghost use Rattle.pre_vote.specs.Rounds.{Round};

    ghost Value = { Round };

    ghost view = { λ r. record { me = r.me; last = r.last; greatest = r.greatest; voters = r.voters; others = r.others } };

    ghost invariant = { λ r. (r.greatest ≤ last_number) × (length r.voters + length r.others ≤ most_ids) };
}

impl PreVotes {
    ghost use Rattle.pre_vote.specs.Rounds.{added_of, answered, fits as fits_in, round_of, started};

    /// A round of the node `me`, whose accepted state has the id `last` and which is in this term. Nobody has answered.
    pub fn start(me: NodeId, last: StateId, term: u64) -> PreVotes
        requires { term ≤ last_number }
        ensures round { result ≡ started me last term }
        ensures calls { result ≡ round_of (Start me last term) }
    {
        let mut voters = JoinVotes::new();
        voters.add(me);
        PreVotes {
            me,
            last,
            greatest: term,
            voters,
            others: Tally::new(),
        }
    }

    /// Whether an answer of this source can be added: true exactly where the source is the node itself or has
    /// answered, or where the node and those that have answered are fewer than 64.
    pub fn fits(&self, source: NodeId) -> bool
        ensures round { result ≡ fits_in source self.now }
        ensures calls { (calls : Calls) → self.now ≡ round_of calls → result ≡ has_room source calls }
    {
        self.has_place(source)
    }

    // Whether the two sets have the source, or are fewer than a set holds. `fits` only calls it, and says the same of the calls.
    fn has_place(&self, source: NodeId) -> bool
        ensures { result ≡ fits_in source self.now }
    {
        self.voters.contains(source)
            || self.others.contains(source)
            || self.voters.len() + self.others.len() < MAX_IDS
    }

    /// An answer of `source`, with its term and the id of the state that it has accepted. It counts where that id is
    /// not above the node's own as the round began; the newest answer of a source stands, and the node itself always
    /// counts. `Fresher` exactly where the answer does not count; else `Quorum` exactly where the node and those that
    /// count are now a quorum of both the committed and the accepted configuration, with one more than the greatest
    /// term among the node's and all answers of the round; else `Counted`.
    pub fn add(
        &mut self,
        source: NodeId,
        term: u64,
        last: StateId,
        committed: &VotingConfig,
        accepted: &IdList,
    ) -> Added
        requires term { term ≤ last_number }
        requires room { IsTrue (fits_in source self.old) }
        ensures round { self.new ≡ answered self.old source term last }
        ensures answer { result ≡ added_of self.new last committed.now accepted.now }
        ensures calls { (calls : Calls) → self.old ≡ round_of calls → self.new ≡ round_of (Add calls source term last) }
    {
        self.enter(source, term, last);
        if last.is_fresher(self.last) {
            Added::Fresher
        } else if self.voters.is_quorum_with_state(committed, accepted) {
            Added::Quorum(self.greatest + 1)
        } else {
            Added::Counted
        }
    }

    // Enters an answer: its source is a voter from now on, or one of the others.
    fn enter(&mut self, source: NodeId, term: u64, last: StateId)
        requires term { term ≤ last_number }
        requires room { IsTrue (fits_in source self.old) }
        ensures { self.new ≡ answered self.old source term last }
    {
        self.greatest = self.greatest.max(term);
        if is_vote(self.me, self.last, source, last) {
            self.others.remove(source);
            self.voters.add(source);
        } else {
            self.voters.remove(source);
            self.others.add(source);
        }
    }

    /// A roster, and a word over it: the voters are the roster's ids at the bits of the word. The roster has the node itself, and who was
    /// counted since, in the order of first sight. Where 64 are on it and another one comes, it is made anew of the voters, as they ascend.
    pub fn marks(&self) -> (&Roster, u64)
        ensures { marked result.0.now result.1 ≡ self.now.voters }
    {
        self.voters.marks()
    }
}

// Whether the source of an answer is a voter.
fn is_vote(me: NodeId, own: StateId, source: NodeId, last: StateId) -> bool
    ensures { result ≡ vote_of me own source last }
{
    source == me || !last.is_fresher(own)
}
