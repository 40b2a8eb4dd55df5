//! `JoinVotes`: the nodes that joined, or answered a publication or a pre-vote request.
ghost use Rattle.std.specs.Prelude.{◌≡◌, ◌<◌, ◌⊎◌, ◌&&◌, [], length, true, IsTrue};
ghost use Rattle.voting_config.specs.Ids.{has, has_room as has_room_of, with_id, without_id, most_ids, is_quorum_of, IsIdSet};
ghost use Rattle.voting_config.specs.Rosters.{marked};

use crate::config::VotingConfig;
use crate::id_list::IdList;
use crate::mask::Mask;
use crate::node_id::NodeId;
use crate::node_set::{MAX_IDS, NodeSet};
use crate::roster::{Roster, quorum_mask, with_bit, without_bit};
use std::marker::Model;

/// The sources of joins, of the responses to a publication, or of pre-votes: as in Elasticsearch, where `VoteCollection` counts all three.
/// Contracts see the ascending list of them.
///
/// Each source is a bit of one word, at the place that it has on a roster. The roster stays when the votes are taken out, so a node that
/// votes again has its place already. The two configurations that the votes were last counted by are kept as words over it too.
#[derive(Drop)]
pub struct JoinVotes {
    roster: Roster,
    word: u64,
    committed: Mask,
    current: Mask,
}

impl Model for JoinVotes {
    ghost use Rattle.std.specs.Prelude.{List};
    ghost use Rattle.voting_config.specs.Ids.{Id};
    ghost use Rattle.voting_config.specs.Rosters.{marked};
    ghost use Rattle.voting_config.specs.Votes.{AreCounted};
    ghost use Rattle.std.specs.Coded.{coded_list, coded_ℕ};

    ghost Value = { List Id };

    ghost coded = { coded_list (coded_list coded_ℕ) };

    ghost view = { λ v. marked v.roster v.word };

    ghost invariant = { λ v. AreCounted v.roster v.word v.committed.config v.committed.word v.current.config v.current.word };
}

impl JoinVotes {
    /// No votes.
    pub fn new() -> JoinVotes
        ensures { result ≡ [] }
    {
        JoinVotes {
            roster: Roster::new(),
            word: 0,
            committed: Mask::new(),
            current: Mask::new(),
        }
    }

    /// The same votes once more.
    pub fn copy(&self) -> JoinVotes
        ensures { result ≡ self.now }
    {
        JoinVotes {
            roster: self.roster.copy(),
            word: self.word,
            committed: self.committed.copy(),
            current: self.current.copy(),
        }
    }

    /// Takes all votes out.
    pub fn clear(&mut self)
        ensures { self.new ≡ [] }
    {
        self.word = 0;
    }

    /// Counts a source, once.
    pub fn add(&mut self, source: NodeId)
        requires { (has source self.old ≡ true) ⊎ (length self.old < most_ids) }
        ensures { self.new ≡ with_id source self.old }
    {
        if let Some(place) = self.roster.place(source) {
            self.word = with_bit(self.word, place);
            return;
        }
        match self.roster.admit(source) {
            Ok(place) => {
                self.committed.mend(source, place);
                self.current.mend(source, place);
                self.word = with_bit(self.word, place);
            }
            Err(_) => self.add_anew(source),
        }
    }

    /// Takes a source out, where it is a vote.
    pub fn remove(&mut self, source: NodeId)
        ensures { self.new ≡ without_id source self.old }
    {
        if let Some(place) = self.roster.place(source) {
            self.word = without_bit(self.word, place);
        }
    }

    // Counts a source over a new roster, that of the votes with this one.
    fn add_anew(&mut self, source: NodeId)
        requires { (has source self.old ≡ true) ⊎ (length self.old < most_ids) }
        ensures { self.new ≡ with_id source self.old }
    {
        let mut votes = self.sources();
        votes.put(source);
        self.roster = Roster::of(&votes);
        self.word = self.roster.mask(&votes);
        self.committed.renew(&self.roster);
        self.current.renew(&self.roster);
    }

    /// Whether the source is a vote.
    pub fn contains(&self, source: NodeId) -> bool
        ensures { result ≡ has source self.now }
    {
        self.roster.has_mark(self.word, source)
    }

    /// Whether the source can be counted: true exactly where it is a vote, or where fewer than [`MAX_IDS`] are.
    pub fn has_room(&self, source: NodeId) -> bool
        ensures { result ≡ has_room_of self.now source }
    {
        self.contains(source) || self.len() < MAX_IDS
    }

    /// How many votes there are.
    pub fn len(&self) -> usize
        ensures { result ≡ length self.now }
    {
        self.word.count_ones() as usize
    }

    /// The sources.
    pub fn sources(&self) -> NodeSet
        ensures { result ≡ self.now }
    {
        self.roster.marked(self.word)
    }

    /// A roster, and a word over it: the sources are the roster's ids at the bits of the word.
    pub fn marks(&self) -> (&Roster, u64)
        ensures { marked result.0.now result.1 ≡ self.now }
    {
        (&self.roster, self.word)
    }

    /// Whether the votes are a quorum of the configuration of these ids.
    pub fn is_quorum_of(&self, config: &IdList) -> bool
        ensures { result ≡ is_quorum_of config.now self.now }
    {
        let members = config.as_slice();
        quorum_mask(self.word, self.roster.mask_of_ids(members), members.len())
    }

    /// Whether the votes are a quorum both of the committed configuration and of a current one. No id of the one is looked up among those
    /// of the other where these are the two that were asked for last, since their words are kept; it is only seen that they are the same.
    pub fn is_quorum_of_both(&mut self, committed: &VotingConfig, current: &VotingConfig) -> bool
        ensures value { result ≡ (is_quorum_of committed.now self.old && is_quorum_of current.now self.old) }
        ensures same { self.new ≡ self.old }
    {
        self.are_quorums(committed.members().as_slice(), current.members().as_slice())
    }

    /// [`is_quorum_of_both`](JoinVotes::is_quorum_of_both), where the current configuration is that of a state.
    pub fn is_quorum_with_state(&mut self, committed: &VotingConfig, current: &IdList) -> bool
        ensures value { result ≡ (is_quorum_of committed.now self.old && is_quorum_of current.now self.old) }
        ensures same { self.new ≡ self.old }
    {
        self.are_quorums(committed.members().as_slice(), current.as_slice())
    }

    // The same of the ids of two configurations.
    fn are_quorums(&mut self, committed: &[NodeId], current: &[NodeId]) -> bool
        requires committed { IsIdSet committed.now }
        requires current { IsIdSet current.now }
        ensures value { result ≡ (is_quorum_of committed.now self.old && is_quorum_of current.now self.old) }
        ensures same { self.new ≡ self.old }
    {
        // Most votes are counted while they are too few.
        if self.len() <= committed.len() / 2 {
            return false;
        }
        self.committed.stand_for(committed, &self.roster);
        self.current.stand_for(current, &self.roster);
        self.committed.is_quorum(self.word) && self.current.is_quorum(self.word)
    }
}
