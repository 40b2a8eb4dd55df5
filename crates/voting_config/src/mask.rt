//! `Mask`: a configuration as a word over a roster.
ghost use Rattle.std.specs.Prelude.{◌≡◌, ◌<◌, ◌^◌, cond, bit_or, length, IsTrue, []};
ghost use Rattle.voting_config.specs.Ids.{has, IsIdSet};
ghost use Rattle.voting_config.specs.Rosters.{are_distinct, mask_of, is_quorum_mask};

use crate::ids::are_same;
use crate::node_id::NodeId;
use crate::node_set::NodeSet;
use crate::roster::{Roster, quorum_mask, with_bit};

/// A configuration, and a word that tells which of the ids of a roster are in it. Whoever holds it mends the word as the roster grows.
#[derive(Drop)]
pub struct Mask {
    config: NodeSet,
    word: u64,
}

impl Mask {
    /// The empty configuration.
    pub fn new() -> Mask
        ensures { result ≡ record { config = []; word = 0 } }
    {
        Mask {
            config: NodeSet::new(),
            word: 0,
        }
    }

    /// The same once more.
    pub fn copy(&self) -> Mask
        ensures { result ≡ self.now }
    {
        Mask {
            config: self.config.copy(),
            word: self.word,
        }
    }

    /// Sets the bit of an id that was put on the roster at this place, where the configuration has it.
    pub fn mend(&mut self, id: NodeId, place: u8)
        requires { place < 64 }
        ensures { self.new ≡ record self.old { word = cond (has id self.old.config) (bit_or self.old.word (2 ^ place)) self.old.word } }
    {
        if self.config.contains(id) {
            self.word = with_bit(self.word, place);
        }
    }

    /// Makes it the word over this roster.
    pub fn renew(&mut self, roster: &Roster)
        ensures { self.new ≡ record self.old { word = mask_of roster.now self.old.config } }
    {
        self.word = roster.mask(&self.config);
    }

    // Makes it that of the configuration of these ids, where it is not.
    pub(crate) fn stand_for(&mut self, config: &[NodeId], roster: &Roster)
        requires set { IsIdSet config.now }
        requires word { self.old.word ≡ mask_of roster.now self.old.config }
        ensures { self.new ≡ record { config = config.now; word = mask_of roster.now config.now } }
    {
        if !are_same(self.config.as_slice(), config) {
            self.config.copy_from_slice(config);
            self.renew(roster);
        }
    }

    /// Whether votes are a quorum of it, as a word over the same roster.
    pub fn is_quorum(&self, votes: u64) -> bool
        ensures value { result ≡ is_quorum_mask votes self.now.word (length self.now.config) }
        ensures distinct { IsTrue (are_distinct self.now.config) }
    {
        quorum_mask(votes, self.word, self.config.as_slice().len())
    }
}
