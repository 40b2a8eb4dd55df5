//! `Roster`: ids in the order of their first sight, and sets of them as words, a bit for each id.
ghost use Rattle.std.specs.Prelude.{◌≡◌, ◌<◌, ◌≤◌, ◌↔◌, ◌^◌, List, [], length, IsTrue, IfOk, OnOk, OnErr, IsErr, IfSome, Some, None, false, ◌==◌, bit_and, bit_or};
ghost use Rattle.std.specs.Int.{bit_at, bit_not, w64};
ghost use Rattle.voting_config.specs.Ids.{has, has_room as has_room_of, most_ids};
ghost use Rattle.voting_config.specs.Rosters.{IsRoster, admitted, are_distinct, mask_of, marked, place_on, is_quorum_mask};

use crate::ids::is_among;
use crate::node_id::NodeId;
use crate::node_set::{Full, MAX_IDS, NodeSet};
use arrayvec::ArrayVec;
use std::marker::Model;

/// At most [`MAX_IDS`] ids, in the order of their first sight. Contracts see the list of them.
#[derive(Drop)]
pub struct Roster {
    ids: ArrayVec<NodeId, MAX_IDS>,
}

impl Model for Roster {
    ghost use Rattle.std.specs.Prelude.{List};
    ghost use Rattle.voting_config.specs.Ids.{Id};
    ghost use Rattle.voting_config.specs.Rosters.{IsRoster};
    ghost use Rattle.std.specs.Coded.{coded_list, coded_ℕ};

    ghost Value = { List Id };

    ghost coded = { coded_list (coded_list coded_ℕ) };

    ghost view = { λ r. r.ids.items };

    ghost invariant = { λ r. IsRoster r.ids.items };
}

impl Roster {
    /// A roster with no ids.
    pub fn new() -> Roster
        ensures { result ≡ [] }
    {
        Roster {
            ids: ArrayVec::new(),
        }
    }

    /// A roster of the ids of a set, as they ascend.
    pub fn of(ids: &NodeSet) -> Roster
        ensures value { result ≡ ids.now }
        ensures is_roster { IsRoster result }
    {
        let mut roster = Roster::new();
        // There is as much room as in the set, so this is no error.
        let _ = roster.ids.try_extend_from_slice(ids.as_slice());
        roster
    }

    /// The same roster once more.
    pub fn copy(&self) -> Roster
        ensures { result ≡ self.now }
    {
        let mut copy = Roster::new();
        // There is as much room as in the original, so this is no error.
        let _ = copy.ids.try_extend_from_slice(self.ids.as_slice());
        copy
    }

    /// How many ids are on it.
    pub fn len(&self) -> usize
        ensures value { result ≡ length self.now }
        ensures fits { length self.now ≤ most_ids }
    {
        self.ids.len()
    }

    /// The ids, in the order of their first sight.
    pub fn as_slice(&self) -> &[NodeId]
        ensures value { result.now ≡ self.now }
        ensures is_roster { IsRoster self.now }
    {
        self.ids.as_slice()
    }

    /// The place of the id, counted from 0, and None where it is not on the roster.
    pub fn place(&self, id: NodeId) -> Option<u8>
        ensures value { result ≡ place_on self.now id }
        ensures within { IfSome result (λ place. place < most_ids) }
        ensures distinct { IsTrue (are_distinct self.now) }
    {
        match place_among(self.ids.as_slice(), id) {
            None => None,
            Some(place) => Some(place as u8),
        }
    }

    /// The place of the id, which is put behind the others where it is not on the roster yet. `Full` exactly where it is not on it and
    /// [`MAX_IDS`] others are; the roster is then as before.
    pub fn admit(&mut self, id: NodeId) -> Result<u8, Full>
        ensures ok { OnOk result (self.new ≡ admitted self.old id) }
        ensures place { IfOk result (λ place. Some place ≡ place_on self.new id) }
        ensures within { IfOk result (λ place. place < most_ids) }
        ensures is_roster { IsRoster self.new }
        ensures err { OnErr result (self.new ≡ self.old) }
        ensures full { IsErr result ↔ (has_room_of self.old id ≡ false) }
    {
        if let Some(place) = self.place(id) {
            return Ok(place);
        }
        let place = self.ids.len();
        if place >= MAX_IDS {
            return Err(Full);
        }
        // For the proof alone: an id has 1 to 32 bytes, and no others than those of ids.
        let _ = id.as_bytes();
        self.ids.push(id);
        Ok(place as u8)
    }

    /// The set as a word: the bit at the place of each id on the roster that the set has. Other ids of the set have no bit.
    pub fn mask(&self, set: &NodeSet) -> u64
        ensures value { result ≡ mask_of self.now set.now }
        ensures fits { result < 2 ^ length self.now }
    {
        self.mask_of_ids(set.as_slice())
    }

    // The same of ids that are listed.
    pub(crate) fn mask_of_ids(&self, set: &[NodeId]) -> u64
        ensures value { result ≡ mask_of self.now set.now }
        ensures fits { result < 2 ^ length self.now }
    {
        let ids = self.ids.as_slice();
        let mut word = 0;
        for place in 0..ids.len() {
            if is_among(set, ids[place]) {
                word = with_bit(word, place as u8);
            }
        }
        word
    }

    /// The set that a word is: the ids at the places of its bits.
    pub fn marked(&self, word: u64) -> NodeSet
        ensures { result ≡ marked self.now word }
    {
        let ids = self.ids.as_slice();
        let mut set = NodeSet::new();
        for place in 0..ids.len() {
            if has_bit(word, place as u8) {
                set.put(ids[place]);
            }
        }
        set
    }

    /// Whether the set that a word is has the id.
    pub fn has_mark(&self, word: u64, id: NodeId) -> bool
        ensures { result ≡ has id (marked self.now word) }
    {
        match self.place(id) {
            None => false,
            Some(place) => has_bit(word, place),
        }
    }
}

// The first place of the id.
fn place_among(ids: &[NodeId], id: NodeId) -> Option<usize>
    ensures value { result ≡ place_on ids.now id }
    ensures within { IfSome result (λ place. place < length ids.now) }
{
    ids.iter().position(|other| *other == id)
}

/// Whether the bit at a place is set, counted from 0, the lowest.
pub fn has_bit(word: u64, place: u8) -> bool
    requires { place < 64 }
    ensures { result ≡ (bit_at word place == 1) }
{
    (word >> place) & 1 == 1
}

/// The word with the bit at a place set.
pub fn with_bit(word: u64, place: u8) -> u64
    requires { place < 64 }
    ensures { result ≡ bit_or word (2 ^ place) }
{
    word | (1 << place)
}

/// The word with the bit at a place not set.
pub fn without_bit(word: u64, place: u8) -> u64
    requires { place < 64 }
    ensures { result ≡ bit_and word (bit_not w64 (2 ^ place)) }
{
    word & !(1 << place)
}

/// Whether votes are a quorum of a configuration of this size, each as a word over one roster: twice the number of bits that they share is
/// more than the size. The configuration may have nodes that are not on the roster.
pub fn quorum_mask(votes: u64, config: u64, size: usize) -> bool
    ensures { result ≡ is_quorum_mask votes config size }
{
    2 * ((votes & config).count_ones() as usize) > size
}
