//! `NodeSet`: a set of at most 64 ids, which is held in place and takes no memory of the allocator.
ghost use Rattle.std.specs.Prelude.{◌≡◌, ℕ, ◌+◌, ◌<◌, ◌≤◌, ◌↔◌, List, [], ◌∷◌, ◌++◌, length, IsTrue, IfOk, OnOk, OnErr, IsErr, slice_get, not, Result, false, true, None, IfSome};
ghost use Rattle.voting_config.specs.Ids.{Id, among, are_among, comes_after, has, has_room as has_room_of, IsIdSet, most_ids, outside, place_of, set_of, some_among, union as union_of, union_count_of, with_id, with_room, without_id};
ghost use Rattle.voting_config.specs.Lists.{listed_ids};

use crate::ids::{ids_within, ids_without, is_among};
use crate::lists::read_ids;
use crate::node_id::NodeId;
use arrayvec::ArrayVec;
use std::marker::Model;

/// How many ids a set holds at most.
pub const MAX_IDS: usize = 64;

/// A set that has [`MAX_IDS`] ids already was to take another.
#[derive(Clone, Copy, Debug, PartialEq, Eq, thiserror::Error)]
#[error("a set has at most {MAX_IDS} ids")]
pub struct Full;

/// A set of at most [`MAX_IDS`] ids, ordered by their bytes. Contracts see the ascending list of them.
#[derive(Drop)]
pub struct NodeSet {
    ids: ArrayVec<NodeId, MAX_IDS>,
}

impl Model for NodeSet {
    ghost use Rattle.std.specs.Prelude.{List, IsTrue, length, ◌≤◌};
    ghost use Rattle.voting_config.specs.Ids.{Id, IsIdSet};
    ghost use Rattle.std.specs.Coded.{coded_list, coded_ℕ};

    ghost Value = { List Id };

    ghost coded = { coded_list (coded_list coded_ℕ) };

    ghost view = { λ s. s.ids.items };

    ghost invariant = { λ s. IsIdSet s.ids.items };
}

impl NodeSet {
    /// The empty set.
    pub fn new() -> NodeSet
        ensures { result ≡ [] }
    {
        NodeSet {
            ids: ArrayVec::new(),
        }
    }

    /// The set of these ids.
    pub fn of(ids: &[NodeId]) -> NodeSet
        requires { length ids.now ≤ most_ids }
        ensures value { result ≡ set_of ids.now }
        ensures few { length result ≤ length ids.now }
    {
        let mut set = NodeSet::new();
        for id in ids {
            set.put(*id);
        }
        set
    }

    /// The set that a text lists: ids that ascend, with `,` between them, or `_` for none. None where the text is no
    /// such list, or has more than [`MAX_IDS`] ids.
    pub fn parse(text: &str) -> Option<NodeSet>
        ensures { result ≡ listed_ids text.now }
    {
        NodeSet::from_bytes(text.as_bytes())
    }

    /// The set that the bytes of a text list, as [`NodeSet::parse`] reads it.
    pub fn from_bytes(text: &[u8]) -> Option<NodeSet>
        ensures { result ≡ listed_ids text.now }
    {
        if text == b"_".as_slice() {
            return Some(NodeSet::new());
        }
        read_ids(text)
    }

    /// How many ids are in the set.
    pub fn len(&self) -> usize
        ensures value { result ≡ length self.now }
        ensures fits { length self.now ≤ most_ids }
    {
        self.ids.len()
    }

    /// Whether the set has the id.
    pub fn contains(&self, id: NodeId) -> bool
        ensures { result ≡ has id self.now }
    {
        is_among(self.ids.as_slice(), id)
    }

    /// The ids, ascending.
    pub fn as_slice(&self) -> &[NodeId]
        ensures value { result.now ≡ self.now }
        ensures is_set { IsIdSet self.now }
    {
        self.ids.as_slice()
    }

    /// The id at a place, counted from 0, and None where the place is not below `len`.
    pub fn get(&self, i: usize) -> Option<NodeId>
        ensures { result ≡ slice_get self.now i }
    {
        self.ids.as_slice().get(i).copied()
    }

    /// Puts the id in, where it is not in yet. True where it is new. `Full` exactly where [`MAX_IDS`] others are
    /// in, and the set is then as before.
    pub fn insert(&mut self, id: NodeId) -> Result<bool, Full>
        ensures ok { OnOk result (self.new ≡ with_id id self.old) }
        ensures new { IfOk result (λ new. new ≡ not (has id self.old)) }
        ensures err { OnErr result (self.new ≡ self.old) }
        ensures full { IsErr result ↔ ((has id self.old ≡ false) × (length self.old ≡ most_ids)) }
    {
        let Some(place) = self.new_place(id) else {
            return Ok(false);
        };
        if self.ids.is_full() {
            return Err(Full);
        }
        // For the proof alone: an id has 1 to 32 bytes, and no others than those of ids.
        let _ = id.as_bytes();
        self.ids.insert(place, id);
        Ok(true)
    }

    // Where the id comes, and None where it is in. Ids often come in order, and the place of one that comes last needs no search.
    fn new_place(&self, id: NodeId) -> Option<usize>
        ensures place { IfSome result (λ place. (has id self.now ≡ false) × (place ≡ place_of id self.now)) }
        ensures within { IfSome result (λ place. place ≤ length self.now) }
        ensures none { result ≡ None → has id self.now ≡ true }
    {
        if self.contains(id) {
            return None;
        }
        if self.comes_last(id) {
            return Some(self.ids.len());
        }
        Some(place_among(self.ids.as_slice(), id))
    }

    /// Whether the id can be put in: true exactly where it is in, or where fewer than [`MAX_IDS`] are.
    pub fn has_room(&self, id: NodeId) -> bool
        ensures { result ≡ has_room_of self.now id }
    {
        self.contains(id) || self.ids.len() < MAX_IDS
    }

    /// Puts the id in, where it is not in yet and there is room for it.
    pub fn put(&mut self, id: NodeId)
        requires { IsTrue (has_room_of self.old id) }
        ensures { self.new ≡ with_id id self.old }
    {
        // There is room, or it is in already, so this is no error.
        let _ = self.insert(id);
    }

    /// Puts the id in, where it is not in yet and fewer than [`MAX_IDS`] are; else the set stays as it is.
    pub fn put_if_room(&mut self, id: NodeId)
        ensures { self.new ≡ with_room self.old id }
    {
        if self.ids.len() < MAX_IDS {
            self.put(id);
        }
    }

    /// Takes the id out. True where it was in.
    pub fn remove(&mut self, id: NodeId) -> bool
        ensures gone { self.new ≡ without_id id self.old }
        ensures was { result ≡ has id self.old }
    {
        if !self.contains(id) {
            return false;
        }
        let place = place_among(self.ids.as_slice(), id);
        self.ids.remove(place);
        true
    }

    /// Takes all ids out.
    pub fn clear(&mut self)
        ensures { self.new ≡ [] }
    {
        self.ids.clear();
    }

    /// Whether the id comes after all that are in.
    pub fn comes_last(&self, id: NodeId) -> bool
        ensures { result ≡ comes_after id self.now }
    {
        match self.ids.as_slice().last() {
            None => true,
            Some(last) => *last < id,
        }
    }

    /// Puts an id in that comes after all that are in.
    pub fn push(&mut self, id: NodeId)
        requires room { length self.old < most_ids }
        requires last { IsTrue (comes_after id self.old) }
        ensures { self.new ≡ self.old ++ id ∷ [] }
    {
        // For the proof alone: an id has 1 to 32 bytes, and no others than those of ids.
        let _ = id.as_bytes();
        self.ids.push(id);
    }

    /// Those of the ids that the others have too.
    pub fn within(&self, others: &NodeSet) -> NodeSet
        ensures { result ≡ among self.now others.now }
    {
        ids_within(self.as_slice(), others)
    }

    /// Those of the ids that the others do not have.
    pub fn without(&self, others: &NodeSet) -> NodeSet
        ensures { result ≡ outside self.now others.now }
    {
        ids_without(self.as_slice(), others)
    }

    /// Whether the others have one of the ids.
    pub fn meets(&self, others: &NodeSet) -> bool
        ensures { result ≡ some_among self.now others.now }
    {
        self.as_slice().iter().any(|id| others.contains(*id))
    }

    /// Whether the set has all of the others.
    pub fn has_all(&self, others: &NodeSet) -> bool
        ensures { result ≡ are_among self.now others.now }
    {
        others.as_slice().iter().all(|id| self.contains(*id))
    }

    /// The ids of both sets, which are few enough for a set: `union_count` tells.
    pub fn union(&self, others: &NodeSet) -> NodeSet
        requires { union_count_of others.now self.now ≤ most_ids }
        ensures { result ≡ union_of self.now others.now }
    {
        let mut both = self.copy();
        let ids = others.as_slice();
        for id in ids {
            both.put(*id);
        }
        both
    }

    /// How many ids are in one of the two sets.
    pub fn union_count(&self, other: &NodeSet) -> usize
        ensures { result ≡ union_count_of self.now other.now }
    {
        other.len()
            + self
                .ids
                .as_slice()
                .iter()
                .filter(|id| !other.contains(**id))
                .count()
    }

    // Makes it the set of these ids, in its place.
    pub(crate) fn copy_from_slice(&mut self, ids: &[NodeId])
        requires { IsIdSet ids.now }
        ensures { self.new ≡ ids.now }
    {
        self.ids.clear();
        // There is as much room as in a set, so this is no error.
        let _ = self.ids.try_extend_from_slice(ids);
    }

    /// Makes the set the same as the other, in its place.
    pub fn copy_from(&mut self, other: &NodeSet)
        ensures { self.new ≡ other.now }
    {
        self.copy_from_slice(other.as_slice());
    }

    /// The same set once more.
    pub fn copy(&self) -> NodeSet
        ensures { result ≡ self.now }
    {
        let mut copy = NodeSet::new();
        // There is as much room as in the original, so this is no error.
        let _ = copy.ids.try_extend_from_slice(self.ids.as_slice());
        copy
    }
}

fn place_among(ids: &[NodeId], id: NodeId) -> usize
    ensures value { result ≡ place_of id ids.now }
    ensures within { result ≤ length ids.now }
{
    let mut place = 0;
    while place < ids.len() && ids[place] < id {
        place += 1;
    }
    place
}
