//! `IdList`: a set of ids that takes memory for those alone that are in it.
ghost use Rattle.std.specs.Prelude.{◌≡◌, ◌≤◌, ◌↔◌, [], length, IfOk, IsTrue};
ghost use Rattle.voting_config.specs.Ids.{among, has, is_quorum_of, most_ids, outside, same_config, some_among, IsIdSet};

use crate::ids::{are_same, ids_within, ids_without, is_among, is_quorum};
use crate::node_id::NodeId;
use crate::node_set::NodeSet;
use std::alloc::{AllocError, Global};
use std::marker::Model;

/// A set of ids that takes memory for those alone that are in it, as what is kept for long holds them: the configurations, members and
/// exclusions of a cluster state, and the ids of messages and lines. Contracts see the ascending list of them.
#[derive(Drop)]
pub struct IdList {
    ids: Vec<NodeId>,
}

impl Model for IdList {
    ghost use Rattle.std.specs.Prelude.{List};
    ghost use Rattle.voting_config.specs.Ids.{Id, IsIdSet};
    ghost use Rattle.std.specs.Coded.{coded_list, coded_ℕ};

    ghost Value = { List Id };

    ghost coded = { coded_list (coded_list coded_ℕ) };

    ghost view = { λ l. l.ids.items };

    ghost invariant = { λ l. IsIdSet l.ids.items };
}

impl IdList {
    /// No ids. It takes no memory.
    pub fn new(alloc: Global) -> IdList
        ensures { result ≡ [] }
    {
        IdList {
            ids: Vec::new(alloc),
        }
    }

    /// The ids of a set.
    pub fn of(alloc: Global, ids: &NodeSet) -> Result<IdList, AllocError>
        ensures { IfOk result (λ l. l ≡ ids.now) }
    {
        IdList::of_slice(alloc, ids.as_slice())
    }

    // The same, of ids that are a set.
    fn of_slice(alloc: Global, ids: &[NodeId]) -> Result<IdList, AllocError>
        requires { IsIdSet ids.now }
        ensures { IfOk result (λ l. l ≡ ids.now) }
    {
        let ids = Vec::from_slice(alloc, ids)?;
        Ok(IdList { ids })
    }

    /// The same set once more.
    pub fn copy(&self) -> Result<IdList, AllocError>
        ensures { IfOk result (λ l. l ≡ self.now) }
    {
        IdList::of_slice(*self.ids.allocator(), self.as_slice())
    }

    /// How many ids are in the set.
    pub fn len(&self) -> usize
        ensures value { result ≡ length self.now }
        ensures fits { length self.now ≤ most_ids }
    {
        self.ids.len()
    }

    /// Whether there is no id.
    pub fn is_empty(&self) -> bool
        ensures { IsTrue result ↔ (self.now ≡ []) }
    {
        self.ids.len() == 0
    }

    /// Whether the set has the id.
    pub fn contains(&self, id: NodeId) -> bool
        ensures { result ≡ has id self.now }
    {
        is_among(self.ids.as_slice(), id)
    }

    /// The ids, ascending.
    pub fn as_slice(&self) -> &[NodeId]
        ensures value { result.now ≡ self.now }
        ensures is_set { IsIdSet self.now }
    {
        self.ids.as_slice()
    }

    /// Whether the two are the same ids.
    pub fn is_same(&self, other: &IdList) -> bool
        ensures { result ≡ same_config self.now other.now }
    {
        are_same(self.as_slice(), other.as_slice())
    }

    /// Whether the votes are a quorum of the configuration of these ids, as [`VotingConfig::is_quorum`](crate::VotingConfig::is_quorum)
    /// has it.
    pub fn is_quorum(&self, votes: &NodeSet) -> bool
        ensures { result ≡ is_quorum_of self.now votes.now }
    {
        is_quorum(self.as_slice(), votes)
    }

    /// Those of the ids that the others have too.
    pub fn within(&self, others: &NodeSet) -> NodeSet
        ensures { result ≡ among self.now others.now }
    {
        ids_within(self.as_slice(), others)
    }

    /// Those of the ids that the others do not have.
    pub fn without(&self, others: &NodeSet) -> NodeSet
        ensures { result ≡ outside self.now others.now }
    {
        ids_without(self.as_slice(), others)
    }

    /// Whether the others have one of the ids.
    pub fn meets(&self, others: &IdList) -> bool
        ensures { result ≡ some_among self.now others.now }
    {
        self.as_slice().iter().any(|id| others.contains(*id))
    }

    /// The ids as a set in place.
    pub fn to_set(&self) -> NodeSet
        ensures { result ≡ self.now }
    {
        let mut set = NodeSet::new();
        set.copy_from_slice(self.as_slice());
        set
    }
}

/// Room for a set of ids, taken before it is known which. Contracts see for how many.
#[derive(Drop)]
pub struct IdRoom {
    ids: Vec<NodeId>,
}

impl Model for IdRoom {
    ghost use Rattle.std.specs.Prelude.{ℕ, ◌≡◌, [], vec_len, vec_capacity};

    ghost Value = { ℕ };

    ghost view = { λ r. vec_capacity r.ids };

    ghost invariant = { λ r. (r.ids.items ≡ []) × (vec_len r.ids ≡ 0) };
}

impl IdRoom {
    /// Room for so many ids.
    pub fn of(alloc: Global, room: usize) -> Result<IdRoom, AllocError>
        ensures { IfOk result (λ r. r ≡ room) }
    {
        let ids = Vec::with_capacity(alloc, room)?;
        Ok(IdRoom { ids })
    }

    /// The ids of a set, for which there is room.
    pub fn fill(self, set: &NodeSet) -> IdList
        requires { length set.now ≤ self }
        ensures { result ≡ set.now }
    {
        let IdRoom { mut ids } = self;
        match ids.extend_from_slice(set.as_slice()) {
            Ok(()) => IdList { ids },
            Err(_) => unreachable!(),
        }
    }
}
