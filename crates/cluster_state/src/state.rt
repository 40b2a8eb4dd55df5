//! Cluster states, their ids and values, and what a node keeps durably.
ghost use Rattle.std.specs.Prelude.{◌≡◌, IfOk};

use crate::settings::Settings;
use crate::shared::SharedState;
use std::alloc::{AllocError, Global};
use voting_config::{IdList, NodeId, NodeSet, VotingConfig};

/// What the nodes agree on.
#[derive(Drop)]
pub struct ClusterValue {
    pub master: Option<NodeId>,
    pub members: IdList,
    pub exclusions: IdList,
    pub settings: Settings,
}

/// A term and a version, in lexicographic order.
#[derive(Clone, Copy, PartialEq, Eq, PartialOrd, Ord)]
pub struct StateId {
    pub term: u64,
    pub version: u64,
}

impl StateId {
    ghost use Rattle.cluster_state.specs.StateIds.{is_fresher as is_fresher_of, is_above_parent as is_above_parent_of, is_reached, is_same_state};

    /// Whether the id is above the other.
    pub fn is_fresher(self, other: StateId) -> bool
        ensures { result ≡ is_fresher_of self other }
    {
        self > other
    }

    /// Whether the id is above that of the parent, where there is one.
    pub fn is_above_parent(self, parent: Option<StateId>) -> bool
        ensures { result ≡ is_above_parent_of self parent }
    {
        match parent {
            None => true,
            Some(parent) => self.is_fresher(parent),
        }
    }

    /// Whether the other is this id or above it.
    pub fn is_reached_by(self, other: StateId) -> bool
        ensures { result ≡ is_reached self other }
    {
        self <= other
    }

    /// Whether the two ids are the same.
    pub fn is_same(self, other: StateId) -> bool
        ensures { result ≡ is_same_state self other }
    {
        self == other
    }
}

/// The greatest term and the greatest version: 2^62.
pub const LAST_NUMBER: u64 = 1 << 62;

/// A cluster state: its id, the id of the state that it was made from, the voting configuration, the committed
/// configuration as the publisher knew it, and the value that the nodes agree on. Its sets take what they hold, since states are kept.
#[derive(Drop)]
pub struct ClusterState {
    pub term: u64,
    pub version: u64,
    /// The id of the state that the publisher had accepted. A state that was not published has none.
    pub parent: Option<StateId>,
    pub config: IdList,
    pub committed: IdList,
    pub value: ClusterValue,
}

/// What a node keeps durably: its current term, its last accepted state, and the committed configuration.
#[derive(Drop)]
pub struct Kept {
    pub term: u64,
    pub accepted: SharedState,
    pub committed: VotingConfig,
}

impl ClusterValue {
    ghost use Rattle.cluster_state.specs.Initial.{empty_value};
    ghost use Rattle.cluster_state.specs.Same.{same_value};

    /// The empty value: no master, no members, no exclusions, no settings.
    pub fn empty(alloc: Global) -> ClusterValue
        ensures { result ≡ empty_value }
    {
        ClusterValue {
            master: None,
            members: IdList::new(alloc),
            exclusions: IdList::new(alloc),
            settings: Settings::new(alloc),
        }
    }

    /// Whether the two are the same value.
    pub fn is_same(&self, other: &ClusterValue) -> bool
        ensures { result ≡ same_value self.now other.now }
    {
        self.master == other.master
            && self.members.is_same(&other.members)
            && self.exclusions.is_same(&other.exclusions)
            && self.settings.is_same(&other.settings)
    }

    /// The same value once more.
    pub fn copy(&self) -> Result<ClusterValue, AllocError>
        ensures { IfOk result (λ v. v ≡ self.now) }
    {
        Ok(ClusterValue {
            master: self.master,
            members: self.members.copy()?,
            exclusions: self.exclusions.copy()?,
            settings: self.settings.copy()?,
        })
    }
}

impl Kept {
    ghost use Rattle.cluster_state.specs.Initial.{empty_record};

    /// What a node keeps that has done nothing yet: term 0 and the empty state.
    pub fn empty(alloc: Global) -> Result<Kept, AllocError>
        ensures { IfOk result (λ kept. kept ≡ empty_record) }
    {
        let accepted = SharedState::of(alloc, ClusterState::initial(alloc, &NodeSet::new())?)?;
        Ok(Kept {
            term: 0,
            accepted,
            committed: VotingConfig::of(&NodeSet::new()),
        })
    }

    /// Takes a state as the accepted one, with the committed configuration that it carries.
    pub fn accept(&mut self, state: SharedState)
        ensures { self.new ≡ record (self.old) { accepted = state; committed = state.committed } }
    {
        self.committed.copy_from(&state.committed);
        self.accepted = state;
    }

    /// Takes the configuration of the accepted state as the committed one.
    pub fn commit(&mut self)
        ensures { self.new ≡ record (self.old) { committed = self.old.accepted.config } }
    {
        self.committed.copy_from(&self.accepted.config);
    }
}

impl ClusterState {
    ghost use Rattle.cluster_state.specs.Initial.{initial_state};
    ghost use Rattle.cluster_state.specs.States.{id_of};

    /// The state 0/0 that a bootstrap with this configuration makes the accepted one.
    pub fn initial(alloc: Global, config: &NodeSet) -> Result<ClusterState, AllocError>
        ensures { IfOk result (λ s. s ≡ initial_state config.now) }
    {
        let committed = IdList::of(alloc, config)?;
        let config = committed.copy()?;
        Ok(ClusterState {
            term: 0,
            version: 0,
            parent: None,
            config,
            committed,
            value: ClusterValue::empty(alloc),
        })
    }

    /// The state's term and version.
    pub fn id(&self) -> StateId
        ensures { result ≡ id_of self.now }
    {
        StateId {
            term: self.term,
            version: self.version,
        }
    }

    /// The same state once more.
    pub fn copy(&self) -> Result<ClusterState, AllocError>
        ensures { IfOk result (λ s. s ≡ self.now) }
    {
        Ok(ClusterState {
            term: self.term,
            version: self.version,
            parent: self.parent,
            config: self.config.copy()?,
            committed: self.committed.copy()?,
            value: self.value.copy()?,
        })
    }
}
