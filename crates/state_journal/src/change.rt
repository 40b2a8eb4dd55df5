//! The changes of a record, and what a generation begins with.
use cluster_state::SharedState;
use std::marker::Model;
use voting_config::IdList;

/// What a generation of the journal begins with: its epoch, and the record so far. The committed configuration takes what it holds, so that
/// a change stays small. Contracts see the epoch and the record.
#[derive(Drop)]
pub struct Generation {
    pub epoch: u64,
    pub term: u64,
    pub accepted: SharedState,
    pub committed: IdList,
}

impl Model for Generation {
    ghost use Rattle.state_journal.specs.Generations.{Generation as Begun};

    ghost Value = { Begun };

    ghost view = { λ g. record { epoch = g.epoch; kept = record { term = g.term; accepted = g.accepted; committed = g.committed } } };
}

/// A change of what a node keeps. Each is a body of a node's journal.
#[derive(Drop)]
pub enum Change {
    /// A greater term.
    Term(u64),
    /// A state that is accepted, with the committed configuration that it carries.
    Accepted(SharedState),
    /// The accepted configuration is committed.
    Committed,
    /// The whole record: the first body of a generation.
    Renewed(Generation),
}
