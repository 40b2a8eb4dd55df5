//! The two tools, over what keeps the record of a node.
ghost use Rattle.std.specs.Prelude.{◌≡◌, ◌<◌, ◌≤◌, false, None, IfOk};
ghost use Rattle.cluster_state.specs.Field.{last_number};
ghost use Rattle.cluster_state.specs.Initial.{empty_state};
ghost use Rattle.cluster_state.specs.States.{IsFit};
ghost use Rattle.zen_disk.specs.Moments.{LeavesOnly};
ghost use Rattle.state_journal.specs.Changes.{changed, IsEither};
ghost use Rattle.state_journal.specs.declared.change.Change.TheVariants as change;
ghost use Rattle.node_tool.specs.Tools.{state_alone, record_alone, record_detached, alone_refusal, detach_refusal, made_by, state_by, refusal_of};
ghost use Rattle.node_tool.specs.Ends.{ToolEnds, ToolWrites};

use crate::ToolError;
use cluster_state::{ClusterState, ClusterValue, Kept, LAST_NUMBER, SharedState};
use state_journal::{KeepError, Keeper, Ready};
use std::alloc::{AllocError, Global};
use voting_config::{IdList, NodeId, NodeSet};

/// A tool, with what it is given.
#[derive(Clone, Copy)]
pub enum Tool {
    /// The node of this id is to go on alone.
    UnsafeBootstrap(NodeId),
    /// The node is to leave its cluster.
    DetachCluster,
}

// The state with which the node of this id goes on alone, ready to be kept.
fn ready_alone(alloc: Global, id: NodeId, kept: &Kept) -> Result<Ready, AllocError>
    requires next { kept.now.accepted.version < last_number }
    requires bounded { kept.now.term ≤ last_number }
    requires older { kept.now.accepted.term ≤ kept.now.term }
    requires fit { IsFit kept.now.accepted }
    ensures { IfOk result (λ r. r.state ≡ state_alone id kept.now) }
{
    let accepted = &kept.accepted;
    let settings = accepted.value.settings.copy()?;
    let only = IdList::of(alloc, &NodeSet::of(&[id]))?;
    let state = ClusterState {
        term: kept.term,
        version: accepted.version + 1,
        parent: Some(accepted.id()),
        config: only.copy()?,
        committed: only.copy()?,
        value: ClusterValue {
            master: None,
            members: only,
            exclusions: IdList::new(alloc),
            settings,
        },
    };
    let state = SharedState::of(alloc, state)?;
    Ready::of(alloc, &state)
}

// Keeps a state that was made ready.
fn keep<K: Keeper>(journal: &mut K, ready: Ready) -> Result<(), ToolError>
    requires older { ready.state.term ≤ (K.record_of journal.old).term }
    requires runs { K.has_stopped journal.old ≡ false }
    ensures ends { ToolEnds K.Keeper None (changed (K.record_of journal.old) (change.Accepted ready.state)) journal.old journal.new result }
    ensures later { K.faults journal.old ≤ K.faults journal.new }
    ensures any_moment { K.told
        → LeavesOnly K.moment K.left_since journal.old journal.new
        (IsEither (K.record_of journal.old) (changed (K.record_of journal.old) (change.Accepted ready.state))) }
    ensures wrote { ToolWrites K.Keeper ready.state journal.old journal.new result }
{
    match journal.set_accepted(ready) {
        Ok(()) => Ok(()),
        Err(KeepError::Stopped) => Err(ToolError::Stopped),
        Err(KeepError::Disk) => Err(ToolError::Disk),
    }
}

/// Makes the node of this id the only voter of a new cluster, which goes on from what the node has accepted: it accepts the next
/// state after its own, in its term, with itself as the only voter and the only member, and with the settings that it had.
///
/// `NoState` exactly where its accepted configuration is empty, else `Exhausted` exactly where its accepted version is 2^62,
/// else `Stopped` exactly after a call of the journal that answered Disk; `Memory` before anything is written, and `Disk` only
/// where the count of faults rose in this call. At an error the record is as before.
pub fn unsafe_bootstrap<K: Keeper>(
    alloc: Global,
    id: NodeId,
    journal: &mut K,
) -> Result<(), ToolError>
    ensures ends { ToolEnds K.Keeper (alone_refusal (K.record_of journal.old)) (record_alone id (K.record_of journal.old)) journal.old
        journal.new result }
    ensures later { K.faults journal.old ≤ K.faults journal.new }

    // A crash at any moment leaves the old record or the new one.
    ensures any_moment { K.told
        → LeavesOnly K.moment K.left_since journal.old journal.new
        (IsEither (K.record_of journal.old) (record_alone id (K.record_of journal.old))) }
    ensures wrote { ToolWrites K.Keeper (state_alone id (K.record_of journal.old)) journal.old journal.new result }
{
    let kept = journal.kept();
    if kept.accepted.config.is_empty() {
        return Err(ToolError::NoState);
    }
    let version = kept.accepted.version;
    if version == LAST_NUMBER {
        return Err(ToolError::Exhausted(version));
    }
    if journal.stopped() {
        return Err(ToolError::Stopped);
    }
    let Ok(ready) = ready_alone(alloc, id, journal.kept()) else {
        return Err(ToolError::Memory);
    };
    keep(journal, ready)
}

/// Takes the node out of its cluster, so that it can join another one: it accepts the empty state. Its term stays.
///
/// `NoState` exactly where its accepted configuration is empty, else `Stopped` exactly after a call of the journal that answered
/// Disk; `Memory` before anything is written, and `Disk` only where the count of faults rose in this call. At an error the
/// record is as before.
pub fn detach_cluster<K: Keeper>(alloc: Global, journal: &mut K) -> Result<(), ToolError>
    ensures ends { ToolEnds K.Keeper (detach_refusal (K.record_of journal.old)) (record_detached (K.record_of journal.old)) journal.old
        journal.new result }
    ensures later { K.faults journal.old ≤ K.faults journal.new }

    // A crash at any moment leaves the old record or the new one.
    ensures any_moment { K.told
        → LeavesOnly K.moment K.left_since journal.old journal.new
        (IsEither (K.record_of journal.old) (record_detached (K.record_of journal.old))) }
    ensures wrote { ToolWrites K.Keeper empty_state journal.old journal.new result }
{
    if journal.kept().accepted.config.is_empty() {
        return Err(ToolError::NoState);
    }
    if journal.stopped() {
        return Err(ToolError::Stopped);
    }
    let Ok(ready) = Ready::initial(alloc, &NodeSet::new()) else {
        return Err(ToolError::Memory);
    };
    keep(journal, ready)
}

impl Tool {
    /// Uses the tool.
    pub fn apply<K: Keeper>(self, alloc: Global, journal: &mut K) -> Result<(), ToolError>
        ensures ends { ToolEnds K.Keeper (refusal_of self (K.record_of journal.old)) (made_by self (K.record_of journal.old)) journal.old
            journal.new result }
        ensures later { K.faults journal.old ≤ K.faults journal.new }
        ensures any_moment { K.told
            → LeavesOnly K.moment K.left_since journal.old journal.new
            (IsEither (K.record_of journal.old) (made_by self (K.record_of journal.old))) }
        ensures wrote { ToolWrites K.Keeper (state_by self (K.record_of journal.old)) journal.old journal.new result }
    {
        match self {
            Tool::UnsafeBootstrap(id) => unsafe_bootstrap(alloc, id, journal),
            Tool::DetachCluster => detach_cluster(alloc, journal),
        }
    }
}
