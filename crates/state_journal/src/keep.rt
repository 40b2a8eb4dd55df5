//! How a body is kept: it is appended to the side in use, or the record with it begins a generation on the other side.
ghost use Rattle.std.specs.Prelude.{◌≡◌, ◌+◌, ◌-◌, ◌<◌, ◌≤◌, ◌^◌, true, false, ◌&&◌, not, ℕ, List, ◌∷◌, length, is_ok, IsErr, IsErrOf, OnOk, IfSome, min};
ghost use Rattle.cluster_state.specs.Fields.{ids};
ghost use Rattle.cluster_state.specs.declared.state.ClusterState.{ClusterState};
ghost use Rattle.gate_log.specs.Calls.{renewal_calls};
ghost use Rattle.gate_log.specs.Generations.{standing_in, is_generation, renewed, IsRenewed, last_epoch};
ghost use Rattle.gate_log.specs.Journal.{framed, most_body};
ghost use Rattle.gate_log.specs.Place.{place, renews};
ghost use Rattle.sha2.specs.Sha256.{sha256};
ghost use Rattle.state_journal.specs.Bodies.{body_of};
ghost use Rattle.state_journal.specs.Drafts.{IsDraft};
ghost use Rattle.state_journal.specs.Keeping.{generation_after, record_with, writing_calls, written_in, IsWritten};
ghost use Rattle.state_journal.specs.declared.change.Change.TheVariants as change;
ghost use Rattle.voting_config.specs.Ids.{most_ids, IsIdSet};
ghost use Rattle.zen_disk.specs.Faults.{Rose};
ghost use Rattle.zen_disk.specs.Moments.{LeavesOnly};
ghost use Rattle.zen_disk.specs.Runs.{CallsMade};
ghost use Rattle.zen_disk.specs.Sides.{other};

use crate::draft::Draft;
use gate_log::{AppendError, GateLog, LAST_EPOCH};
use voting_config::NodeId;
use zen_disk::Disks;

// How many bytes the bodies after a generation take at most.
const MAX_TAIL: u64 = 65_536;

// Whether a body of this length begins a generation, which may be due.
fn begins<D: Disks>(log: &GateLog<D>, due: bool, len: usize) -> bool
    requires { len ≤ most_body }
    ensures { (body : List ℕ) → length body ≡ len → result ≡ renews due (place log.now) body }
{
    (due || MAX_TAIL < log.tail() + 5 + len as u64) && log.epoch() < LAST_EPOCH
}

// How many bodies are in use, and whether a generation is due.
#[derive(Clone, Copy)]
pub(crate) struct Usage {
    pub records: u64,
    pub due: bool,
}

// The usage after a body of this length is kept, where so many were in use, and a generation may be due.
pub(crate) fn usage_after<D: Disks>(log: &GateLog<D>, due: bool, records: u64, len: usize) -> Usage
    requires { len ≤ most_body }
    ensures one { (body : List ℕ) → length body ≡ len → renews due (place log.now) body ≡ true → result.records ≡ 1 }
    ensures more { (body : List ℕ) → length body ≡ len → renews due (place log.now) body ≡ false
        → result.records ≡ min (records + 1) (2 ^ 64 - 1) }
    ensures due { (body : List ℕ) → length body ≡ len → result.due ≡ (due && not (renews due (place log.now) body)) }
{
    if begins(log, due, len) {
        return Usage {
            records: 1,
            due: false,
        };
    }
    Usage {
        records: records.saturating_add(1),
        due,
    }
}

// Begins the next generation with the record of this term, the draft's state and this committed configuration.
fn begin<D: Disks>(
    log: &mut GateLog<D>,
    draft: &mut Draft,
    term: u64,
    committed: &[NodeId],
) -> Result<(), AppendError>
    requires runs { log.old.stopped ≡ false }
    requires next { log.old.epoch < last_epoch }
    requires drafted { (s : ClusterState) × IsDraft s draft.old }
    requires set { IsIdSet committed.now }
    ensures ok { D.told → (s : ClusterState) → IsDraft s draft.old
        → let body = generation_after (place log.old) (record_with term s committed.now) in
        OnOk result (standing_in (D.seen log.new.disk) ≡ renewed (standing_in (D.seen log.old.disk)) body) }
    ensures only { IsErr result → IsErrOf result AppendError.Disk }
    ensures cause { IsErrOf result AppendError.Disk → Rose (D.faults log.old.disk) (D.faults log.new.disk) }
    ensures later { D.faults log.old.disk ≤ D.faults log.new.disk }
    ensures stops { IsErrOf result AppendError.Disk → log.new.stopped ≡ true }
    ensures goes_on { OnOk result (log.new.stopped ≡ false) }
    ensures any_moment { D.told → (s : ClusterState) → IsDraft s draft.old
        → let body = generation_after (place log.old) (record_with term s committed.now) in
        LeavesOnly D.moment D.left_since log.old.disk log.new.disk (IsRenewed (standing_in (D.seen log.old.disk)) body) }
    ensures ran { (s : ClusterState) → IsDraft s draft.old
        → let body = generation_after (place log.old) (record_with term s committed.now) in
        CallsMade D.moves (renewal_calls (other log.old.side) log.old.other_gate (framed body)) log.old.disk log.new.disk (is_ok result) }
    ensures fits { (ids most_ids).Fits committed.now }
    ensures same { draft.new.state ≡ draft.old.state }
{
    draft.lay_generation(log.epoch() + 1, term, committed);
    log.renew(draft.frame())
}

// Keeps a short body, where the record with it has this term, the draft's state and this committed configuration.
pub(crate) fn keep_small<D: Disks>(
    log: &mut GateLog<D>,
    draft: &mut Draft,
    due: bool,
    body: &[u8],
    term: u64,
    committed: &[NodeId],
) -> Result<(), AppendError>
    requires runs { log.old.stopped ≡ false }
    requires small { length body.now ≤ 64 }
    requires plain { is_generation body.now ≡ false }
    requires drafted { (s : ClusterState) × IsDraft s draft.old }
    requires set { IsIdSet committed.now }
    ensures ok { D.told → (s : ClusterState) → IsDraft s draft.old
        → let p = place log.old in let next = record_with term s committed.now in
        OnOk result (standing_in (D.seen log.new.disk)
        ≡ written_in (renews due p body.now) (standing_in (D.seen log.old.disk)) body.now (generation_after p next)) }
    ensures only { IsErr result → IsErrOf result AppendError.Disk }
    ensures cause { IsErrOf result AppendError.Disk → Rose (D.faults log.old.disk) (D.faults log.new.disk) }
    ensures later { D.faults log.old.disk ≤ D.faults log.new.disk }
    ensures stops { IsErrOf result AppendError.Disk → log.new.stopped ≡ true }
    ensures goes_on { OnOk result (log.new.stopped ≡ false) }
    ensures any_moment { D.told → (s : ClusterState) → IsDraft s draft.old
        → let p = place log.old in let next = record_with term s committed.now in
        LeavesOnly D.moment D.left_since log.old.disk log.new.disk
        (IsWritten (renews due p body.now) (standing_in (D.seen log.old.disk)) body.now (generation_after p next)) }
    ensures ran { (s : ClusterState) → IsDraft s draft.old
        → let p = place log.old in let next = record_with term s committed.now in
        CallsMade D.moves (writing_calls (renews due p body.now) p body.now (generation_after p next)) log.old.disk log.new.disk
        (is_ok result) }
    ensures fits { renews due (place log.old) body.now ≡ true → (ids most_ids).Fits committed.now }
    ensures same { draft.new.state ≡ draft.old.state }
{
    if begins(log, due, body.len()) {
        return begin(log, draft, term, committed);
    }
    log.append_small(body)
}

// Keeps the draft's state as the accepted one, with the committed configuration that it carries. The digest of its body may be known
// already.
pub(crate) fn keep_state<D: Disks>(
    log: &mut GateLog<D>,
    draft: &mut Draft,
    due: bool,
    term: u64,
    committed: &[NodeId],
    known: Option<[u8; 32]>,
) -> Result<(), AppendError>
    requires runs { log.old.stopped ≡ false }
    requires drafted { (s : ClusterState) × IsDraft s draft.old }
    requires set { IsIdSet committed.now }
    requires known { IfSome known (λ digest. digest ≡ sha256 (130 ∷ draft.old.state)) }
    ensures ok { D.told → (s : ClusterState) → IsDraft s draft.old
        → let p = place log.old in let body = body_of (change.Accepted s) in let next = record_with term s committed.now in
        OnOk result (standing_in (D.seen log.new.disk)
        ≡ written_in (renews due p body) (standing_in (D.seen log.old.disk)) body (generation_after p next)) }
    ensures only { IsErr result → IsErrOf result AppendError.Disk }
    ensures cause { IsErrOf result AppendError.Disk → Rose (D.faults log.old.disk) (D.faults log.new.disk) }
    ensures later { D.faults log.old.disk ≤ D.faults log.new.disk }
    ensures stops { IsErrOf result AppendError.Disk → log.new.stopped ≡ true }
    ensures goes_on { OnOk result (log.new.stopped ≡ false) }
    ensures any_moment { D.told → (s : ClusterState) → IsDraft s draft.old
        → let p = place log.old in let body = body_of (change.Accepted s) in let next = record_with term s committed.now in
        LeavesOnly D.moment D.left_since log.old.disk log.new.disk
        (IsWritten (renews due p body) (standing_in (D.seen log.old.disk)) body (generation_after p next)) }
    ensures ran { (s : ClusterState) → IsDraft s draft.old
        → let p = place log.old in let body = body_of (change.Accepted s) in let next = record_with term s committed.now in
        CallsMade D.moves (writing_calls (renews due p body) p body (generation_after p next)) log.old.disk log.new.disk
        (is_ok result) }
    ensures same { draft.new.state ≡ draft.old.state }
{
    if begins(log, due, draft.len() + 33) {
        return begin(log, draft, term, committed);
    }
    draft.lay_accepted(known);
    log.append_framed(draft.frame())
}
