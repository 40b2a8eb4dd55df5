//! The trait `Keeper`: what keeps a node's record, and what a crash inside a write leaves.
ghost use Rattle.std.specs.Prelude.{◌≡◌, ℕ, ◌<◌, ◌≤◌, Bool, true, false, is_ok, Option, Some};
ghost use Rattle.cluster_state.specs.Field.{last_number};
ghost use Rattle.zen_disk.specs.Moments.{LeavesOnly};
ghost use Rattle.cluster_state.specs.States.{IsFit};
ghost use Rattle.cluster_state.specs.declared.state.Kept.{Kept as Record};
ghost use Rattle.state_journal.specs.Changes.{changed, IsEither};
ghost use Rattle.state_journal.specs.Writes.{WriteEnds};
ghost use Rattle.state_journal.specs.declared.change.Change.{Change};
ghost use Rattle.state_journal.specs.declared.change.Change.TheVariants as change;

use crate::Ready;
use cluster_state::Kept;

/// Why a keeper did not write.
#[derive(Clone, Copy, Debug, PartialEq, Eq, thiserror::Error)]
pub enum KeepError {
    #[error("an earlier write met a fault of the disk")]
    Stopped,
    #[error("the disk failed")]
    Disk,
}

/// What keeps a node's record: at a crash inside a call the record from before it or the one that its `Ok` keeps, after
/// `Ok` the latter. No call takes memory.
pub trait Keeper {
    /// Whether it tells what a crash leaves. One over a real file does not.
    ghost told: { Type 0 };

    /// What is kept.
    ghost record_of: { Self → Record };

    /// Whether a call has answered Disk.
    ghost has_stopped: { Self → Bool };

    /// How many faults there were.
    ghost faults: { Self → ℕ };

    /// The moment, as a number that doesn't fall.
    ghost moment: { Self → ℕ };

    /// What a crash at some moment from that one on might have left: the record that an opening finds, or none where it
    /// finds no journal.
    ghost left_since: { Self → ℕ → Option Record → Type 0 };

    /// Whether writing this change with this answer leads from one to the other, as far as that is told.
    ghost writes: { Self → Change → Self → Bool → Type 0 };

    /// What is kept: a term of at most 2^62, and a state within the limits and of no greater term.
    fn kept(&self) -> &Kept
        ensures kept { result.now ≡ record_of self.now }
        ensures bounded { (record_of self.now).term ≤ last_number }
        ensures fit { IsFit (record_of self.now).accepted }
        ensures older { (record_of self.now).accepted.term ≤ (record_of self.now).term };

    /// Whether a call has answered Disk.
    fn stopped(&self) -> bool
        ensures { result ≡ has_stopped self.now };

    /// Keeps a greater term. `Stopped` exactly after a call that answered Disk, and `Disk` only where the count of faults
    /// rose in this call; the record is then as before.
    fn set_term(&mut self, term: u64) -> Result<(), KeepError>
        requires above { (record_of self.old).term < term }
        requires fits { term ≤ last_number }
        ensures ends { WriteEnds (has_stopped self.old) (record_of self.old) (changed (record_of self.old) (change.Term term))
            (faults self.old) (faults self.new) (has_stopped self.new) (record_of self.new) result }
        ensures later { faults self.old ≤ faults self.new }
        ensures any_moment { told → has_stopped self.old ≡ false
            → LeavesOnly moment left_since self.old self.new
            (IsEither (record_of self.old) (changed (record_of self.old) (change.Term term))) }
        ensures written { has_stopped self.old ≡ false → writes self.old (change.Term term) self.new (is_ok result) }
        ensures unchanged { has_stopped self.old ≡ true → self.new ≡ self.old };

    /// Keeps a state as the accepted one, and the committed configuration that it carries. Refused as `set_term` is.
    fn set_accepted(&mut self, ready: Ready) -> Result<(), KeepError>
        requires { ready.state.term ≤ (record_of self.old).term }
        ensures ends { WriteEnds (has_stopped self.old) (record_of self.old) (changed (record_of self.old) (change.Accepted ready.state))
            (faults self.old) (faults self.new) (has_stopped self.new) (record_of self.new) result }
        ensures later { faults self.old ≤ faults self.new }
        ensures any_moment { told → has_stopped self.old ≡ false
            → LeavesOnly moment left_since self.old self.new
            (IsEither (record_of self.old) (changed (record_of self.old) (change.Accepted ready.state))) }
        ensures written { has_stopped self.old ≡ false → writes self.old (change.Accepted ready.state) self.new (is_ok result) }
        ensures unchanged { has_stopped self.old ≡ true → self.new ≡ self.old };

    /// Keeps the accepted configuration as the committed one, also where that changes nothing. Refused as `set_term` is.
    fn mark_committed(&mut self) -> Result<(), KeepError>
        ensures ends { WriteEnds (has_stopped self.old) (record_of self.old) (changed (record_of self.old) change.Committed)
            (faults self.old) (faults self.new) (has_stopped self.new) (record_of self.new) result }
        ensures later { faults self.old ≤ faults self.new }
        ensures any_moment { told → has_stopped self.old ≡ false
            → LeavesOnly moment left_since self.old self.new
            (IsEither (record_of self.old) (changed (record_of self.old) change.Committed)) }
        ensures written { has_stopped self.old ≡ false → writes self.old change.Committed self.new (is_ok result) }
        ensures unchanged { has_stopped self.old ≡ true → self.new ≡ self.old };

    /// Between two calls a crash leaves the record.
    ghost only_kept: { (k : Self) (found : Option Record) → told → has_stopped k ≡ false → left_since k (moment k) found
        → found ≡ Some (record_of k) };

    /// While it runs, the record is among what a crash since any earlier moment might have left.
    ghost may_stay: { (k : Self) (t : ℕ) → told → t ≤ moment k → has_stopped k ≡ false → left_since k t (Some (record_of k)) };
}
