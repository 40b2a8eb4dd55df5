//! The trait `Disks`: two files, by what a read gives and by what a crash may leave of both.
ghost use Rattle.std.specs.Prelude.{◌≡◌, ◌+◌, ◌≤◌, List, ℕ, length, is_ok, Bool, IfOk, OnOk};
ghost use Rattle.zen_disk.specs.Disk.{written, part, Torn, most_file_bytes};
ghost use Rattle.zen_disk.specs.Faults.{HasCause};
ghost use Rattle.zen_disk.specs.DeviceCall.{DeviceCall, Len, Read, Write, Sync};
ghost use Rattle.zen_disk.specs.Moments.{Follows, Within, Elapses};
ghost use Rattle.zen_disk.specs.Sides.{Files, on, other, OnSide, OnlyOn};

use crate::Side;
use thiserror::Error;

/// A call of a disk has failed, and the count of faults rose.
#[derive(Clone, Copy, Debug, PartialEq, Eq, Error)]
#[error("the disk failed")]
pub struct Failed;

/// Two files on a disk: what a read gives, and what a crash may leave of both.
///
/// One count of faults and one clock serve both sides.
pub trait Disks {
    /// Whether it tells what it holds. Real files do not.
    ghost told: { Type 0 };

    /// The bytes that a read gives, on each side.
    ghost seen: { Self → Files };

    /// What a crash at this moment may leave.
    ghost may_leave: { Self → Files → Type 0 };

    /// The moment, as a number that doesn't fall.
    ghost moment: { Self → ℕ };

    /// What a crash at some moment from that one on might have left, during a call or between two.
    ghost left_since: { Self → ℕ → Files → Type 0 };

    /// How often the disk has failed.
    ghost faults: { Self → ℕ };

    /// Whether this call with this answer leads from one to the other, as far as that is told.
    ghost moves: { Self → DeviceCall → Self → Bool → Type 0 };

    /// How many bytes a side has.
    fn len(&mut self, side: Side) -> Result<u64, Failed>
        ensures value { told → IfOk result (λ n. n ≡ length (on side (seen self.old))) }
        ensures seen { seen self.new ≡ seen self.old }
        ensures crash { Within (may_leave self.old) (may_leave self.new) }
        ensures time { Elapses (moment self.old) (moment self.new) (left_since self.old) (left_since self.new) (may_leave self.new) }
        ensures moves { moves self.old (Len side) self.new (is_ok result) }
        ensures cause { HasCause (faults self.old) (faults self.new) result };

    /// Reads the bytes at an offset of a side.
    fn read(&mut self, side: Side, at: u64, into: &mut [u8]) -> Result<(), Failed>
        requires { told → at + length into.old ≤ length (on side (seen self.old)) }
        ensures value { told → OnOk result (into.new ≡ part at (length into.old) (on side (seen self.old))) }
        ensures seen { seen self.new ≡ seen self.old }
        ensures crash { Within (may_leave self.old) (may_leave self.new) }
        ensures time { Elapses (moment self.old) (moment self.new) (left_since self.old) (left_since self.new) (may_leave self.new) }
        ensures moves { moves self.old (Read side at (length into.old)) self.new (is_ok result) }
        ensures cause { HasCause (faults self.old) (faults self.new) result };

    /// Writes on one side over what is there, and past the end. Until a sync of that side, a crash may leave any bytes
    /// in the range, also of a write that failed.
    fn write_at(&mut self, side: Side, at: u64, bytes: &[u8]) -> Result<(), Failed>
        requires { told → at ≤ length (on side (seen self.old)) }
        ensures written { told → OnOk result (on side (seen self.new) ≡ written (on side (seen self.old)) at bytes.now) }
        ensures elsewhere { on (other side) (seen self.new) ≡ on (other side) (seen self.old) }
        ensures limit { OnOk result (at + length bytes.now ≤ most_file_bytes) }
        ensures crash { Follows (OnSide side (Torn at (length bytes.now))) (may_leave self.old) (may_leave self.new) }
        ensures time { Elapses (moment self.old) (moment self.new) (left_since self.old) (left_since self.new) (may_leave self.new) }
        ensures moves { moves self.old (Write side at bytes.now) self.new (is_ok result) }
        ensures cause { HasCause (faults self.old) (faults self.new) result };

    /// After it, a crash leaves on this side what a read gives.
    fn sync(&mut self, side: Side) -> Result<(), Failed>
        ensures durable { OnOk result (OnlyOn side (on side (seen self.old)) (may_leave self.new)) }
        ensures seen { seen self.new ≡ seen self.old }
        ensures crash { Within (may_leave self.old) (may_leave self.new) }
        ensures time { Elapses (moment self.old) (moment self.new) (left_since self.old) (left_since self.new) (may_leave self.new) }
        ensures moves { moves self.old (Sync side) self.new (is_ok result) }
        ensures cause { HasCause (faults self.old) (faults self.new) result };

    /// A disk as it reads is one of the outcomes of a crash.
    ghost seen_may_stay: { (d : Self) → told → may_leave d (seen d) };

    /// This moment is one of those since an earlier one.
    ghost counts_now: { (d : Self) (t : ℕ) (c : Files) → t ≤ moment d → may_leave d c → left_since d t c };

    /// Since this moment there is no other.
    ghost only_now: { (d : Self) (c : Files) → left_since d (moment d) c → may_leave d c };
}
