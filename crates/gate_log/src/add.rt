//! A body added at the end of a side: two writes, each synced, of which the second opens its gate.
ghost use Rattle.std.specs.Prelude.{◌≡◌, ◌+◌, ◌^◌, ◌≤◌, ◌<◌, [], ◌∷◌, ◌++◌, List, ℕ, length, is_ok, OnOk};
ghost use Rattle.zen_disk.specs.Disk.{most_file_bytes};
ghost use Rattle.zen_disk.specs.DeviceCall.{Write, Sync};
ghost use Rattle.zen_disk.specs.Runs.{CallsMade};
ghost use Rattle.zen_disk.specs.Faults.{HasCause};
ghost use Rattle.zen_disk.specs.Moments.{Only, LeavesOnly};
ghost use Rattle.zen_disk.specs.Sides.{on, other, OnlyOn};
ghost use Rattle.gate_log.specs.Journal.{IsFrame, IsLaid, IsBeforeOrAfter, IsAsBeforeOrNone};
ghost use Rattle.gate_log.specs.Calls.{append_calls, LeavesOn};

use crate::device::write_through;
use zen_disk::{Disks, Failed, Side};

// Adds a body, given with its length and a closed gate, after the closed gate at `gate`, and then opens that gate.
pub(crate) fn add_record<D: Disks>(
    disk: &mut D,
    side: Side,
    gate: u64,
    frame: &[u8],
) -> Result<(), Failed>
    requires within { D.told → gate < length (on side (D.seen disk.old)) }
    requires limit { gate < 2 ^ 63 }
    ensures added { D.told → (bodies : List (List ℕ)) → (body : List ℕ) → IsFrame body frame.now
        → IsLaid bodies (on side (D.seen disk.old)) gate
        → OnOk result (IsLaid (bodies ++ body ∷ []) (on side (D.seen disk.new)) (gate + length frame.now)) }
    ensures elsewhere { on (other side) (D.seen disk.new) ≡ on (other side) (D.seen disk.old) }
    ensures durable { OnOk result (OnlyOn side (on side (D.seen disk.new)) (D.may_leave disk.new)) }
    ensures still { (file : List ℕ) → OnlyOn (other side) file (D.may_leave disk.old) → OnlyOn (other side) file (D.may_leave disk.new) }
    ensures limit { OnOk result (gate + 1 + length frame.now ≤ most_file_bytes) }

    // A crash at any moment of the call leaves the bodies from before it, with the new one or without.
    ensures any_moment { D.told → (bodies : List (List ℕ)) → (body : List ℕ) → IsFrame body frame.now
        → IsLaid bodies (on side (D.seen disk.old)) gate
        → Only (D.seen disk.old) (D.may_leave disk.old)
        → LeavesOnly D.moment D.left_since disk.old disk.new (LeavesOn side (IsBeforeOrAfter bodies body) (D.seen disk.old)) }
    ensures ran { CallsMade D.moves (append_calls side gate frame.now) disk.old disk.new (is_ok result) }
    ensures cause { HasCause (D.faults disk.old) (D.faults disk.new) result }
{
    write_through(disk, side, gate + 1, frame)?;
    write_through(disk, side, gate, &[1])?;
    Ok(())
}

// Closes the first gate of a side, which is open, so that no body is left there.
pub(crate) fn close_first<D: Disks>(disk: &mut D, side: Side) -> Result<(), Failed>
    requires within { D.told → 8 < length (on side (D.seen disk.old)) }
    ensures emptied { D.told → (bodies : List (List ℕ)) → (gate : ℕ) → IsLaid bodies (on side (D.seen disk.old)) gate
        → OnOk result (IsLaid [] (on side (D.seen disk.new)) 8) }
    ensures elsewhere { on (other side) (D.seen disk.new) ≡ on (other side) (D.seen disk.old) }
    ensures durable { OnOk result (OnlyOn side (on side (D.seen disk.new)) (D.may_leave disk.new)) }
    ensures still { (file : List ℕ) → OnlyOn (other side) file (D.may_leave disk.old) → OnlyOn (other side) file (D.may_leave disk.new) }

    // A crash at any moment of the call leaves the bodies from before it, or none.
    ensures any_moment { D.told → (bodies : List (List ℕ)) → (gate : ℕ) → 8 < gate → IsLaid bodies (on side (D.seen disk.old)) gate
        → Only (D.seen disk.old) (D.may_leave disk.old)
        → LeavesOnly D.moment D.left_since disk.old disk.new (LeavesOn side (IsAsBeforeOrNone bodies) (D.seen disk.old)) }
    ensures ran { CallsMade D.moves (Write side 8 (0 ∷ []) ∷ Sync side ∷ []) disk.old disk.new (is_ok result) }
    ensures cause { HasCause (D.faults disk.old) (D.faults disk.new) result }
{
    write_through(disk, side, 8, &[0])?;
    Ok(())
}
