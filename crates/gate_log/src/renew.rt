//! A generation begun on the side that is not in use.
ghost use Rattle.std.specs.Prelude.{◌≡◌, ◌+◌, ◌≤◌, ◌<◌, [], ◌∷◌, List, ℕ, length, is_ok, OnOk};
ghost use Rattle.zen_disk.specs.Disk.{most_file_bytes};
ghost use Rattle.zen_disk.specs.Runs.{CallsMade};
ghost use Rattle.zen_disk.specs.Faults.{HasCause};
ghost use Rattle.zen_disk.specs.Moments.{Only, LeavesOnly};
ghost use Rattle.zen_disk.specs.Sides.{on, other, OnlyOn};
ghost use Rattle.gate_log.specs.Journal.{IsFrame, IsLaid, IsAsBeforeOrNone, IsReplaced};
ghost use Rattle.gate_log.specs.Calls.{closing_calls, renewal_calls, LeavesOn};

use crate::add::{add_record, close_first};
use zen_disk::{Disks, Failed, Side};

// Leaves no body on a side: closes the first gate where it is open.
fn clear<D: Disks>(disk: &mut D, side: Side, gate: u64) -> Result<(), Failed>
    requires laid { D.told → (bodies : List (List ℕ)) × IsLaid bodies (on side (D.seen disk.old)) gate }
    ensures emptied { D.told → OnOk result (IsLaid [] (on side (D.seen disk.new)) 8) }
    ensures elsewhere { on (other side) (D.seen disk.new) ≡ on (other side) (D.seen disk.old) }
    ensures durable { Only (D.seen disk.old) (D.may_leave disk.old) → OnOk result (Only (D.seen disk.new) (D.may_leave disk.new)) }
    ensures still { (file : List ℕ) → OnlyOn (other side) file (D.may_leave disk.old) → OnlyOn (other side) file (D.may_leave disk.new) }

    // A crash at any moment of the call leaves the bodies from before it, or none.
    ensures any_moment { D.told → (bodies : List (List ℕ)) → IsLaid bodies (on side (D.seen disk.old)) gate
        → Only (D.seen disk.old) (D.may_leave disk.old)
        → LeavesOnly D.moment D.left_since disk.old disk.new (LeavesOn side (IsAsBeforeOrNone bodies) (D.seen disk.old)) }
    ensures ran { CallsMade D.moves (closing_calls side gate) disk.old disk.new (is_ok result) }
    ensures cause { HasCause (D.faults disk.old) (D.faults disk.new) result }
{
    if gate <= 8 {
        return Ok(());
    }
    let Ok(()) = close_first(disk, side) else {
        return Err(Failed);
    };
    Ok(())
}

// Puts a body, given with its length and a closed gate, as the only one on this side, whose closed gate stands at `gate`.
pub(crate) fn write_generation<D: Disks>(
    disk: &mut D,
    side: Side,
    gate: u64,
    frame: &[u8],
) -> Result<(), Failed>
    requires laid { D.told → (bodies : List (List ℕ)) × IsLaid bodies (on side (D.seen disk.old)) gate }
    ensures added { D.told → (body : List ℕ) → IsFrame body frame.now
        → OnOk result (IsLaid (body ∷ []) (on side (D.seen disk.new)) (8 + length frame.now)) }
    ensures elsewhere { on (other side) (D.seen disk.new) ≡ on (other side) (D.seen disk.old) }
    ensures durable { OnOk result (OnlyOn side (on side (D.seen disk.new)) (D.may_leave disk.new)) }
    ensures still { (file : List ℕ) → OnlyOn (other side) file (D.may_leave disk.old) → OnlyOn (other side) file (D.may_leave disk.new) }
    ensures limit { OnOk result (9 + length frame.now ≤ most_file_bytes) }

    // A crash at any moment of the call leaves the bodies that were there, or none, or this one alone.
    ensures any_moment { D.told → (bodies : List (List ℕ)) → (body : List ℕ) → IsFrame body frame.now
        → IsLaid bodies (on side (D.seen disk.old)) gate
        → Only (D.seen disk.old) (D.may_leave disk.old)
        → LeavesOnly D.moment D.left_since disk.old disk.new (LeavesOn side (IsReplaced bodies body) (D.seen disk.old)) }
    ensures ran { CallsMade D.moves (renewal_calls side gate frame.now) disk.old disk.new (is_ok result) }
    ensures cause { HasCause (D.faults disk.old) (D.faults disk.new) result }
{
    let Ok(()) = clear(disk, side, gate) else {
        return Err(Failed);
    };
    let Ok(()) = add_record(disk, side, 8, frame) else {
        return Err(Failed);
    };
    Ok(())
}
