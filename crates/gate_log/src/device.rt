//! A write that is synced at once.
ghost use Rattle.std.specs.Prelude.{◌≡◌, ◌+◌, ◌≤◌, List, ℕ, length, [], ◌∷◌, is_ok, OnOk};
ghost use Rattle.gate_log.specs.Calls.{TornFrom};
ghost use Rattle.zen_disk.specs.DeviceCall.{Write, Sync};
ghost use Rattle.zen_disk.specs.Disk.{written, most_file_bytes};
ghost use Rattle.zen_disk.specs.Faults.{HasCause};
ghost use Rattle.zen_disk.specs.Moments.{LeavesOnly};
ghost use Rattle.zen_disk.specs.Runs.{CallsMade};
ghost use Rattle.zen_disk.specs.Sides.{on, other, OnlyOn};

use zen_disk::{Disks, Failed, Side};

// Writes the bytes and syncs, on one side. On the other side a crash leaves what it left before.
pub(crate) fn write_through<D: Disks>(
    disk: &mut D,
    side: Side,
    at: u64,
    bytes: &[u8],
) -> Result<(), Failed>
    requires { D.told → at ≤ length (on side (D.seen disk.old)) }
    ensures written { D.told → OnOk result (on side (D.seen disk.new) ≡ written (on side (D.seen disk.old)) at bytes.now) }
    ensures elsewhere { on (other side) (D.seen disk.new) ≡ on (other side) (D.seen disk.old) }
    ensures durable { OnOk result (OnlyOn side (on side (D.seen disk.new)) (D.may_leave disk.new)) }
    ensures still { (file : List ℕ) → OnlyOn (other side) file (D.may_leave disk.old) → OnlyOn (other side) file (D.may_leave disk.new) }
    ensures limit { OnOk result (at + length bytes.now ≤ most_file_bytes) }
    ensures any_moment { LeavesOnly D.moment D.left_since disk.old disk.new (TornFrom (D.may_leave disk.old) side at (length bytes.now)) }
    ensures ran { CallsMade D.moves (Write side at bytes.now ∷ Sync side ∷ []) disk.old disk.new (is_ok result) }
    ensures cause { HasCause (D.faults disk.old) (D.faults disk.new) result }
{
    disk.write_at(side, at, bytes)?;
    disk.sync(side)?;
    Ok(())
}
