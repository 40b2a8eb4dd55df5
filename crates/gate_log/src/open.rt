//! The opening of a side: it is synced, given a header where it has room for no more, and read.
ghost use Rattle.std.specs.Prelude.{◌≡◌, ◌+◌, ◌^◌, ◌≤◌, ◌<◌, ◌++◌, ◌∷◌, [], List, ℕ, is_ok, length, vec_len, OnOk, IfOk, IfErr, Ok, true, false, None};
ghost use Rattle.gate_log.specs.Calls.{preparing_calls, opening_calls};
ghost use Rattle.gate_log.specs.Generations.{disorder as spec_disorder, StandsAsSome};
ghost use Rattle.gate_log.specs.Journal.{header, bodies_of, IsLaid};
ghost use Rattle.gate_log.specs.Opened.{lists};
ghost use Rattle.gate_log.specs.Opening.{IsSideFault, IsUnread, DidNotFail, SideRose, SideRan};
ghost use Rattle.zen_disk.specs.DeviceCall.{Len, Read, Sync};
ghost use Rattle.zen_disk.specs.Faults.{HasCause};
ghost use Rattle.zen_disk.specs.Moments.{Within, LeavesOnly};
ghost use Rattle.zen_disk.specs.Runs.{CallsMade};
ghost use Rattle.zen_disk.specs.Sides.{on, other, OnlyOn};

use crate::Fault;
use crate::device::write_through;
use crate::order::disorder;
use crate::scan::{ScanError, Scanned, scan_bytes};
use std::alloc::Global;
use zen_disk::{Disks, Failed, Side};

const FRESH: [u8; 9] = *b"ZENJRNL1\0";

// Why a side is not opened.
#[derive(Clone, Copy)]
pub(crate) enum SideError {
    Fault(Fault),
    Memory,
    Failed,
}

// Syncs a side and asks for its length.
pub(crate) fn synced_len<D: Disks>(disk: &mut D, side: Side) -> Result<u64, Failed>
    ensures value { D.told → IfOk result (λ n. n ≡ length (on side (D.seen disk.old))) }
    ensures seen { D.seen disk.new ≡ D.seen disk.old }
    ensures durable { OnOk result (OnlyOn side (on side (D.seen disk.new)) (D.may_leave disk.new)) }
    ensures within { Within (D.may_leave disk.old) (D.may_leave disk.new) }
    ensures any_moment { LeavesOnly D.moment D.left_since disk.old disk.new (D.may_leave disk.old) }
    ensures ran { CallsMade D.moves (Sync side ∷ Len side ∷ []) disk.old disk.new (is_ok result) }
    ensures cause { HasCause (D.faults disk.old) (D.faults disk.new) result }
{
    disk.sync(side)?;
    let Ok(len) = disk.len(side) else {
        return Err(Failed);
    };
    Ok(len)
}

// Syncs a side, and writes a header where there is at most room for one. Answers the length.
pub(crate) fn prepare<D: Disks>(disk: &mut D, side: Side) -> Result<u64, Failed>
    ensures length { D.told → IfOk result (λ n. n ≡ length (on side (D.seen disk.new))) }
    ensures which { D.told → IfOk result (λ n. (9 < n) → 9 < length (on side (D.seen disk.old))) }
    ensures none { D.told → IfOk result (λ n. (n ≤ 9) → length (on side (D.seen disk.old)) ≤ 9) }
    ensures fresh { D.told → OnOk result (length (on side (D.seen disk.old)) ≤ 9 → on side (D.seen disk.new) ≡ header ++ 0 ∷ []) }
    ensures same { D.told → OnOk result (9 < length (on side (D.seen disk.old)) → on side (D.seen disk.new) ≡ on side (D.seen disk.old)) }
    ensures elsewhere { on (other side) (D.seen disk.new) ≡ on (other side) (D.seen disk.old) }
    ensures durable { OnOk result (OnlyOn side (on side (D.seen disk.new)) (D.may_leave disk.new)) }
    ensures still { (file : List ℕ) → OnlyOn (other side) file (D.may_leave disk.old) → OnlyOn (other side) file (D.may_leave disk.new) }
    ensures any_moment { D.told → LeavesOnly D.moment D.left_since disk.old disk.new (StandsAsSome (D.may_leave disk.old)) }
    ensures ran { D.told → CallsMade D.moves (preparing_calls side (on side (D.seen disk.old))) disk.old disk.new (is_ok result) }
    ensures cause { HasCause (D.faults disk.old) (D.faults disk.new) result }
{
    let Ok(len) = synced_len(disk, side) else {
        return Err(Failed);
    };
    if len > 9 {
        return Ok(len);
    }
    let Ok(()) = write_through(disk, side, 0, &FRESH) else {
        return Err(Failed);
    };
    Ok(9)
}

// All the bytes of a side.
pub(crate) fn read_all<D: Disks>(
    alloc: Global,
    disk: &mut D,
    side: Side,
    len: u64,
) -> Result<Vec<u8>, SideError>
    requires { D.told → len ≡ length (on side (D.seen disk.old)) }
    ensures len { IfOk result (λ bytes. vec_len bytes ≡ len) }
    ensures bytes { D.told → IfOk result (λ bytes. bytes.items ≡ on side (D.seen disk.old)) }
    ensures seen { D.seen disk.new ≡ D.seen disk.old }
    ensures crash { Within (D.may_leave disk.old) (D.may_leave disk.new) }
    ensures any_moment { LeavesOnly D.moment D.left_since disk.old disk.new (D.may_leave disk.old) }
    ensures moves { OnOk result (D.moves disk.old (Read side 0 len) disk.new true) }
    ensures unread { IfErr result (IsUnread D.moves side len disk.old disk.new) }
    ensures later { D.faults disk.old ≤ D.faults disk.new }
    ensures cause { IfErr result (SideRose (D.faults disk.old) (D.faults disk.new)) }
{
    let Ok(mut bytes) = vec![in alloc; 0; len as usize] else {
        return Err(SideError::Memory);
    };
    let Ok(()) = disk.read(side, 0, &mut bytes) else {
        return Err(SideError::Failed);
    };
    Ok(bytes)
}

// The bodies of a side of more than nine bytes, all of them in order.
fn scan_side(alloc: Global, side: Side, bytes: &[u8]) -> Result<Scanned, SideError>
    requires long { 9 < length bytes.now }
    requires short { length bytes.now < 2 ^ 63 }
    ensures ok { IfOk result (λ s. IsLaid (lists s.bodies.items) bytes.now s.gate) }
    ensures ordered { IfOk result (λ s. spec_disorder side (lists s.bodies.items) ≡ None) }
    ensures fault { IfErr result (IsSideFault side bytes.now) }
    ensures reads { IfErr result DidNotFail }
{
    let scanned = match scan_bytes(alloc, bytes) {
        Ok(scanned) => scanned,
        Err(ScanError::Fault(fault)) => return Err(SideError::Fault(fault)),
        Err(ScanError::Memory) => return Err(SideError::Memory),
    };
    if let Some(at) = disorder(side, &scanned.bodies) {
        return Err(SideError::Fault(Fault::Order(at)));
    }
    Ok(scanned)
}

// Opens one side, which a crash may have left.
pub(crate) fn open_side<D: Disks>(
    alloc: Global,
    disk: &mut D,
    side: Side,
) -> Result<Scanned, SideError>
    ensures bodies { D.told → IfOk result (λ s. bodies_of (on side (D.seen disk.old)) ≡ Ok (lists s.bodies.items)) }
    ensures laid { D.told → IfOk result (λ s. IsLaid (lists s.bodies.items) (on side (D.seen disk.new)) s.gate) }
    ensures ordered { IfOk result (λ s. spec_disorder side (lists s.bodies.items) ≡ None) }
    ensures limit { IfOk result (λ s. s.gate < 2 ^ 63) }
    ensures fault { D.told → IfErr result (IsSideFault side (on side (D.seen disk.old))) }
    ensures elsewhere { on (other side) (D.seen disk.new) ≡ on (other side) (D.seen disk.old) }
    ensures durable { OnOk result (OnlyOn side (on side (D.seen disk.new)) (D.may_leave disk.new)) }
    ensures still { (file : List ℕ) → OnlyOn (other side) file (D.may_leave disk.old) → OnlyOn (other side) file (D.may_leave disk.new) }
    ensures any_moment { D.told → LeavesOnly D.moment D.left_since disk.old disk.new (StandsAsSome (D.may_leave disk.old)) }
    ensures ran { D.told → OnOk result (CallsMade D.moves (opening_calls side (on side (D.seen disk.old))) disk.old disk.new true) }
    ensures ran_err { D.told → IfErr result (SideRan D.moves side (on side (D.seen disk.old)) disk.old disk.new) }
    ensures later { D.faults disk.old ≤ D.faults disk.new }
    ensures cause { IfErr result (SideRose (D.faults disk.old) (D.faults disk.new)) }
{
    let Ok(len) = prepare(disk, side) else {
        return Err(SideError::Failed);
    };
    if len <= 9 {
        return Ok(Scanned {
            bodies: Vec::new(alloc),
            gate: 8,
        });
    }
    let bytes = match read_all(alloc, disk, side, len) {
        Ok(bytes) => bytes,
        Err(error) => return Err(error),
    };
    scan_side(alloc, side, &bytes)
}
