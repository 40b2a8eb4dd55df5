//! What a crash loses, keeps or tears of a disk in memory, and how a fuse strikes. What is expected follows from what was synced
//! before.
use crate::files::both_read;
use std::alloc::{AllocError, Global};
use std::test::Fail;
use zen_disk::{Armable, Armed, Crash, Disks, Failed, Fuse, MemDisks, Order, Side, Struck, Way};

fn new_disk(alloc: Global, failing: &[u64]) -> Result<MemDisks, AllocError> {
    let zero = Vec::from_slice(alloc, b"abc")?;
    let one = Vec::from_slice(alloc, b"vwx")?;
    Ok(MemDisks::new(alloc, zero, one, Vec::from_slice(alloc, failing)?))
}

// Writes after the last byte of a side.
fn append<D: Disks>(disk: &mut D, side: Side, bytes: &[u8]) -> Result<(), Failed> {
    let end = disk.len(side)?;
    disk.write_at(side, end, bytes)
}

// A disk with a write after the last byte of each side that is not synced.
fn written(alloc: Global) -> Option<MemDisks> {
    let mut disk = new_disk(alloc, &[]).ok()?;
    append(&mut disk, Side::Zero, b"de").ok()?;
    append(&mut disk, Side::One, b"yz").ok()?;
    Some(disk)
}

#[derive(Clone, Copy)]
enum Act {
    Sync(Side),
    Crash(Way),
}

fn after(disk: MemDisks, acts: &[Act]) -> MemDisks {
    let mut disk = disk;
    for act in acts {
        match *act {
            Act::Sync(side) => {
                let _ = disk.sync(side);
            }
            Act::Crash(way) => disk = disk.crash(way),
        }
    }
    disk
}

// Acts on a disk with two writes that are not synced, and then its two files.
type Row = (&'static [Act], &'static [u8], &'static [u8]);

fn is_row(alloc: Global, row: &Row) -> bool {
    let (acts, zero, one) = *row;
    match written(alloc) {
        Some(disk) => both_read(after(disk, acts), zero, one),
        None => false,
    }
}

const LOSE: Act = Act::Crash(Way::Lost);

// Says which row is not so, the first being row 0.
fn do_each(alloc: Global, name: &str, rows: &[Row]) -> Result<(), Fail> {
    for (at, row) in rows.iter().enumerate() {
        if !is_row(alloc, row) {
            return Err(Fail::new(format_args!("{name}: row {at}")));
        }
    }
    Ok(())
}

const CRASHES: &[Row] = &[
    (&[], b"abcde", b"vwxyz"),
    (&[Act::Crash(Way::Kept)], b"abcde", b"vwxyz"),
    (&[Act::Crash(Way::Kept), LOSE], b"abc", b"vwx"),
    (
        &[Act::Crash(Way::Torn(1)), LOSE],
        b"abc\x01\x01",
        b"vwx\x01\x01",
    ),
];

const SYNCS: &[Row] = &[
    (&[Act::Sync(Side::Zero), LOSE], b"abcde", b"vwx"),
    (&[Act::Sync(Side::One), LOSE], b"abc", b"vwxyz"),
];

const TESTS: &[(&str, &[Row])] = &[
    ("a_crash_loses_keeps_or_tears_what_is_not_synced", CRASHES),
    ("a_sync_keeps_one_side", SYNCS),
];

#[test]
fn a_crash_leaves_what_was_synced(rt: HostRuntime) -> Result<(), Fail> {
    for (name, rows) in TESTS {
        do_each(rt.alloc(), name, rows)?;
    }
    Ok(())
}

// Syncs, and whether they fail.
const SOME_FAIL: &[(Side, bool)] = &[
    (Side::Zero, false),
    (Side::One, true),
    (Side::One, false),
    (Side::Zero, true),
    (Side::One, false),
];

// Whether the syncs of a disk whose second and fourth call fail do so.
fn are_syncs(alloc: Global, syncs: &[(Side, bool)]) -> Result<bool, AllocError> {
    let mut disk = new_disk(alloc, &[2, 4])?;
    let mut are_so = true;
    for (side, fails) in syncs {
        are_so = are_so && disk.sync(*side).is_err() == *fails;
    }
    Ok(are_so)
}

#[test]
fn fails_where_listed(rt: HostRuntime) -> Result<(), Fail> {
    assert!(&rt; are_syncs(rt.alloc(), SOME_FAIL)?);
    Ok(())
}

#[derive(Clone, Copy)]
enum Call {
    Len,
    // From the first byte on.
    Write(Side, &'static [u8]),
    Sync(Side),
}

fn is_ok(fuse: &mut Fuse<MemDisks>, call: Call) -> bool {
    match call {
        Call::Len => fuse.len(Side::Zero).is_ok(),
        Call::Write(side, bytes) => fuse.write_at(side, 0, bytes).is_ok(),
        Call::Sync(side) => fuse.sync(side).is_ok(),
    }
}

const FAULT: Option<Struck> = Some(Struck::Fault);

const STOP: Option<Struck> = Some(Struck::Stop);

// A device call, whether it is made, and then what has struck the disk and the numbers of the calls at which the stop and the fault
// are still to come.
type Strike = (Call, bool, Option<Struck>, Option<u64>, Option<u64>);

// The fault comes at the second call, and the stop at the third.
const STRIKES: &[Strike] = &[
    (Call::Len, true, None, Some(2), Some(1)),
    (
        Call::Write(Side::Zero, b"ABCDE"),
        false,
        FAULT,
        Some(1),
        None,
    ),
    (Call::Write(Side::One, b"de"), false, STOP, None, None),
    (Call::Sync(Side::One), false, STOP, None, None),
];

fn armed(stop: Option<u64>, fault: Option<u64>) -> Armed {
    let stop = match stop {
        Some(call) => Some((call, Way::Torn(7))),
        None => None,
    };
    Armed { stop, fault }
}

fn is_struck(fuse: &mut Fuse<MemDisks>, strike: &Strike) -> bool {
    let (call, is_made, struck, stop, fault) = *strike;
    is_ok(fuse, call) == is_made && fuse.struck() == struck && fuse.armed() == armed(stop, fault)
}

fn are_struck(fuse: &mut Fuse<MemDisks>, strikes: &[Strike]) -> bool {
    for strike in strikes {
        if !is_struck(fuse, strike) {
            return false;
        }
    }
    true
}

// Whether a fuse that is armed twice strikes so, and then its disk is left so.
fn is_struck_as_ordered(alloc: Global) -> Result<bool, AllocError> {
    let mut fuse = Fuse::new(new_disk(alloc, &[])?);
    fuse.arm(Order::Stop(3, Way::Torn(7)));
    fuse.arm(Order::Fault(2));
    let are_struck = are_struck(&mut fuse, STRIKES);
    Ok(are_struck && both_read(fuse.into_disk(), b"abc", b"\x07\x07x"))
}

#[test]
fn strikes_as_ordered(rt: HostRuntime) -> Result<(), Fail> {
    assert!(&rt; is_struck_as_ordered(rt.alloc())?);
    Ok(())
}

// Whether a fuse may be stopped between calls, and what was not synced is lost.
fn is_stopped(alloc: Global) -> bool {
    let Some(disk) = written(alloc) else {
        return false;
    };
    let mut fuse = Fuse::new(disk);
    fuse.stop(Way::Lost);
    let _stopped: &MemDisks = fuse.disk();
    let is_stopped = fuse.struck() == STOP;
    is_stopped && both_read(fuse.into_disk(), b"abc", b"vwx")
}

#[test]
fn stops_between_calls(rt: HostRuntime) {
    assert!(rt; is_stopped(rt.alloc()));
}
