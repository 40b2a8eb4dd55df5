//! What a stop leaves on both sides of a node's disk. What is expected follows from docs/formats.md: the sides of a journal, and
//! what a stop leaves of each.
ghost use Rattle.std.specs.Prelude.{◌≡◌};
ghost use Rattle.zen_disk.specs.MemDisks.{read_of};
ghost use Rattle.replay_node.specs.NodeDisk.{bytes_read, no_files};

use replay_node::{crashed, empty_disk, restarted};
use std::alloc::Global;
use zen_disk::{Armable, Armed, Disks, Failed, Fuse, MemDisks, Order, Side, Way};

// Writes bytes on each side of an empty disk that are stable, and then bytes that are not.
fn half_sync(fuse: &mut Fuse<MemDisks>) -> Result<(), Failed>
    requires { read_of fuse.old.disk ≡ bytes_read no_files }
{
    fuse.write_at(Side::Zero, 0, b"ab")?;
    fuse.sync(Side::Zero)?;
    fuse.write_at(Side::One, 0, b"xyz")?;
    fuse.sync(Side::One)?;
    fuse.write_at(Side::Zero, 2, b"cd")?;
    fuse.write_at(Side::One, 1, b"w")
}

fn holds(fuse: &mut Fuse<MemDisks>, side: Side, bytes: &[u8]) -> bool {
    let mut room = [0; 4];
    let Some(found) = room.get_mut(..bytes.len()) else {
        return false;
    };
    fuse.len(side) == Ok(bytes.len() as u64)
        && fuse.read(side, 0, found).is_ok()
        && *found == *bytes
}

fn both_hold(fuse: Fuse<MemDisks>, zero: &[u8], one: &[u8]) -> bool {
    let mut fuse = fuse;
    holds(&mut fuse, Side::Zero, zero) && holds(&mut fuse, Side::One, one)
}

// How a disk is stopped, and what both sides then hold.
type Row = (Way, &'static [u8], &'static [u8]);

// A disk that is stopped between two calls.
fn stopped_between(alloc: Global, way: Way) -> Fuse<MemDisks> {
    let mut fuse = empty_disk(alloc);
    let _ = half_sync(&mut fuse);
    crashed(fuse, way)
}

// A disk that is stopped in a call, and is still to fail in the seventh call from then on.
fn stopped_inside(alloc: Global, way: Way) -> Fuse<MemDisks> {
    let mut fuse = empty_disk(alloc);
    let _ = half_sync(&mut fuse);
    fuse.arm(Order::Stop(1, way));
    fuse.arm(Order::Fault(7));
    let _ = fuse.sync(Side::One);
    restarted(fuse)
}

const TO_COME: Armed = Armed {
    stop: None,
    fault: Some(6),
};

// Whether both disks that are stopped in a way hold that, and the one that is stopped in a call is still to fail.
fn are_restarted(alloc: Global, row: &Row) -> bool {
    let (way, zero, one) = *row;
    let inside = stopped_inside(alloc, way);
    inside.armed() == TO_COME
        && both_hold(inside, zero, one)
        && both_hold(stopped_between(alloc, way), zero, one)
}

const STOPS: &[Row] = &[
    (Way::Lost, b"ab", b"xyz"),
    (Way::Kept, b"abcd", b"xwz"),
    (Way::Torn(b'q'), b"abqq", b"xqz"),
];

#[test]
fn a_restarted_disk_holds_what_the_stop_left_on_both_sides(rt: HostRuntime) {
    for row in STOPS {
        assert!(rt; are_restarted(rt.alloc(), row));
    }
}
