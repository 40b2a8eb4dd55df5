//! A node's disk: two files in memory under a fuse, from empty to stopped and running again.
ghost use Rattle.std.specs.Prelude.{◌≡◌, None, IfOk};
ghost use Rattle.zen_disk.specs.Armed.{nothing_armed};
ghost use Rattle.zen_disk.specs.FileState.{both_left_by};
ghost use Rattle.zen_disk.specs.MemDisks.{files_of, read_of};
ghost use Rattle.zen_disk.specs.Sides.{Files};
ghost use Rattle.replay_node.specs.NodeDisk.{MayLeave, Restarted, bytes_read, no_files};
ghost use Rattle.replay_node.specs.Opens.{StaysDown};

use std::alloc::{AllocError, Global};
use text::Text;
use trace_text::{write_crashed, write_disk};
use voting_config::NodeId;
use zen_disk::{Armable, Armed, Fuse, MemDisks, Order, Struck, Way};

/// A disk of two empty files, with no orders. It takes no memory.
pub fn empty_disk(alloc: Global) -> Fuse<MemDisks>
    ensures files { files_of result.disk ≡ no_files }
    ensures armed { result.armed ≡ nothing_armed }
    ensures up { result.down ≡ None }
    ensures seen { read_of result.disk ≡ bytes_read no_files }
{
    Fuse::new(MemDisks::new(alloc, Vec::new(alloc), Vec::new(alloc), Vec::new(alloc)))
}

fn arm_stop(fuse: &mut Fuse<MemDisks>, stop: Option<(u64, Way)>)
    requires { fuse.old.armed.stop ≡ None }
    ensures armed { fuse.new.armed ≡ record (fuse.old.armed) { stop = stop } }
    ensures disk { fuse.new.disk ≡ fuse.old.disk }
    ensures down { fuse.new.down ≡ fuse.old.down }
{
    match stop {
        None => (),
        Some(stop) => fuse.arm(Order::Stop(stop.0, stop.1)),
    }
}

fn arm_fault(fuse: &mut Fuse<MemDisks>, fault: Option<u64>)
    requires { fuse.old.armed.fault ≡ None }
    ensures armed { fuse.new.armed ≡ record (fuse.old.armed) { fault = fault } }
    ensures disk { fuse.new.disk ≡ fuse.old.disk }
    ensures down { fuse.new.down ≡ fuse.old.down }
{
    match fault {
        None => (),
        Some(k) => fuse.arm(Order::Fault(k)),
    }
}

/// This disk under these orders.
fn with_orders(disk: MemDisks, armed: Armed) -> Fuse<MemDisks>
    ensures disk { result.disk ≡ disk }
    ensures armed { result.armed ≡ armed }
    ensures down { result.down ≡ None }
{
    let mut fuse = Fuse::new(disk);
    arm_stop(&mut fuse, armed.stop);
    arm_fault(&mut fuse, armed.fault);
    fuse
}

/// The disk as a stop has left it, running again, with the orders that have not come yet.
pub fn restarted(fuse: Fuse<MemDisks>) -> Fuse<MemDisks>
    ensures { Restarted fuse result }
{
    let armed = fuse.armed();
    with_orders(fuse.into_disk(), armed)
}

/// The running disk, stopped between two calls and running again.
pub fn crashed(fuse: Fuse<MemDisks>, way: Way) -> Fuse<MemDisks>
    ensures armed { result.armed ≡ fuse.armed }
    ensures up { result.down ≡ None }
    ensures files { files_of result.disk ≡ both_left_by way (files_of fuse.disk) }
    ensures left { (c : Files) → MayLeave result c → MayLeave fuse c }
{
    let mut fuse = fuse;
    fuse.stop(way);
    restarted(fuse)
}

/// The disk with which a node stays down after an opening that met a fault of the disk: running again where it was a stop.
/// Writes which of the two it was. A fault that no order has made means that memory ran out, and is an error.
pub fn stay_down(
    fuse: Fuse<MemDisks>,
    me: NodeId,
    text: &mut Text,
) -> Result<Fuse<MemDisks>, AllocError>
    ensures { IfOk result (λ again. StaysDown fuse.struck me fuse again text.old text.new) }
{
    match fuse.struck() {
        None => Err(AllocError),
        Some(Struck::Fault) => {
            write_disk(text, me)?;
            Ok(fuse)
        }
        Some(Struck::Stop) => {
            write_crashed(text, me)?;
            Ok(restarted(fuse))
        }
    }
}
