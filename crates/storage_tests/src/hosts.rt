//! Hosts and sinks in memory, of which one call fails.
ghost use Rattle.std.specs.Prelude.{◌≡◌, IfOk};

use crate::files::files_of;
use std::alloc::{AllocError, Global};
use zen_disk::{Disks, MemDisks};
use zen_host::MemHost;
use zen_link::MemSink;

/// The call that fails: the one of this number, of the host, of its disk or of the sink.
#[derive(Clone, Copy)]
pub(crate) enum Failing {
    Nothing,
    Host(u64),
    Disk(u64),
    Sink(u64),
}

// A list of this call. The first call is 1, so a 0 is none.
fn only(alloc: Global, call: u64) -> Result<Vec<u64>, AllocError> {
    Vec::from_slice(alloc, &[call])
}

fn disk_of(alloc: Global, zero: &[u8], one: &[u8], failing: Failing) -> Result<MemDisks, AllocError>
    ensures { IfOk result (λ disk. ⟦<MemDisks as Disks>⟧.faults disk ≡ 0) }
{
    let call = match failing {
        Failing::Disk(call) => call,
        _ => 0,
    };
    let (zero, one) = files_of(alloc, zero, one)?;
    Ok(MemDisks::new(alloc, zero, one, only(alloc, call)?))
}

/// A host that gives a disk with these two files.
pub(crate) fn host_of(
    alloc: Global,
    zero: &[u8],
    one: &[u8],
    failing: Failing,
) -> Result<MemHost<MemDisks>, AllocError> {
    let call = match failing {
        Failing::Host(call) => call,
        _ => 0,
    };
    let fails = only(alloc, call)?;
    let disk = disk_of(alloc, zero, one, failing)?;
    Ok(MemHost::with_children(alloc, disk, Vec::new(alloc), fails))
}

/// A sink that takes 100 bytes a call.
pub(crate) fn sink_of(alloc: Global, failing: Failing) -> Result<MemSink, AllocError> {
    let call = match failing {
        Failing::Sink(call) => call,
        _ => 0,
    };
    Ok(MemSink::new(alloc, 100, only(alloc, call)?))
}

/// Whether the host was asked once, and has its disk back where it gave one.
pub(crate) fn is_used_once(host: MemHost<MemDisks>, has_given: bool) -> bool {
    let is_asked_once = host.asked().len() == 1;
    let is_given_back = host.into_disk_back().is_some();
    is_asked_once && is_given_back == has_given
}
