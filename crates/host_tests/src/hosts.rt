//! Hosts in memory that have children.
ghost use Rattle.std.specs.Prelude.{◌≡◌, IfOk};

use std::alloc::{AllocError, Global};
use zen_disk::{Disks, MemDisks};
use zen_host::{Ended, MemHost};

/// A disk with two bytes on side zero.
pub(crate) fn disk(alloc: Global) -> Result<MemDisks, AllocError>
    ensures { IfOk result (λ disk. ⟦<MemDisks as Disks>⟧.faults disk ≡ 0) }
{
    let bytes = Vec::from_slice(alloc, b"ab")?;
    Ok(MemDisks::new(alloc, bytes, Vec::new(alloc), Vec::new(alloc)))
}

fn ended(alloc: Global, status: u8, output: &str) -> Result<Ended, AllocError> {
    let output = Vec::from_slice(alloc, output.as_bytes())?;
    Ok(Ended { status, output })
}

fn ends_of(alloc: Global, children: &[(u8, &str)]) -> Result<Vec<Ended>, AllocError> {
    let mut ends = Vec::new(alloc);
    for (status, output) in children {
        ends.push(ended(alloc, *status, output)?)?;
    }
    Ok(ends)
}

/// A host whose children end with these statuses and write this, and which refuses these calls.
pub(crate) fn host_of(
    alloc: Global,
    children: &[(u8, &str)],
    refused: &[u64],
) -> Result<MemHost<MemDisks>, AllocError> {
    let ends = ends_of(alloc, children)?;
    let refused = Vec::from_slice(alloc, refused)?;
    Ok(MemHost::with_children(alloc, disk(alloc)?, ends, refused))
}
