//! Disks in memory with given files, what their files hold, and how a fault is written.
use std::alloc::{AllocError, Global};
use std::fmt::Display;
use zen_disk::{Disks, MemDisks, Side};

/// The bytes of side zero and of side one.
pub(crate) type Files = (Vec<u8>, Vec<u8>);

pub(crate) fn files_of(alloc: Global, zero: &[u8], one: &[u8]) -> Result<Files, AllocError> {
    Ok((Vec::from_slice(alloc, zero)?, Vec::from_slice(alloc, one)?))
}

/// A disk with these two files, of which no call fails.
pub(crate) fn disk_of(alloc: Global, zero: &[u8], one: &[u8]) -> Result<MemDisks, AllocError> {
    let (zero, one) = files_of(alloc, zero, one)?;
    Ok(MemDisks::new(alloc, zero, one, Vec::new(alloc)))
}

fn content(alloc: Global, disk: &mut MemDisks, side: Side) -> Option<Vec<u8>> {
    let len = disk.len(side).ok()?;
    let mut bytes = vec![in alloc; 0; len as usize].ok()?;
    disk.read(side, 0, &mut bytes).ok()?;
    Some(bytes)
}

/// What both sides hold, where memory is left and no call fails.
pub(crate) fn files_in(alloc: Global, disk: &mut MemDisks) -> Option<Files> {
    let zero = content(alloc, disk, Side::Zero)?;
    Some((zero, content(alloc, disk, Side::One)?))
}

/// Whether this is how a value is written.
pub(crate) fn is_written<D: Display>(alloc: Global, value: &D, want: &str) -> bool {
    match format!(in alloc; "{value}") {
        Ok(text) => text.as_str() == want,
        Err(_) => false,
    }
}

// The most bytes that `reads` compares.
const MOST: usize = 192;

/// Whether a side has these bytes and no more.
pub(crate) fn reads(disk: &mut MemDisks, side: Side, want: &[u8]) -> bool {
    let Ok(len) = disk.len(side) else {
        return false;
    };
    if len != want.len() as u64 || want.len() > MOST {
        return false;
    }
    let mut bytes = [0; MOST];
    let read = &mut bytes[..want.len()];
    disk.read(side, 0, read).is_ok() && *read == *want
}

/// Whether both sides of a disk have these bytes and no more.
pub(crate) fn both_read(disk: MemDisks, zero: &[u8], one: &[u8]) -> bool {
    let mut disk = disk;
    reads(&mut disk, Side::Zero, zero) && reads(&mut disk, Side::One, one)
}
