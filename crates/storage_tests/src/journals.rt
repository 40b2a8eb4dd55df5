//! Files of journals that more than one test opens, and their opening. Their digests were made apart from the program.
use crate::files::disk_of;
use state_journal::StateJournal;
use std::alloc::Global;
use zen_disk::{Fuse, MemDisks};

/// A journal of which a device call may be struck.
pub(crate) type Journal = StateJournal<Fuse<MemDisks>>;

/// The journal in these files, where they are one.
pub(crate) fn opened(alloc: Global, zero: &[u8], one: &[u8]) -> Option<Journal> {
    let disk = disk_of(alloc, zero, one).ok()?;
    StateJournal::open(alloc, Fuse::new(disk)).ok()
}

/// A body that sets term 1.
pub(crate) const TERM_ONE: &[u8] = b"ZENJRNL1\x01\0\0\0\x29\x81\0\0\0\0\0\0\0\x01\
    \x92\x01\x39\xd9\x73\x69\x77\xbb\xa9\xf8\x23\xbb\xa2\x04\x6e\xfd\x82\x28\x92\x77\xe0\x6e\xce\x8c\xf7\xd3\x41\xde\x67\x58\0\xc8\0";

/// The same with term 2 in the place of term 1.
pub(crate) const CHANGED: &[u8] = b"ZENJRNL1\x01\0\0\0\x29\x81\0\0\0\0\0\0\0\x02\
    \x92\x01\x39\xd9\x73\x69\x77\xbb\xa9\xf8\x23\xbb\xa2\x04\x6e\xfd\x82\x28\x92\x77\xe0\x6e\xce\x8c\xf7\xd3\x41\xde\x67\x58\0\xc8\0";

/// A body that sets term 1, and one of version 1 after it.
pub(crate) const OLD_AFTER: &[u8] = b"ZENJRNL1\x01\0\0\0\x29\x81\0\0\0\0\0\0\0\x01\
    \x92\x01\x39\xd9\x73\x69\x77\xbb\xa9\xf8\x23\xbb\xa2\x04\x6e\xfd\x82\x28\x92\x77\xe0\x6e\xce\x8c\xf7\xd3\x41\xde\x67\x58\0\xc8\
    \x01\0\0\0\x09\x01\0\0\0\0\0\0\0\x02\0";

/// A body of version 2 that has no room for a digest.
pub(crate) const NO_DIGEST: &[u8] =
    b"ZENJRNL1\x01\0\0\0\x20\x81\0\0\0\0\0\0\0\0\0\0\0\0\0\0\0\0\0\0\0\0\0\0\0\0\0\0\0\0\0\0\0\0";

/// A body of version 1 that sets term 1.
pub(crate) const OLD_TERM_ONE: &[u8] = b"ZENJRNL1\x01\0\0\0\x09\x01\0\0\0\0\0\0\0\x01\0";

/// The first generation, which keeps term 2 and no state.
pub(crate) const SECOND: &[u8] =
    b"ZENJRNL1\x01\0\0\0\x4a\x84\0\0\0\0\0\0\0\x01\0\0\0\0\0\0\0\x02\0\0\0\0\0\0\0\0\0\0\0\0\0\0\0\0\0\0\0\0\0\0\0\0\0\
    \x31\x5e\x4d\x0e\x40\x61\x2b\x08\x27\x3e\x76\x0f\xf6\x89\x17\x78\xcd\x8a\x63\x4a\x9a\x49\x52\x51\x2a\x67\xc2\x1b\xad\xf6\xdb\x33\0";

/// The same with term 3 in the place of term 2.
pub(crate) const SECOND_CHANGED: &[u8] =
    b"ZENJRNL1\x01\0\0\0\x4a\x84\0\0\0\0\0\0\0\x01\0\0\0\0\0\0\0\x03\0\0\0\0\0\0\0\0\0\0\0\0\0\0\0\0\0\0\0\0\0\0\0\0\0\
    \x31\x5e\x4d\x0e\x40\x61\x2b\x08\x27\x3e\x76\x0f\xf6\x89\x17\x78\xcd\x8a\x63\x4a\x9a\x49\x52\x51\x2a\x67\xc2\x1b\xad\xf6\xdb\x33\0";
