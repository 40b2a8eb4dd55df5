//! The bytes of large states.
use std::alloc::{AllocError, Global};

/// The term of all states.
pub const TERM: u64 = 1;

// The nodes a to e, as a set of ids is spelled.
const MEMBERS: &[u8] = b"\x05\x01a\x01b\x01c\x01d\x01e";

const TEXT: [u8; 1024] = [b'x'; 1024];

/// Adds these parts, one after the other.
pub fn add_all(bytes: &mut Vec<u8>, parts: &[&[u8]]) -> Result<(), AllocError> {
    for part in parts {
        bytes.extend_from_slice(part)?;
    }
    Ok(())
}

// A setting with a key of 128 bytes and a text of 1,024.
fn add_setting(alloc: Global, bytes: &mut Vec<u8>, number: u16) -> Result<(), AllocError> {
    let key = format!(in alloc; "{number:0128}")?;
    add_all(bytes, &[&[0, 128], key.as_bytes(), &[4, 0], &TEXT])
}

/// The bytes of a state of so many full settings, whose parent is the state of the version before.
pub fn state_bytes(alloc: Global, version: u64, settings: u16) -> Result<Vec<u8>, AllocError> {
    // The first parent is 0/0, the others are of the term.
    let parent = version.saturating_sub(1);
    let mut bytes = Vec::new(alloc);
    add_all(
        &mut bytes,
        &[
            &TERM.to_be_bytes(),
            &version.to_be_bytes(),
            &[1],
            &parent.min(TERM).to_be_bytes(),
            &parent.to_be_bytes(),
            // The configuration, the committed one, and a value with no master, members or exclusions.
            MEMBERS,
            MEMBERS,
            &[0, 0, 0],
            &settings.to_be_bytes(),
        ],
    )?;
    for number in 0..settings {
        add_setting(alloc, &mut bytes, number)?;
    }
    Ok(bytes)
}
