//! Why two files are no journal of changes, as types and as text.
use cluster_state::FieldError;
use gate_log::mark_of;
use thiserror::Error;
use zen_disk::Side;

/// What is wrong with a body: the first fault from left to right.
#[derive(Clone, Copy, Debug, PartialEq, Eq, Error)]
pub enum BodyFault {
    /// Its first byte is none of 1 to 4 and 129 to 132, or it has no byte.
    #[error("Tag")]
    Tag,
    /// A field of it is wrong.
    #[error("{0:?}")]
    Field(FieldError),
    /// Bytes are left after its last field.
    #[error("Trailing")]
    Trailing,
}

/// The first fault of one file. All but `Header` have the offset of the open gate before the body.
#[derive(Clone, Copy, Debug, PartialEq, Eq, Error)]
pub enum Fault {
    /// It is longer than nine bytes, and its first eight are not the header.
    #[error("Header")]
    Header,
    /// The length, the body or the gate after it would stand past the end.
    #[error("Cut({0})")]
    Cut(u64),
    /// The length is over 8,388,608 bytes.
    #[error("Long({0})")]
    Long(u64),
    /// The body spells no change.
    #[error("Body({0},{1})")]
    Body(u64, BodyFault),
    /// The body is of version 2, and its digest is not that of its tag and fields.
    #[error("Damaged({at})")]
    Damaged {
        at: u64,
        stored: [u8; 32],
        found: [u8; 32],
    },
    /// The body sets a term that is not greater than the one so far, or accepts a state of a greater term, or begins a
    /// generation where none may begin, with no epoch or with a state of a term above its own, or is of version 1 and
    /// follows one of version 2.
    #[error("Order({0})")]
    Order(u64),
}

/// Why two files are no journal: their first fault. Faults of layout and order of bodies come first, side zero's before side
/// one's, then `Twin`, then what the bodies hold, side zero's first.
///
/// It is written as `Cut(8)` on side zero, `1:Cut(8)` on side one, and `Twin`.
#[derive(Clone, Copy, Debug, PartialEq, Eq, Error)]
pub enum Why {
    /// The fault of this side.
    #[error("{mark}{1}", mark = mark_of(.0))]
    At(Side, Fault),
    /// Both sides have one epoch.
    #[error("Twin")]
    Twin,
}
