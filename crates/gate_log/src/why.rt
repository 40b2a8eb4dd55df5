//! Why two files are no journal, as types and as text.
ghost use Rattle.std.specs.Prelude.{◌≡◌, [], codes};
ghost use Rattle.zen_disk.specs.declared.side.Side.TheVariants.{Zero, One};

use thiserror::Error;
use zen_disk::Side;

/// Why one of the two files is none of a journal: its first fault. All but `Header` have the offset of the open gate before the
/// body, in bytes.
#[derive(Clone, Copy, Debug, PartialEq, Eq, Error)]
pub enum Fault {
    /// It is longer than nine bytes, and its first eight are not the header.
    #[error("Header")]
    Header,
    /// The length, the body or the gate after it would stand past the end.
    #[error("Cut({0})")]
    Cut(u64),
    /// The length is over 8,388,608 bytes.
    #[error("Long({0})")]
    Long(u64),
    /// The body begins a generation but is not the first or has no epoch, or it is the first of side one and begins none.
    #[error("Order({0})")]
    Order(u64),
}

/// Why two files are no journal: their first fault, that of side zero before that of side one, and `Twin` last.
///
/// It is written as `Cut(8)` on side zero, `1:Cut(8)` on side one, and `Twin`.
#[derive(Clone, Copy, Debug, PartialEq, Eq, Error)]
pub enum Why {
    /// The fault of this side.
    #[error("{mark}{1}", mark = mark_of(.0))]
    At(Side, Fault),
    /// Both sides have one epoch.
    #[error("Twin")]
    Twin,
}

/// What is written before a fault of this side: nothing, or `1:`.
pub fn mark_of(side: &Side) -> &'static str
    ensures zero { side.now ≡ Zero → result.now ≡ [] }
    ensures one { side.now ≡ One → result.now ≡ codes "1:" }
{
    match *side {
        Side::Zero => "",
        Side::One => "1:",
    }
}
