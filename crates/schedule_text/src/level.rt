//! The levels of schedules.

/// What the lines of a schedule act on.
#[derive(Clone, Copy, Debug, PartialEq, Eq)]
pub enum Level {
    /// The coordination cores of the nodes: lines `boot`, `startjoin` and `value`.
    Core,
    /// The nodes with their policy: lines `tick`, `client` and `disconnect`.
    Node,
}
