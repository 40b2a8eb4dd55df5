//! Why a tool has not made its record.

/// Why a tool has not made its record: the first of these that holds.
#[derive(Clone, Copy, Debug, PartialEq, Eq, thiserror::Error)]
pub enum ToolError {
    /// The node has no state: its accepted configuration is empty.
    #[error("the node has no state")]
    NoState,
    /// The accepted version is the last one, 2^62.
    #[error("no version comes after {0}")]
    Exhausted(u64),
    /// An earlier write met a fault of the disk.
    #[error("an earlier write met a fault of the disk")]
    Stopped,
    /// There is no memory for the new state.
    #[error("no memory")]
    Memory,
    /// The disk failed.
    #[error("the disk failed")]
    Disk,
}
