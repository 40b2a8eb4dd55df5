//! How an act ended, as a trace shows it.
use world_model::Cause;

/// How an act ended, as a trace shows it.
#[derive(Clone, Copy, Debug, PartialEq, Eq)]
pub enum Ending {
    Taken,
    Refused(Cause),
    /// An earlier act met a fault of the disk.
    Stopped,
    /// The disk failed.
    Disk,
    /// The node crashed inside the act.
    Crashed,
}
