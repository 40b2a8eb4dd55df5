//! Why a body is not added, and why a journal is not opened.
use crate::Why;
use std::fmt::Debug;
use thiserror::Error;

/// Why a body is not added, or a generation not begun. The first of these that holds is answered.
#[derive(Clone, Copy, Debug, PartialEq, Eq, Error)]
pub enum AppendError {
    /// An earlier call answered `Disk`.
    #[error("stopped")]
    Stopped,
    /// The body has over 8,388,608 bytes.
    #[error("too long")]
    TooLong,
    /// There is no memory for a copy of the body.
    #[error("no memory")]
    Memory,
    /// The disk failed. Its count of faults rose, and every later call is `Stopped`.
    #[error("the disk failed")]
    Disk,
}

/// Why a journal is not opened. Each hands the disk back.
#[derive(Debug, Drop, Error)]
#[error_bound(D: Debug)]
pub enum LogError<D> {
    /// The two files are no journal.
    #[error("not a journal: {0}")]
    NotAJournal(Why, D),
    /// The disk failed, and its count of faults rose.
    #[error("the disk failed")]
    Disk(D),
    /// There is no memory for the files and their bodies.
    #[error("no memory")]
    Memory(D),
}
