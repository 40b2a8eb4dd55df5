//! Why a journal is not opened.
use crate::Why;
use std::fmt::Debug;
use thiserror::Error;

/// Why a journal is not opened. Each hands the disk back.
#[derive(Debug, Drop, Error)]
#[error_bound(D: Debug)]
pub enum OpenError<D> {
    /// The two files are no journal.
    #[error("not a journal: {0}")]
    NotAJournal(Why, D),
    /// The disk failed, and its count of faults rose.
    #[error("the disk failed")]
    Disk(D),
    /// There is no memory for the files, their bodies, a state or what a renewal needs.
    #[error("no memory")]
    Memory(D),
}
