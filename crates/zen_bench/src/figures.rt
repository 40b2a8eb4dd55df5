//! What a run prints.
use crate::counts::Counts;
use std::fmt;

/// What a run prints.
#[derive(Clone, Copy)]
pub enum Figures {
    /// The version that is committed, and how many settings its value has.
    Committed { version: u64, settings: usize },
    /// The term that a journal keeps, and in how many records.
    Kept { term: u64, records: u64 },
    /// How many frames were given or written.
    Frames(u64),
    /// What coordinators sealed.
    Sealed(Counts),
}

impl fmt::Display for Figures {
    fn fmt<W: fmt::Write>(&self, f: &mut fmt::Formatter<W>) -> fmt::Result {
        match self {
            Figures::Committed { version, settings } => {
                write!(f, "version {version} with {settings} settings is committed")
            }
            Figures::Kept { term, records } => write!(f, "term {term} in {records} records"),
            Figures::Frames(count) => write!(f, "{count} frames"),
            Figures::Sealed(counts) => write!(f, "{counts}"),
        }
    }
}
