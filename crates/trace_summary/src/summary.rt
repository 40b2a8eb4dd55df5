//! `Tally`: the summary of a trace that comes piece by piece.
ghost use Rattle.std.specs.Prelude.{◌≡◌, ℕ, List, [], ◌++◌, OnOk};
ghost use Rattle.trace_summary.specs.Summaries.{summary_of};
ghost use Rattle.trace_summary.specs.Tallies.{EndsLine, Tallies};

use crate::counts::Counts;
use sha2::{Digest, Sha256};
use std::alloc::AllocError;

/// What a trace comes to.
#[derive(Clone, Copy, Debug, PartialEq, Eq)]
pub struct Summary {
    pub counts: Counts,
    pub trace_bytes: u64,
    /// The SHA-256 of the trace's bytes.
    pub digest: [u8; 32],
}

/// The summary of a trace that comes piece by piece, of which none is kept.
#[derive(Drop)]
pub struct Tally {
    counts: Counts,
    trace_bytes: u64,
    hasher: Sha256,
}

impl Tally {
    /// The tally of the empty trace.
    pub fn new() -> Tally
        ensures { Tallies result [] }
    {
        Tally {
            counts: Counts::new(),
            trace_bytes: 0,
            hasher: Sha256::new(),
        }
    }

    /// Adds a piece, after whole lines. Where it is an error, a count has passed 2^64, and the tally is of no use.
    pub fn add(&mut self, piece: &[u8]) -> Result<(), AllocError>
        ensures { OnOk result ((text : List ℕ) → EndsLine text → Tallies self.old text → Tallies self.new (text ++ piece.now)) }
    {
        let Some(trace_bytes) = self.trace_bytes.checked_add(piece.len() as u64) else {
            return Err(AllocError);
        };
        self.counts = self.counts.with_lines(piece)?;
        self.trace_bytes = trace_bytes;
        self.hasher.update(piece);
        Ok(())
    }

    /// The summary of all that was added.
    pub fn finish(self) -> Summary
        ensures { (text : List ℕ) → Tallies self text → result ≡ summary_of text }
    {
        Summary {
            counts: self.counts,
            trace_bytes: self.trace_bytes,
            digest: self.hasher.finalize(),
        }
    }
}
