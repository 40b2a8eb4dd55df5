//! What watches a trace while it is written, as its summary does.
ghost use Rattle.std.specs.Prelude.{ℕ, List, ◌++◌, OnOk};
ghost use Rattle.trace_summary.specs.Tallies.{EndsLine, Tallies};

use std::alloc::AllocError;
use trace_summary::Tally;

/// What is shown a trace, line by line, while it is written.
pub trait Observer {
    /// What was shown so far is this text.
    ghost saw: { Self → List ℕ → Type 0 };

    /// Takes a piece after whole lines. The error means that memory ran out, or that a count has passed 2^64, and the observer is of no use
    /// then.
    fn observe(&mut self, piece: &[u8]) -> Result<(), AllocError>
        ensures { OnOk result ((text : List ℕ) → EndsLine text → saw self.old text → saw self.new (text ++ piece.now)) };
}

impl Observer for Tally {
    ghost saw = { Tallies };

    fn observe(&mut self, piece: &[u8]) -> Result<(), AllocError> {
        self.add(piece)?;
        Ok(())
    }
}

/// Takes nothing in.
#[derive(Clone, Copy)]
pub struct Nobody;

impl Observer for Nobody {
    ghost saw = { λ nobody text. Unit {0} };

    fn observe(&mut self, _piece: &[u8]) -> Result<(), AllocError> {
        Ok(())
    }
}
