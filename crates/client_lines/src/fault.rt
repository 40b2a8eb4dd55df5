//! Why a line is no request.

ghost use Rattle.std.specs.Prelude.{◌≡◌};
ghost use Rattle.client_lines.specs.declared.fault.LineError.TheVariants as error;

use cluster_state::LineFault;
use std::alloc::{AllocError, AllocFailed};

/// Why a line was not read.
#[derive(Clone, Copy, Debug, PartialEq, Eq, thiserror::Error)]
pub enum LineError {
    #[error("{0}")]
    Fault(LineFault),
    #[error("out of memory")]
    Memory,
}

impl From<LineFault> for LineError {
    ghost from_gives = { λ f e. e ≡ error.Fault f };

    fn from(fault: LineFault) -> LineError {
        LineError::Fault(fault)
    }
}

impl From<AllocError> for LineError {
    ghost from_gives = { λ _ e. e ≡ error.Memory };

    fn from(_e: AllocError) -> LineError {
        LineError::Memory
    }
}
