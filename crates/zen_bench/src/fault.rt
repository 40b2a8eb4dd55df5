//! Why a run did not come to its end.
ghost use Rattle.std.specs.Prelude.{◌≡◌, IfOk, Ok};

use std::alloc::{AllocError, AllocFailed};
use std::io;

/// Why a run did not come to its end.
#[derive(Clone, Copy)]
pub enum Fault {
    /// Memory was lacking outside an event and an opening.
    Memory,
    /// What came is not what was to come.
    Unexpected(&'static str),
}

impl From<AllocError> for Fault {
    fn from(_: AllocError) -> Fault {
        Fault::Memory
    }
}

impl<T: Drop> From<AllocFailed<T>> for Fault {
    fn from(_: AllocFailed<T>) -> Fault {
        Fault::Memory
    }
}

impl From<io::Error> for Fault {
    fn from(error: io::Error) -> Fault {
        if error.kind() == io::ErrorKind::OutOfMemory {
            Fault::Memory
        } else {
            Fault::Unexpected("the words or the line that is printed")
        }
    }
}

/// What came, or a fault with this text where an error came.
pub fn expected<T, E: Drop>(came: Result<T, E>, text: &'static str) -> Result<T, Fault>
    ensures { IfOk result (λ value. came ≡ Ok value) }
{
    match came {
        Ok(value) => Ok(value),
        Err(_) => Err(Fault::Unexpected(text)),
    }
}
