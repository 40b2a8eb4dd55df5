//! The errors of the system as those of a host.
use std::io;
use zen_host::HostError;

/// What a host says of an error of the system.
pub(crate) fn error_of(error: io::Error) -> HostError {
    if error.kind() == io::ErrorKind::OutOfMemory {
        HostError::Memory
    } else {
        HostError::Failed
    }
}
