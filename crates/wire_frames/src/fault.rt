//! Why bytes are no frame.

ghost use Rattle.std.specs.Prelude.{◌≡◌};
ghost use Rattle.wire_frames.specs.declared.fault.FrameError.TheVariants as fault;

use cluster_state::FieldError;

/// What is wrong with the bytes of a frame: the first fault from left to right.
#[derive(Clone, Copy, Debug, PartialEq, Eq, thiserror::Error)]
pub enum FrameError {
    /// The length is over [`MAX_BODY`](crate::MAX_BODY).
    #[error("the length is too large")]
    TooLong,
    /// No message has this byte as its kind.
    #[error("no message is of kind {0}")]
    UnknownKind(u8),
    #[error("a field is bad: {0}")]
    Field(FieldError),
    /// Bytes are left after the last field.
    #[error("bytes are left behind the last field")]
    Trailing,
}

impl From<FieldError> for FrameError {
    ghost from_gives = { λ f e. e ≡ fault.Field f };

    fn from(field: FieldError) -> FrameError {
        FrameError::Field(field)
    }
}
