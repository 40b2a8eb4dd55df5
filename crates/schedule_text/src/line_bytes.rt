//! The bytes of a client's line.
ghost use Rattle.std.specs.Prelude.{◌≡◌, IfOk};

use std::alloc::{AllocError, Global};
use std::marker::Model;

/// The bytes of a client's line, its line feed not among them. Contracts see the list of them.
#[derive(Drop)]
pub struct LineBytes {
    bytes: Vec<u8>,
}

impl Model for LineBytes {
    ghost use Rattle.std.specs.Prelude.{ℕ, List};

    ghost Value = { List ℕ };

    ghost view = { λ l. l.bytes.items };
}

impl LineBytes {
    /// A line of these bytes.
    pub fn of(alloc: Global, bytes: &[u8]) -> Result<LineBytes, AllocError>
        ensures { IfOk result (λ l. l ≡ bytes.now) }
    {
        let bytes = Vec::from_slice(alloc, bytes)?;
        Ok(LineBytes { bytes })
    }

    /// The bytes, in order.
    pub fn as_slice(&self) -> &[u8]
        ensures { result.now ≡ self.now }
    {
        self.bytes.as_slice()
    }
}
