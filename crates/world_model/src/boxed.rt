//! `BoxedKept`: a record in a place of its own.
ghost use Rattle.std.specs.Prelude.{◌≡◌, IfOk};

use cluster_state::Kept;
use std::alloc::{AllocError, Global};
use std::marker::Model;

/// A record in a place of its own, since a record has room for a set of ids, and an act is handed on with its outcome. Contracts see the
/// record.
#[derive(Drop)]
pub struct BoxedKept {
    kept: Box<Kept>,
}

impl Model for BoxedKept {
    ghost use Rattle.cluster_state.specs.declared.state.Kept.{Kept};

    ghost Value = { Kept };

    ghost view = { λ b. b.kept.value };
}

impl BoxedKept {
    /// This record, in a place of its own. The error means that memory ran out.
    pub fn of(alloc: Global, kept: Kept) -> Result<BoxedKept, AllocError>
        ensures { IfOk result (λ boxed. boxed ≡ kept) }
    {
        match Box::new(alloc, kept) {
            Ok(kept) => Ok(BoxedKept { kept }),
            Err(_) => Err(AllocError),
        }
    }

    /// The record.
    pub fn kept(&self) -> &Kept
        ensures { result.now ≡ self.now }
    {
        &self.kept
    }
}
