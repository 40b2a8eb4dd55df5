//! Values in places of their own.
ghost use Rattle.std.specs.Prelude.{◌≡◌, IfOk};

use std::alloc::{AllocError, Global};
use std::marker::Model;

/// A value in a place of its own, since it has some kilobytes and is handed on with each act. Contracts see the value.
#[derive(Drop)]
pub struct Placed<T> {
    pub value: Box<T>,
}

impl<T> Model for Placed<T> {
    ghost Value = { T };

    ghost view = { λ p. p.value.value };
}

impl<T: Drop> Placed<T> {
    /// This value.
    pub fn of(alloc: Global, value: T) -> Result<Placed<T>, AllocError>
        ensures { IfOk result (λ p. p ≡ value) }
    {
        match Box::new(alloc, value) {
            Ok(value) => Ok(Placed { value }),
            Err(_) => Err(AllocError),
        }
    }
}
