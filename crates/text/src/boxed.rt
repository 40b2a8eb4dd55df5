//! What lies in a place of its own, so that what holds it stays small.
ghost use Rattle.std.specs.Prelude.{◌≡◌, IfOk};

use std::alloc::{AllocError, Global};
use std::marker::Model;

/// A value in a place of its own: a line that holds it stays small. Contracts see the value.
#[derive(Drop)]
pub struct Boxed<T> {
    value: Box<T>,
}

impl<T> Model for Boxed<T> {
    ghost Value = { T };

    ghost view = { λ b. b.value.value };
}

impl<T: Drop> Boxed<T> {
    /// This value.
    pub fn of(alloc: Global, value: T) -> Result<Boxed<T>, AllocError>
        ensures { IfOk result (λ b. b ≡ value) }
    {
        match Box::new(alloc, value) {
            Ok(value) => Ok(Boxed { value }),
            Err(_) => Err(AllocError),
        }
    }

    /// The value, lent.
    pub fn lend(&self) -> &T
        ensures { result.now ≡ self.now }
    {
        &*self.value
    }
}

impl<T: Copy + Drop> Boxed<T> {
    /// The value.
    pub fn get(&self) -> T
        ensures { result ≡ self.now }
    {
        *self.value
    }
}
