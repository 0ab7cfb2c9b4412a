//! A value that lies apart from the one that has it.
ghost use Rattle.std.specs.Prelude.{◌≡◌, IfOk};

use std::alloc::{AllocError, Global};
use std::marker::Model;

/// A value that takes memory of its own, so that an enum which rarely has it is short.
///
/// Contracts see it as the value.
#[derive(Debug, Drop)]
pub struct Apart<T> {
    value: Box<T>,
}

impl<T> Model for Apart<T> {
    ghost Value = { T };

    ghost view = { λ a. a.value.value };
}

impl<T: Copy> Apart<T> {
    /// The value, in memory of its own.
    ///
    /// The error says that memory ran out; nothing is kept then.
    pub fn new(alloc: Global, value: T) -> Result<Self, AllocError>
        ensures { IfOk result (λ a. a ≡ value) }
    {
        Ok(Apart {
            value: Box::new(alloc, value)?,
        })
    }

    /// The value.
    pub fn get(&self) -> T
        ensures { result ≡ self.now }
    {
        *self.value
    }
}
