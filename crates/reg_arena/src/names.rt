//! The names of the registers, in the order of their first calls.
ghost use Rattle.std.specs.Prelude.{◌≡◌, ◌<◌, [], length, slice_get, Some, OnErr, OnOk};
ghost use Rattle.reg_arena.specs.Step.{names_and};
ghost use Rattle.history_text.specs.Limits.{IsName};

use history_text::Name;
use std::alloc::{AllocError, Global};
use std::marker::Model;

/// Names by their numbers.
#[derive(Drop)]
pub(crate) struct Names {
    names: Vec<Name>,
}

impl Model for Names {
    ghost use Rattle.std.specs.Prelude.{ℕ, List};

    ghost Value = { List (List ℕ) };

    ghost view = { λ n. n.names.items };
}

impl Names {
    /// No names.
    pub(crate) fn new(alloc: Global) -> Self
        ensures { result ≡ [] }
    {
        Names {
            names: Vec::new(alloc),
        }
    }

    pub(crate) fn len(&self) -> usize
        ensures { result ≡ length self.now }
    {
        self.names.len()
    }

    /// The name with a number.
    pub(crate) fn get(&self, number: u32) -> &str
        requires { number < length self.now }
        ensures at { slice_get self.now number ≡ Some result.now }
        ensures bound { IsName result.now }
    {
        self.names[number as usize].as_str()
    }

    /// Adds a name after the others, if there is one. If memory runs out, they stay as they are.
    pub(crate) fn add(&mut self, name: Option<Name>) -> Result<(), AllocError>
        ensures ok { OnOk result (self.new ≡ names_and self.old name) }
        ensures err { OnErr result (self.new ≡ self.old) }
    {
        if let Some(name) = name {
            self.names.push(name)?;
        }
        Ok(())
    }

    /// Forgets all names.
    pub(crate) fn clear(&mut self)
        ensures { self.new ≡ [] }
    {
        self.names.clear();
    }
}
