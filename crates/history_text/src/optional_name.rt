//! A name that most lines leave out.
ghost use Rattle.std.proofs.Common.{rules};
ghost use Rattle.std.specs.Cmp.Rules.{comparing};
ghost use Rattle.std.specs.Option.{option_copied, option_eq};
ghost use Rattle.std.specs.Prelude.{◌≡◌, IfOk, None, Some};
ghost use Rattle.std.specs.Str.{bytes_eq};
ghost use Rattle.history_text.specs.Limits.{IsName};

use crate::name::Name;
use std::alloc::{AllocError, Global};
use std::fmt;
use std::marker::Model;

/// A name, if there is one. It takes memory of its own only if it is
/// there, so that a line without one is short.
///
/// Contracts see it as the bytes of the name, if there is one.
#[derive(Drop)]
pub struct OptionalName {
    name: Option<Box<Name>>,
}

impl Model for OptionalName {
    ghost use Rattle.std.specs.Prelude.{ℕ, List, Option, option_map};

    ghost Value = { Option (List ℕ) };

    ghost view = { λ n. option_map (λ b. b.value) n.name };
}

impl fmt::Debug for OptionalName {
    fn fmt<W: fmt::Write>(&self, f: &mut fmt::Formatter<W>) -> fmt::Result {
        fmt::Debug::fmt(&self.get(), f)
    }
}

impl PartialEq for OptionalName {
    ghost eq = { option_eq bytes_eq };

    ghost laws = { Prim.search (comparing, rules) };

    fn eq(&self, other: &OptionalName) -> bool {
        match (self.get(), other.get()) {
            (Some(one), Some(two)) => one == two,
            (None, None) => true,
            _ => false,
        }
    }
}

impl OptionalName {
    /// No name.
    pub fn none() -> Self
        ensures { result ≡ None }
    {
        OptionalName { name: None }
    }

    /// The name `text`.
    ///
    /// The error says that memory ran out; nothing is kept then.
    pub fn new(alloc: Global, text: &str) -> Result<Self, AllocError>
        requires { IsName text.now }
        ensures { IfOk result (λ n. n ≡ Some text.now) }
    {
        let name = Box::new(alloc, Name::new(alloc, text)?)?;
        Ok(OptionalName { name: Some(name) })
    }

    /// The name, if there is one.
    pub fn get(&self) -> Option<&Name>
        ensures { option_copied result ≡ self.now }
    {
        self.name.as_deref()
    }
}
