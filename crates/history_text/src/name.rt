//! The name of a register.
ghost use Rattle.std.proofs.Common.{rules};
ghost use Rattle.std.specs.Cmp.Lexicographic.{nat_list_eq_equiv};
ghost use Rattle.std.specs.Cmp.Rules.{comparing, hashing};
ghost use Rattle.std.specs.Hash as fed;
ghost use Rattle.std.specs.Prelude.{◌≡◌, ℕ, List, IfOk};
ghost use Rattle.std.specs.Str.{bytes_eq};
ghost use Rattle.history_text.specs.Limits.{IsName};
ghost use Rattle.history_text.specs.Names.{bytes_of};

use arrayvec::ArrayString;
use std::alloc::{AllocError, Global};
use std::fmt;
use std::hash::{Hash, Hasher};
use std::marker::Model;

/// A text, which takes memory of its own only if it is long.
#[derive(Drop)]
enum Text {
    /// A text of at most 15 bytes, which lie in the value itself.
    Short(ArrayString<15>),
    /// Any other text.
    Long(String),
}

impl Text {
    fn as_str(&self) -> &str
        ensures { result.now ≡ bytes_of self.now }
    {
        match self {
            Text::Short(text) => text.as_str(),
            Text::Long(text) => text.as_str(),
        }
    }
}

impl fmt::Debug for Text {
    fn fmt<W: fmt::Write>(&self, f: &mut fmt::Formatter<W>) -> fmt::Result {
        fmt::Debug::fmt(self.as_str(), f)
    }
}

/// The name of a register: a text of 1 to [`MAX_NAME`](crate::MAX_NAME) bytes.
///
/// Contracts see it as its UTF-8 bytes. Two names are the same register's if their bytes are equal.
#[derive(Debug, Drop)]
pub struct Name {
    text: Text,
}

impl Model for Name {
    ghost use Rattle.std.specs.Prelude.{ℕ, List};
    ghost use Rattle.history_text.specs.Limits.{IsName};
    ghost use Rattle.history_text.specs.Names.{bytes_of};

    ghost Value = { List ℕ };

    ghost view = { λ n. bytes_of n.text };

    ghost invariant = { λ n. IsName (bytes_of n.text) };
}

impl PartialEq for Name {
    ghost eq = { bytes_eq };

    ghost laws = { Prim.search (comparing, rules) };

    fn eq(&self, other: &Name) -> bool {
        self.as_str() == other.as_str()
    }
}

impl Eq for Name {
    ghost laws = { nat_list_eq_equiv };
}

impl Hash for Name {
    ghost hash_input = { fed.str };

    ghost respects_eq = { Prim.search (hashing, rules) };

    fn hash<H: Hasher>(&self, state: &mut H) {
        self.as_str().hash(state);
    }
}

impl Name {
    /// The name of the register `text`.
    ///
    /// The error says that memory ran out; nothing is kept then.
    pub fn new(alloc: Global, text: &str) -> Result<Self, AllocError>
        requires { IsName text.now }
        ensures { IfOk result (λ n. n ≡ text.now) }
    {
        let text = match ArrayString::from(text) {
            Ok(short) => Text::Short(short),
            Err(_) => Text::Long(String::from_str(alloc, text)?),
        };
        Ok(Name { text })
    }

    /// The text of the name, of 1 to [`MAX_NAME`](crate::MAX_NAME) bytes.
    pub fn as_str(&self) -> &str
        ensures text { result.now ≡ self.now }
        ensures bound { IsName result.now }
    {
        self.text.as_str()
    }
}
