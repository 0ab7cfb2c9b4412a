//! What an operation does to its register.
ghost use Rattle.std.specs.Prelude.{◌≡◌};
ghost use Rattle.history_model.specs.Acts.{changes as is_changing, left_by, suits as is_suited};

use history_text::Val;

/// What an operation does to its register.
#[derive(Clone, Copy, Debug, PartialEq, Eq)]
pub enum Act {
    /// It gives this value, if that is known; of a read without a reply it isn't.
    Read(Option<Val>),
    /// It gives the register this value.
    Write(Val),
    /// A cas that took place, or one without a reply: it finds `from`, and gives the register `to`.
    Cas { from: Val, to: Val },
    /// The same of a cas that finds any value but `unless`.
    CasUnless { unless: Val, to: Val },
    /// A cas that missed: it finds another value than `from`.
    Miss { from: Val },
}

impl Act {
    /// Whether it may meet this value.
    pub fn suits(&self, value: Val) -> bool
        ensures { result ≡ is_suited self.now value }
    {
        match self {
            Act::Read(None) => true,
            Act::Read(Some(given)) => value == *given,
            Act::Write(_) => true,
            Act::Cas { from, .. } => value == *from,
            Act::CasUnless { unless, .. } => value != *unless,
            Act::Miss { from } => value != *from,
        }
    }

    /// The value after it, if it meets this one.
    pub fn left(&self, value: Val) -> Val
        ensures { result ≡ left_by self.now value }
    {
        match self {
            Act::Read(_) => value,
            Act::Write(written) => *written,
            Act::Cas { to, .. } => *to,
            Act::CasUnless { to, .. } => *to,
            Act::Miss { .. } => value,
        }
    }

    /// Whether it gives the register a value.
    pub fn changes(&self) -> bool
        ensures { result ≡ is_changing self.now }
    {
        match self {
            Act::Read(_) => false,
            Act::Write(_) => true,
            Act::Cas { .. } => true,
            Act::CasUnless { .. } => true,
            Act::Miss { .. } => false,
        }
    }
}
