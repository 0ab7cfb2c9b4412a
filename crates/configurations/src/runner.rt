//! A configuration between two legs.

/// How a call stands in a configuration.
#[derive(Clone, Copy, PartialEq, Eq)]
pub(crate) enum Stand {
    /// It must still take effect.
    Owed,
    /// It may.
    Free,
    /// It did.
    Gone,
}

/// A configuration, with the stand of each call of its baton.
#[derive(Drop)]
pub(crate) struct Runner {
    pub value: u32,
    pub last: u32,
    pub cost: u32,
    pub stands: Vec<Stand>,
}
