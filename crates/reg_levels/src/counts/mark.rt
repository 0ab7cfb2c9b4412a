//! A mark of an operation.

/// What a search for operations goes by.
#[derive(Clone, Copy, Debug, PartialEq, Eq)]
pub(crate) struct Mark {
    /// Operations are searched for by this number.
    pub(crate) key: u32,
    /// Of several, the one with the least rank is found.
    pub(crate) rank: u32,
    /// The place of the operation.
    pub(crate) place: u32,
    /// The place of the write of its value.
    pub(crate) newer: u32,
}
