//! A read that gave an old value.

/// A read that gave an old value, with what shows it. Operations are named by their places.
#[derive(Clone, Copy, Debug, PartialEq, Eq)]
pub struct OldRead {
    /// The read.
    pub read: u32,
    /// An earlier operation that had the newer value: the write itself, or a read of it.
    pub earlier: u32,
    /// The newer write.
    pub newer: u32,
    /// The operation that had the read's value first: it precedes the newer write.
    pub seen: u32,
}
