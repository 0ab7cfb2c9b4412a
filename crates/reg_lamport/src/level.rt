//! The two levels of a register with a single writer.

/// What a register owes each completed read (Lamport, On Interprocess Communication, Part II, 1986).
#[derive(Clone, Copy, Debug, PartialEq, Eq)]
pub enum Level {
    /// A read that no write overlaps gives the value of its old write.
    Safe,
    /// Each read gives the value of its old write or of a write that overlaps it.
    Regular,
}
