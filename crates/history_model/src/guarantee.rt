//! What a store may promise of the order of its operations.

/// How much of what precedes an operation an order of one register must respect. All but `Sequential` keep
/// the real time of writes.
#[derive(Clone, Copy, Debug, PartialEq, Eq)]
pub enum Guarantee {
    /// All of it: linearizable (Herlihy and Wing, 1990).
    Atomic,
    /// A write respects all that precedes it; a read respects what its own session did.
    Session,
    /// A write respects all that precedes it; a read respects what its own session wrote: read your writes
    /// (Terry, Demers, Petersen, Spreitzer, Theimer and Welch, Session Guarantees for Weakly Consistent
    /// Replicated Data, 1994).
    OwnWrites,
    /// A write respects all that precedes it; a read respects what its own session read: monotonic reads
    /// (Terry et al., 1994).
    Monotonic,
    /// Each operation respects what its own session did: sequential consistency (Lamport, How to Make a
    /// Multiprocessor Computer That Correctly Executes Multiprocess Programs, 1979) of one register.
    Sequential,
    /// A write respects all that precedes it; a read respects what ended at least this many events before its
    /// call: Δ-atomicity (Golab, Li and Shah, Analyzing Consistency Properties for Fun and Profit, 2011).
    Within(u32),
}
