//! How much a decision may take. Beyond it the answer is `Decision::Unknown`.

/// The most edges that the graph of a history may have.
pub const MAX_EDGES: u32 = 1 << 25;

/// The most entries of clocks that may be held at once: an entry is one operation's for one session.
pub const MAX_CLOCKS: u64 = 1 << 26;

/// The most entries that the clocks of all operations may have together.
pub const MAX_WORK: u64 = 1 << 31;

/// The most places that the searches of one answer may meet, for what reads knew; beyond it, that is left
/// out.
pub const MAX_MET: u32 = 1 << 26;
