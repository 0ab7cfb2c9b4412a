//! The table of a history's sessions.

/// The sessions of a history's operations, and what each operation learns of at once. Operations are named by
/// their places.
#[derive(Debug, Drop)]
pub struct SessionTable {
    /// How many sessions there are.
    pub count: u32,
    /// For each operation the number of its session, from 0; none of an initial write.
    pub numbers: Vec<Option<u32>>,
    /// For each operation the one that its session called last before it.
    pub previous: Vec<Option<u32>>,
    /// For each completed read the write of its value; none of every other operation.
    pub sources: Vec<Option<u32>>,
}
