//! What is decided of a guarantee. Operations are named by their places in the list of the register's
//! operations.

/// A step of a cycle: `before` is the write or a read of its value, and must come before `after`, which is
/// the next step's write or a read of its value.
#[derive(Clone, Copy, Debug, PartialEq, Eq)]
pub struct Step {
    pub write: u32,
    pub before: u32,
    pub after: u32,
}

/// Why no order gives the guarantee.
#[derive(Debug, PartialEq, Drop)]
pub enum LevelFault {
    /// The value of the read was never written.
    Unwritten { read: u32 },
    /// The read must come before the write of its value.
    Early { read: u32, write: u32 },
    /// Each write must come before the next one, and the last before the first.
    Cycle(Vec<Step>),
}

/// Whether a register gives a guarantee.
#[derive(Debug, PartialEq, Drop)]
pub enum Decision {
    /// It does: the numbers of its clusters, in an order that respects all that must come first.
    Kept(Vec<u32>),
    Broken(LevelFault),
}
