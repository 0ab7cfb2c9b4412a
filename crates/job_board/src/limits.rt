//! The limits of a board, one constant each.

/// The most jobs of a board.
pub const MAX_JOBS: u64 = 4_194_304;

/// What all seats of a board weigh together. Each weighs at least 1, so there are never more seats than this.
pub const FULL_WEIGHT: u64 = 16;
