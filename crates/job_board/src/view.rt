//! What a seat has.
use std::collections::LinkedList;

/// What contracts say of a seat. No value of it is ever made. Its lists are linked ones,
/// since a contract sees those as plain lists.
pub struct View {
    /// The number of jobs of the board.
    pub jobs: u64,
    /// The seat's share of the full weight; 0 once it was joined into another.
    pub weight: u64,
    /// The numbers that it drew, in order.
    pub drawn: LinkedList<u64>,
    /// The numbers that it flagged, in order.
    pub flagged: LinkedList<u64>,
    /// The lowest flagged number that it knows of, or the number of jobs.
    pub seen: u64,
    /// Whether a draw found that no number is left.
    pub exhausted: bool,
}
