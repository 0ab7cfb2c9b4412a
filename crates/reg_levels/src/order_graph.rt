//! An order of numbered nodes in which each edge goes forward, or a cycle of edges.
//!
//! What the floors above may rely on: [`sort`] answers one of the two, never neither. Its time and its memory
//! are in proportion to the nodes and the edges. The answer depends on its arguments alone; of a graph whose
//! edges all go from lower to higher numbers the order is that of the numbers.
//!
//! Read it in this order: `edge`; `incoming`; `walk`, which orders; `along` and `shorter`, the cycle;
//! `sorting`.

mod along;
mod edge;
mod incoming;
mod shorter;
mod sorting;
mod walk;

pub use edge::Edge;
pub use sorting::{Sorted, sort};
