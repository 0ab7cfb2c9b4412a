//! The clusters of a register's operations, each with its first reply and its last call.
//!
//! What the floor above may rely on: [`cluster_table`] gives the kept writes of a register by their calls,
//! each with the ends of its cluster, and for each operation the number of its cluster; or the first read
//! whose value nobody wrote. [`first_early`] gives the first read that precedes the write of its value, and
//! says of a register that has none that it is clean. Both take a register's operations by their calls, and
//! name them by their places in that list.
//!
//! Clusters are those of Gibbons and Korach (Testing Shared Memories, 1997). Read it in this order: `table`,
//! what the answer is; `writes`, which finds the write of a value; `sources`, the write of each operation;
//! `ends`, the ends of each cluster; `numbering`; `build`, which puts these together; `early`.

mod build;
mod early;
mod ends;
mod numbering;
mod sources;
mod table;
mod writes;

pub use build::cluster_table;
pub use early::first_early;
pub use table::{ClusterEnds, ClusterTable};
