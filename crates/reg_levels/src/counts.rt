//! How stale reads got: counts of old reads and lost writes, for any number of writers.
//!
//! What the floor above may rely on: [`measured`] gives for a register five counts, each with the first
//! operation that it counts: reads that missed a write that precedes them (stale), a write of their own
//! session (own), or a newer value that their session (back) or any session (inverted) had read; and writes
//! that no read gave after them (lost). [`stale_reads`] and the calls beside it list all of each kind. The
//! register is regular if it is clean and no read is stale, [`Staleness::is_fresh`]; of one that isn't clean
//! the counts say little.
//!
//! Each takes n log n steps. Read it in this order: `old_read` and `mark`; `reads` (the cluster of a read)
//! and `marks`; `ranking` and `session`, which find the mark that shows a read to be old; `old_reads` and
//! `lost`, which list; `measure`; `laws`, what the counts tell of guarantees.

pub mod laws;
mod lost;
mod mark;
mod marks;
mod measure;
mod old_read;
mod old_reads;
mod ranking;
mod reads;
mod session;

pub use lost::lost_writes;
pub use measure::{KindCounts, Staleness, measured};
pub use old_read::OldRead;
pub use old_reads::{back_reads, inverted_reads, own_missed_reads, stale_reads};
