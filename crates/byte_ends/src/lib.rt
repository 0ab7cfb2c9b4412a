//! Sources of bytes and sinks for them, whose contracts tell what a source has left, what a sink
//! has taken, and how often each has failed.
//!
//! What the floor above may rely on: whoever works with any [`Source`] and any [`Sink`] works with every
//! reader, by [`FromReader`], with every writer, by [`FromWriter`], and with memory, by [`MemSource`] and
//! [`MemSink`], which give and take little at a time and fail if they are told to.
//!
//! [`deliver`] pushes all of some bytes, however few a sink takes at a time.
//!
//! Read it in this order: `ends`, the two traits; `delivery`; `adapters`; `mem_source` and `mem_sink`.
#![tactic(auto)]

mod adapters;
mod delivery;
mod ends;
mod mem_sink;
mod mem_source;
#[cfg(test)]
mod tests;

pub use adapters::{FromReader, FromWriter};
pub use delivery::deliver;
pub use ends::{IoFail, Sink, Source};
pub use mem_sink::MemSink;
pub use mem_source::MemSource;
