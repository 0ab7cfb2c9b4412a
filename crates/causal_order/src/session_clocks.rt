//! What each operation of a history knows of the sessions: of each, how far.
//!
//! What the floors above may rely on: [`session_table`] numbers the sessions, and gives for each operation
//! the one that its session called last before it and, of a completed read, the write of its value; or the
//! first completed read whose value nobody wrote. [`WriteIndex`] finds the last write of a session to a
//! register below a place. [`Clocks`] has for each operation the row that says what it knows, exactly; a row
//! is given up when nothing later in the order needs it.
//!
//! Operations are named by their places in the list of all operations of a history. Read it in this order:
//! `table`, what the table is; `numbers`, `previous` and `sources`, its parts, with `values` for the last;
//! `build`, which puts these together; `writes`; `clocks`.

mod build;
mod clocks;
mod numbers;
mod previous;
mod sources;
mod table;
mod values;
mod writes;

pub use build::session_table;
pub use clocks::Clocks;
pub use table::SessionTable;
pub use writes::WriteIndex;
