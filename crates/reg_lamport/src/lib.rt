//! Safe and regular, by Lamport's definitions, for registers with a single writer.
//!
//! What the floor above may rely on: [`single_writer`] tells whether the levels apply to a register,
//! [`read_counts`] how many completed reads each register has to which they apply, [`reads`] lists those of
//! one register by call, and [`first_bad`] gives, of any part of that list, the first read that breaks a
//! level. The laws put the parts together: the first bad read of the whole is that of the first part that
//! has one, and it is the breaking read that was called first. Only `reads` and `read_counts` take memory;
//! the other calls always answer.
//!
//! Read it in this order: `level` and `writer`; `counts`, one pass over all events; `gathering`, one pass
//! over a register's calls, and `read_list`, which makes it; `breaks`, which judges each read; `laws`.
#![tactic(auto)]

mod breaks;
mod counts;
mod gathering;
mod laws;
mod level;
mod read_list;
mod writer;

pub use breaks::first_bad;
pub use counts::{ReadCounts, read_counts};
pub use laws::{cuts_give_the_first_bad, whole_list_decides};
pub use level::Level;
pub use read_list::{ReadList, reads};
pub use writer::single_writer;
