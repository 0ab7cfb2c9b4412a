//! From the bytes of a source to the arena of their history, or the refusal; or to the operations of each
//! register, where operations compare and swap (cas).
//!
//! What the floor above may rely on: [`arena_of`] pulls all the bytes of a source, and gives the arena of
//! their history; or it answers a [`Refusal`]: that of the first faulty line, too long an input, a source
//! that failed, or memory that ran out. Too long an input and a failure go before a faulty line and before
//! memory. A refusal says by its number why there is no report, and which lines are to blame. `OutputFailed`
//! is for the floor above, which has the sink. [`arena_alone`] does the same of bytes in memory, by one
//! thread. [`all_bytes`] gives all the bytes of a source in one piece, or such a refusal, but that of a line.
//!
//! Read it in this order: `refusal` and `wording`; `pulls`, `buffer` and `bytes`, where the bytes come in,
//! and `intake`, where they are read too; `reader`, which reads ahead, and `block`, how much at once;
//! `underway`, which has it do so by turns; and `arena`, which has them all taken in; `alone`; and
//! [`cas_history`], for histories with cas.
#![tactic(auto)]

mod alone;
mod arena;
mod block;
mod buffer;
mod bytes;
pub mod cas_history;
mod intake;
mod pulls;
mod reader;
mod refusal;
mod underway;
mod wording;

pub use alone::arena_alone;
pub use arena::arena_of;
pub use bytes::all_bytes;
pub use refusal::Refusal;
pub use wording::message;
