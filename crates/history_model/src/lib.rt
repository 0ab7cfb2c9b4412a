//! What a history means: which ones are accepted, what their operations are, and
//! when a register is atomic, safe or regular.
//!
//! No history is checked here. This crate has the types that an answer speaks of and the small calls that
//! read them, the definitions behind each answer, and laws that hold of every accepted history. Whoever
//! reads `specs/` knows what each verdict and each refusal says; the crates above prove that they give just
//! that.
//!
//! Read the definitions in this order: `Lists`; `Table`, when an event is refused, for all programs;
//! `Events`, what a line of reads and writes says; `Refusals`, the rules of their programs; `History`, the
//! events of an accepted one; `Acts`; `Calls`, from events to operations, for all programs; `Operations`,
//! their times and their order; `Timed`; `Legal` (atomic: Herlihy and Wing, 1990; and weaker guarantees) and
//! `Lamport` (safe and regular, 1986); `Walking`, `Naming` and `OfValue`, in whose words the calls of the
//! crates above answer. `laws` is what these rely on. Read the other code in this order: `ids`, `act`,
//! `operation`, `op`, `event`, `refusal`, `guarantee`.
#![tactic(auto)]

mod act;
mod event;
mod guarantee;
mod ids;
mod laws;
mod op;
mod operation;
mod refusal;

pub use act::Act;
pub use event::{Event, What};
pub use guarantee::Guarantee;
pub use ids::{EvId, Oper, RegId};
pub use laws::{
    accepted_is_history, events_have_operations, initial_is_there, names_are_unique,
    operations_have_events, registers_are_numbered, single_writer_takes_turns, values_are_there,
};
pub use op::Op;
pub use operation::Operation;
pub use refusal::{BuildError, LineRefusal, Reason};
