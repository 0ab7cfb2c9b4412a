//! Which registers are atomic: the fault of one that is not, and the order of one that is.
//!
//! What the floor above may rely on: [`order_or_fault`] gives the canonical order of a register that is
//! atomic (Herlihy and Wing, 1990), which is a legal one, with a point for each operation between its call
//! and its reply; and of any other register the fault that the definitions name. [`sweep`] gives that fault
//! alone, and takes no memory. No floor above calls [`order`], the order of a register without fault, or
//! [`is_kept`] and [`zone_of`], which tell a kept write and a zone. [`laws`] says why zones decide.
//!
//! The method is that of Gibbons and Korach (Testing Shared Memories, 1997) for distinct written values.
//! Read it in this order: `register`, a register with what is known of it, `valued`, which asks for an
//! operation's value, and `ahead`, what is known of the events to come; `zone`, `fault` and `inversion`;
//! `reads` (the two faults of single reads) and `pass` (one pass over the events, which also compares zones
//! by their low ends), from which `atomic` answers; then `placed`, `entry`, `walk` (the same pass, which
//! also lists the operations) and `canonical` for the order.
#![tactic(auto)]

mod ahead;
mod atomic;
mod canonical;
mod entry;
mod fault;
mod inversion;
pub mod laws;
mod pass;
mod placed;
mod reads;
mod register;
mod valued;
mod walk;
mod zone;

pub use atomic::sweep;
pub use canonical::{order, order_or_fault};
pub use fault::Fault;
pub use inversion::inversion_of;
pub use placed::Placed;
pub use zone::{Zone, is_kept, zone_of};
