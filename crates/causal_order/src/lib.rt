//! Whether a history is causal: one order of all its writes, in which each completed read gives the last
//! write of its register that it knows of.
//!
//! What the floors above may rely on: [`decide`] answers with such an order; or with a fault, which is
//! evidence that there is none; or it leaves the question open, and then the operations are so many that
//! they, times the sessions plus 2, are more than 2^25.
//!
//! An operation comes before another because one process called both, because the other gives its value, or
//! because a read that gives the other's value knows of it (Bouajjani, Enea, Guerraoui and Hamza, On
//! Verifying Causal Consistency, POPL 2017). The graph of these is sorted: its cycle is the fault, and its
//! order, begun with the initial writes, is causal. Read it in this order: `session_clocks`, how far each
//! operation knows of each session; `bounds`, how much a decision may take; `decision`, what is answered;
//! `graph`; `learned`, what operations learn of at once; `walk` and `newer`, what reads know; `listing`, the
//! order; `steps` and `knew`, the fault; `deciding`, which puts these together.
#![tactic(auto)]

mod bounds;
mod deciding;
mod decision;
mod graph;
mod knew;
mod learned;
mod listing;
mod newer;
mod session_clocks;
mod steps;
mod walk;

pub use bounds::{MAX_CLOCKS, MAX_EDGES, MAX_MET, MAX_WORK};
pub use deciding::decide;
pub use decision::{CausalFault, CausalStep, Decision, Why};
